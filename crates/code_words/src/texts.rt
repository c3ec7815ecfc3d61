// The letters of mnemonics and registers.
ghost use Rattle.std.specs.Prelude.{◌≡◌};
ghost use Rattle.code_words.specs.Texts.{register_text, alu_text, shift_text, branch_text, mnemonic_text};

use crate::words::Mnemonic;
use ia32_code::{Alu, Cond, Reg, Shift};

/// A register's name, in small letters.
pub fn register_text(reg: Reg) -> &'static str
    ensures { result.now ≡ register_text reg }
{
    match reg {
        Reg::Eax => "eax",
        Reg::Ecx => "ecx",
        Reg::Edx => "edx",
        Reg::Ebx => "ebx",
        Reg::Esp => "esp",
        Reg::Ebp => "ebp",
        Reg::Esi => "esi",
        Reg::Edi => "edi",
    }
}

// The mnemonic of an operation.
fn alu_text(op: Alu) -> &'static str
    ensures { result.now ≡ alu_text op }
{
    match op {
        Alu::Add => "add",
        Alu::Or => "or",
        Alu::And => "and",
        Alu::Sub => "sub",
        Alu::Xor => "xor",
        Alu::Cmp => "cmp",
    }
}

// The mnemonic of a shift.
fn shift_text(op: Shift) -> &'static str
    ensures { result.now ≡ shift_text op }
{
    match op {
        Shift::Shl => "shl",
        Shift::Shr => "shr",
        Shift::Sar => "sar",
    }
}

// The mnemonic of a jump where a condition holds.
fn branch_text(cond: Cond) -> &'static str
    ensures { result.now ≡ branch_text cond }
{
    match cond {
        Cond::O => "jo",
        Cond::No => "jno",
        Cond::B => "jb",
        Cond::Ae => "jae",
        Cond::E => "je",
        Cond::Ne => "jne",
        Cond::Be => "jbe",
        Cond::A => "ja",
        Cond::S => "js",
        Cond::Ns => "jns",
        Cond::L => "jl",
        Cond::Ge => "jge",
        Cond::Le => "jle",
        Cond::G => "jg",
    }
}

impl Mnemonic {
    /// The letters of the mnemonic, as the manual has them, in small ones.
    pub fn text(self) -> &'static str
        ensures { result.now ≡ mnemonic_text self }
    {
        match self {
            Mnemonic::Alu(op) => alu_text(op),
            Mnemonic::Mov => "mov",
            Mnemonic::Lea => "lea",
            Mnemonic::Test => "test",
            Mnemonic::Inc => "inc",
            Mnemonic::Dec => "dec",
            Mnemonic::Not => "not",
            Mnemonic::Neg => "neg",
            Mnemonic::Mul => "mul",
            Mnemonic::Imul => "imul",
            Mnemonic::Div => "div",
            Mnemonic::Idiv => "idiv",
            Mnemonic::Shift(op) => shift_text(op),
            Mnemonic::Cdq => "cdq",
            Mnemonic::Nop => "nop",
            Mnemonic::Push => "push",
            Mnemonic::Pop => "pop",
            Mnemonic::Call => "call",
            Mnemonic::Ret => "ret",
            Mnemonic::Jmp => "jmp",
            Mnemonic::Jcc(cond) => branch_text(cond),
        }
    }
}
