// From instructions to words.
ghost use Rattle.std.specs.Prelude.{◌≡◌};
ghost use Rattle.code_words.specs.Saying.{said_of, operand_word, count_word};

use crate::words::{Mnemonic, OperandWord, OperandWords, Words};
use ia32_code::{Count, Inst, Operand};

// An operand of an instruction.
fn operand_word(operand: Operand) -> OperandWord
    ensures { result ≡ operand_word operand }
{
    match operand {
        Operand::R(reg) => OperandWord::Register(reg),
        Operand::M(mem) => OperandWord::Memory(mem),
        Operand::I(number) => OperandWord::Number(number),
    }
}

// The count of a shift.
fn count_word(count: Count) -> OperandWord
    ensures { result ≡ count_word count }
{
    match count {
        Count::By(number) => OperandWord::Number(number as u32),
        Count::Cl => OperandWord::Cl,
    }
}

// One operand.
fn one(x: Operand) -> OperandWords
    ensures { result ≡ OperandWords.One (operand_word x) }
{
    OperandWords::One(operand_word(x))
}

// Two operands, the destination first.
fn two(dst: Operand, src: Operand) -> OperandWords
    ensures { result ≡ OperandWords.Two (operand_word dst) (operand_word src) }
{
    OperandWords::Two(operand_word(dst), operand_word(src))
}

// A place in the code.
fn target(distance: i32) -> OperandWords
    ensures { result ≡ OperandWords.One (OperandWord.Target distance) }
{
    OperandWords::One(OperandWord::Target(distance))
}

/// The words of an instruction. Those of the system alone, `Inst::Priv`, have none.
#[tactic(auto, unfolding(crate::specs::Saying::said_of))]
pub fn said(inst: &Inst) -> Option<Words>
    ensures { result ≡ said_of inst.now }
{
    let (mnemonic, operands) = match *inst {
        Inst::Alu { op, dst, src } => (Mnemonic::Alu(op), two(dst, src)),
        Inst::Mov { dst, src } => (Mnemonic::Mov, two(dst, src)),
        Inst::Lea { dst, src } => (Mnemonic::Lea, two(dst, src)),
        Inst::Test { dst, src } => (Mnemonic::Test, two(dst, src)),
        Inst::Inc(x) => (Mnemonic::Inc, one(x)),
        Inst::Dec(x) => (Mnemonic::Dec, one(x)),
        Inst::Not(x) => (Mnemonic::Not, one(x)),
        Inst::Neg(x) => (Mnemonic::Neg, one(x)),
        Inst::Mul(x) => (Mnemonic::Mul, one(x)),
        Inst::Imul1(x) => (Mnemonic::Imul, one(x)),
        Inst::Div(x) => (Mnemonic::Div, one(x)),
        Inst::Idiv(x) => (Mnemonic::Idiv, one(x)),
        Inst::Imul2 { dst, src } => (Mnemonic::Imul, two(dst, src)),
        Inst::Imul3 { dst, src, imm } => (
            Mnemonic::Imul,
            OperandWords::Three(
                operand_word(dst),
                operand_word(src),
                OperandWord::Number(imm),
            ),
        ),
        Inst::Shift { op, dst, by } => (
            Mnemonic::Shift(op),
            OperandWords::Two(operand_word(dst), count_word(by)),
        ),
        Inst::Cdq => (Mnemonic::Cdq, OperandWords::Zero),
        Inst::Nop => (Mnemonic::Nop, OperandWords::Zero),
        Inst::Push(x) => (Mnemonic::Push, one(x)),
        Inst::Pop(reg) => (Mnemonic::Pop, OperandWords::One(OperandWord::Register(reg))),
        Inst::CallRel(distance) => (Mnemonic::Call, target(distance)),
        Inst::CallAt(x) => (Mnemonic::Call, one(x)),
        Inst::Ret => (Mnemonic::Ret, OperandWords::Zero),
        Inst::Jmp(distance) => (Mnemonic::Jmp, target(distance)),
        Inst::Jcc(cond, distance) => (Mnemonic::Jcc(cond), target(distance)),
        Inst::Priv { .. } => return None,
    };
    Some(Words { mnemonic, operands })
}
