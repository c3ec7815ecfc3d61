// Instructions as values, as the Intel 64 and IA-32 Architectures Software Developer's Manual, volume 2, has them.
ghost use Rattle.std.specs.Prelude.{◌≡◌, ◌<◌};
ghost use Rattle.ia32_code.specs.OperandForms.{number};
ghost use Rattle.ia32_code.specs.Table.{alu_number, shift_number, cond_number};

/// A general register of 32 bits, in the order of its number, 0 to 7.
#[derive(Clone, Copy, Debug, PartialEq, Eq, Drop)]
pub enum Reg {
    Eax,
    Ecx,
    Edx,
    Ebx,
    Esp,
    Ebp,
    Esi,
    Edi,
}

/// A condition on the flags, by its letters in the manual (Intel SDM vol. 2, Jcc). Parity has none here.
#[derive(Clone, Copy, Debug, PartialEq, Eq, Drop)]
pub enum Cond {
    /// Overflow: OF.
    O,
    /// Not `O`.
    No,
    /// Below, without sign: CF.
    B,
    /// Not `B`.
    Ae,
    /// Equal: ZF.
    E,
    /// Not `E`.
    Ne,
    /// Below or equal: CF or ZF.
    Be,
    /// Not `Be`.
    A,
    /// Negative: SF.
    S,
    /// Not `S`.
    Ns,
    /// Less, with sign: SF is not OF.
    L,
    /// Not `L`.
    Ge,
    /// Less or equal: ZF or `L`.
    Le,
    /// Not `Le`.
    G,
}

/// An operation on two operands that sets the flags. `Cmp` alone keeps its destination.
#[derive(Clone, Copy, Debug, PartialEq, Eq, Drop)]
pub enum Alu {
    Add,
    Or,
    And,
    Sub,
    Xor,
    Cmp,
}

/// A shift: to the left, to the right with zeros, to the right with copies of the sign.
#[derive(Clone, Copy, Debug, PartialEq, Eq, Drop)]
pub enum Shift {
    Shl,
    Shr,
    Sar,
}

/// How far a shift goes: by the byte that is spelled, or by CL.
#[derive(Clone, Copy, Debug, PartialEq, Eq, Drop)]
pub enum Count {
    By(u8),
    Cl,
}

/// An operand in memory: the word at `base + index * 2^scale + disp`, modulo 2^32.
///
/// `scale` is 0 to 3, and 0 where there is no index; ESP is no index. Other values have no spelling.
#[derive(Clone, Copy, Debug, PartialEq, Eq, Drop)]
pub struct Mem {
    pub base: Option<Reg>,
    pub index: Option<Reg>,
    pub scale: u8,
    pub disp: u32,
}

/// What an instruction reads or writes: a register, memory or an immediate number.
#[derive(Clone, Copy, Debug, PartialEq, Eq, Drop)]
pub enum Operand {
    R(Reg),
    M(Mem),
    I(u32),
}

/// An instruction. Not each value has a spelling: `len_of` is 0 where there is none.
///
/// Distances of calls, jumps and branches count from the next instruction. The digit in a name counts the operands that are
/// spelled (Intel SDM vol. 2, IMUL has three forms).
#[derive(Clone, Copy, Debug, PartialEq, Eq, Drop)]
pub enum Inst {
    /// An operation on two operands: `dst` gets the result, but for `Cmp`'s, and the flags are set.
    Alu {
        op: Alu,
        dst: Operand,
        src: Operand,
    },
    /// `dst` gets the word of `src`.
    Mov {
        dst: Operand,
        src: Operand,
    },
    /// `dst` gets the address of `src`. No word is read.
    Lea {
        dst: Operand,
        src: Operand,
    },
    /// The flags of an AND, whose result is dropped.
    Test {
        dst: Operand,
        src: Operand,
    },
    /// One more. CF stays.
    Inc(Operand),
    /// One less. CF stays.
    Dec(Operand),
    /// Each bit turned round. All flags stay.
    Not(Operand),
    /// 0 less the operand.
    Neg(Operand),
    /// EAX times the operand into EDX and EAX, without sign.
    Mul(Operand),
    /// The same with sign.
    Imul1(Operand),
    /// EDX and EAX by the operand, without sign: EAX gets the quotient, EDX the remainder.
    Div(Operand),
    /// The same with sign.
    Idiv(Operand),
    /// `dst` gets the lower word of `dst` times `src`.
    Imul2 {
        dst: Operand,
        src: Operand,
    },
    /// `dst` gets the lower word of `src` times `imm`.
    Imul3 {
        dst: Operand,
        src: Operand,
        imm: u32,
    },
    /// `dst` is shifted.
    Shift {
        op: Shift,
        dst: Operand,
        by: Count,
    },
    /// EDX gets copies of EAX's highest bit.
    Cdq,
    /// Nothing.
    Nop,
    /// The operand's word is put on the stack.
    Push(Operand),
    /// The register gets the word on top of the stack, which is taken off.
    Pop(Reg),
    /// A call by a distance.
    CallRel(i32),
    /// A call of the address in the operand.
    CallAt(Operand),
    /// The return to the address on top of the stack.
    Ret,
    /// A jump by a distance.
    Jmp(i32),
    /// A jump by a distance where the condition holds.
    Jcc(Cond, i32),
    /// An instruction of the system, by its opcode; `arg` is the byte that follows it, or 0 where none does.
    Priv {
        op: u8,
        arg: u8,
    },
}

impl Alu {
    /// The number that stands for the operation, in an opcode or as a digit.
    pub(crate) fn number(self) -> u8
        ensures number { result ≡ alu_number self }
        ensures below { result < 8 }
    {
        match self {
            Alu::Add => 0,
            Alu::Or => 1,
            Alu::And => 4,
            Alu::Sub => 5,
            Alu::Xor => 6,
            Alu::Cmp => 7,
        }
    }
}

impl Shift {
    /// The digit that stands for the operation.
    pub(crate) fn number(self) -> u8
        ensures { result ≡ shift_number self }
    {
        match self {
            Shift::Shl => 4,
            Shift::Shr => 5,
            Shift::Sar => 7,
        }
    }
}

impl Reg {
    /// The number of the register, 0 to 7.
    pub fn number(self) -> u8
        ensures number { result ≡ number self }
        ensures below { result < 8 }
    {
        match self {
            Reg::Eax => 0,
            Reg::Ecx => 1,
            Reg::Edx => 2,
            Reg::Ebx => 3,
            Reg::Esp => 4,
            Reg::Ebp => 5,
            Reg::Esi => 6,
            Reg::Edi => 7,
        }
    }
}

impl Cond {
    /// The number that is added to a branch's opcode.
    pub(crate) fn number(self) -> u8
        ensures number { result ≡ cond_number self }
        ensures below { result < 16 }
    {
        match self {
            Cond::O => 0,
            Cond::No => 1,
            Cond::B => 2,
            Cond::Ae => 3,
            Cond::E => 4,
            Cond::Ne => 5,
            Cond::Be => 6,
            Cond::A => 7,
            Cond::S => 8,
            Cond::Ns => 9,
            Cond::L => 12,
            Cond::Ge => 13,
            Cond::Le => 14,
            Cond::G => 15,
        }
    }
}
