use crate::instruction::{Alu, Cond, Reg, Shift};

/// A line of the table of spellings, with the register, operation or condition that its opcode holds.
#[derive(Clone, Copy, Drop)]
pub enum Row {
    AluStore(Alu),
    AluLoad(Alu),
    AluEax(Alu),
    AluWord(Alu),
    AluByte(Alu),
    MovStore,
    MovLoad,
    MovLoadEax,
    MovStoreEax,
    MovReg(Reg),
    MovWord,
    Lea,
    TestStore,
    TestEax,
    TestWord,
    IncReg(Reg),
    Inc,
    DecReg(Reg),
    Dec,
    Not,
    Neg,
    Mul,
    Imul1,
    Div,
    Idiv,
    Imul2,
    Imul3Byte,
    Imul3Word,
    ShiftOne(Shift),
    ShiftBy(Shift),
    ShiftCl(Shift),
    Cdq,
    Nop,
    PushReg(Reg),
    PushByte,
    PushWord,
    Push,
    PopReg(Reg),
    CallRel,
    CallAt,
    Ret,
    JmpWord,
    JmpByte,
    JccWord(Cond),
    JccByte(Cond),
    PrivBare(u8),
    PrivByte(u8),
}

/// What stands where the ModRM byte may be.
#[derive(Clone, Copy, Drop)]
pub enum ModRm {
    /// No ModRM byte.
    Absent,
    /// A register and any operand.
    Register,
    /// A register and an operand in memory.
    Memory,
    /// A digit and any operand.
    Digit(u8),
}

/// The number at the end of a spelling.
#[derive(Clone, Copy, Drop)]
pub enum Trailing {
    Nothing,
    Byte,
    Word,
}

/// How a row is spelled, from left to right.
#[derive(Clone, Copy, Drop)]
pub struct Encoding {
    /// Whether the byte 0F comes first.
    pub escaped: bool,
    /// The opcode, with the register, operation or condition that it holds.
    pub opcode: u8,
    pub modrm: ModRm,
    pub trailing: Trailing,
}
