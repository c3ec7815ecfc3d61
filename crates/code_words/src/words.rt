// What words are made of.
use ia32_code::{Alu, Cond, Mem, Reg, Shift};

/// The first word of an instruction. An operation, a shift and a branch have one for each operation or condition.
#[derive(Clone, Copy, Debug, PartialEq, Eq, Drop)]
pub enum Mnemonic {
    Alu(Alu),
    Mov,
    Lea,
    Test,
    Inc,
    Dec,
    Not,
    Neg,
    Mul,
    Imul,
    Div,
    Idiv,
    Shift(Shift),
    Cdq,
    Nop,
    Push,
    Pop,
    Call,
    Ret,
    Jmp,
    Jcc(Cond),
}

/// One operand, as it is said.
#[derive(Clone, Copy, Debug, PartialEq, Eq, Drop)]
pub enum OperandWord {
    Register(Reg),
    Memory(Mem),
    Number(u32),
    /// CL as the count of a shift.
    Cl,
    /// A place in the code, by its distance from the next instruction.
    Target(i32),
}

/// The operands behind a mnemonic, in their order.
#[derive(Clone, Copy, Debug, PartialEq, Eq, Drop)]
pub enum OperandWords {
    Zero,
    One(OperandWord),
    Two(OperandWord, OperandWord),
    Three(OperandWord, OperandWord, OperandWord),
}

/// The words of an instruction. Not all words mean one: `meant` tells.
#[derive(Clone, Copy, Debug, PartialEq, Eq, Drop)]
pub struct Words {
    pub mnemonic: Mnemonic,
    pub operands: OperandWords,
}
