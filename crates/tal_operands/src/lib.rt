// The operands of a module's instructions: names become numbers, addresses, or holes that are left to the linker.
//
// `instruction_of` gives the instruction that a line of code means, with the words in it that are left open (`Hole`), the mark of
// its immediate number (`Sense`), and what is wrong with its operands. Nothing here allocates.
//
// `operand_of` (in specs/) is the table of operands, a row each, `with_term` that of the terms of an address; `instruction_of`
// puts them together with the words of instructions.
#![tactic(auto)]

mod addresses;
mod instructions;
mod operands;

pub use addresses::Address;
pub use instructions::{Instruction, instruction_of};
pub use operands::{Hole, Operand, OperandFaults, Sense};
