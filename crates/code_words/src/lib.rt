// The words of instructions, as people read and write them: `mov eax, [ebp-4]` and not its bytes.
//
// `Words` are a mnemonic and the operands behind it. `said` gives the words of an instruction, and `meant` the instruction of
// words: who prints code goes the one way, who reads it the other, over one table. A mnemonic and a register have their
// letters here, and nowhere else. Nothing here allocates.
//
// `said_of` (in specs/) is the table, one equation a form; `meant` is its exact inverse.
#![tactic(auto)]

pub mod laws;
mod meaning;
mod saying;
mod texts;
mod words;

pub use meaning::meant;
pub use saying::said;
pub use texts::register_text;
pub use words::{Mnemonic, OperandWord, OperandWords, Words};
