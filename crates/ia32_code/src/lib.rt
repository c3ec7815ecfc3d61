// The instruction set by itself: a part of Intel's IA-32, as values and as bytes.
//
// `Inst` is an instruction, with its operands. `decode` reads the instruction at the front of bytes, `encode` appends
// its canonical spelling to a `CodeBuf`, and `len_of` tells how long that is. `whole_words` tells where in the bytes of
// an instruction its addresses, displacements and numbers of a whole word lie. Nothing here allocates.
//
// `Spells` (in specs/) relates bytes and instructions by one table of spellings, and `Canonical` picks one of an
// instruction's spellings. `decode` answers what the bytes spell; `encode` and `len_of` go by the canonical one.
#![tactic(auto)]

mod canonical;
mod code_buf;
mod decoding;
mod encoding;
mod instruction;
pub mod laws;
mod opcodes;
mod operand_form;
mod ranges;
mod reading;
mod row;
mod spelling;
mod table;
mod word_offsets;
mod writing;

pub use code_buf::CodeBuf;
pub use decoding::{Decoded, decode};
pub use encoding::{CodeFault, encode, len_of};
pub use instruction::{Alu, Cond, Count, Inst, Mem, Operand, Reg, Shift};
pub use word_offsets::{WholeWords, whole_words};
