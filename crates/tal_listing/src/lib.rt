// The listing of an image: its code as people read it, with the bytes.
//
// `listing` writes each function under a line with its number and its signature, and each instruction in a line of its own:
// the address, the bytes, the words.
//
// `ListText` (in specs/) is the text, by tables: `Lines` has the lines of code, `Words` the words of an instruction, which
// are those of `code_words`. The module `laws` says what a line tells.
#![tactic(auto)]

mod functions;
pub mod laws;
mod lines;
mod number_text;
mod words_text;

pub use functions::listing;
