// The tokens of assembly text.
//
// `Tokens` reads the tokens of one line from left to right, each once and on demand, so that no list of them is kept. A
// token is a word with a meaning of its own (`Keyword`, a register, a mnemonic), a name, a number, a mark, bytes that are no
// token, or the line's end. `word_at` tells whether letters are a word or a name, by one table.
//
// `line_tokens` (in specs/) is the list of a line's tokens with their columns; `Tokens` is seen as that list and what of it
// is still to be read.
#![tactic(auto)]

mod bytes;
pub mod laws;
mod lexing;
mod numbers;
mod pieces;
mod token;
mod tokens;
mod words;

pub use token::{Keyword, Token};
pub use tokens::Tokens;
pub use words::{Word, word_at};
