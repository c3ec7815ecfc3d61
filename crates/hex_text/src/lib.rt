// Words and bytes as hexadecimal digits in capitals, as every text of the program has them.
//
// `byte_digits` and `word_digits` give the digits, and `push_byte_digits` and `push_word_digits` put them behind a text.
// `word_text` (in specs/) is the eight digits of a word; those of a byte are `encode_upper` of the crate hex.
#![tactic(auto)]

mod digits;
mod pushing;

pub use digits::{byte_digits, word_digits};
pub use pushing::{push_byte_digits, push_word_digits};
