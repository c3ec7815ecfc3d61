ghost use Rattle.std.specs.Prelude.{◌≡◌, ◌++◌, List, ℕ, length};
ghost use Rattle.ia32_code.specs.Spells.{Spells};
ghost use Rattle.ia32_code.specs.Decoding.{IsCut, Answers, decoded};

use crate::instruction::Inst;
use crate::reading::{Stop, spelling_of};
use crate::spelling::meaning_of;

/// What bytes begin with.
#[derive(Clone, Copy, Debug, PartialEq, Eq, Drop)]
pub enum Decoded {
    /// The first `len` bytes spell `inst`.
    One { inst: Inst, len: u8 },
    /// The bytes are a proper prefix of a spelling.
    Short,
    /// No spelling begins with the bytes, and no prefix of them is one.
    Unknown,
}

/// The instruction at the front of the bytes. No byte after it is read.
pub fn decode(bytes: &[u8]) -> Decoded
    ensures answers { Answers bytes.now result }
    ensures spelled { (text more : List ℕ) (inst : Inst) → Spells text inst → bytes.now ≡ text ++ more
        → result ≡ Decoded.One inst (length text) }
    ensures cut { IsCut bytes.now → result ≡ Decoded.Short }
    ensures one { result ≡ decoded bytes.now }
{
    match spelling_of(bytes) {
        Ok((spelling, rest)) => Decoded::One {
            inst: meaning_of(spelling),
            len: (bytes.len() - rest.len()) as u8,
        },
        Err(Stop::Short) => Decoded::Short,
        Err(Stop::Unknown) => Decoded::Unknown,
    }
}
