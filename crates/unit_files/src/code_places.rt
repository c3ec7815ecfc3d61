// Where the holes of the code lie, by its bytes.
ghost use Rattle.std.specs.Prelude.{◌≡◌, ◌≤◌, ◌<◌, ◌++◌, List, ℕ, length, take, drop, slice_index, IfOk, OnOk, IfSome, MatchOption};
ghost use Rattle.ia32_code.specs.declared.instruction.Inst.{Inst};
ghost use Rattle.ia32_code.specs.Spells.{Spells};
ghost use Rattle.file_fields.specs.Grammar.{bytes_number};
ghost use Rattle.tal_image.specs.Conditions.{Spelled};
ghost use Rattle.tal_image.specs.Fields.{code_bytes};
ghost use Rattle.unit_files.specs.Conditions.{is_that_place, words_in_text};
ghost use Rattle.unit_files.specs.CodeWords.{byte_by, instruction_bytes, code_table, code_byte_at, AreSpelled};

use ia32_code::{Decoded, WholeWords, decode, whole_words};
use no_memory::NoMemory;
use std::alloc::Global;

/// What is known of a byte of the code: whether a hole begins there, which is a whole word of an instruction that is 0, and
/// whether an instruction begins there that ends with a whole word.
#[derive(Clone, Copy, Debug, PartialEq, Eq)]
pub(crate) struct CodeByte {
    pub hole: bool,
    pub wide: bool,
}

/// Whether a whole word begins at a place.
fn is_place(word: Option<u8>, place: usize) -> bool
    ensures { result ≡ is_that_place word place }
{
    match word {
        Some(begin) => usize::from(begin) == place,
        None => false,
    }
}

/// A byte; it is 0 where there is none.
fn byte_or_zero(bytes: &[u8], place: usize) -> u8
    ensures { result ≡ slice_index bytes.now place }
{
    bytes.get(place).copied().unwrap_or(0)
}

/// The number of the bytes from a place on, of which those that are missing are 0.
fn number_from(text: &[u8], place: usize) -> u32
    requires { place ≤ length text.now }
    ensures { result ≡ bytes_number (take 4 (drop place text.now)) }
{
    let (_, rest) = text.split_at(place);
    u32::from_le_bytes([
        byte_or_zero(rest, 0),
        byte_or_zero(rest, 1),
        byte_or_zero(rest, 2),
        byte_or_zero(rest, 3),
    ])
}

/// What is known of a byte of an instruction whose whole words lie so.
#[tactic(auto, unfolding(crate::specs::CodeWords::byte_by))]
fn byte_by(words: WholeWords, text: &[u8], place: usize) -> CodeByte
    requires { place ≤ length text.now }
    ensures { result ≡ byte_by words text.now place }
{
    let is_word = is_place(words.within, place) || is_place(words.at_end, place);
    CodeByte {
        hole: is_word && number_from(text, place) == 0,
        wide: place == 0 && words.at_end.is_some(),
    }
}

/// Puts what is known of the bytes of an instruction behind others.
fn put_instruction(
    table: &mut Vec<CodeByte>,
    words: WholeWords,
    text: &[u8],
) -> Result<(), NoMemory>
    ensures { OnOk result (table.new.items ≡ table.old.items ++ instruction_bytes words text.now) }
{
    for place in 0..text.len() {
        table.push(byte_by(words, text, place))?;
    }
    Ok(())
}

/// The instruction at the front of bytes, if there is one, and where its whole words lie.
fn first_of(bytes: &[u8]) -> Option<(&[u8], WholeWords)>
    ensures spelled { (text more : List ℕ) (i : Inst) → Spells text i → bytes.now ≡ text ++ more
        → MatchOption result ⊥ (λ one. (one.0.now ≡ text) × (one.1 ≡ words_in_text text)) }
    ensures some { IfSome result (λ one. (0 < length one.0.now) × (length one.0.now ≤ length bytes.now)) }
{
    ia32_code::laws::spellings_are_read();
    let Decoded::One { len, .. } = decode(bytes) else {
        return None;
    };
    let (text, _) = bytes.split_at(len as usize);
    Some((text, whole_words(text)?))
}

/// What is known of each byte of code that is instructions one after another.
pub(crate) fn code_table(alloc: Global, code: &[u8]) -> Result<Vec<CodeByte>, NoMemory>
    ensures { (all : List Spelled) → AreSpelled all → code.now ≡ code_bytes all → IfOk result (λ table. table.items ≡ code_table all) }
{
    let mut table = Vec::new(alloc);
    let mut rest = code;
    while let Some((text, words)) = first_of(rest) {
        put_instruction(&mut table, words, text)?;
        let (_, more) = rest.split_at(text.len());
        rest = more;
    }
    Ok(table)
}

/// What is known of a byte.
pub(crate) fn byte_at(table: &[CodeByte], offset: u32) -> CodeByte
    ensures { result ≡ code_byte_at table.now offset }
{
    table.get(offset as usize).copied().unwrap_or(CodeByte {
        hole: false,
        wide: false,
    })
}
