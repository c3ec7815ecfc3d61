// Where the whole words of an instruction lie in its bytes.
ghost use Rattle.std.specs.Prelude.{◌≡◌, ◌++◌, ◌↔◌, List, ℕ, Some, None};
ghost use Rattle.ia32_code.specs.declared.spelling.Spelling.{Spelling};
ghost use Rattle.ia32_code.specs.Spells.{Filled, text};
ghost use Rattle.ia32_code.specs.Decoding.{HasFront};
ghost use Rattle.ia32_code.specs.WholeWords.{Within, AtEnd, word_offset, word_offsets};

use crate::operand_form::{Displacement, OperandForm};
use crate::reading::spelling_of;
use crate::row::{ModRm, Trailing};
use crate::spelling::{Spelling, length_of};
use crate::table::encoding_of;

/// How far into an instruction's bytes its whole words begin.
#[derive(Clone, Copy, Debug, PartialEq, Eq, Drop)]
pub struct WholeWords {
    /// The displacement or address of an operand in memory.
    pub within: Option<u8>,
    /// The immediate number, address or distance at the end.
    pub at_end: Option<u8>,
}

/// Where the whole words of the instruction at the front of the bytes lie, if there is one.
pub fn whole_words(bytes: &[u8]) -> Option<WholeWords>
    ensures spelled { (spelling : Spelling) (more : List ℕ) → Filled spelling → bytes.now ≡ text spelling ++ more
        → result ≡ Some (word_offsets spelling) }
    ensures none { (result ≡ None) ↔ (HasFront bytes.now → ⊥) }
{
    match spelling_of(bytes) {
        Ok((spelling, _)) => Some(WholeWords {
            within: offset_within(spelling),
            at_end: offset_at_end(spelling),
        }),
        Err(_) => None,
    }
}

#[tactic(auto, unfolding(crate::specs::WholeWords::whole_word))]
fn offset_within(spelling: Spelling) -> Option<u8>
    ensures { result ≡ word_offset Within spelling }
{
    let encoding = encoding_of(spelling.row);
    let before = 2 + encoding.escaped as u8;
    match encoding.modrm {
        ModRm::Absent => None,
        ModRm::Register | ModRm::Memory | ModRm::Digit(_) => match spelling.form {
            OperandForm::Absolute(_) | OperandForm::Based(_, Displacement::Disp32(_)) => {
                Some(before)
            }
            OperandForm::Unbased(_, _, _)
            | OperandForm::Indexed(_, _, _, Displacement::Disp32(_)) => Some(before + 1),
            _ => None,
        },
    }
}

#[tactic(auto, unfolding(crate::specs::WholeWords::whole_word))]
fn offset_at_end(spelling: Spelling) -> Option<u8>
    ensures { result ≡ word_offset AtEnd spelling }
{
    let length = length_of(spelling);
    match encoding_of(spelling.row).trailing {
        Trailing::Word => Some(length - 4),
        Trailing::Nothing | Trailing::Byte => None,
    }
}
