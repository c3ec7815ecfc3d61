// Whether letters are a name.
ghost use Rattle.std.specs.Prelude.{◌≡◌};
ghost use Rattle.std.specs.List.{list_all};
ghost use Rattle.text_tokens.specs.Bytes.{is_letter, is_name_byte};
ghost use Rattle.unit_files.specs.Conditions.{is_name};

use text_tokens::word_at;

/// A letter of a name: also `_` is one.
fn is_letter(byte: u8) -> bool
    ensures { result ≡ is_letter byte }
{
    b'a' <= byte && byte <= b'z' || b'A' <= byte && byte <= b'Z' || byte == b'_'
}

/// What stands in a name behind its first letter.
fn is_name_byte(byte: u8) -> bool
    ensures { result ≡ is_name_byte byte }
{
    is_letter(byte) || b'0' <= byte && byte <= b'9'
}

/// Whether all bytes may stand in a name.
fn are_name_bytes(letters: &[u8]) -> bool
    ensures { result ≡ list_all is_name_byte letters.now }
{
    letters.iter().all(|byte| is_name_byte(*byte))
}

/// Whether the letters are a name: a letter, then letters and digits, and no word of assembly text.
#[tactic(auto, unfolding(crate::specs::Conditions::is_name))]
pub(crate) fn is_name(letters: &[u8]) -> bool
    ensures { result ≡ is_name letters.now }
{
    let first = letters.first().copied().unwrap_or(0);
    is_letter(first) && are_name_bytes(letters) && word_at(letters).is_none()
}
