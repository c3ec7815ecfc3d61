// Digits behind a text.
ghost use Rattle.std.specs.Prelude.{◌≡◌, ◌++◌, [], ◌∷◌, OnOk};
ghost use Rattle.std.specs.String.{string_bytes};
ghost use Rattle.hex.specs.Hex.{encode_upper};
ghost use Rattle.hex_text.specs.Words.{word_text};

use crate::digits::hex_digit;
use std::alloc::AllocError;

/// Appends the two digits of a byte.
pub fn push_byte_digits(out: &mut String, byte: u8) -> Result<(), AllocError>
    ensures { OnOk result (string_bytes out.new ≡ string_bytes out.old ++ encode_upper (byte ∷ [])) }
{
    out.push(hex_digit(byte / 16) as char)?;
    out.push(hex_digit(byte % 16) as char)?;
    Ok(())
}

/// Appends the eight digits of a word.
pub fn push_word_digits(out: &mut String, word: u32) -> Result<(), AllocError>
    ensures { OnOk result (string_bytes out.new ≡ string_bytes out.old ++ word_text word) }
{
    let [first, second, third, last] = word.to_be_bytes();
    push_byte_digits(out, first)?;
    push_byte_digits(out, second)?;
    push_byte_digits(out, third)?;
    push_byte_digits(out, last)?;
    Ok(())
}
