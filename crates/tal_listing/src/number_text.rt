// Numbers as the listing has them.
ghost use Rattle.std.specs.Prelude.{◌≡◌, ◌++◌, OnOk, decimal};
ghost use Rattle.std.specs.String.{string_bytes};
ghost use Rattle.tal_listing.specs.Numbers.{number_text, byte_text};

use hex_text::{push_byte_digits, push_word_digits};
use itoa::Buffer;
use std::alloc::AllocError;

// Appends a word as a number.
pub(crate) fn push_number(out: &mut String, number: u32) -> Result<(), AllocError>
    ensures { OnOk result (string_bytes out.new ≡ string_bytes out.old ++ number_text number) }
{
    out.push_str("0x")?;
    push_word_digits(out, number)?;
    Ok(())
}

// Appends a byte as a number.
pub(crate) fn push_byte(out: &mut String, byte: u8) -> Result<(), AllocError>
    ensures { OnOk result (string_bytes out.new ≡ string_bytes out.old ++ byte_text byte) }
{
    out.push_str("0x")?;
    push_byte_digits(out, byte)?;
    Ok(())
}

// Appends the decimal digits of a number.
pub(crate) fn push_decimal(out: &mut String, number: u32) -> Result<(), AllocError>
    ensures { OnOk result (string_bytes out.new ≡ string_bytes out.old ++ decimal number) }
{
    let mut buffer = Buffer::new();
    out.push_str(buffer.format(number))?;
    Ok(())
}
