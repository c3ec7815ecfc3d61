// The lines of code.
ghost use Rattle.std.specs.Prelude.{◌≡◌, ◌+◌, ◌*◌, ◌<◌, ◌^◌, ◌++◌, length, OnOk};
ghost use Rattle.std.specs.String.{string_bytes};
ghost use Rattle.hex.specs.Hex.{encode_upper};
ghost use Rattle.tal_listing.specs.Lines.{line_text, code_text};

use crate::words_text::push_inst;
use hex_text::push_word_digits;
use ia32_code::{Decoded, Inst, decode};
use std::alloc::AllocError;

// Appends the line of an instruction whose bytes have these digits.
#[tactic(auto, unfolding(crate::specs::Lines::line_text))]
fn push_line(
    out: &mut String,
    address: u32,
    bytes: &[u8],
    digits: &str,
    inst: &Inst,
) -> Result<(), AllocError>
    requires digits { digits.now ≡ encode_upper bytes.now }
    requires room { address + length bytes.now < 2 ^ 32 }
    ensures { OnOk result (string_bytes out.new ≡ string_bytes out.old
        ++ line_text (record { address = address; bytes = bytes.now; inst = inst.now })) }
{
    push_word_digits(out, address)?;
    out.push_str(" ")?;
    out.push_str(digits)?;
    out.push_str(" ")?;
    push_inst(out, address + bytes.len() as u32, inst)?;
    out.push_str("\n")?;
    Ok(())
}

// Appends the lines of the instructions of a function that begins at an address and whose bytes have these digits.
pub(crate) fn push_code(
    out: &mut String,
    address: u32,
    code: &[u8],
    digits: &str,
) -> Result<(), AllocError>
    requires digits { digits.now ≡ encode_upper code.now }
    requires room { address + length code.now < 2 ^ 32 }
    ensures { OnOk result (string_bytes out.new ≡ string_bytes out.old ++ code_text address code.now) }
{
    let mut at = address;
    let mut rest = code;
    let mut left = digits;
    while let Decoded::One { inst, len } = decode(rest) {
        let (bytes, after) = rest.split_at(len as usize);
        let (spelled, later) = left.split_at(2 * len as usize);
        push_line(out, at, bytes, spelled, &inst)?;
        at += u32::from(len);
        rest = after;
        left = later;
    }
    Ok(())
}
