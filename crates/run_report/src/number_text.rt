// Numbers behind a text: decimal ones, and words in hexadecimal.
ghost use Rattle.std.specs.Prelude.{◌≡◌, ◌++◌, OnOk, decimal};
ghost use Rattle.std.specs.List.{flat_map};
ghost use Rattle.run_report.specs.Report.{spaced};

use hex_text::word_digits;
use itoa::Buffer;
use std::alloc::AllocError;

// Appends the decimal digits of a number.
pub(crate) fn push_decimal(out: &mut Vec<u8>, number: usize) -> Result<(), AllocError>
    ensures { OnOk result (out.new.items ≡ out.old.items ++ decimal number) }
{
    let mut buffer = Buffer::new();
    out.extend_from_slice(buffer.format(number).as_bytes())
}

// Appends a space and a word.
pub(crate) fn push_spaced(out: &mut Vec<u8>, word: u32) -> Result<(), AllocError>
    ensures { OnOk result (out.new.items ≡ out.old.items ++ spaced word) }
{
    out.push(b' ')?;
    out.extend_from_slice(&word_digits(word))
}

// Appends words, each after a space.
pub(crate) fn push_words(out: &mut Vec<u8>, words: &[u32]) -> Result<(), AllocError>
    ensures { OnOk result (out.new.items ≡ out.old.items ++ flat_map spaced words.now) }
{
    for word in words {
        push_spaced(out, *word)?;
    }
    Ok(())
}
