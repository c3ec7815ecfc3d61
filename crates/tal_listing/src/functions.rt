ghost use Rattle.std.specs.Prelude.{◌≡◌, ◌+◌, ◌-◌, ◌≤◌, ◌++◌, length, OnOk, IfOk};
ghost use Rattle.std.specs.String.{string_bytes};
ghost use Rattle.hex.specs.Hex.{encode_upper};
ghost use Rattle.tal_listing.specs.Listing.{function_head_text, size, ListText};
ghost use Rattle.tal_listing.specs.Lines.{code_text};

use crate::lines::push_code;
use crate::number_text::push_decimal;
use no_memory::NoMemory;
use std::alloc::{AllocError, Global};
use tal_image::Image;
use tal_types::Span;

// Appends the line over a function.
fn push_head(out: &mut String, number: u32, sig: u32) -> Result<(), AllocError>
    ensures { OnOk result (string_bytes out.new ≡ string_bytes out.old ++ function_head_text number sig) }
{
    out.push_str("func ")?;
    push_decimal(out, number)?;
    out.push_str(" sig ")?;
    push_decimal(out, sig)?;
    out.push_str("\n")?;
    Ok(())
}

// Appends a function, which has these bytes.
fn push_function(
    out: &mut String,
    number: u32,
    function: Span,
    code: &[u8],
    digits: &str,
) -> Result<(), AllocError>
    requires forward { function.start ≤ function.end }
    requires whole { length code.now ≡ size function }
    requires digits { digits.now ≡ encode_upper code.now }
    ensures { OnOk result (string_bytes out.new ≡ string_bytes out.old
        ++ (function_head_text number function.sig ++ code_text function.start code.now)) }
{
    push_head(out, number, function.sig)?;
    // The function's end is an address, so those of its instructions do not wrap.
    let _end = function.end;
    push_code(out, function.start, code, digits)?;
    Ok(())
}

// Appends the functions of an image whose code has these digits.
fn push_functions(out: &mut String, image: &Image, digits: &str) -> Result<(), AllocError>
    requires { digits.now ≡ encode_upper image.now.code }
    ensures { OnOk result (string_bytes out.new ≡ string_bytes out.old ++ ListText image.now) }
{
    image.formed();
    let mut rest = image.code();
    let mut left = digits;
    let mut number = 0;
    while let Some(function) = image.function(number) {
        let size = (function.end - function.start) as usize;
        let (code, after) = rest.split_at(size);
        let (spelled, later) = left.split_at(2 * size);
        push_function(out, number, function, code, spelled)?;
        rest = after;
        left = later;
        number += 1;
    }
    Ok(())
}

/// The listing of an image: each function under its line, and each instruction with its address and its bytes.
///
/// After `NoMemory` there is no text.
pub fn listing(alloc: Global, image: &Image) -> Result<String, NoMemory>
    ensures { IfOk result (λ text. string_bytes text ≡ ListText image.now) }
{
    let digits = hex::encode_upper(alloc, image.code())?;
    let mut out = String::new(alloc);
    push_functions(&mut out, image, &digits)?;
    Ok(out)
}
