ghost use Rattle.std.specs.Prelude.{◌≡◌, ◌≢◌, ◌+◌, ◌*◌, ◌^◌, pos};
ghost use Rattle.std.specs.Int.{w32, cast_unsigned};
ghost use Rattle.std.specs.Int.RustNames.{FitsSigned};
ghost use Rattle.ia32_step.specs.Flags.{outside};
ghost use Rattle.ia32_step.specs.Products.{quotient_of, div_of, idiv_of};

use crate::products::signed_of;

/// A quotient and a remainder as words.
#[derive(Clone, Copy)]
pub(crate) struct Quotient {
    pub(crate) quotient: u32,
    pub(crate) remainder: u32,
}

/// The number of 64 bits with this upper and this lower word.
fn wide(high: u32, low: u32) -> u64
    ensures { result ≡ high * 2 ^ 32 + low }
{
    high as u64 * 0x1_0000_0000 + low as u64
}

/// The quotient of a dividend of two words; None at the divide error.
#[tactic(auto, unfolding(crate::specs::Products::div_of))]
pub(crate) fn div(high: u32, low: u32, by: u32) -> Option<Quotient>
    ensures { result ≡ div_of high low by }
{
    if by == 0 {
        return None;
    }
    let dividend = wide(high, low);
    let quotient = dividend / by as u64;
    if quotient > 0xFFFF_FFFF {
        return None;
    }
    Some(Quotient {
        quotient: quotient as u32,
        remainder: (dividend % by as u64) as u32,
    })
}

fn is_outside(number: i64) -> bool
    ensures { result ≡ outside number }
{
    number < -0x8000_0000 || number > 0x7FFF_FFFF
}

/// The bits of a number of 32 bits.
fn word_of(number: i64) -> u32
    requires { FitsSigned w32 number }
    ensures { result ≡ cast_unsigned w32 number }
{
    (number as i32).cast_unsigned()
}

fn signed_quotient(dividend: i64, by: i64) -> Option<Quotient>
    requires divisor { by ≢ pos 0 }
    requires fits { FitsSigned w32 by }
    ensures { result ≡ quotient_of dividend by }
{
    let quotient = dividend.checked_div(by)?;
    if is_outside(quotient) {
        return None;
    }
    Some(Quotient {
        quotient: word_of(quotient),
        remainder: word_of(dividend % by),
    })
}

/// The quotient with signs, rounded toward 0; None at the divide error.
#[tactic(auto, unfolding(crate::specs::Products::idiv_of))]
pub(crate) fn idiv(high: u32, low: u32, by: u32) -> Option<Quotient>
    ensures { result ≡ idiv_of high low by }
{
    if by == 0 {
        return None;
    }
    signed_quotient(wide(high, low).cast_signed(), signed_of(by))
}
