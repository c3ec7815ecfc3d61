ghost use Rattle.std.specs.Prelude.{◌≡◌, ◌/◌, ◌%◌, ◌^◌, ◌*ℤ◌};
ghost use Rattle.std.specs.Int.{w32};
ghost use Rattle.std.specs.Int.RustNames.{FitsSigned};
ghost use Rattle.ia32_step.specs.Flags.{signed, cut_off};
ghost use Rattle.ia32_step.specs.Products.{mul_of, imul_wide_of, imul_of};

use crate::computed::Computed;
use crate::sums::sign_of;
use stack_states::FlagBits;

/// The upper and the lower word of a product, and the flags afterwards.
#[derive(Clone, Copy)]
pub(crate) struct Product {
    pub(crate) high: u32,
    pub(crate) low: u32,
    pub(crate) flags: FlagBits,
}

fn cut_off(over: bool, old: FlagBits) -> FlagBits
    ensures { result ≡ cut_off over old }
{
    FlagBits {
        carry: over,
        overflow: over,
        ..old
    }
}

/// The upper and the lower word of a number of 64 bits.
fn halves(number: u64) -> (u32, u32)
    ensures upper { result.0 ≡ number / 2 ^ 32 }
    ensures lower { result.1 ≡ number % 2 ^ 32 }
{
    ((number >> 32) as u32, (number & 0xFFFF_FFFF) as u32)
}

#[tactic(auto, unfolding(crate::specs::Products::mul_of))]
pub(crate) fn mul(a: u32, b: u32, old: FlagBits) -> Product
    ensures { result ≡ mul_of a b old }
{
    let (high, low) = halves(a as u64 * b as u64);
    Product {
        high,
        low,
        flags: cut_off(high != 0, old),
    }
}

/// The word as a number with a sign.
pub(crate) fn signed_of(word: u32) -> i64
    ensures value { result ≡ signed word }
    ensures fits { FitsSigned w32 result }
{
    word.cast_signed() as i64
}

#[tactic(auto, using(crate::proofs::SignedProducts::product_fits))]
fn signed_product(a: u32, b: u32) -> i64
    ensures { result ≡ signed a *ℤ signed b }
{
    signed_of(a) * signed_of(b)
}

#[tactic(auto, unfolding(crate::specs::Products::imul_wide_of))]
pub(crate) fn imul_wide(a: u32, b: u32, old: FlagBits) -> Product
    ensures { result ≡ imul_wide_of a b old }
{
    let (high, low) = halves(signed_product(a, b).cast_unsigned());
    Product {
        high,
        low,
        flags: cut_off(high != sign_of(low), old),
    }
}

/// The lower word of a product with signs.
#[tactic(auto, unfolding(crate::specs::Products::imul_of))]
pub(crate) fn imul(a: u32, b: u32, old: FlagBits) -> Computed
    ensures { result ≡ imul_of a b old }
{
    let (product, over) = a.cast_signed().overflowing_mul(b.cast_signed());
    Computed {
        value: product.cast_unsigned(),
        flags: cut_off(over, old),
    }
}
