ghost use Rattle.std.specs.Prelude.{◌≡◌, ◌/◌, ◌%◌, ◌^◌};
ghost use Rattle.ia32_step.specs.Flags.{cut_off};
ghost use Rattle.ia32_step.specs.Products.{mul_of, imul_of};

use stack_states::FlagBits;

#[inline(always)]
fn cut_off(over: bool, old: FlagBits) -> FlagBits
    ensures { result ≡ cut_off over old }
{
    FlagBits {
        carry: over,
        overflow: over,
        ..old
    }
}

/// The upper and the lower word of a product, and the flags afterwards.
#[inline(always)]
#[tactic(auto, unfolding(ia32_step::specs::Products::mul_of))]
pub(crate) fn mul(a: u32, b: u32, old: FlagBits) -> (u32, u32, FlagBits)
    ensures high { result.0 ≡ (mul_of a b old).high }
    ensures low { result.1 ≡ (mul_of a b old).low }
    ensures flags { result.2 ≡ (mul_of a b old).flags }
{
    let product = a as u64 * b as u64;
    let high = (product >> 32) as u32;
    let low = (product & 0xFFFF_FFFF) as u32;
    (high, low, cut_off(high != 0, old))
}

/// The lower word of a product with signs, and the flags afterwards.
#[inline(always)]
#[tactic(auto, unfolding(ia32_step::specs::Products::imul_of))]
pub(crate) fn imul(a: u32, b: u32, old: FlagBits) -> (u32, FlagBits)
    ensures value { result.0 ≡ (imul_of a b old).value }
    ensures flags { result.1 ≡ (imul_of a b old).flags }
{
    let (_, over) = a.cast_signed().overflowing_mul(b.cast_signed());
    (a.wrapping_mul(b), cut_off(over, old))
}
