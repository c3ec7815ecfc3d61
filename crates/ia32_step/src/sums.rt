ghost use Rattle.std.specs.Prelude.{◌≡◌};
ghost use Rattle.ia32_step.specs.Flags.{sign_of};
ghost use Rattle.ia32_step.specs.Sums.{add_of, sub_of, and_of, or_of, xor_of, alu_computed, inc_of, dec_of, neg_of};

use crate::computed::{Computed, flagged, is_negative};
use ia32_code::Alu;
use stack_states::FlagBits;

#[tactic(auto, unfolding(crate::specs::Sums::add_of))]
fn add(a: u32, b: u32) -> Computed
    ensures { result ≡ add_of a b }
{
    let (sum, carry) = a.overflowing_add(b);
    let (_, overflow) = a.cast_signed().overflowing_add(b.cast_signed());
    flagged(sum, carry, overflow)
}

#[tactic(auto, unfolding(crate::specs::Sums::sub_of))]
fn sub(a: u32, b: u32) -> Computed
    ensures { result ≡ sub_of a b }
{
    let (difference, borrow) = a.overflowing_sub(b);
    let (_, overflow) = a.cast_signed().overflowing_sub(b.cast_signed());
    flagged(difference, borrow, overflow)
}

#[tactic(auto, unfolding(crate::specs::Sums::and_of))]
pub(crate) fn and(a: u32, b: u32) -> Computed
    ensures { result ≡ and_of a b }
{
    flagged(a & b, false, false)
}

#[tactic(auto, unfolding(crate::specs::Sums::or_of))]
fn or(a: u32, b: u32) -> Computed
    ensures { result ≡ or_of a b }
{
    flagged(a | b, false, false)
}

#[tactic(auto, unfolding(crate::specs::Sums::xor_of))]
fn xor(a: u32, b: u32) -> Computed
    ensures { result ≡ xor_of a b }
{
    flagged(a ^ b, false, false)
}

/// The operation on two words. What CMP computes is a difference.
pub(crate) fn alu(op: Alu, a: u32, b: u32) -> Computed
    ensures { result ≡ alu_computed op a b }
{
    match op {
        Alu::Add => add(a, b),
        Alu::Or => or(a, b),
        Alu::And => and(a, b),
        Alu::Sub | Alu::Cmp => sub(a, b),
        Alu::Xor => xor(a, b),
    }
}

#[tactic(auto, unfolding(crate::specs::Sums::inc_of))]
pub(crate) fn inc(a: u32, old: FlagBits) -> Computed
    ensures { result ≡ inc_of a old }
{
    let (_, overflow) = a.cast_signed().overflowing_add(1);
    flagged(a.wrapping_add(1), old.carry, overflow)
}

#[tactic(auto, unfolding(crate::specs::Sums::dec_of))]
pub(crate) fn dec(a: u32, old: FlagBits) -> Computed
    ensures { result ≡ dec_of a old }
{
    let (_, overflow) = a.cast_signed().overflowing_sub(1);
    flagged(a.wrapping_sub(1), old.carry, overflow)
}

#[tactic(auto, unfolding(crate::specs::Sums::neg_of))]
pub(crate) fn neg(a: u32) -> Computed
    ensures { result ≡ neg_of a }
{
    flagged(a.wrapping_neg(), a != 0, a == 0x8000_0000)
}

/// A word of copies of the highest bit.
pub(crate) fn sign_of(a: u32) -> u32
    ensures { result ≡ sign_of a }
{
    if is_negative(a) { 0xFFFF_FFFF } else { 0 }
}
