ghost use Rattle.std.specs.Prelude.{◌≡◌};
ghost use Rattle.ia32_step.specs.Flags.{is_negative, sign_of, flagged};
ghost use Rattle.ia32_step.specs.Sums.{add_of, sub_of, and_of, or_of, xor_of, alu_computed, inc_of, dec_of, neg_of};

use ia32_code::Alu;
use stack_states::FlagBits;

/// The highest bit of a word.
#[inline(always)]
pub(crate) fn is_negative(word: u32) -> bool
    ensures { result ≡ is_negative word }
{
    word >= 0x8000_0000
}

/// A result with its flags, ZF and SF by the result.
#[inline(always)]
pub(crate) fn flagged(value: u32, carry: bool, overflow: bool) -> (u32, FlagBits)
    ensures value { result.0 ≡ (flagged value carry overflow).value }
    ensures flags { result.1 ≡ (flagged value carry overflow).flags }
{
    let flags = FlagBits {
        carry,
        zero: value == 0,
        sign: is_negative(value),
        overflow,
    };
    (value, flags)
}

#[inline(always)]
#[tactic(auto, unfolding(ia32_step::specs::Sums::add_of))]
fn add(a: u32, b: u32) -> (u32, FlagBits)
    ensures value { result.0 ≡ (add_of a b).value }
    ensures flags { result.1 ≡ (add_of a b).flags }
{
    let (sum, carry) = a.overflowing_add(b);
    let (_, overflow) = a.cast_signed().overflowing_add(b.cast_signed());
    flagged(sum, carry, overflow)
}

#[inline(always)]
#[tactic(auto, unfolding(ia32_step::specs::Sums::sub_of))]
fn sub(a: u32, b: u32) -> (u32, FlagBits)
    ensures value { result.0 ≡ (sub_of a b).value }
    ensures flags { result.1 ≡ (sub_of a b).flags }
{
    let (difference, borrow) = a.overflowing_sub(b);
    let (_, overflow) = a.cast_signed().overflowing_sub(b.cast_signed());
    flagged(difference, borrow, overflow)
}

#[inline(always)]
#[tactic(auto, unfolding(ia32_step::specs::Sums::and_of))]
pub(crate) fn and(a: u32, b: u32) -> (u32, FlagBits)
    ensures value { result.0 ≡ (and_of a b).value }
    ensures flags { result.1 ≡ (and_of a b).flags }
{
    flagged(a & b, false, false)
}

#[inline(always)]
#[tactic(auto, unfolding(ia32_step::specs::Sums::or_of))]
fn or(a: u32, b: u32) -> (u32, FlagBits)
    ensures value { result.0 ≡ (or_of a b).value }
    ensures flags { result.1 ≡ (or_of a b).flags }
{
    flagged(a | b, false, false)
}

#[inline(always)]
#[tactic(auto, unfolding(ia32_step::specs::Sums::xor_of))]
fn xor(a: u32, b: u32) -> (u32, FlagBits)
    ensures value { result.0 ≡ (xor_of a b).value }
    ensures flags { result.1 ≡ (xor_of a b).flags }
{
    flagged(a ^ b, false, false)
}

/// The operation on two words. What CMP computes is a difference.
#[inline(always)]
pub(crate) fn alu(op: Alu, a: u32, b: u32) -> (u32, FlagBits)
    ensures value { result.0 ≡ (alu_computed op a b).value }
    ensures flags { result.1 ≡ (alu_computed op a b).flags }
{
    match op {
        Alu::Add => add(a, b),
        Alu::Or => or(a, b),
        Alu::And => and(a, b),
        Alu::Sub | Alu::Cmp => sub(a, b),
        Alu::Xor => xor(a, b),
    }
}

#[inline(always)]
#[tactic(auto, unfolding(ia32_step::specs::Sums::inc_of))]
pub(crate) fn inc(a: u32, old: FlagBits) -> (u32, FlagBits)
    ensures value { result.0 ≡ (inc_of a old).value }
    ensures flags { result.1 ≡ (inc_of a old).flags }
{
    let (_, overflow) = a.cast_signed().overflowing_add(1);
    flagged(a.wrapping_add(1), old.carry, overflow)
}

#[inline(always)]
#[tactic(auto, unfolding(ia32_step::specs::Sums::dec_of))]
pub(crate) fn dec(a: u32, old: FlagBits) -> (u32, FlagBits)
    ensures value { result.0 ≡ (dec_of a old).value }
    ensures flags { result.1 ≡ (dec_of a old).flags }
{
    let (_, overflow) = a.cast_signed().overflowing_sub(1);
    flagged(a.wrapping_sub(1), old.carry, overflow)
}

#[inline(always)]
#[tactic(auto, unfolding(ia32_step::specs::Sums::neg_of))]
pub(crate) fn neg(a: u32) -> (u32, FlagBits)
    ensures value { result.0 ≡ (neg_of a).value }
    ensures flags { result.1 ≡ (neg_of a).flags }
{
    flagged(a.wrapping_neg(), a != 0, a == 0x8000_0000)
}

/// A word of copies of the highest bit.
#[inline(always)]
pub(crate) fn sign_of(a: u32) -> u32
    ensures { result ≡ sign_of a }
{
    if is_negative(a) { 0xFFFF_FFFF } else { 0 }
}
