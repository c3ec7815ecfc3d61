ghost use Rattle.std.specs.Prelude.{◌≡◌, ◌<◌, ◌*◌, ◌^◌};
ghost use Rattle.ia32_step.specs.Flags.{bit};
ghost use Rattle.ia32_step.specs.Shifts.{shl_of, shr_of, sar_of, shift_computed};

use crate::computed::{Computed, flagged, is_negative};
use ia32_code::Shift;
use stack_states::FlagBits;

fn bit(word: u32, place: u32) -> bool
    requires { place < 32 }
    ensures { result ≡ bit word place }
{
    (word >> place) & 1 == 1
}

/// The last bit that a shift to the left puts out.
#[tactic(auto, using(crate::proofs::ShiftedOut::bit_out))]
fn last_out(a: u32, by: u32) -> bool
    requires some { 0 < by }
    requires below { by < 32 }
    ensures { result ≡ bit (a * 2 ^ by) 32 }
{
    bit(a, 32 - by)
}

#[tactic(auto, unfolding(crate::specs::Shifts::shl_of))]
fn shl(a: u32, by: u32) -> Computed
    requires some { 0 < by }
    requires below { by < 32 }
    ensures { result ≡ shl_of a by }
{
    let value = a << by;
    let carry = last_out(a, by);
    flagged(value, carry, by == 1 && is_negative(value) != carry)
}

#[tactic(auto, unfolding(crate::specs::Shifts::shr_of))]
fn shr(a: u32, by: u32) -> Computed
    requires some { 0 < by }
    requires below { by < 32 }
    ensures { result ≡ shr_of a by }
{
    flagged(a >> by, bit(a, by - 1), by == 1 && is_negative(a))
}

#[tactic(auto, unfolding(crate::specs::Shifts::sar_of))]
fn sar(a: u32, by: u32) -> Computed
    requires some { 0 < by }
    requires below { by < 32 }
    ensures { result ≡ sar_of a by }
{
    let value = (a.cast_signed() >> by).cast_unsigned();
    flagged(value, bit(a, by - 1), false)
}

/// The shift of a word by a count, which is taken modulo 32. A count of 0 leaves the flags.
pub(crate) fn shift(op: Shift, a: u32, count: u32, old: FlagBits) -> Computed
    ensures { result ≡ shift_computed op a count old }
{
    let by = count % 32;
    if by == 0 {
        return Computed {
            value: a,
            flags: old,
        };
    }
    match op {
        Shift::Shl => shl(a, by),
        Shift::Shr => shr(a, by),
        Shift::Sar => sar(a, by),
    }
}
