// The row of a frame: which registers and slots may hold references in a context.
ghost use Rattle.std.specs.Prelude.{◌≡◌, ◌<◌, ◌≤◌, ◌^◌, length, if◌then◌else◌};
ghost use Rattle.tal_types.specs.Kept.{context_of};
ghost use Rattle.tal_checker.specs.Frames.{may_refer, reference_bits, row_in};

use tal_types::{Context, FrameRow, Ty};

/// 1 where a value of the type may refer to an object or an array, else 0.
#[tactic(auto, unfolding(crate::specs::Frames::may_refer))]
fn reference_bit(t: Ty) -> u64
    ensures { result ≡ (if may_refer t then 1 else 0) }
{
    match t {
        Ty::Ref(_) | Ty::Obj(_) | Ty::ArrRef(_) | Ty::Arr(_) => 1,
        Ty::Num | Ty::Fun(_) | Ty::Code(_) | Ty::Tab(_) | Ty::Desc(_) | Ty::Junk => 0,
    }
}

/// A number whose bit i is set where type i may refer.
fn reference_bits(types: &[Ty]) -> u64
    requires { length types.now ≤ 64 }
    ensures value { result ≡ reference_bits types.now }
    ensures small { result < 2 ^ length types.now }
{
    let mut bits = 0;
    let mut at = types.len();
    while at > 0 {
        at -= 1;
        bits = 2 * bits + reference_bit(types[at]);
    }
    bits
}

/// The row of a context.
pub(crate) fn frame_row(context: &Context) -> FrameRow
    ensures { result ≡ row_in (context_of context.now) }
{
    if context.dead {
        return FrameRow {
            regs: 0,
            slots: 0,
            refs: 0,
        };
    }
    FrameRow {
        regs: reference_bits(&context.regs) as u8,
        slots: context.depth,
        refs: reference_bits(context.slots()),
    }
}
