#![tactic(auto, unfolding(crate::specs::Afterwards::store, crate::specs::Afterwards::note_head, crate::specs::Afterwards::write_high, crate::specs::Afterwards::give_kind, crate::specs::Afterwards::slots_in, crate::specs::Places::spares_esp, crate::specs::Rules::may_drop, tal_types::specs::Contexts::same))]

ghost use Rattle.std.specs.Prelude.{◌≡◌, ℕ, ◌<◌, true, Some, None, length, drop, unwrap_or};
ghost use Rattle.tal_types.specs.Kept.{live_of};
ghost use Rattle.tal_flow.specs.Afterwards.{store_place, store, note_head, write_high, give_kind, slots_in, with_kind, with_slots, left_by, IsResolved, StoresResolved};
ghost use Rattle.tal_flow.specs.Trials.{first_failing};
ghost use Rattle.tal_flow.specs.Rules.{operand_trials, may_drop};

use crate::calls::result_of;
use crate::known::{add_head, after_call, drop_slots, pop_to, push, set_kind, set_slot, write};
use crate::operands::Resolved;
use crate::places::Place;
use crate::seen::Seen;
use ia32_code::{Operand, Reg};
use object_layout::areas::word_index;
use tal_types::{Context, FlagKind, Ty, same};

/// Stores a value of the type at a place: a slot takes the type.
fn store_place(context: &mut Context, place: Option<Place>, t: Ty)
    requires { (i : ℕ) → place ≡ Some (Place.Slot i) → i < length (live_of context.old).slots }
    ensures known { live_of context.new ≡ store_place place t (live_of context.old) }
    ensures dead { context.new.dead ≡ context.old.dead }
{
    if let Some(Place::Slot(i)) = place {
        set_slot(context, i, t);
    }
}

/// Stores a value of the type in an operand, which is not ESP.
fn store(context: &mut Context, d: &Resolved, t: Ty)
    requires spared { d.now.spares_esp ≡ true }
    requires resolved { IsResolved (live_of context.old) d.now }
    ensures known { live_of context.new ≡ store d.now t (live_of context.old) }
    ensures dead { context.new.dead ≡ context.old.dead }
{
    match d.operand {
        Operand::R(r) => write(context, r, t),
        Operand::M(_) => store_place(context, d.place, t),
        Operand::I(_) => {}
    }
}

/// Notes the head that a MOV has read.
fn note_head(context: &mut Context, d: &Operand, place: Option<Place>)
    ensures known { live_of context.new ≡ note_head d.now place (live_of context.old) }
    ensures dead { context.new.dead ≡ context.old.dead }
{
    if let (Operand::R(r), Some(Place::Head(b, _))) = (d, place) {
        if !same(b, *r) {
            add_head(context, *r, b);
        }
    }
}

/// Writes the upper half of a wide result into EDX.
fn write_high(context: &mut Context, wide: bool)
    ensures known { live_of context.new ≡ write_high wide (live_of context.old) }
    ensures dead { context.new.dead ≡ context.old.dead }
{
    if wide {
        write(context, Reg::Edx, Ty::Num);
    }
}

/// Gives the flags a kind, where the instruction gives one.
fn give_kind(context: &mut Context, kind: Option<FlagKind>)
    ensures known { live_of context.new ≡ give_kind kind (live_of context.old) }
    ensures dead { context.new.dead ≡ context.old.dead }
{
    if let Some(k) = kind {
        set_kind(context, k);
    }
}

/// What a computation leaves.
fn compute(context: &mut Context, d: &Resolved, wide: bool, kind: Option<FlagKind>)
    requires spared { d.now.spares_esp ≡ true }
    requires resolved { IsResolved (live_of context.old) d.now }
    ensures known { live_of context.new ≡ give_kind kind (write_high wide (store d.now Ty.Num (live_of context.old))) }
    ensures dead { context.new.dead ≡ context.old.dead }
{
    store(context, d, Ty::Num);
    write_high(context, wide);
    give_kind(context, kind);
}

/// What a MOV leaves.
fn move_to(context: &mut Context, d: &Resolved, x: &Resolved)
    requires spared { d.now.spares_esp ≡ true }
    requires resolved { IsResolved (live_of context.old) d.now }
    ensures known { live_of context.new ≡ note_head d.now.operand x.now.place (store d.now x.now.ty (live_of context.old)) }
    ensures dead { context.new.dead ≡ context.old.dead }
{
    store(context, d, x.ty);
    note_head(context, &d.operand, x.place);
}

/// Whether so many slots are there as a number of bytes has.
pub(crate) fn may_drop(context: &Context, bytes: u32) -> bool
    ensures { result ≡ may_drop (live_of context.now) bytes }
{
    match word_index(0, bytes) {
        Some(n) => n as usize <= context.slots().len(),
        None => false,
    }
}

/// Takes off as many slots as a number of bytes has, where they are there.
fn drop_bytes(context: &mut Context, bytes: u32)
    requires { may_drop (live_of context.old) bytes ≡ true }
    ensures known { live_of context.new ≡ with_kind FlagKind.Lost (with_slots (drop (unwrap_or (slots_in bytes) 0) (live_of context.old).slots) (live_of context.old)) }
    ensures dead { context.new.dead ≡ context.old.dead }
{
    if let Some(n) = word_index(0, bytes) {
        drop_slots(context, n);
    }
    set_kind(context, FlagKind::Lost);
}

/// Turns what is known before an instruction, none of whose rules 1 to 15 fails, into what is known
/// where it falls through.
pub(crate) fn step(context: &mut Context, seen: &Seen)
    requires rules { first_failing (operand_trials (live_of context.old) seen.now) ≡ None }
    requires stored { StoresResolved (live_of context.old) seen.now }
    ensures known { live_of context.new ≡ left_by seen.now (live_of context.old) }
    ensures dead { context.new.dead ≡ context.old.dead }
{
    match seen {
        Seen::Compute {
            destination,
            wide,
            kind,
            ..
        } => compute(context, destination, *wide, *kind),
        Seen::Move(d, x, _) => move_to(context, d, x),
        Seen::Address(r, _) => write(context, *r, Ty::Num),
        Seen::Compare(_, _, kind) | Seen::TestBits(_, _, kind) => {
            set_kind(context, kind.unwrap_or(FlagKind::Lost));
        }
        Seen::PushOf(x) => push(context, x.ty),
        Seen::PopTo(r) => pop_to(context, *r),
        Seen::DropSlots(bytes, _) => drop_bytes(context, *bytes),
        Seen::CallTo(called) | Seen::CallBy(_, called) => after_call(context, result_of(*called)),
        Seen::Refused | Seen::Return(_) | Seen::Jump(_) | Seen::Branch(_, _) | Seen::Nothing => {}
    }
}
