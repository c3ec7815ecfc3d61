#![tactic(auto, using(std::proofs::lemmas::Nat::Bits::shr_and_one), unfolding(crate::specs::Afterwards::kind_without, crate::specs::Afterwards::pop_to, tal_types::specs::Kept::pair_in))]

ghost use Rattle.std.specs.Prelude.{◌≡◌, ◌<◌, ◌≤◌, ℕ, ◌+◌, ◌∷◌, ◌&&◌, ◌||◌, false, true, length, drop, slice_set, slice_index_or, slice_get, unwrap_or};
ghost use Rattle.ia32_code.specs.OperandForms.{number};
ghost use Rattle.tal_types.specs.Contexts.{same};
ghost use Rattle.tal_types.specs.Kept.{kept_type, pair_in, live_of};
ghost use Rattle.tal_flow.specs.Afterwards.{kind_without, without, write, with_kind, with_slots, add_head, after_call, pop_to};
ghost use Rattle.tal_flow.specs.Edges.{refine_reg, add_pair};

use ia32_code::Reg;
use tal_types::laws::type_laws;
use tal_types::{Context, FlagKind, Ty, same};

/// For each register the pairs that do not name it: the bits of all others.
const KEPT: [u64; 8] = [
    0xfefefefefefefe00,
    0xfdfdfdfdfdfd00fd,
    0xfbfbfbfbfb00fbfb,
    0xf7f7f7f700f7f7f7,
    0xefefef00efefefef,
    0xdfdf00dfdfdfdfdf,
    0xbf00bfbfbfbfbfbf,
    0x007f7f7f7f7f7f7f,
];

/// The number of a register, as an index.
fn number(r: Reg) -> usize
    ensures value { result ≡ number r }
    ensures below { result < 8 }
{
    usize::from(r.number())
}

/// The type of a register.
pub(crate) fn register(context: &Context, r: Reg) -> Ty
    ensures value { result ≡ (live_of context.now).regs r }
    ensures esp { r ≡ Reg.Esp → result ≡ Ty.Junk }
{
    context.regs[number(r)]
}

/// Whether (r, q) is in a set of pairs of registers.
pub(crate) fn has_pair(bits: u64, r: Reg, q: Reg) -> bool
    ensures { result ≡ pair_in bits r q }
{
    bits >> (8 * number(r) + number(q)) & 1 == 1
}

/// The pairs and (r, q).
fn with_pair(bits: u64, r: Reg, q: Reg) -> u64
    ensures { (i a : Reg) → pair_in result i a ≡ (same i r && same a q || pair_in bits i a) }
{
    type_laws();
    bits | 1 << (8 * number(r) + number(q))
}

/// The pairs that do not name a register.
fn without(bits: u64, r: Reg) -> u64
    ensures { (i a : Reg) → pair_in result i a ≡ without r (pair_in bits) i a }
{
    type_laws();
    bits & KEPT[number(r)]
}

/// The flag kind when a register is written.
fn kind_without(r: Reg, kind: FlagKind) -> FlagKind
    ensures { result ≡ kind_without r kind }
{
    match kind {
        FlagKind::NullTest(q) => if same(q, r) { FlagKind::Eq } else { kind },
        FlagKind::Bound(i, a) => if same(i, r) || same(a, r) {
            FlagKind::Num
        } else {
            kind
        },
        FlagKind::IsA(q, _) => if same(q, r) { FlagKind::Eq } else { kind },
        _ => kind,
    }
}

/// Writes a register with a value of the type.
pub(crate) fn write(context: &mut Context, r: Reg, t: Ty)
    requires { same r Reg.Esp ≡ false }
    ensures known { live_of context.new ≡ write r t (live_of context.old) }
    ensures dead { context.new.dead ≡ context.old.dead }
{
    context.regs[number(r)] = t;
    context.kind = kind_without(r, context.kind);
    context.pairs = without(context.pairs, r);
    context.heads = without(context.heads, r);
}

/// Notes the type of what a register already holds.
pub(crate) fn refine_reg(context: &mut Context, r: Reg, t: Ty)
    requires { r ≡ Reg.Esp → t ≡ Ty.Junk }
    ensures known { live_of context.new ≡ refine_reg r t (live_of context.old) }
    ensures dead { context.new.dead ≡ context.old.dead }
{
    context.regs[number(r)] = t;
}

/// Notes that register `i` is below the length of the array in `a`.
pub(crate) fn add_pair(context: &mut Context, i: Reg, a: Reg)
    ensures known { live_of context.new ≡ add_pair i a (live_of context.old) }
    ensures dead { context.new.dead ≡ context.old.dead }
{
    context.pairs = with_pair(context.pairs, i, a);
}

/// Notes that `t` holds the table of the object in `r`.
pub(crate) fn add_head(context: &mut Context, t: Reg, r: Reg)
    ensures known { live_of context.new ≡ add_head t r (live_of context.old) }
    ensures dead { context.new.dead ≡ context.old.dead }
{
    context.heads = with_pair(context.heads, t, r);
}

pub(crate) fn set_kind(context: &mut Context, kind: FlagKind)
    ensures known { live_of context.new ≡ with_kind kind (live_of context.old) }
    ensures dead { context.new.dead ≡ context.old.dead }
{
    context.kind = kind;
}

/// Gives a slot a new type.
pub(crate) fn set_slot(context: &mut Context, i: u32, t: Ty)
    requires { i < length (live_of context.old).slots }
    ensures known { live_of context.new ≡ with_slots (slice_set (live_of context.old).slots i t) (live_of context.old) }
    ensures dead { context.new.dead ≡ context.old.dead }
{
    context.slots[i as usize] = t;
}

/// A context has room for 64 slots. It computes nothing.
fn all_there(slots: &[Ty; 64])
    ensures { length slots.now ≡ 64 }
{}

/// Moves the slots, so many, one up, and puts a slot of the type before them. Behind them is Junk.
fn shift_up(slots: &mut [Ty; 64], depth: usize, t: Ty)
    requires room { depth < 64 }
    requires junk { (k : ℕ) → depth ≤ k → slice_index_or slots.old k Ty.Junk ≡ Ty.Junk }
    ensures given { length slots.old ≡ 64 }
    ensures long { length slots.new ≡ 64 }
    ensures first { slice_index_or slots.new 0 Ty.Junk ≡ t }
    ensures rest { (k : ℕ) → k < 63 → slice_index_or slots.new (k + 1) Ty.Junk ≡ slice_index_or slots.old k Ty.Junk }
{
    let mut i = depth;
    while i > 0 {
        slots[i] = slots[i - 1];
        i -= 1;
    }
    slots[0] = t;
}

/// Takes the first `n` of the slots, so many, off. Behind them is Junk.
fn shift_down(slots: &mut [Ty; 64], depth: usize, n: usize)
    requires within { depth ≤ 64 }
    requires few { n ≤ depth }
    requires junk { (k : ℕ) → depth ≤ k → slice_index_or slots.old k Ty.Junk ≡ Ty.Junk }
    ensures given { length slots.old ≡ 64 }
    ensures long { length slots.new ≡ 64 }
    ensures rest { (k : ℕ) → slice_index_or slots.new k Ty.Junk ≡ slice_index_or slots.old (k + n) Ty.Junk }
{
    for i in 0..depth {
        slots[i] = if i + n < depth {
            slots[i + n]
        } else {
            Ty::Junk
        };
    }
}

/// Puts a slot of the type before the others.
pub(crate) fn push(context: &mut Context, t: Ty)
    requires { length (live_of context.old).slots < 64 }
    ensures known { live_of context.new ≡ with_slots (t ∷ (live_of context.old).slots) (live_of context.old) }
    ensures dead { context.new.dead ≡ context.old.dead }
{
    all_there(&context.slots);
    shift_up(&mut context.slots, context.depth as usize, t);
    context.depth += 1;
}

/// Takes the first slots off.
pub(crate) fn drop_slots(context: &mut Context, n: u32)
    requires { n ≤ length (live_of context.old).slots }
    ensures known { live_of context.new ≡ with_slots (drop n (live_of context.old).slots) (live_of context.old) }
    ensures dead { context.new.dead ≡ context.old.dead }
{
    shift_down(&mut context.slots, context.depth as usize, n as usize);
    context.depth -= n as u8;
}

/// Pops slot 0 into a register.
pub(crate) fn pop_to(context: &mut Context, r: Reg)
    requires register { same r Reg.Esp ≡ false }
    requires slot { 1 ≤ length (live_of context.old).slots }
    ensures known { live_of context.new ≡ pop_to r (live_of context.old) }
    ensures dead { context.new.dead ≡ context.old.dead }
{
    let t = context.slots[0];
    drop_slots(context, 1);
    write(context, r, t);
}

/// What a call leaves.
pub(crate) fn after_call(context: &mut Context, t: Ty)
    ensures known { live_of context.new ≡ after_call t (live_of context.old) }
    ensures dead { context.new.dead ≡ context.old.dead }
{
    type_laws();
    context.regs = [
        t,
        Ty::Junk,
        Ty::Junk,
        Ty::Junk,
        Ty::Junk,
        Ty::Junk,
        Ty::Junk,
        Ty::Junk,
    ];
    context.kind = FlagKind::Lost;
    context.pairs = 0;
    context.heads = 0;
}
