#![tactic(auto, unfolding(crate::specs::Edges::allows, crate::specs::Edges::not_null, crate::specs::Edges::meet, crate::specs::Edges::refine, tal_types::specs::Kept::context_of))]

ghost use Rattle.std.specs.Prelude.{◌≡◌, ◌≢◌, false};
ghost use Rattle.tal_types.specs.Kept.{live_of, context_of};
ghost use Rattle.tal_flow.specs.Edges.{allows, told_by_branch, told_by_fall, not_null, meet_class, meet, refine};

use crate::known::{add_pair, refine_reg, register};
use ia32_code::{Cond, Reg};
use object_layout::Shapes;
use tal_types::{Context, FlagKind, Ty, within};

/// The number of a typing rule, 1 to 17.
#[derive(Clone, Copy, Debug, PartialEq, Eq)]
pub struct Rule(pub u8);

/// Where runs go from an instruction.
#[derive(Clone, Copy, Debug, PartialEq, Eq)]
pub struct Edges {
    /// the target of a jump or branch and what is known there; none where no run takes it
    pub branch: Option<(u32, Context)>,
    /// whether a run may fall through to the next instruction
    pub falls: bool,
}

/// What the way that a branch takes tells of the flags.
#[derive(Clone, Copy, Debug, PartialEq, Eq)]
pub enum Told {
    /// what was compared is equal
    Equal,
    /// what was compared is not equal
    Unequal,
    /// the first number is below the second
    Below,
    /// nothing that typing uses
    Nothing,
}

/// Whether a flag kind allows a condition.
pub(crate) fn allows(kind: FlagKind, condition: Cond) -> bool
    ensures { result ≡ allows kind condition }
{
    match (kind, condition) {
        (FlagKind::Lost, _) => false,
        (FlagKind::Num | FlagKind::Bound(_, _), _) => true,
        (_, Cond::E | Cond::Ne) => true,
        _ => false,
    }
}

/// What the branch tells.
pub(crate) fn told_by_branch(condition: Cond) -> Told
    ensures { result ≡ told_by_branch condition }
{
    match condition {
        Cond::E => Told::Equal,
        Cond::Ne => Told::Unequal,
        Cond::B => Told::Below,
        _ => Told::Nothing,
    }
}

/// What the fall tells.
pub(crate) fn told_by_fall(condition: Cond) -> Told
    ensures { result ≡ told_by_fall condition }
{
    match condition {
        Cond::E => Told::Unequal,
        Cond::Ne => Told::Equal,
        Cond::Ae => Told::Below,
        _ => Told::Nothing,
    }
}

/// The type of a reference that is not null.
fn not_null(t: Ty) -> Ty
    ensures { result ≡ not_null t }
{
    match t {
        Ty::Ref(c) => Ty::Obj(c),
        Ty::ArrRef(k) => Ty::Arr(k),
        Ty::Fun(g) => Ty::Code(g),
        _ => t,
    }
}

/// Of an object of class `k` or below in `r` it is told that it is of class `d` or below.
fn meet_class(shapes: &Shapes, context: &mut Context, r: Reg, k: u32, d: u32)
    requires alive { context.old.dead ≡ false }
    requires register { r ≢ Reg.Esp }
    ensures { context_of context.new ≡ meet_class shapes.now (live_of context.old) r k d }
{
    if within(shapes, k, d) {
        refine_reg(context, r, Ty::Obj(k));
    } else if within(shapes, d, k) {
        refine_reg(context, r, Ty::Obj(d));
    } else {
        context.dead = true;
    }
}

fn meet(shapes: &Shapes, context: &mut Context, r: Reg, d: u32)
    requires { context.old.dead ≡ false }
    ensures { context_of context.new ≡ meet shapes.now (live_of context.old) r ((live_of context.old).regs r) d }
{
    match register(context, r) {
        Ty::Obj(k) | Ty::Ref(k) => meet_class(shapes, context, r, k, d),
        _ => {}
    }
}

/// Turns what is known before a branch into what is known on a way that tells more.
pub(crate) fn refine(shapes: &Shapes, context: &mut Context, told: Told)
    requires { context.old.dead ≡ false }
    ensures { context_of context.new ≡ refine shapes.now (live_of context.old) context.old.kind told }
{
    match (context.kind, told) {
        (FlagKind::NullTest(r), Told::Unequal) => {
            let t = not_null(register(context, r));
            refine_reg(context, r, t);
        }
        (FlagKind::Bound(i, a), Told::Below) => add_pair(context, i, a),
        (FlagKind::IsA(r, d), Told::Equal) => meet(shapes, context, r, d),
        _ => {}
    }
}
