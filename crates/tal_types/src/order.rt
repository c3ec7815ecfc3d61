ghost use Rattle.std.specs.Prelude.{◌≡◌};
ghost use Rattle.tal_types.specs.Contexts.{same, kind_below, all_sub, every, has_all, context_below, register_type, plain};
ghost use Rattle.tal_types.specs.Kept.{kept_type, pair_in, live_of, context_of};
ghost use Rattle.tal_types.specs.Types.{sub, within};

use crate::contexts::{Annotation, Context};
use crate::types::{FlagKind, Ty};
use ia32_code::Reg;
use object_layout::Shapes;

/// Whether type `t` is below type `u`: whatever has the first has the second, too.
#[tactic(auto, unfolding(crate::specs::Types::sub))]
pub fn sub(shapes: &Shapes, t: Ty, u: Ty) -> bool
    ensures { result ≡ sub shapes.now t u }
{
    match (t, u) {
        (_, Ty::Junk) | (Ty::Num, Ty::Num) => true,
        (Ty::Obj(c), Ty::Obj(d) | Ty::Ref(d))
        | (Ty::Ref(c), Ty::Ref(d))
        | (Ty::Tab(c), Ty::Tab(d)) => within(shapes, c, d),
        (Ty::Arr(k), Ty::Arr(l) | Ty::ArrRef(l))
        | (Ty::ArrRef(k), Ty::ArrRef(l))
        | (Ty::Desc(k), Ty::Desc(l)) => k == l,
        (Ty::Code(g), Ty::Code(h) | Ty::Fun(h)) | (Ty::Fun(g), Ty::Fun(h)) => g == h,
        _ => false,
    }
}

/// Whether class `c` is `d`, or has `d` as an ancestor.
#[tactic(auto, unfolding(crate::specs::Types::within))]
pub fn within(shapes: &Shapes, c: u32, d: u32) -> bool
    ensures { result ≡ within shapes.now c d }
{
    c == d || shapes.below(c, d)
}

/// Whether two lists of types are equally long, and each type is below the other's.
fn all_sub(shapes: &Shapes, ts: &[Ty], us: &[Ty]) -> bool
    ensures { result ≡ all_sub shapes.now ts.now us.now }
{
    if ts.len() != us.len() {
        return false;
    }
    for i in 0..ts.len() {
        if !sub(shapes, ts[i], us[i]) {
            return false;
        }
    }
    true
}

/// Whether two registers are one.
#[tactic(auto, unfolding(crate::specs::Contexts::same))]
pub fn same(r: Reg, q: Reg) -> bool
    ensures { result ≡ same r q }
{
    r == q
}

/// Whether what the first kind tells lets each condition of the second be used.
#[tactic(auto, unfolding(crate::specs::Contexts::kind_below))]
fn kind_below(kind: FlagKind, other: FlagKind) -> bool
    ensures { result ≡ kind_below kind other }
{
    match (kind, other) {
        (_, FlagKind::Lost) => true,
        (
            FlagKind::Eq
            | FlagKind::Num
            | FlagKind::NullTest(_)
            | FlagKind::Bound(_, _)
            | FlagKind::IsA(_, _),
            FlagKind::Eq,
        ) => true,
        (FlagKind::Num | FlagKind::Bound(_, _), FlagKind::Num) => true,
        (FlagKind::NullTest(r), FlagKind::NullTest(q)) => same(r, q),
        (FlagKind::Bound(i, a), FlagKind::Bound(j, b)) => same(i, j) && same(a, b),
        (FlagKind::IsA(r, c), FlagKind::IsA(q, d)) => same(r, q) && c == d,
        _ => false,
    }
}

/// Whether the types of the first registers are below those of the second.
fn registers_below(shapes: &Shapes, a: &[Ty; 8], b: &[Ty; 8]) -> bool
    ensures { result ≡ every (λ r. sub shapes.now (kept_type a.now r) (kept_type b.now r)) }
{
    all_sub(shapes, a, b)
}

/// Whether the first set of pairs of registers has all of the second.
fn has_all(bits: u64, others: u64) -> bool
    ensures { result ≡ has_all (pair_in bits) (pair_in others) }
{
    bits & others == others
}

/// Whether context `a` is below context `b`: what is known in the second is known in the first, too.
#[tactic(auto, unfolding(crate::specs::Contexts::context_below, crate::specs::Contexts::live_below, crate::specs::Kept::context_of))]
pub fn context_below(shapes: &Shapes, a: &Context, b: &Context) -> bool
    ensures { result ≡ context_below shapes.now (context_of a.now) (context_of b.now) }
{
    if a.dead {
        return true;
    }
    if b.dead {
        return false;
    }
    registers_below(shapes, &a.regs, &b.regs)
        && all_sub(shapes, a.slots(), b.slots())
        && kind_below(a.kind, b.kind)
        && has_all(a.pairs, b.pairs)
        && has_all(a.heads, b.heads)
}

/// Whether each register's type is below the one of these, which are of EAX, ECX, EDX, EBX, EBP, ESI and EDI.
#[tactic(auto, unfolding(crate::specs::Contexts::register_type, crate::specs::Types::sub))]
pub fn types_fit(shapes: &Shapes, context: &Context, types: &[Ty; 7]) -> bool
    ensures { result ≡ every (λ r. sub shapes.now ((live_of context.now).regs r) (register_type types.now r)) }
{
    sub(shapes, context.register(Reg::Eax), types[0])
        && sub(shapes, context.register(Reg::Ecx), types[1])
        && sub(shapes, context.register(Reg::Edx), types[2])
        && sub(shapes, context.register(Reg::Ebx), types[3])
        && sub(shapes, context.register(Reg::Ebp), types[4])
        && sub(shapes, context.register(Reg::Esi), types[5])
        && sub(shapes, context.register(Reg::Edi), types[6])
}

/// Whether a context is below types alone.
#[tactic(auto, unfolding(crate::specs::Contexts::context_below, crate::specs::Contexts::live_below, crate::specs::Contexts::plain, crate::specs::Contexts::has_all, crate::specs::Contexts::kind_below, crate::specs::Kept::context_of))]
pub fn below_annotation(shapes: &Shapes, context: &Context, block: &Annotation<'_>) -> bool
    ensures { result ≡ context_below shapes.now (context_of context.now) (plain block.now.types.now block.now.slots.now) }
{
    context.dead
        || types_fit(shapes, context, block.types) && all_sub(shapes, context.slots(), block.slots)
}
