ghost use Rattle.std.specs.Prelude.{◌≡◌};
ghost use Rattle.tal_types.specs.Kept.{live_of};
ghost use Rattle.tal_flow.specs.Rows.{family, has_null, is_zero, marked_class, length_base, has_depth, first_head, class_test, display_row, bound_kind, null_kind, compare_row, compare_kind, same_register, test_row, test_kind};

use crate::known::has_pair;
use crate::operands::{Resolved, is_num};
use crate::places::Place;
use ia32_code::{Operand, Reg};
use object_layout::Shapes;
use tal_types::{Context, FlagKind, Ty, same};

/// What CMP and TEST ask of a type.
#[derive(Clone, Copy, Debug, PartialEq, Eq)]
pub enum Family {
    Numbers,
    /// references to objects
    Objects,
    /// references to arrays
    Arrays,
    /// references to functions
    Routines,
    Others,
}

fn family_of(t: Ty) -> Family
    ensures { result ≡ family t }
{
    match t {
        Ty::Num => Family::Numbers,
        Ty::Ref(_) | Ty::Obj(_) => Family::Objects,
        Ty::ArrRef(_) | Ty::Arr(_) => Family::Arrays,
        Ty::Fun(_) | Ty::Code(_) => Family::Routines,
        _ => Family::Others,
    }
}

fn has_null(family: Family) -> bool
    ensures { result ≡ has_null family }
{
    match family {
        Family::Objects | Family::Arrays | Family::Routines => true,
        _ => false,
    }
}

/// Whether an operand of the type is the number 0. A marked immediate is no number.
fn is_zero(x: &Operand, t: Ty) -> bool
    ensures { result ≡ is_zero x.now t }
{
    match x {
        Operand::I(n) => *n == 0 && is_num(t),
        _ => false,
    }
}

/// The class that an immediate of the type is marked with.
fn marked_class(x: &Operand, t: Ty) -> Option<u32>
    ensures { result ≡ marked_class x.now t }
{
    match (x, t) {
        (Operand::I(_), Ty::Tab(c)) => Some(c),
        _ => None,
    }
}

/// The register of the array whose length an operand at the place is.
fn length_base(x: &Operand, place: Option<Place>) -> Option<Reg>
    ensures { result ≡ length_base x.now place }
{
    match (x, place) {
        (Operand::M(m), Some(Place::Length)) => m.base,
        _ => None,
    }
}

/// Whether there is class `c`, and its depth is `k`.
fn has_depth(shapes: &Shapes, c: u32, k: u32) -> bool
    ensures { result ≡ has_depth shapes.now c k }
{
    match shapes.table_word(c, 1) {
        Some(depth) => depth == k,
        None => false,
    }
}

/// The register of lowest number whose object's table is in `t`.
fn first_head(context: &Context, t: Reg) -> Option<Reg>
    ensures { result ≡ first_head (live_of context.now) t }
{
    if has_pair(context.heads, t, Reg::Eax) {
        Some(Reg::Eax)
    } else if has_pair(context.heads, t, Reg::Ecx) {
        Some(Reg::Ecx)
    } else if has_pair(context.heads, t, Reg::Edx) {
        Some(Reg::Edx)
    } else if has_pair(context.heads, t, Reg::Ebx) {
        Some(Reg::Ebx)
    } else if has_pair(context.heads, t, Reg::Esp) {
        Some(Reg::Esp)
    } else if has_pair(context.heads, t, Reg::Ebp) {
        Some(Reg::Ebp)
    } else if has_pair(context.heads, t, Reg::Esi) {
        Some(Reg::Esi)
    } else if has_pair(context.heads, t, Reg::Edi) {
        Some(Reg::Edi)
    } else {
        None
    }
}

/// The kind that a class test of the table in `t` gives.
fn class_test(context: &Context, t: Reg, d: u32) -> FlagKind
    ensures { result ≡ class_test (live_of context.now) t d }
{
    match first_head(context, t) {
        Some(r) => FlagKind::IsA(r, d),
        None => FlagKind::Eq,
    }
}

/// The row of a display and a marked class.
fn display_row(
    shapes: &Shapes,
    context: &Context,
    place: Option<Place>,
    class: Option<u32>,
) -> Option<FlagKind>
    ensures { result ≡ display_row shapes.now (live_of context.now) place class }
{
    match (place, class) {
        (Some(Place::Display(t, k)), Some(d)) => if has_depth(shapes, d, k) {
            Some(class_test(context, t, d))
        } else {
            None
        },
        _ => None,
    }
}

fn bound_kind(d: &Operand, array: Option<Reg>) -> FlagKind
    ensures { result ≡ bound_kind d.now array }
{
    match (d, array) {
        (Operand::R(i), Some(a)) => FlagKind::Bound(*i, a),
        _ => FlagKind::Num,
    }
}

fn null_kind(d: &Operand) -> FlagKind
    ensures { result ≡ null_kind d.now }
{
    match d {
        Operand::R(r) => FlagKind::NullTest(*r),
        _ => FlagKind::Eq,
    }
}

/// The kind that CMP gives; none where its operands have no row.
pub(crate) fn compare_kind(
    shapes: &Shapes,
    context: &Context,
    d: &Resolved,
    x: &Resolved,
) -> Option<FlagKind>
    ensures { result ≡ compare_kind shapes.now (live_of context.now) d.now x.now }
{
    let f = family_of(d.ty);
    let g = family_of(x.ty);
    match (f, g) {
        (Family::Numbers, Family::Numbers) => {
            Some(bound_kind(&d.operand, length_base(&x.operand, x.place)))
        }
        (Family::Objects, Family::Objects) | (Family::Arrays, Family::Arrays) => Some(FlagKind::Eq),
        _ => if has_null(f) && is_zero(&x.operand, x.ty) {
            Some(null_kind(&d.operand))
        } else {
            display_row(shapes, context, d.place, marked_class(&x.operand, x.ty))
        },
    }
}

fn same_register(d: &Operand, x: &Operand) -> bool
    ensures { result ≡ same_register d.now x.now }
{
    match (d, x) {
        (Operand::R(r), Operand::R(q)) => same(*r, *q),
        _ => false,
    }
}

/// The kind that TEST gives; none where its operands have no row.
pub(crate) fn test_kind(d: &Resolved, x: &Resolved) -> Option<FlagKind>
    ensures { result ≡ test_kind d.now x.now }
{
    let f = family_of(d.ty);
    match (f, family_of(x.ty)) {
        (Family::Numbers, Family::Numbers) => Some(FlagKind::Num),
        _ => if same_register(&d.operand, &x.operand) && has_null(f) {
            Some(null_kind(&d.operand))
        } else {
            None
        },
    }
}
