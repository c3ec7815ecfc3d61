ghost use Rattle.std.specs.Prelude.{◌≡◌, Option, Some, None};
ghost use Rattle.tal_types.specs.Kept.{live_of, context_of};
ghost use Rattle.tal_flow.specs.Places.{field_place, static_place, slot_place, object_place, array_place, element_place, display_place, table_place, based, place_in, PlaceType};

use crate::known::{has_pair, register};
use ia32_code::{Mem, Reg};
use object_layout::areas::{STATICS_START, word_index};
use object_layout::{FieldTy, Shapes};
use tal_types::{Context, Ty, same};

/// What a memory operand means.
#[derive(Clone, Copy, Debug, PartialEq, Eq)]
pub enum Place {
    /// a static, a field or an element, with its type
    Whole(Ty),
    /// a slot of the frame, by its number
    Slot(u32),
    /// the length of the array in the base register
    Length,
    /// the table of the object in the register, of a class
    Head(Reg, u32),
    /// a method in a class's table, by the number of its signature
    Method(u32),
    /// the ancestor at a depth, 0 to 7, in the table in the register
    Display(Reg, u32),
}

/// A place that holds values of a field's type.
fn field_place(field: Option<FieldTy>) -> Option<Place>
    ensures { result ≡ field_place field }
{
    Some(Place::Whole(Ty::from(field?)))
}

fn static_place(statics: &[FieldTy], disp: u32) -> Option<Place>
    ensures { result ≡ static_place statics.now disp }
{
    let j = word_index(STATICS_START, disp)?;
    field_place(statics.get(j as usize).copied())
}

fn slot_place(context: &Context, disp: u32) -> Option<Place>
    ensures { result ≡ slot_place (live_of context.now) disp }
{
    let i = word_index(0, disp)?;
    context.slots().get(i as usize)?;
    Some(Place::Slot(i))
}

fn object_place(shapes: &Shapes, r: Reg, c: u32, disp: u32) -> Option<Place>
    ensures { result ≡ object_place shapes.now r c disp }
{
    if disp == 0 {
        Some(Place::Head(r, c))
    } else {
        field_place(shapes.field_at(c, disp))
    }
}

fn array_place(disp: u32) -> Option<Place>
    ensures { result ≡ array_place disp }
{
    if disp == 4 { Some(Place::Length) } else { None }
}

fn element_place(
    shapes: &Shapes,
    context: &Context,
    a: Reg,
    k: u32,
    i: Reg,
    mem: &Mem,
) -> Option<Place>
    ensures { result ≡ element_place shapes.now (live_of context.now) a k i mem.now.scale mem.now.disp }
{
    if has_pair(context.pairs, i, a) && mem.scale == 2 && mem.disp == 8 {
        field_place(shapes.element_of(k))
    } else {
        None
    }
}

fn display_place(t: Reg, disp: u32) -> Option<Place>
    ensures { result ≡ display_place t disp }
{
    let depth = word_index(12, disp)?;
    if depth <= 7 {
        Some(Place::Display(t, depth))
    } else {
        None
    }
}

fn table_place(shapes: &Shapes, t: Reg, c: u32, disp: u32) -> Option<Place>
    ensures { result ≡ table_place shapes.now t c disp }
{
    if disp >= 44 {
        Some(Place::Method(shapes.slot_at(c, disp)?))
    } else {
        display_place(t, disp)
    }
}

/// The place at a base register other than ESP.
fn based(shapes: &Shapes, context: &Context, r: Reg, mem: &Mem) -> Option<Place>
    ensures { result ≡ based shapes.now (live_of context.now) r ((live_of context.now).regs r) mem.now.index mem.now.scale mem.now.disp }
{
    match (register(context, r), mem.index) {
        (Ty::Obj(c), None) => object_place(shapes, r, c, mem.disp),
        (Ty::Arr(_), None) => array_place(mem.disp),
        (Ty::Arr(k), Some(i)) => element_place(shapes, context, r, k, i, mem),
        (Ty::Tab(c), None) => table_place(shapes, r, c, mem.disp),
        _ => None,
    }
}

/// What a memory operand means in a context that is not dead.
pub(crate) fn place_in(
    shapes: &Shapes,
    statics: &[FieldTy],
    context: &Context,
    mem: &Mem,
) -> Option<Place>
    ensures { result ≡ place_in shapes.now statics.now (live_of context.now) mem.now }
{
    match (mem.base, mem.index) {
        (None, None) => static_place(statics, mem.disp),
        (None, Some(_)) => None,
        (Some(r), index) => if !same(r, Reg::Esp) {
            based(shapes, context, r, mem)
        } else if index.is_none() {
            slot_place(context, mem.disp)
        } else {
            None
        },
    }
}

/// What a memory operand means where `context` is known; none where it is no place. A dead context tells
/// nothing of registers and slots: statics alone are places in it.
pub fn place_of(shapes: &Shapes, statics: &[FieldTy], context: &Context, mem: &Mem) -> Option<Place>
    ensures { result ≡ PlaceType shapes.now statics.now (context_of context.now) mem.now }
{
    if !context.dead {
        return place_in(shapes, statics, context, mem);
    }
    if mem.base.is_some() || mem.index.is_some() {
        return None;
    }
    static_place(statics, mem.disp)
}
