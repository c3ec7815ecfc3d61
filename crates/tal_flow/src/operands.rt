#![tactic(auto, unfolding(crate::specs::Places::found, crate::specs::Places::readable, crate::specs::Places::storable, crate::specs::Places::is_num, crate::specs::Places::immediate_type, crate::specs::Places::operand_place, crate::specs::Places::operand_type, crate::specs::Places::spares_esp, crate::specs::Places::writable))]

ghost use Rattle.std.specs.Prelude.{◌≡◌};
ghost use Rattle.tal_types.specs.Kept.{live_of};
ghost use Rattle.tal_flow.specs.Places.{place_type, operand_place, mark_type, immediate_type, operand_type, is_esp, spares_esp, resolve, found, readable, writable, is_num, storable, reads_of};

use crate::known::register;
use crate::places::{Place, place_in};
use ia32_code::{Operand, Reg};
use object_layout::Shapes;
use tal_types::{Context, ImageView, Mark, Ty, same, sub};

/// The type of what is read at a place.
fn place_type(context: &Context, place: Place) -> Ty
    ensures { result ≡ place_type (live_of context.now) place }
{
    match place {
        Place::Whole(t) => t,
        Place::Slot(i) => match context.slots().get(i as usize) {
            Some(t) => *t,
            None => Ty::Junk,
        },
        Place::Length => Ty::Num,
        Place::Head(_, c) => Ty::Tab(c),
        Place::Method(g) => Ty::Code(g),
        Place::Display(_, _) => Ty::Junk,
    }
}

/// The type of a marked immediate.
fn mark_type<V: ImageView>(image: &V, n: u32, mark: Mark) -> Ty
    ensures { result ≡ mark_type (V.shown image.now) n mark }
{
    match mark.tag {
        1 => Ty::Ref(mark.index),
        3 => Ty::ArrRef(mark.index),
        5 => Ty::Fun(mark.index),
        6 => match image.function_at(n) {
            Some(g) => Ty::Code(g),
            None => Ty::Junk,
        },
        7 => Ty::Tab(mark.index),
        8 => Ty::Desc(mark.index),
        10 => match image.data_kind(mark.index) {
            Some(k) => Ty::Arr(k),
            None => Ty::Junk,
        },
        _ => Ty::Junk,
    }
}

/// The type of an immediate of the instruction at `pc`.
pub(crate) fn immediate_type<V: ImageView>(image: &V, pc: u32, n: u32) -> Ty
    ensures { result ≡ immediate_type (V.shown image.now) pc n }
{
    match image.mark_at(pc) {
        Some(mark) => mark_type(image, n, mark),
        None => Ty::Num,
    }
}

/// The place of an operand, where it is memory and has one.
pub(crate) fn operand_place<V: ImageView>(
    image: &V,
    context: &Context,
    x: &Operand,
) -> Option<Place>
    ensures { result ≡ operand_place (V.shown image.now) (live_of context.now) x.now }
{
    match x {
        Operand::M(m) => place_in(image.shapes(), image.statics(), context, m),
        _ => None,
    }
}

/// Whether a register is there, and is ESP.
pub(crate) fn is_esp(r: Option<Reg>) -> bool
    ensures { result ≡ is_esp r }
{
    match r {
        Some(q) => same(q, Reg::Esp),
        None => false,
    }
}

/// Whether ESP is named, if at all, as the base of a memory operand without an index.
pub(crate) fn spares_esp(x: &Operand) -> bool
    ensures { result ≡ spares_esp x.now }
{
    match x {
        Operand::R(r) => !same(*r, Reg::Esp),
        Operand::M(m) => !is_esp(m.index) && !(is_esp(m.base) && m.index.is_some()),
        Operand::I(_) => true,
    }
}

/// An operand as it stands at an instruction.
#[derive(Clone, Copy, Debug, PartialEq, Eq)]
pub struct Resolved {
    pub operand: Operand,
    /// ESP is named, if at all, as the base of a memory operand without an index
    pub spares_esp: bool,
    /// its place, where it is memory and has one
    pub place: Option<Place>,
    /// the type of what is read there
    pub ty: Ty,
}

/// The type of an operand of the instruction at `pc` that has this place.
fn type_there<V: ImageView>(
    image: &V,
    context: &Context,
    pc: u32,
    x: &Operand,
    place: Option<Place>,
) -> Ty
    requires { place ≡ operand_place (V.shown image.now) (live_of context.now) x.now }
    ensures { result ≡ operand_type (V.shown image.now) (live_of context.now) pc x.now }
{
    match x {
        Operand::R(r) => register(context, *r),
        Operand::M(_) => match place {
            Some(place) => place_type(context, place),
            None => Ty::Junk,
        },
        Operand::I(n) => immediate_type(image, pc, *n),
    }
}

/// An operand of the instruction at `pc`: its place is looked for once.
pub(crate) fn resolve<V: ImageView>(image: &V, context: &Context, pc: u32, x: &Operand) -> Resolved
    ensures { result ≡ resolve (V.shown image.now) (live_of context.now) pc x.now }
{
    let place = operand_place(image, context, x);
    Resolved {
        operand: *x,
        spares_esp: spares_esp(x),
        place,
        ty: type_there(image, context, pc, x, place),
    }
}

/// Whether an operand is a place, where it is memory.
pub(crate) fn found(x: &Resolved) -> bool
    ensures { result ≡ found x.now }
{
    match x.operand {
        Operand::M(_) => x.place.is_some(),
        Operand::R(_) | Operand::I(_) => true,
    }
}

/// Whether an operand may be read by other instructions than CMP.
pub(crate) fn readable(x: &Resolved) -> bool
    ensures { result ≡ readable x.now }
{
    match x.place {
        Some(Place::Display(_, _)) => false,
        _ => true,
    }
}

/// Whether an operand may be written.
pub(crate) fn writable(x: &Resolved) -> bool
    ensures { result ≡ writable x.now }
{
    match x.operand {
        Operand::R(_) => true,
        Operand::M(_) => match x.place {
            Some(Place::Whole(_) | Place::Slot(_)) => true,
            _ => false,
        },
        Operand::I(_) => false,
    }
}

/// Whether values of the type are numbers.
pub(crate) fn is_num(t: Ty) -> bool
    ensures { result ≡ is_num t }
{
    match t {
        Ty::Num => true,
        _ => false,
    }
}

/// Whether a value of the type may be stored in an operand.
pub(crate) fn storable(shapes: &Shapes, t: Ty, x: &Resolved) -> bool
    ensures { result ≡ storable shapes.now t x.now }
{
    match x.place {
        Some(Place::Whole(u)) => sub(shapes, t, u),
        _ => true,
    }
}

/// What rules ask of all that an operation reads.
#[derive(Clone, Copy, Debug, PartialEq, Eq)]
pub struct Reads {
    /// each spares ESP
    pub spares_esp: bool,
    /// each is a place, where it is memory
    pub found: bool,
    /// each may be read
    pub readable: bool,
    /// each is a number
    pub numbers: bool,
}

/// What holds of the sources of the instruction at `pc`.
pub(crate) fn reads_of<V: ImageView>(
    image: &V,
    context: &Context,
    pc: u32,
    sources: &[Operand],
) -> Reads
    ensures { result ≡ reads_of (V.shown image.now) (live_of context.now) pc sources.now }
{
    let mut reads = Reads {
        spares_esp: true,
        found: true,
        readable: true,
        numbers: true,
    };
    for source in sources {
        let x = resolve(image, context, pc, source);
        reads = Reads {
            spares_esp: reads.spares_esp && x.spares_esp,
            found: reads.found && found(&x),
            readable: reads.readable && readable(&x),
            numbers: reads.numbers && is_num(x.ty),
        };
    }
    reads
}
