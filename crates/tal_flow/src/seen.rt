ghost use Rattle.std.specs.Prelude.{◌≡◌};
ghost use Rattle.tal_types.specs.Kept.{live_of};
ghost use Rattle.tal_flow.specs.Seen.{see};

use crate::calls::{Called, call_by, call_to};
use crate::forms::{Form, Operands};
use crate::functions::{fits_result, has_block};
use crate::known::register;
use crate::operands::{Reads, Resolved, immediate_type, reads_of, resolve, storable};
use crate::rows::{compare_kind, test_kind};
use ia32_code::{Cond, Mem, Operand, Reg};
use tal_types::{Context, FlagKind, ImageView, Ty};

/// An instruction by what typing says of it, with its operands resolved where it stands.
#[derive(Debug, Drop)]
pub enum Seen {
    /// an instruction of the system, or a LEA that is not of memory into a register
    Refused,
    /// an operation on numbers, as in `Form`
    Compute {
        reads: Reads,
        destination: Resolved,
        wide: bool,
        kind: Option<FlagKind>,
    },
    /// destination and source, and whether the source's type may be stored there
    Move(Resolved, Resolved, bool),
    /// the address of a memory operand into a register
    Address(Reg, Mem),
    /// what CMP compares with what, and the kind that this gives
    Compare(Resolved, Resolved, Option<FlagKind>),
    /// the operands of TEST, and the kind that they give
    TestBits(Resolved, Resolved, Option<FlagKind>),
    PushOf(Resolved),
    PopTo(Reg),
    /// a number that is added to ESP, and its type
    DropSlots(u32, Ty),
    CallTo(Called),
    /// a call of the address in the operand
    CallBy(Resolved, Called),
    /// whether EAX fits the function's result
    Return(bool),
    /// whether the target is a block of the function
    Jump(bool),
    /// the condition, and whether the target is a block of the function
    Branch(Cond, bool),
    Nothing,
}

// Each of these resolves the operands of one form, so that no instruction pays for the operands of another.

/// An operation on numbers.
fn see_compute<V: ImageView>(
    image: &V,
    context: &Context,
    pc: u32,
    sources: &Operands,
    d: &Operand,
    wide: bool,
    kind: Option<FlagKind>,
) -> Seen
    ensures { result ≡ see (V.shown image.now) (live_of context.now) pc (Form.Compute sources.now d.now wide kind) }
{
    let reads = reads_of(image, context, pc, sources.as_slice());
    let destination = resolve(image, context, pc, d);
    Seen::Compute {
        reads,
        destination,
        wide,
        kind,
    }
}

/// A MOV.
fn see_move<V: ImageView>(image: &V, context: &Context, pc: u32, d: &Operand, x: &Operand) -> Seen
    ensures { result ≡ see (V.shown image.now) (live_of context.now) pc (Form.Move d.now x.now) }
{
    let d = resolve(image, context, pc, d);
    let x = resolve(image, context, pc, x);
    let fits = storable(image.shapes(), x.ty, &d);
    Seen::Move(d, x, fits)
}

/// A CMP.
fn see_compare<V: ImageView>(
    image: &V,
    context: &Context,
    pc: u32,
    d: &Operand,
    x: &Operand,
) -> Seen
    ensures { result ≡ see (V.shown image.now) (live_of context.now) pc (Form.Compare d.now x.now) }
{
    let d = resolve(image, context, pc, d);
    let x = resolve(image, context, pc, x);
    let kind = compare_kind(image.shapes(), context, &d, &x);
    Seen::Compare(d, x, kind)
}

/// A TEST.
fn see_test<V: ImageView>(image: &V, context: &Context, pc: u32, d: &Operand, x: &Operand) -> Seen
    ensures { result ≡ see (V.shown image.now) (live_of context.now) pc (Form.TestBits d.now x.now) }
{
    let d = resolve(image, context, pc, d);
    let x = resolve(image, context, pc, x);
    let kind = test_kind(&d, &x);
    Seen::TestBits(d, x, kind)
}

/// The instruction at `pc` of the form, in a context that is not dead: each operand is resolved once.
pub(crate) fn see<V: ImageView>(image: &V, context: &Context, pc: u32, form: &Form) -> Seen
    ensures { result ≡ see (V.shown image.now) (live_of context.now) pc form.now }
{
    match form {
        Form::Refused => Seen::Refused,
        Form::Compute {
            sources,
            destination,
            wide,
            kind,
        } => see_compute(image, context, pc, sources, destination, *wide, *kind),
        Form::Move(d, x) => see_move(image, context, pc, d, x),
        Form::Address(r, m) => Seen::Address(*r, *m),
        Form::Compare(d, x) => see_compare(image, context, pc, d, x),
        Form::TestBits(d, x) => see_test(image, context, pc, d, x),
        Form::PushOf(x) => Seen::PushOf(resolve(image, context, pc, x)),
        Form::PopTo(r) => Seen::PopTo(*r),
        Form::DropSlots(bytes) => Seen::DropSlots(*bytes, immediate_type(image, pc, *bytes)),
        Form::CallTo(address) => Seen::CallTo(call_to(image, context, *address)),
        Form::CallBy(x) => {
            let x = resolve(image, context, pc, x);
            Seen::CallBy(x, call_by(image, context, x.ty))
        }
        Form::Return => Seen::Return(fits_result(image, pc, register(context, Reg::Eax))),
        Form::Jump(address) => Seen::Jump(has_block(image, pc, *address)),
        Form::Branch(condition, address) => Seen::Branch(
            *condition,
            has_block(image, pc, *address),
        ),
        Form::Nothing => Seen::Nothing,
    }
}
