#![tactic(auto, unfolding(crate::specs::Calls::arguments_fit, crate::specs::Calls::call_of_signature, crate::specs::Calls::call_to, crate::specs::Calls::call_by, crate::specs::Calls::is_callable, crate::specs::Calls::is_fit, crate::specs::Calls::result_of, crate::specs::Calls::nucleus_arguments, crate::specs::Calls::entry_number, crate::specs::Calls::is_entry))]

ghost use Rattle.std.specs.Prelude.{◌≡◌, true, Some, slice_get};
ghost use Rattle.std.specs.Option.{option_and_then};
ghost use Rattle.tal_types.specs.Kept.{live_of};
ghost use Rattle.tal_flow.specs.Calls.{call_of_signature, nucleus_arguments, entry_number, is_entry, entry_gives, call_to, call_by, is_callable, is_fit, result_of};

use crate::known::register;
use ia32_code::Reg;
use tal_types::{Context, ImageView, Ty, types_fit};

/// The address of the Nucleus's entry 0, and from each entry to the next.
const ENTRIES_START: u32 = 0x1000;

const ENTRY_BYTES: u32 = 16;

/// What a Nucleus entry asks of EAX and ECX.
#[derive(Clone, Copy, Debug, PartialEq, Eq)]
pub enum Arguments {
    /// a class's table in EAX; it gives an object of the class, or null
    Table,
    /// an array kind's descriptor in EAX and a number in ECX; it gives an array of the kind, or null
    DescriptorAndNumber,
    /// nothing; it gives a number
    Nothing,
    /// a number in EAX; it gives a number
    OneNumber,
    /// numbers in EAX and ECX; it gives a number
    TwoNumbers,
}

/// What a call comes to.
#[derive(Clone, Copy, Debug, PartialEq, Eq)]
pub enum Called {
    /// nothing is there that can be called
    Nowhere,
    /// an argument is not below its parameter
    Misfit,
    /// a call whose result has the type
    Gives(Ty),
}

/// A call of a function whose signature has the number.
fn call_of_signature<V: ImageView>(image: &V, context: &Context, g: Option<u32>) -> Called
    ensures { result ≡ call_of_signature (V.shown image.now) (live_of context.now) g }
{
    let found = match g {
        Some(g) => image.sig(g),
        None => None,
    };
    match found {
        None => Called::Nowhere,
        Some(sig) => if types_fit(image.shapes(), context, &sig.params) {
            Called::Gives(sig.result)
        } else {
            Called::Misfit
        },
    }
}

/// What the Nucleus entry at an address asks; none where no entry is there.
fn entry_arguments(address: u32) -> Option<Arguments>
    ensures { result ≡ option_and_then (slice_get nucleus_arguments) (entry_number address) }
{
    if address < ENTRIES_START || (address - ENTRIES_START) % ENTRY_BYTES != 0 {
        return None;
    }
    match (address - ENTRIES_START) / ENTRY_BYTES {
        0 => Some(Arguments::Table),
        1 => Some(Arguments::DescriptorAndNumber),
        2 => Some(Arguments::Nothing),
        3 => Some(Arguments::OneNumber),
        4 => Some(Arguments::OneNumber),
        5 => Some(Arguments::OneNumber),
        6 => Some(Arguments::TwoNumbers),
        7 => Some(Arguments::Nothing),
        8 => Some(Arguments::OneNumber),
        9 => Some(Arguments::Nothing),
        10 => Some(Arguments::Nothing),
        _ => None,
    }
}

/// Whether a Nucleus entry stands at an address.
pub fn is_entry(address: u32) -> bool
    ensures { result ≡ is_entry address }
{
    entry_arguments(address).is_some()
}

/// The number of the Nucleus entry at an address where one stands.
pub fn entry_number(address: u32) -> u32
    requires { is_entry address ≡ true }
    ensures { entry_number address ≡ Some result }
{
    (address - ENTRIES_START) / ENTRY_BYTES
}

/// What an entry gives, where EAX and ECX have these types.
fn entry_gives(arguments: Arguments, eax: Ty, ecx: Ty) -> Called
    ensures { result ≡ entry_gives arguments eax ecx }
{
    match (arguments, eax, ecx) {
        (Arguments::Table, Ty::Tab(c), _) => Called::Gives(Ty::Ref(c)),
        (Arguments::DescriptorAndNumber, Ty::Desc(k), Ty::Num) => Called::Gives(Ty::ArrRef(k)),
        (Arguments::Nothing, _, _)
        | (Arguments::OneNumber, Ty::Num, _)
        | (Arguments::TwoNumbers, Ty::Num, Ty::Num) => Called::Gives(Ty::Num),
        _ => Called::Misfit,
    }
}

/// A CALL of an address.
pub(crate) fn call_to<V: ImageView>(image: &V, context: &Context, address: u32) -> Called
    ensures { result ≡ call_to (V.shown image.now) (live_of context.now) address }
{
    match entry_arguments(address) {
        Some(arguments) => entry_gives(
            arguments,
            register(context, Reg::Eax),
            register(context, Reg::Ecx),
        ),
        None => call_of_signature(image, context, image.function_at(address)),
    }
}

/// A CALL of what has the type.
pub(crate) fn call_by<V: ImageView>(image: &V, context: &Context, t: Ty) -> Called
    ensures { result ≡ call_by (V.shown image.now) (live_of context.now) t }
{
    match t {
        Ty::Code(g) => call_of_signature(image, context, Some(g)),
        _ => call_of_signature(image, context, None),
    }
}

/// The type of the result of a call.
pub(crate) fn result_of(called: Called) -> Ty
    ensures { result ≡ result_of called }
{
    match called {
        Called::Gives(t) => t,
        _ => Ty::Junk,
    }
}

/// Whether there is something that can be called.
pub(crate) fn is_callable(called: Called) -> bool
    ensures { result ≡ is_callable called }
{
    match called {
        Called::Nowhere => false,
        Called::Misfit | Called::Gives(_) => true,
    }
}

/// Whether the arguments fit, where something can be called.
pub(crate) fn is_fit(called: Called) -> bool
    ensures { result ≡ is_fit called }
{
    match called {
        Called::Misfit => false,
        Called::Nowhere | Called::Gives(_) => true,
    }
}
