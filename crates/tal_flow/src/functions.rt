#![tactic(auto, unfolding(crate::specs::Functions::in_function, crate::specs::Functions::fits_result, crate::specs::Functions::has_block))]

ghost use Rattle.std.specs.Prelude.{◌≡◌};
ghost use Rattle.tal_flow.specs.Functions.{in_function, fits_result, has_block};

use tal_types::{ImageView, Ty, sub};

/// Whether an address lies in the function that has the byte at `pc`.
pub(crate) fn in_function<V: ImageView>(image: &V, pc: u32, address: u32) -> bool
    ensures { result ≡ in_function (V.shown image.now) pc address }
{
    match image.function_of(pc) {
        Some(span) => span.start <= address && address < span.end,
        None => false,
    }
}

/// Whether a type is below the result of the function that has the byte at `pc`.
pub(crate) fn fits_result<V: ImageView>(image: &V, pc: u32, t: Ty) -> bool
    ensures { result ≡ fits_result (V.shown image.now) pc t }
{
    match image.function_of(pc) {
        Some(span) => match image.sig(span.sig) {
            Some(sig) => sub(image.shapes(), t, sig.result),
            None => false,
        },
        None => false,
    }
}

/// Whether a block of the function that has the byte at `pc` begins at an address.
pub(crate) fn has_block<V: ImageView>(image: &V, pc: u32, address: u32) -> bool
    ensures { result ≡ has_block (V.shown image.now) pc address }
{
    image.annotation_at(address).is_some() && in_function(image, pc, address)
}
