// The types of typed assembly, what is known before an instruction, and how both are ordered.
//
// `Ty` is the type of a value in a register, a slot or a place in memory, `FlagKind` what the last
// operation lets a branch use, and `Context` all that is known before an instruction, an
// `Annotation` types alone. `sub` and `context_below` test the orders of types and of contexts, and `entry_context` is what a signature lets
// a function know at its first instruction. `ImageView` is what typing asks of an image. Contracts see a
// `Context` as `context_of` says; the definitions stand in `specs/Types.antt` and `specs/Contexts.antt`,
// and that both are orders in the module `laws`.
#![tactic(auto)]

mod contexts;
pub mod laws;
mod order;
mod signatures;
mod types;
mod views;

pub use contexts::{Annotation, Context};
pub use order::{below_annotation, context_below, same, sub, types_fit, within};
pub use signatures::{FrameRow, Sig, entry_context};
pub use types::{FlagKind, Ty};
pub use views::{ImageView, Mark, Span};
