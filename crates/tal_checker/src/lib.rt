// The checker: an image is accepted exactly where its annotations satisfy the typing rules.
//
// `check` goes over the code once, with one context, and accepts the image as a `Checked` one, which holds the image and a
// row of its frames for each instruction; or it answers the least address where a rule of typing fails, and the least rule
// that fails there.
//
// `WellTyped` (in specs/) says what is accepted, `FirstRefusal` where an image is refused, `frames_of` what the rows are.
// The module `laws` has the law of the strongest context, that an image has one answer, and `RunsOn`: what a run of an
// accepted image rests on.
#![tactic(auto)]

mod answer;
mod checking;
mod code;
mod frames;
pub mod laws;

pub use answer::CheckAnswer;
pub use checking::{Checked, check};
