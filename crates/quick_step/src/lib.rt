// The quick form of instructions: a few bytes of registers and numbers, which one match tells apart.
//
// `quick_of` gives the quick form of an instruction, where it has one. `exec_quick` does with it what `ia32_step::exec` does
// with the instruction. `specs/QuickForms` has which instruction each form stands for.
#![tactic(auto)]

mod conditions;
mod products;
mod quick_form;
mod step;
mod sums;

pub use quick_form::{Quick, quick_of};
pub use step::exec_quick;
