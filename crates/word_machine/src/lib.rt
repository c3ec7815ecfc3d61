// The word machine: a processor's words and one flat memory, and what an instruction does to them.
//
// `Memory` has the class tables, the descriptors, the statics with the data arrays, and the stacks of an image. `advance` runs
// one instruction.
//
// `WordsStand` (in specs/) says when the words stand for a state of the typed machine: each is the word of the value that the
// state has there. `advance` leads them on as the instruction's `Effect` leads the state on, from every typed state that they
// stand for; what typing rules out is not tested for.
#![tactic(auto)]

pub mod laws;
mod memory;
mod quick;
mod step;

pub use memory::{Memory, STACK_WORDS};
pub use quick::advance_quick;
pub use step::{Step, advance};
