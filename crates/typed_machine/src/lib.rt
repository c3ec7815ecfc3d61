// The typed machine: what a run of an image does, over values with types.
//
// `State` (in specs/) has the running thread, the values of every stack, statics, the store, and what happened to the devices.
// `Effect` is what an instruction does to it, none where the instruction is ill typed; `Reply` is what a call of the Nucleus
// comes to; `TurnOf` is a turn, `RunOf` a run. `Typed` says which states typing allows. The machine over words stands for such a
// state.
#![tactic(auto)]

mod ending;
pub mod laws;
mod places;

pub use ending::Ending;
pub use places::places_ok;
