// The machine over an accepted image: its turns and runs.
//
// A `Machine` is made over a `Checked` image and recorded events; it has the processor, and the Nucleus with memory, stacks and
// devices. `turn` takes one turn, and `run` takes many. A machine is `Shown`, so the crate run_report writes what it shows.
// `new` makes all that a run needs but the journal: `turn` has no allocator.
//
// `Stands` (in specs/) says that the machine's words are those of a state of the typed machine, and `Follows` that this state
// is that of the run that the journal tells; each turn keeps it.
#![tactic(auto)]

mod acting;
mod events;
pub mod laws;
mod machine;
mod prepared;
mod running;

pub use machine::Machine;
pub use running::{MOST_TURNS, run};
