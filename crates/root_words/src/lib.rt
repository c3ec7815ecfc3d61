// The roots of a collection: the words of a machine that refer to objects, listed one after another without taking memory.
//
// `MachineRoots` lists the references in the data area by `DataMarks`, which are made once for an image, then those in the
// frames of the stack that calls, and then those in the saved registers and frames of all other stacks. What it lists is
// `root_words` (in specs/). `laws` says that this is the words of the state's `Roots`, wherever the words stand for a typed
// state at a call.
#![tactic(auto)]

mod data_area;
pub mod laws;
mod machine_roots;
mod saved_registers;
mod stack_roots;

pub use data_area::DataMarks;
pub use machine_roots::MachineRoots;
