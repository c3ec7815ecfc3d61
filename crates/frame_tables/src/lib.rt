// Where the references of a stack are.
//
// `FrameTable` keeps, for the address of each instruction, a row that says which registers and slots of the frame hold
// references there; its value is that list of rows (`specs/FrameRows`). `Walk` goes over the words of a stack and lists
// those in reference slots, frame by frame from the top: `references` in `specs/FrameWalks`, which `laws` says frame by
// frame.
#![tactic(auto)]

pub mod laws;
mod table;
mod walking;

pub use table::FrameTable;
pub use walking::Walk;
