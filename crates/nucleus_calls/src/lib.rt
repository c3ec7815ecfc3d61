// The Nucleus: what runs below the typed code of an image, in its own turns or within one.
//
// A `Nucleus` owns the memory, the stacks and the devices, with the lists of the heap's free blocks. `call` does what an entry of
// the Nucleus does that touches no heap (entries 3 to 10), and `call_heap` what the others do (0 to 2); `due` lets an event enter, `accept` takes an interrupt, and `leave` ends an application. The `Journal` holds
// what a run did, and the room that its turns need.
//
// `NucleusStands` (in specs/) says that the Nucleus stands for a state of the typed machine. `call`, `accept` and `leave` lead it
// and the processor on as the turn leads the state on, from every typed state that they stand for, and their entry is the turn's.
#![tactic(auto)]

mod calls;
mod heap_entries;
mod journal;
mod nucleus;
mod outcome;
mod switching;
mod words;

pub use journal::Journal;
pub use nucleus::Nucleus;
pub use outcome::{Done, Leaving};
