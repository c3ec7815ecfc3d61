// The outside: where bytes come from and where they go.
//
// Two traits say what a program may rely on: `Files`, a map of names to bytes with counts of failed reads and
// writes, and `Sink`, which takes bytes at its end and counts what failed. What they tell and what a call does to it
// stands in `specs/`: `FileMaps`, `Sinks` and `Faults`.
//
// In memory there are `MemoryFiles` and `MemorySink`, which fail only at a missing file or where room is short, and
// `FailingFiles` and `FailingSink`, some of whose calls fail. `SystemFiles` and `StreamSink` are the trusted edge
// over real files and the standard streams: they tell no bytes and count each failure. What they give to a writer whose
// bytes are known is proved.
#![tactic(auto)]

mod failing;
mod faults;
mod memory;
mod shelf;
mod stream;
mod system;
mod traits;
mod transfer;

pub use failing::{FailingCall, FailingFiles, FailingSink};
pub use memory::{MemoryFiles, MemorySink};
pub use shelf::FileRoom;
pub use stream::StreamSink;
pub use system::SystemFiles;
pub use traits::{Files, PutFailed, ReadAnswer, Sink, WriteFailed};
