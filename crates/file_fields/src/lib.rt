// Files as fields in their order, with the first field that breaks its condition or in which the file ends.
//
// A format is a grammar (`Grammar`, in specs/). A part of it is a `Row`, or a `RowAfter` where it looks at what is kept of
// the rows before it: its reader promises what `run` gives of the part's fields. It is a `Part` as it is written: its writer
// promises its bytes. So a new field of a format stands in its grammar, in its row and in its writer, and nowhere else.
// `Reader` is a place in a file. `read_whole` reads a file that is one part and nothing behind it: it answers what the file
// stands for, or the file's first fault (`FaultOf`), or want of memory. `ImageFault` is a fault. The module `laws` has what
// holds of every grammar, and Composed, in specs/, what holds of parts one after another.
#![tactic(auto)]

mod fault;
pub mod laws;
mod reader;
mod rows;
mod whole;
mod writing;

pub use fault::ImageFault;
pub use reader::{Reader, require};
pub use rows::{Row, RowAfter};
pub use whole::read_whole;
pub use writing::{Part, put_all, put_counted, put_number};
