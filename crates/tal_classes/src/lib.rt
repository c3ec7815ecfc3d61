// The lines of a class: the row that they make, or their first fault.
//
// A class begins with the method slots of the class above it. A line adds a field; or a method, which takes the slot that the
// name has above, or one more. `class_row` goes over the lines up to the end of the class once; names are found by hash.
//
// `class_row` (in specs/) is the row by the lines, with the trials of each line in the order of their codes. The module `laws`
// has that it keeps the conditions of classes.
#![tactic(auto)]

mod class;
pub mod laws;
mod lines;

pub use class::{MethodLine, OpenClass};
pub use lines::class_row;
