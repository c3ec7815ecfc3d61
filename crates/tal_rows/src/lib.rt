// What the lines of a module's declarations declare, or the least code of their faults.
//
// Each function takes one form with what the lines before it have made, and answers what a row of the unit needs: a
// signature, a field's type, a number. Names are those of `tal_names`. Nothing here allocates.
//
// `Lines` (in specs/) has the trials of each form, in the order of their codes.
#![tactic(auto)]

mod lines;
mod registers;

pub use lines::{
    DataLine, EntryLine, class_line, data_line, entry_line, field_type, function_line, kind_line,
    label_line, sig_line, static_line,
};
pub use registers::{repeats, slots_given, types_in};
