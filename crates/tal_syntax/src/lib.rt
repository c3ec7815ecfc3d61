// Assembly text: bytes are a module of numbered lines, or their first fault is told.
//
// `parse` reads a text line by line. A line that is not empty has one `Form`, as it is written: names are not looked up, and
// numbers have no limits yet. Each token is read once, on demand, and the first that no form has there is the line's fault.
//
// `text_at` (in specs/) is what `parse` answers: the readers of `Forms` and below it are the grammar, a row for each form.
#![tactic(auto)]

mod declarations;
mod fault;
mod form;
mod forms;
mod instructions;
pub mod laws;
mod line;
mod lists;
mod module;
mod name;
mod operands;
mod rows;
mod text_lines;
mod tokens_read;
mod types;

pub use fault::{TextAnswer, TextFault};
pub use form::{Arg, Form, RegType, Term, TypeText};
pub use lists::{ArgList, NumberList, RegTypeList, TermList, TypeTextList};
pub use module::{Module, TextLine, parse};
pub use name::Name;
