// Units of one program, linked to an image.
//
// `Linked` (in specs/) says what units link to: the image of their rows, in the order in which names are first mentioned, or the
// first fault. The module `laws` has what holds of it: that what units link to is an image. It also computes it on small units.
#![tactic(auto)]

pub mod laws;
mod name_table;

pub use name_table::{NameTable, Owner};
