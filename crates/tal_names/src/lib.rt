// The names of a module: which rows it declares in each table, and what a name stands for.
//
// `ModuleNames` is made of a module's lines before any of them is assembled, since a declaration may follow its use. Each table
// numbers its names in the order of their declaration. A class knows the fields and the methods that its own lines add, and
// finds the others in the classes above it.
//
// `names_of` (in specs/) says what a module declares, a line for each form; `unit_names` which names its unit has.
#![tactic(auto)]

mod look_ups;
mod mentions;
mod name_set;
mod names;

pub use name_set::NameSet;
pub use names::{ClassNames, ModuleNames};
