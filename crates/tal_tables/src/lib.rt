// The tables of a module's unit: what its lines make there, one after another, but for the code of functions.
//
// `ModuleTables` takes each line with the names that the module declares and those of its unit. A row names what it is by a
// number among the unit's names. All lines of a class are taken at its first one.
//
// `take_row` (in specs/) says for each form of line what it makes, or the least code of its faults. The module `laws` has that
// the tables keep the conditions of unit files line by line (`TablesKeep`).
#![tactic(auto)]

pub mod laws;
mod lines;
mod tables;
mod trials;

pub use tables::ModuleTables;
