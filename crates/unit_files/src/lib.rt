// Unit files: what one assembly text comes to, before the units of a program are linked to an image.
//
// A `Unit` holds the rows of an image, each with its name, and says which of them stand elsewhere (`extern`). What only a
// linker knows is left out of its code: those words are 0, and a `FixUp` or a mark says what comes there. A unit is put
// together of its rows (`UnitRows`, `Unit::of`), written as its file and read from one.
//
// `UnitFormed` (in specs/) is what every unit keeps, by the numbers of the conditions of unit files, and `UnitFileOf` is its
// file. `unit_fields` is the grammar of such files: an image's rows with names before them. The module `laws` has what
// holds of them: a file stands for one unit, or has one first fault.
#![tactic(auto)]

mod class_reader;
mod code_places;
mod code_reader;
mod files;
pub mod laws;
mod names;
mod parts;
mod row_reader;
mod unit;
mod unit_reader;
mod writing;

pub use parts::{
    FixUp, TyList, UnitArray, UnitBlock, UnitClass, UnitData, UnitEntry, UnitFun, UnitKind,
    UnitMark, UnitRows, UnitSig, UnitStatic,
};
pub use unit::Unit;
