// The assembler: a module of assembly text has its unit, or its first line with a fault is told.
//
// `assemble` goes over the lines once. Each line makes rows in the tables of the unit (`tal_tables`), and a function's lines make
// its code (`tal_code`). Names are found by hash.
//
// `UnitFor` (in specs/) is the unit of a module by its lines, or the first line with a fault and the least code there. The module
// `laws` has that it keeps the conditions of unit files.
#![tactic(auto)]

mod assembling;
pub mod laws;
mod mentions;

pub use asm_faults::{AsmAnswer, AsmFault};
pub use assembling::assemble;
