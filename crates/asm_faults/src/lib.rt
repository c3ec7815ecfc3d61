// Why the lines of a module make no unit: the answers that each step of assembling has beside its own.
//
// `AsmFault` is a line with the code of what is wrong there; `AsmAnswer` is a fault, or want of memory.
#![tactic(auto)]

ghost use Rattle.std.specs.Prelude.{◌≡◌};

use no_memory::NoMemory;
use std::alloc::{AllocError, AllocFailed};
use thiserror::Error;

/// The first line with a fault, counted from 1, and the least code of its faults.
///
/// The codes: 11 a name that is not declared; 12 one that is declared twice; 13 an instruction without a spelling, or an
/// operand that it does not take; 14 a class that breaks the rules of classes; 15 a label that is not known, given twice or
/// misplaced, or a function without an instruction; 16 a count above its limit; 17 a number that does not fit; 18 a type that
/// is not allowed.
#[derive(Clone, Copy, Debug, PartialEq, Eq)]
pub struct AsmFault {
    pub line: u32,
    pub code: u8,
}

/// Why there is no unit.
#[derive(Clone, Copy, Debug, PartialEq, Eq, Error)]
pub enum AsmAnswer {
    /// A line has a fault.
    #[error("a line cannot be assembled")]
    Fault(AsmFault),
    /// There was no memory for the unit.
    #[error("there is no memory for the unit")]
    NoMemory,
}

impl From<NoMemory> for AsmAnswer {
    ghost use Rattle.asm_faults.specs.declared.AsmAnswer.TheVariants.{NoMemory as no_memory};

    ghost from_gives = { λ _ answer. answer ≡ no_memory };

    fn from(_want: NoMemory) -> AsmAnswer {
        AsmAnswer::NoMemory
    }
}

impl From<AllocError> for AsmAnswer {
    ghost use Rattle.asm_faults.specs.declared.AsmAnswer.TheVariants.{NoMemory as no_memory};

    ghost from_gives = { λ _ answer. answer ≡ no_memory };

    fn from(_failure: AllocError) -> AsmAnswer {
        AsmAnswer::NoMemory
    }
}

impl<T: Drop> From<AllocFailed<T>> for AsmAnswer {
    ghost use Rattle.asm_faults.specs.declared.AsmAnswer.TheVariants.{NoMemory as no_memory};

    ghost from_gives = { λ _ answer. answer ≡ no_memory };

    fn from(_failure: AllocFailed<T>) -> AsmAnswer {
        AsmAnswer::NoMemory
    }
}
