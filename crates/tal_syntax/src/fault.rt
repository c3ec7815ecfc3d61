// Why a text is no module.
ghost use Rattle.std.specs.Prelude.{◌≡◌};

use no_memory::NoMemory;
use std::alloc::{AllocError, AllocFailed};
use thiserror::Error;

/// Where a text has its first fault. Line and column count from 1; a tab is one column.
///
/// The codes: 1 a byte that is not allowed; 2 a number out of range; 3 a token that no form has there, an allowed byte that
/// begins no token, or a form that is not whole; 4 a name that is too long; 5 the text ends before `end`.
#[derive(Clone, Copy, Debug, PartialEq, Eq)]
pub struct TextFault {
    pub line: u32,
    pub column: u64,
    pub code: u8,
}

/// Why there is no module.
#[derive(Clone, Copy, Debug, PartialEq, Eq, Error)]
pub enum TextAnswer {
    /// The text is no module.
    #[error("the text is no module")]
    Fault(TextFault),
    /// There was no memory for the module.
    #[error("there is no memory for the module")]
    NoMemory,
}

impl From<NoMemory> for TextAnswer {
    ghost use Rattle.tal_syntax.specs.declared.fault.TextAnswer.TheVariants.{NoMemory as no_memory};

    ghost from_gives = { λ _ answer. answer ≡ no_memory };

    fn from(_want: NoMemory) -> TextAnswer {
        TextAnswer::NoMemory
    }
}

impl From<AllocError> for TextAnswer {
    ghost use Rattle.tal_syntax.specs.declared.fault.TextAnswer.TheVariants.{NoMemory as no_memory};

    ghost from_gives = { λ _ answer. answer ≡ no_memory };

    fn from(_failure: AllocError) -> TextAnswer {
        TextAnswer::NoMemory
    }
}

impl<T: Drop> From<AllocFailed<T>> for TextAnswer {
    ghost use Rattle.tal_syntax.specs.declared.fault.TextAnswer.TheVariants.{NoMemory as no_memory};

    ghost from_gives = { λ _ answer. answer ≡ no_memory };

    fn from(_failure: AllocFailed<T>) -> TextAnswer {
        TextAnswer::NoMemory
    }
}
