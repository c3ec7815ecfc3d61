// Why not all cases were played.
use no_memory::NoMemory;
use std::alloc::{AllocError, AllocFailed};
use std::io;

/// Why not all cases were played.
#[derive(Debug, Drop)]
pub enum Unplayed {
    /// A line has none of the forms.
    Form,
    /// There was no memory.
    NoMemory,
    /// No file of cases is named.
    Unnamed,
    /// The cases were not read, or what they came to was not printed.
    Unreached(io::Error),
}

impl From<AllocError> for Unplayed {
    fn from(_failure: AllocError) -> Unplayed {
        Unplayed::NoMemory
    }
}

impl<T: Drop> From<AllocFailed<T>> for Unplayed {
    fn from(_failure: AllocFailed<T>) -> Unplayed {
        Unplayed::NoMemory
    }
}

impl From<NoMemory> for Unplayed {
    fn from(_failure: NoMemory) -> Unplayed {
        Unplayed::NoMemory
    }
}

impl From<io::Error> for Unplayed {
    fn from(fault: io::Error) -> Unplayed {
        Unplayed::Unreached(fault)
    }
}
