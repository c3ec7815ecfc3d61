// Why not all cases were played.
use no_memory::NoMemory;
use std::alloc::{AllocError, AllocFailed};
use std::io;

/// Why a line of a case was not taken.
#[derive(Debug, Drop)]
pub enum Unread {
    /// It has none of the forms, or a number or a name that does not serve there.
    Form,
    /// There was no memory for it.
    NoMemory,
}

/// Why not all cases were played.
#[derive(Debug, Drop)]
pub enum Unplayed {
    /// The line of this number, from 1 up, was not taken.
    Line(u64),
    /// There was no memory.
    NoMemory,
    /// No file of cases is named.
    Unnamed,
    /// The cases were not read, or what they came to was not printed.
    Unreached(io::Error),
}

impl From<AllocError> for Unread {
    fn from(_failure: AllocError) -> Unread {
        Unread::NoMemory
    }
}

impl<T: Drop> From<AllocFailed<T>> for Unread {
    fn from(_failure: AllocFailed<T>) -> Unread {
        Unread::NoMemory
    }
}

impl From<AllocError> for Unplayed {
    fn from(_failure: AllocError) -> Unplayed {
        Unplayed::NoMemory
    }
}

impl From<NoMemory> for Unplayed {
    fn from(_failure: NoMemory) -> Unplayed {
        Unplayed::NoMemory
    }
}

impl From<io::Error> for Unplayed {
    fn from(fault: io::Error) -> Unplayed {
        Unplayed::Unreached(fault)
    }
}
