// Why not all commands were played.
use no_memory::NoMemory;
use std::io;

/// Why not all commands were played.
#[derive(Debug, Drop)]
pub enum Unplayed {
    /// There was no memory.
    NoMemory,
    /// No list of commands is named.
    Unnamed,
    /// The list was not read, or what the commands came to was not printed.
    Unreached(io::Error),
}

impl From<NoMemory> for Unplayed {
    fn from(_failure: NoMemory) -> Unplayed {
        Unplayed::NoMemory
    }
}

impl From<io::Error> for Unplayed {
    fn from(fault: io::Error) -> Unplayed {
        Unplayed::Unreached(fault)
    }
}
