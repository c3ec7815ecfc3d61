// Cases of a heap: lines that take, give and write blocks, and that collect with roots that keep objects. The file that
// the one word of the command line names has them, as `data/cases`, which says at its head how one is written. What
// each line came to is printed.
//
// An object is of the one class of a table, which has one number field. So it refers to nothing, and a collection keeps
// the objects that its roots name. Whether these are good is found by looking at the heap (`good_roots`).
#![tactic(auto)]

mod case_heap;
mod good_roots;
mod number_class;
mod places;
mod script;

use no_memory::NoMemory;
use script::play_all;
use std::{env, fs, io};

/// Why the cases were not played.
#[derive(Debug, Drop)]
enum Unplayed {
    /// There was no memory.
    NoMemory,
    /// No file of cases is named.
    Unnamed,
    /// The cases were not read, or what they came to was not printed.
    Unreached(io::Error),
}

impl From<NoMemory> for Unplayed {
    fn from(_failure: NoMemory) -> Unplayed {
        Unplayed::NoMemory
    }
}

impl From<io::Error> for Unplayed {
    fn from(fault: io::Error) -> Unplayed {
        Unplayed::Unreached(fault)
    }
}

fn main(rt: HostRuntime) -> Result<(), Unplayed> {
    let Some(name) = env::args(&rt)?.nth(1) else {
        return Err(Unplayed::Unnamed);
    };
    let script = fs::read_to_string(&rt, name.as_str())?;
    let text = play_all(rt.alloc(), script.as_str())?;
    rt.print(text.as_str())?;
    Ok(())
}
