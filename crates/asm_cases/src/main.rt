// Cases of modules: the unit of each text is printed by its rows, or the text's first fault. The file that the one word of the
// command line names has them, as `data/cases`, which says at its head how one is written.
#![tactic(auto)]

mod script;
mod telling;
mod unplayed;

use script::play_all;
use std::{env, fs};
use unplayed::Unplayed;

fn main(rt: HostRuntime) -> Result<(), Unplayed> {
    let Some(name) = env::args(&rt)?.nth(1) else {
        return Err(Unplayed::Unnamed);
    };
    let script = fs::read_to_string(&rt, name.as_str())?;
    let text = play_all(rt.alloc(), script.as_str())?;
    rt.print(text.as_str())?;
    Ok(())
}
