// Cases of single instructions: each runs an instruction, by its bytes, on registers and flags, or tells what bytes spell. The
// file that the one word of the command line names has them, as `data/cases`, which says at its head how one is written. What
// each came to is printed.
#![tactic(auto)]

mod case;
mod one_word;
mod playing;
mod script;
mod spelling;
mod unplayed;

use script::play_all;
use std::{env, fs};
use unplayed::Unplayed;

fn main(rt: HostRuntime) -> Result<(), Unplayed> {
    let Some(name) = env::args(&rt)?.nth(1) else {
        return Err(Unplayed::Unnamed);
    };
    let script = fs::read_to_string(&rt, name.as_str())?;
    let text = play_all(rt.alloc(), script.as_str())?;
    rt.print(text.as_str())?;
    Ok(())
}
