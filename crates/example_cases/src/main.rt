// The examples are played as a user would play them: each line of a list is the words of a command, which the top call does
// over the files of the examples. What each came to is printed. Then it is said whether the texts of the sample kernel and of
// its applications are those of the crate `sample_images`.
//
// The one word of the command line names the list: `commands` among the examples, which says at its head how it is written.
#![tactic(auto)]

mod playing;
mod samples;
mod transcript;
mod unplayed;

use outside::SystemFiles;
use playing::play_all;
use samples::compare_samples;
use std::{env, fs};
use unplayed::Unplayed;

fn main(rt: HostRuntime) -> Result<(), Unplayed> {
    let Some(name) = env::args(&rt)?.nth(1) else {
        return Err(Unplayed::Unnamed);
    };
    let list = fs::read_to_string(&rt, name.as_str())?;
    let mut told = String::new(rt.alloc());
    let mut files = SystemFiles::new(rt);
    play_all(rt.alloc(), &mut told, &mut files, list.as_str())?;
    compare_samples(rt.alloc(), &mut told, &mut files)?;
    rt.print(told.as_str())?;
    Ok(())
}
