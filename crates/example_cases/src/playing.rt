// A list of commands is played, one after another, over the same files.
//
// A function makes at most two values that a want of memory lets go, and passes them on: a prover goes through each such path.
use crate::transcript::show;
use no_memory::NoMemory;
use nucleus_calls::Journal;
use outside::{Files, MemorySink};
use std::alloc::{AllocError, Global};
use verve_tool::verve;

// For how many bytes the two sinks have room: more than any report or journal of an example has, and than any line.
const OUT_ROOM: usize = 1_000_000;

const ERR_ROOM: usize = 1_000;

// The words of a command, which a space parts.
fn split_words(alloc: Global, command: &str) -> Result<Vec<String>, AllocError> {
    let mut words = Vec::new(alloc);
    for word in command.split(' ') {
        words.push(String::from_str(alloc, word)?)?;
    }
    Ok(words)
}

// The top call, and the number of its status.
fn call<F: Files>(
    alloc: Global,
    words: &[String],
    files: &mut F,
    out: &mut MemorySink,
    err: &mut MemorySink,
) -> u8 {
    let mut journal = Journal::new(alloc);
    let mut kept = None;
    verve(alloc, words, files, out, err, &mut journal, &mut kept).number()
}

// Plays a command, and adds what it came to.
fn play<F: Files>(
    alloc: Global,
    told: &mut String,
    files: &mut F,
    words: &[String],
) -> Result<(), NoMemory> {
    let mut out = MemorySink::new(alloc, OUT_ROOM)?;
    let mut err = MemorySink::new(alloc, ERR_ROOM)?;
    let status = call(alloc, words, files, &mut out, &mut err);
    show(told, status, out.bytes(), err.bytes())?;
    Ok(())
}

// Plays a line, which is a command.
fn play_line<F: Files>(
    alloc: Global,
    told: &mut String,
    files: &mut F,
    line: &str,
) -> Result<(), NoMemory> {
    writeln!(told, "> {line}")?;
    let words = split_words(alloc, line)?;
    play(alloc, told, files, &words)
}

/// Plays the commands of a list, and adds what each came to.
pub fn play_all<F: Files>(
    alloc: Global,
    told: &mut String,
    files: &mut F,
    list: &str,
) -> Result<(), NoMemory> {
    for line in list.lines() {
        if line.is_empty() || line.starts_with('#') {
            continue;
        }
        play_line(alloc, told, files, line)?;
    }
    Ok(())
}
