// A case is played: the top call over files and sinks in memory.
//
// A function makes at most two values that a want of memory lets go, and passes them on: a prover goes through each such path.
use crate::case::{Case, CaseFile, add_string, find_bytes};
use crate::transcript::{Came, show, show_front, show_left};
use kernel_machine::Machine;
use no_memory::NoMemory;
use nucleus_calls::Journal;
use outside::{FailingFiles, FailingSink, FileRoom, Files};
use std::alloc::{AllocError, Global};
use verve_tool::verve;

// For how many bytes the two sinks have room: more than any report of a case has, and than any line.
const OUT_ROOM: usize = 1_000_000;

const ERR_ROOM: usize = 1_000;

// Adds the room that each file needs.
fn add_rooms<'a>(rooms: &mut Vec<FileRoom<'a>>, files: &'a [CaseFile]) -> Result<(), AllocError> {
    for file in files {
        rooms.push(FileRoom {
            name: file.name.as_str(),
            room: file.bytes.len(),
        })?;
    }
    Ok(())
}

// Room for the files of a case, of which none is there yet.
fn make_room(alloc: Global, case: &Case) -> Result<FailingFiles, NoMemory> {
    let mut rooms = Vec::new(alloc);
    add_rooms(&mut rooms, &case.files)?;
    FailingFiles::new(alloc, &rooms, &case.failing_files)
}

/// A front of a file, by its length.
#[derive(Clone, Copy, Drop)]
struct Front<'a> {
    name: &'a str,
    length: usize,
}

// The bytes of a file that are put there: those of the front, where it is one of this file.
fn bytes_put<'a>(file: &'a CaseFile, front: Option<Front<'_>>) -> &'a [u8] {
    match front {
        Some(front) if front.name == file.name.as_str() => {
            file.bytes.get(..front.length).unwrap_or(&file.bytes)
        }
        _ => &file.bytes,
    }
}

// Puts the files there: the first calls. One that is to fail leaves a front.
fn write_files(files: &mut FailingFiles, written: &[CaseFile], front: Option<Front<'_>>) {
    for file in written {
        let _ = files.write(file.name.as_str(), bytes_put(file, front));
    }
}

// Adds the words of a command, which a bar parts.
fn add_words(alloc: Global, words: &mut Vec<String>, command: &str) -> Result<(), AllocError> {
    for word in command.split('|') {
        add_string(alloc, words, word)?;
    }
    Ok(())
}

// The words of a command. One of no letters has no words.
fn split_words(alloc: Global, command: &str) -> Result<Vec<String>, AllocError> {
    let mut words = Vec::new(alloc);
    if !command.is_empty() {
        add_words(alloc, &mut words, command)?;
    }
    Ok(words)
}

// The top call, and the number of its status.
fn call(
    alloc: Global,
    words: &[String],
    files: &mut FailingFiles,
    out: &mut FailingSink,
    err: &mut FailingSink,
    journal: &mut Journal,
    kept: &mut Option<Machine>,
) -> u8 {
    verve(alloc, words, files, out, err, journal, kept).number()
}

// How many turns the machine that is kept has taken.
fn turns_of(kept: &Option<Machine>) -> Option<u32> {
    match kept {
        Some(machine) => Some(machine.turns_taken()),
        None => None,
    }
}

// Plays words over files and sinks, and adds what they came to.
fn play_over(
    alloc: Global,
    text: &mut String,
    words: &[String],
    files: &mut FailingFiles,
    out: &mut FailingSink,
    err: &mut FailingSink,
    most: usize,
    front: Option<Front<'_>>,
) -> Result<(), AllocError> {
    let mut journal = Journal::new(alloc);
    let mut kept = None;
    let status = call(alloc, words, files, out, err, &mut journal, &mut kept);
    let came = Came {
        status,
        turns: turns_of(&kept),
        entries: journal.entries(),
        read_faults: files.read_faults(),
        out_faults: out.faults(),
        err_faults: err.faults(),
        out: out.bytes(),
        err: err.bytes(),
    };
    match front {
        Some(front) => show_front(text, front.length, &came),
        None => show(text, &came, most),
    }
}

// Plays words over files, with sinks of its own.
fn play_with(
    alloc: Global,
    text: &mut String,
    case: &Case,
    words: &[String],
    files: &mut FailingFiles,
    front: Option<Front<'_>>,
) -> Result<(), NoMemory> {
    let mut out = FailingSink::new(alloc, OUT_ROOM, &case.failing_out)?;
    let mut err = FailingSink::new(alloc, ERR_ROOM, &case.failing_err)?;
    play_over(
        alloc, text, words, files, &mut out, &mut err, case.lines, front,
    )?;
    Ok(())
}

// Plays words over the files of a case, and adds what the file that the case names holds then.
fn play_words(
    alloc: Global,
    text: &mut String,
    case: &Case,
    words: &[String],
    front: Option<Front<'_>>,
) -> Result<(), NoMemory> {
    let mut files = make_room(alloc, case)?;
    write_files(&mut files, &case.files, front);
    play_with(alloc, text, case, words, &mut files, front)?;
    if let Some(name) = &case.left {
        show_left(text, name.as_str(), files.bytes_of(name.as_str()))?;
    }
    Ok(())
}

// Plays words over each proper front of a file, the shortest first.
fn play_fronts(
    alloc: Global,
    text: &mut String,
    case: &Case,
    words: &[String],
    name: &str,
) -> Result<(), NoMemory> {
    let bytes = find_bytes(&case.files, name).unwrap_or(b"");
    for length in 0..bytes.len() {
        play_words(alloc, text, case, words, Some(Front { name, length }))?;
    }
    Ok(())
}

/// Plays a command of a case, and adds what it came to: once, or over each proper front of the file that the case names.
pub fn play(alloc: Global, text: &mut String, case: &Case, command: &str) -> Result<(), NoMemory> {
    let words = split_words(alloc, command)?;
    match &case.fronts {
        Some(name) => play_fronts(alloc, text, case, &words, name.as_str()),
        None => play_words(alloc, text, case, &words, None),
    }
}
