// A script: pieces that several cases take, and the cases, one after another.
use crate::case::Case;
use crate::playing::play;
use crate::unplayed::{Unplayed, Unread};
use std::alloc::Global;

// Plays the case so far, and begins another.
fn begin_case(
    alloc: Global,
    text: &mut String,
    case: &mut Option<Case>,
    title: &str,
) -> Result<(), Unplayed> {
    finish(alloc, text, case)?;
    *case = Some(Case::new(alloc, title)?);
    Ok(())
}

// Takes a line of a case, or of the pieces before the first one.
fn take_line(
    alloc: Global,
    pieces: &mut Case,
    case: &mut Option<Case>,
    word: &str,
    rest: &str,
) -> Result<(), Unread> {
    match case {
        Some(case) => case.take_line(alloc, &pieces.files, word, rest),
        None => pieces.take_line(alloc, &[], word, rest),
    }
}

// What comes of a line of this number.
fn at_line(taken: Result<(), Unread>, number: u64) -> Result<(), Unplayed> {
    match taken {
        Ok(()) => Ok(()),
        Err(Unread::Form) => Err(Unplayed::Line(number)),
        Err(Unread::NoMemory) => Err(Unplayed::NoMemory),
    }
}

// Plays the cases of a script, whose files before the first case are pieces.
fn play_cases(
    alloc: Global,
    text: &mut String,
    pieces: &mut Case,
    case: &mut Option<Case>,
    script: &str,
) -> Result<(), Unplayed> {
    let mut number = 0u64;
    for line in script.lines() {
        number = number.saturating_add(1);
        if line.is_empty() || line.starts_with('#') {
            continue;
        }
        let (word, rest) = line.split_once(' ').unwrap_or((line, ""));
        if word == "case" {
            begin_case(alloc, text, case, rest)?;
        } else {
            at_line(take_line(alloc, pieces, case, word, rest), number)?;
        }
    }
    finish(alloc, text, case)
}

// Adds what the cases of a script came to.
fn add_cases(alloc: Global, text: &mut String, script: &str) -> Result<(), Unplayed> {
    let mut pieces = Case::new(alloc, "")?;
    let mut case = None;
    play_cases(alloc, text, &mut pieces, &mut case, script)
}

/// Plays the cases of a script, and says what each came to.
pub fn play_all(alloc: Global, script: &str) -> Result<String, Unplayed> {
    let mut text = String::new(alloc);
    add_cases(alloc, &mut text, script)?;
    Ok(text)
}

// Plays a case that was read to its end, and adds what its commands came to.
fn finish(alloc: Global, text: &mut String, case: &Option<Case>) -> Result<(), Unplayed> {
    let Some(case) = case else {
        return Ok(());
    };
    writeln!(text, "{}", case.title)?;
    for command in &case.commands {
        writeln!(text, "> {command}")?;
        play(alloc, text, case, command.as_str())?;
    }
    Ok(())
}
