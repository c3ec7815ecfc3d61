// A script: cases, one after another, and what each came to.
use crate::case::Case;
use crate::telling::tell_text;
use crate::unplayed::Unplayed;
use std::alloc::Global;

/// Plays the cases of a script, and says what each came to.
pub fn play_all(alloc: Global, script: &str) -> Result<String, Unplayed> {
    let mut told = String::new(alloc);
    let mut case: Option<Case> = None;
    for line in script.lines() {
        if line.is_empty() || line.starts_with('#') {
            continue;
        }
        let (word, rest) = line.split_once(' ').unwrap_or((line, ""));
        if word == "case" {
            finish(alloc, &mut told, &case)?;
            writeln!(told, "{rest}")?;
            case = Some(Case::new(alloc));
            continue;
        }
        match &mut case {
            Some(case) => case.take_line(word, rest)?,
            None => return Err(Unplayed::Form),
        }
    }
    finish(alloc, &mut told, &case)?;
    Ok(told)
}

// Plays a case that was read to its end.
fn finish(alloc: Global, told: &mut String, case: &Option<Case>) -> Result<(), Unplayed> {
    match case {
        Some(case) => tell_text(alloc, told, case),
        None => Ok(()),
    }
}
