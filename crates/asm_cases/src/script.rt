// A script: texts, one after another, and what each came to.
use crate::telling::tell_text;
use crate::unplayed::Unplayed;
use std::alloc::{AllocError, Global};

// Adds a line to a text.
fn add_line(text: &mut Vec<u8>, line: &str) -> Result<(), AllocError> {
    text.extend_from_slice(line.as_bytes())?;
    text.push(b'\n')?;
    Ok(())
}

fn read_byte(digits: &str) -> Result<u8, Unplayed> {
    digits.parse::<u8>().map_err(|_| Unplayed::Form)
}

fn add_byte(text: &mut Vec<u8>, byte: u8) -> Result<(), AllocError> {
    text.push(byte)?;
    Ok(())
}

// Plays a line: its first word, and what stands behind the space after it.
fn play_line(
    alloc: Global,
    told: &mut String,
    text: &mut Vec<u8>,
    word: &str,
    rest: &str,
) -> Result<(), Unplayed> {
    match word {
        "case" => {
            text.clear();
            writeln!(told, "{rest}")?;
            Ok(())
        }
        "text" => Ok(add_line(text, rest)?),
        "last" => Ok(text.extend_from_slice(rest.as_bytes())?),
        "byte" => Ok(add_byte(text, read_byte(rest)?)?),
        "assemble" => tell_text(alloc, told, text),
        _ => Err(Unplayed::Form),
    }
}

/// Plays the cases of a script, and says what each text came to.
pub fn play_all(alloc: Global, script: &str) -> Result<String, Unplayed> {
    let mut told = String::new(alloc);
    let mut text = Vec::new(alloc);
    for line in script.lines() {
        if line.is_empty() || line.starts_with('#') {
            continue;
        }
        let (word, rest) = line.split_once(' ').unwrap_or((line, ""));
        play_line(alloc, &mut told, &mut text, word, rest)?;
    }
    Ok(told)
}
