// A script: cases, one after another, and what each file of them stands for.
use crate::shortest::shortest;
use crate::telling::{tell_bytes, tell_file};
use crate::unplayed::Unplayed;
use hex::FromHexError;
use std::alloc::Global;

// Bytes by their hexadecimal digits.
fn read_bytes(alloc: Global, digits: &str) -> Result<Vec<u8>, Unplayed> {
    match hex::decode(alloc, digits) {
        Ok(bytes) => Ok(bytes),
        Err(FromHexError::OutOfMemory) => Err(Unplayed::NoMemory),
        Err(_) => Err(Unplayed::Form),
    }
}

// Adds bytes by their hexadecimal digits.
fn add_bytes(alloc: Global, file: &mut Vec<u8>, digits: &str) -> Result<(), Unplayed> {
    let bytes = read_bytes(alloc, digits)?;
    Ok(file.extend_from_slice(&bytes)?)
}

fn read_place(digits: &str) -> Result<usize, Unplayed> {
    digits.parse::<usize>().map_err(|_| Unplayed::Form)
}

fn read_byte(digits: &str) -> Result<u8, Unplayed> {
    u8::from_str_radix(digits, 16).map_err(|_| Unplayed::Form)
}

// The file with another byte at a place.
fn with_slip(alloc: Global, file: &[u8], place: usize, byte: u8) -> Result<Vec<u8>, Unplayed> {
    let mut slipped = Vec::from_slice(alloc, file)?;
    match slipped.get_mut(place) {
        Some(old) => *old = byte,
        None => return Err(Unplayed::Form),
    }
    Ok(slipped)
}

// Tells what the file with another byte at a place stands for.
fn play_slip(alloc: Global, told: &mut String, file: &[u8], rest: &str) -> Result<(), Unplayed> {
    let Some((place, byte)) = rest.split_once(' ') else {
        return Err(Unplayed::Form);
    };
    let slipped = with_slip(alloc, file, read_place(place)?, read_byte(byte)?)?;
    write!(told, "  {rest}: ")?;
    tell_file(alloc, told, &slipped)
}

// Tells the file of the unit that is put together of its rows.
fn play_rows(alloc: Global, told: &mut String) -> Result<(), Unplayed> {
    let unit = shortest(alloc)?;
    let file = unit.write(alloc)?;
    tell_bytes(told, &file)?;
    Ok(())
}

// Plays a line: its first word, and what stands behind the space after it.
fn play_line(
    alloc: Global,
    told: &mut String,
    file: &mut Vec<u8>,
    word: &str,
    rest: &str,
) -> Result<(), Unplayed> {
    match word {
        "case" => {
            file.clear();
            writeln!(told, "{rest}")?;
            Ok(())
        }
        "file" => add_bytes(alloc, file, rest),
        "read" => {
            told.push_str("  ")?;
            tell_file(alloc, told, file)
        }
        "slip" => play_slip(alloc, told, file, rest),
        "rows" => play_rows(alloc, told),
        _ => Err(Unplayed::Form),
    }
}

/// Plays the cases of a script, and says what each file stands for.
pub fn play_all(alloc: Global, script: &str) -> Result<String, Unplayed> {
    let mut told = String::new(alloc);
    let mut file = Vec::new(alloc);
    for line in script.lines() {
        if line.is_empty() || line.starts_with('#') {
            continue;
        }
        let (word, rest) = line.split_once(' ').unwrap_or((line, ""));
        play_line(alloc, &mut told, &mut file, word, rest)?;
    }
    Ok(told)
}
