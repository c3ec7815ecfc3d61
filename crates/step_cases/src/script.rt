// A script: cases, one after another, and what each row of them came to.
use crate::case::Case;
use crate::playing::play;
use crate::spelling::push_spelled;
use crate::unplayed::Unplayed;
use hex::FromHexError;
use stack_states::FlagBits;
use std::alloc::Global;

// The bytes of an instruction, by their hexadecimal digits.
fn read_bytes(alloc: Global, digits: &str) -> Result<Vec<u8>, Unplayed> {
    match hex::decode(alloc, digits) {
        Ok(bytes) => Ok(bytes),
        Err(FromHexError::OutOfMemory) => Err(Unplayed::NoMemory),
        Err(_) => Err(Unplayed::Form),
    }
}

// Flags by their letters.
fn read_flags(letters: &str) -> FlagBits {
    FlagBits {
        carry: letters.contains('C'),
        zero: letters.contains('Z'),
        sign: letters.contains('S'),
        overflow: letters.contains('O'),
    }
}

// Plays a row: the flags, and the words of the first registers.
fn play_row(text: &mut String, case: &Case, row: &str) -> Result<(), Unplayed> {
    let (letters, words) = row.split_once(' ').unwrap_or((row, ""));
    let mut regs = [0u32; 8];
    if !words.is_empty() {
        for (number, word) in words.split(' ').enumerate() {
            let value = u32::from_str_radix(word, 16).map_err(|_| Unplayed::Form)?;
            match regs.get_mut(number) {
                Some(reg) => *reg = value,
                None => return Err(Unplayed::Form),
            }
        }
    }
    write!(text, "  {row}:")?;
    let mut parts = false;
    for code in &case.code {
        if parts {
            text.push_str(" |")?;
        }
        parts = true;
        play(text, case, code, regs, read_flags(letters))?;
    }
    text.push('\n')?;
    Ok(())
}

// Tells what bytes spell.
fn play_bytes(alloc: Global, text: &mut String, digits: &str) -> Result<(), Unplayed> {
    let bytes = read_bytes(alloc, digits)?;
    write!(text, "  {digits}: ")?;
    push_spelled(text, &bytes)?;
    text.push('\n')?;
    Ok(())
}

/// Plays the cases of a script, and says what each row came to.
pub fn play_all(alloc: Global, script: &str) -> Result<String, Unplayed> {
    let mut text = String::new(alloc);
    let mut case = Case::new(alloc);
    for line in script.lines() {
        if line.is_empty() || line.starts_with('#') {
            continue;
        }
        let (word, rest) = line.split_once(' ').unwrap_or((line, ""));
        match word {
            "case" => {
                case = Case::new(alloc);
                writeln!(text, "{rest}")?;
            }
            "code" => case.code.push(read_bytes(alloc, rest)?)?,
            "shows" => {
                if !case.show(rest) {
                    return Err(Unplayed::Form);
                }
            }
            "row" => play_row(&mut text, &case, rest)?,
            "spells" => play_bytes(alloc, &mut text, rest)?,
            _ => return Err(Unplayed::Form),
        }
    }
    Ok(text)
}
