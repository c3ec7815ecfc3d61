// A case, and the lines that it is made of.
use crate::unplayed::Unplayed;
use std::alloc::{AllocError, Global};

/// A text, and what stands before its lines.
#[derive(Drop)]
pub struct Case {
    pub text: Vec<u8>,
    /// How many rows of its table stand before each line.
    pub rows: u32,
    /// How many words of statics and data arrays do.
    pub words: u32,
    /// Whether functions have no code, labels stand where none may, and each stack has an entry already.
    pub is_amiss: bool,
    /// Whether the names of the unit are printed.
    pub shows_names: bool,
}

fn read_number(digits: &str) -> Result<u32, Unplayed> {
    digits.parse::<u32>().map_err(|_| Unplayed::Form)
}

fn read_byte(digits: &str) -> Result<u8, Unplayed> {
    digits.parse::<u8>().map_err(|_| Unplayed::Form)
}

fn add_text(bytes: &mut Vec<u8>, text: &str) -> Result<(), AllocError> {
    bytes.extend_from_slice(text.as_bytes())
}

fn add_byte(bytes: &mut Vec<u8>, byte: u8) -> Result<(), AllocError> {
    bytes.push(byte)?;
    Ok(())
}

impl Case {
    /// A case of no text, with nothing before it.
    pub fn new(alloc: Global) -> Case {
        Case {
            text: Vec::new(alloc),
            rows: 0,
            words: 0,
            is_amiss: false,
            shows_names: false,
        }
    }

    // Takes how many rows and words stand before each line.
    fn take_counts(&mut self, counts: &str) -> Result<(), Unplayed> {
        match counts.split_once(' ') {
            Some((rows, words)) => {
                self.rows = read_number(rows)?;
                self.words = read_number(words)?;
                Ok(())
            }
            None => Err(Unplayed::Form),
        }
    }

    // Takes a line of the text.
    fn take_text(&mut self, text: &str) -> Result<(), AllocError> {
        add_text(&mut self.text, text)?;
        add_byte(&mut self.text, b'\n')
    }

    /// Takes a line: its first word, and what stands behind the space after it.
    pub fn take_line(&mut self, word: &str, rest: &str) -> Result<(), Unplayed> {
        match word {
            "text" => Ok(self.take_text(rest)?),
            "last" => Ok(add_text(&mut self.text, rest)?),
            "byte" => Ok(add_byte(&mut self.text, read_byte(rest)?)?),
            "behind" => self.take_counts(rest),
            "amiss" => {
                self.is_amiss = true;
                Ok(())
            }
            "names" => {
                self.shows_names = true;
                Ok(())
            }
            _ => Err(Unplayed::Form),
        }
    }
}
