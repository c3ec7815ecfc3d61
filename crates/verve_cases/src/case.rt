// A case, and the lines that it is made of.
use crate::unplayed::Unread;
use hex::FromHexError;
use outside::FailingCall;
use std::alloc::{AllocError, Global};

/// A file of a case.
#[derive(Drop)]
pub struct CaseFile {
    pub name: String,
    pub bytes: Vec<u8>,
}

/// Commands that are each played over the same files, and which calls fail.
#[derive(Drop)]
pub struct Case {
    pub title: String,
    /// The words of each command, which a bar parts.
    pub commands: Vec<String>,
    pub files: Vec<CaseFile>,
    pub failing_files: Vec<FailingCall>,
    pub failing_out: Vec<FailingCall>,
    pub failing_err: Vec<FailingCall>,
    /// How many lines of what `out` took are printed at most.
    pub lines: usize,
    /// The file of which every proper front is played, where one is named.
    pub fronts: Option<String>,
    /// The file whose bytes are printed after each command, where one is named.
    pub left: Option<String>,
}

/// Adds a text to others.
pub fn add_string(alloc: Global, strings: &mut Vec<String>, text: &str) -> Result<(), AllocError> {
    strings.push(String::from_str(alloc, text)?)?;
    Ok(())
}

fn read_number(text: &str) -> Result<usize, Unread> {
    text.parse::<usize>().map_err(|_| Unread::Form)
}

// Puts bytes behind others: hexadecimal digits, in groups that a space parts.
fn add_digits(alloc: Global, bytes: &mut Vec<u8>, digits: &str) -> Result<(), Unread> {
    for group in digits.split(' ') {
        match hex::decode(alloc, group) {
            Ok(more) => bytes.extend_from_slice(&more)?,
            Err(FromHexError::OutOfMemory) => return Err(Unread::NoMemory),
            Err(_) => return Err(Unread::Form),
        }
    }
    Ok(())
}

/// The bytes of the first of these files that has this name.
pub fn find_bytes<'a>(files: &'a [CaseFile], name: &str) -> Option<&'a [u8]> {
    for file in files {
        if file.name.as_str() == name {
            return Some(&file.bytes);
        }
    }
    None
}

// A byte in two hexadecimal digits.
fn read_byte(digits: &str) -> Result<u8, Unread> {
    u8::from_str_radix(digits, 16).map_err(|_| Unread::Form)
}

// Gives the byte at an offset another value.
fn put_byte(bytes: &mut [u8], offset: usize, value: u8) -> Result<(), Unread> {
    match bytes.get_mut(offset) {
        Some(byte) => {
            *byte = value;
            Ok(())
        }
        None => Err(Unread::Form),
    }
}

// Gives a byte another value: its offset, and two hexadecimal digits.
fn set_byte(bytes: &mut [u8], place: &str) -> Result<(), Unread> {
    match place.split_once(' ') {
        Some((offset, digits)) => put_byte(bytes, read_number(offset)?, read_byte(digits)?),
        None => Err(Unread::Form),
    }
}

// Puts a text with a line feed behind bytes.
fn add_text(bytes: &mut Vec<u8>, text: &str) -> Result<(), AllocError> {
    bytes.extend_from_slice(text.as_bytes())?;
    bytes.push(b'\n')?;
    Ok(())
}

// Puts bytes 0 behind others.
fn add_zeros(alloc: Global, bytes: &mut Vec<u8>, count: usize) -> Result<(), AllocError> {
    let zeros = vec![in alloc; 0u8; count]?;
    bytes.extend_from_slice(&zeros)
}

// Takes a line on the bytes of the file that was begun last.
fn take_bytes(alloc: Global, bytes: &mut Vec<u8>, word: &str, rest: &str) -> Result<(), Unread> {
    match word {
        "hex" => add_digits(alloc, bytes, rest),
        "set" => set_byte(bytes, rest),
        "text" => Ok(add_text(bytes, rest)?),
        "zeros" => Ok(add_zeros(alloc, bytes, read_number(rest)?)?),
        "cut" => {
            bytes.truncate(read_number(rest)?);
            Ok(())
        }
        _ => Err(Unread::Form),
    }
}

// A call that fails: its number, and how many bytes still go through.
fn read_failing(call: &str, through: &str) -> Result<FailingCall, Unread> {
    Ok(FailingCall {
        call: call.parse::<u64>().map_err(|_| Unread::Form)?,
        through: read_number(through)?,
    })
}

impl Case {
    /// A case without commands and files, of whose output all lines are printed.
    pub fn new(alloc: Global, title: &str) -> Result<Case, AllocError> {
        Ok(Case {
            title: String::from_str(alloc, title)?,
            commands: Vec::new(alloc),
            files: Vec::new(alloc),
            failing_files: Vec::new(alloc),
            failing_out: Vec::new(alloc),
            failing_err: Vec::new(alloc),
            lines: usize::MAX,
            fronts: None,
            left: None,
        })
    }

    // Begins a file, which has no bytes yet.
    fn begin_file(&mut self, alloc: Global, name: &str) -> Result<(), Unread> {
        let file = CaseFile {
            name: String::from_str(alloc, name)?,
            bytes: Vec::new(alloc),
        };
        self.files.push(file)?;
        Ok(())
    }

    // Puts bytes behind those of the file that was begun last.
    fn add_bytes(&mut self, more: &[u8]) -> Result<(), Unread> {
        match self.files.last_mut() {
            Some(file) => Ok(file.bytes.extend_from_slice(more)?),
            None => Err(Unread::Form),
        }
    }

    // The bytes of a piece, or of a file that was begun before.
    fn copy_bytes(
        &self,
        alloc: Global,
        pieces: &[CaseFile],
        name: &str,
    ) -> Result<Vec<u8>, Unread> {
        match find_bytes(pieces, name).or(find_bytes(&self.files, name)) {
            Some(bytes) => Ok(bytes.to_vec(alloc)?),
            None => Err(Unread::Form),
        }
    }

    // Puts the bytes of a piece, or of a file that was begun before, behind those of the file that was begun last.
    fn add_file(&mut self, alloc: Global, pieces: &[CaseFile], name: &str) -> Result<(), Unread> {
        let more = self.copy_bytes(alloc, pieces, name)?;
        self.add_bytes(&more)
    }

    // Takes a call of files or of a sink that fails.
    fn add_failing(&mut self, of: &str, failing: FailingCall) -> Result<(), Unread> {
        match of {
            "files" => self.failing_files.push(failing)?,
            "out" => self.failing_out.push(failing)?,
            "err" => self.failing_err.push(failing)?,
            _ => return Err(Unread::Form),
        }
        Ok(())
    }

    // Takes a call that fails: whose it is, its number, and how many bytes still go through.
    fn take_failure(&mut self, failure: &str) -> Result<(), Unread> {
        let Some((of, rest)) = failure.split_once(' ') else {
            return Err(Unread::Form);
        };
        match rest.split_once(' ') {
            Some((call, through)) => self.add_failing(of, read_failing(call, through)?),
            None => Err(Unread::Form),
        }
    }

    /// Takes a line: its first word, and what stands behind the space after it.
    pub fn take_line(
        &mut self,
        alloc: Global,
        pieces: &[CaseFile],
        word: &str,
        rest: &str,
    ) -> Result<(), Unread> {
        match word {
            "words" => Ok(add_string(alloc, &mut self.commands, rest)?),
            "file" => self.begin_file(alloc, rest),
            "add" => self.add_file(alloc, pieces, rest),
            "fails" => self.take_failure(rest),
            "lines" => {
                self.lines = read_number(rest)?;
                Ok(())
            }
            "fronts" => {
                self.fronts = Some(String::from_str(alloc, rest)?);
                Ok(())
            }
            "left" => {
                self.left = Some(String::from_str(alloc, rest)?);
                Ok(())
            }
            _ => match self.files.last_mut() {
                Some(file) => take_bytes(alloc, &mut file.bytes, word, rest),
                None => Err(Unread::Form),
            },
        }
    }
}
