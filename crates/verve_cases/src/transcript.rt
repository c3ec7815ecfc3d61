// What a command came to, as text.
use stack_states::{Entry, EntryKind};
use std::alloc::AllocError;

/// What a command came to.
#[derive(Drop)]
pub struct Came<'a> {
    /// The number of its status.
    pub status: u8,
    /// How many turns the machine that is kept has taken, where one is kept.
    pub turns: Option<u32>,
    /// The entries of the journal.
    pub entries: &'a [Entry],
    /// How many reads, and how many calls of each sink, failed.
    pub read_faults: u64,
    pub out_faults: u64,
    pub err_faults: u64,
    /// What the sinks took.
    pub out: &'a [u8],
    pub err: &'a [u8],
}

// Adds letters that a sink took. The bars show where a line begins and ends; one that lacks its LF lacks the second bar.
fn show_letters(text: &mut String, letters: &[u8]) -> Result<(), AllocError> {
    text.push('|')?;
    for byte in letters {
        match *byte {
            b'\n' => text.push('|')?,
            byte => text.push(char::from(byte))?,
        }
    }
    Ok(())
}

// Adds a line that a sink took. One that stands there several times in a row is shown once, with how often.
fn show_line(text: &mut String, name: &str, line: &[u8], times: u64) -> Result<(), AllocError> {
    write!(text, "  {name} ")?;
    show_letters(text, line)?;
    if times > 1 {
        write!(text, " {times} times")?;
    }
    text.push('\n')
}

// Adds so many lines of what a sink took.
fn show_lines(text: &mut String, name: &str, bytes: &[u8], most: usize) -> Result<(), AllocError> {
    let mut last: &[u8] = b"";
    let mut times = 0u64;
    for line in bytes.split_inclusive(|byte| *byte == b'\n').take(most) {
        if line == last {
            times = times.saturating_add(1);
            continue;
        }
        if times > 0 {
            show_line(text, name, last, times)?;
        }
        last = line;
        times = 1;
    }
    if times > 0 {
        show_line(text, name, last, times)?;
    }
    Ok(())
}

// Adds an entry of the journal: its turn, its stack, and what happened to it.
fn show_entry(text: &mut String, entry: &Entry) -> Result<(), AllocError> {
    write!(text, "  entry {} {} ", entry.turn, entry.stack)?;
    match entry.kind {
        EntryKind::Call(number) => write!(text, "call {number} {:08X}", entry.value)?,
        EntryKind::Yield => write!(text, "yield {}", entry.value)?,
        EntryKind::Interrupt => write!(text, "interrupt {}", entry.value)?,
        EntryKind::Fault => write!(text, "fault {}", entry.value)?,
        EntryKind::Ended => text.push_str("ended")?,
    }
    text.push('\n')
}

/// Adds what a command over a front of a file came to, in one line: the length of the front, the number of the status, how many
/// bytes `out` took, and what `err` took.
pub fn show_front(text: &mut String, length: usize, came: &Came<'_>) -> Result<(), AllocError> {
    let out = came.out.len();
    write!(
        text,
        "  front {length}: status {}, out {out} bytes, err ",
        came.status
    )?;
    show_letters(text, came.err)?;
    text.push('\n')
}

/// Adds what a file holds, where it is there: how many bytes, and each in two hexadecimal digits.
pub fn show_left(text: &mut String, name: &str, bytes: Option<&[u8]>) -> Result<(), AllocError> {
    let Some(bytes) = bytes else {
        return writeln!(text, "  left no {name}");
    };
    write!(text, "  left {name} of {} bytes ", bytes.len())?;
    for byte in bytes {
        write!(text, "{byte:02X}")?;
    }
    text.push('\n')
}

// Adds how many turns the machine that is kept has taken.
fn show_kept(text: &mut String, turns: Option<u32>) -> Result<(), AllocError> {
    match turns {
        Some(turns) => write!(text, "kept after {turns} turns"),
        None => text.push_str("none kept"),
    }
}

// Adds the line of numbers.
fn show_numbers(text: &mut String, came: &Came<'_>) -> Result<(), AllocError> {
    write!(text, "  status {}, ", came.status)?;
    show_kept(text, came.turns)?;
    write!(text, ", entries {}, failed: ", came.entries.len())?;
    writeln!(
        text,
        "read {}, out {}, err {}",
        came.read_faults, came.out_faults, came.err_faults
    )
}

/// Adds what a command came to: a line of numbers, the journal, and what the sinks took, of `out` so many lines at most.
pub fn show(text: &mut String, came: &Came<'_>, most: usize) -> Result<(), AllocError> {
    show_numbers(text, came)?;
    for entry in came.entries {
        show_entry(text, entry)?;
    }
    show_lines(text, "out", came.out, most)?;
    show_lines(text, "err", came.err, usize::MAX)
}
