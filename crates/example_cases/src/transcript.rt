// What a command came to, as text.
use std::alloc::AllocError;

// Adds a line that a sink took. One that stands there several times in a row is shown once, with how often. The bars show
// where it begins and ends; one that lacks its LF lacks the second bar.
fn show_line(told: &mut String, name: &str, line: &[u8], times: u64) -> Result<(), AllocError> {
    write!(told, "  {name} |")?;
    for byte in line {
        match *byte {
            b'\n' => told.push('|')?,
            byte => told.push(char::from(byte))?,
        }
    }
    if times > 1 {
        write!(told, " {times} times")?;
    }
    told.push('\n')
}

// Adds the lines that a sink took.
fn show_lines(told: &mut String, name: &str, bytes: &[u8]) -> Result<(), AllocError> {
    let mut last: &[u8] = b"";
    let mut times = 0u64;
    for line in bytes.split_inclusive(|byte| *byte == b'\n') {
        if line == last {
            times = times.saturating_add(1);
            continue;
        }
        if times > 0 {
            show_line(told, name, last, times)?;
        }
        last = line;
        times = 1;
    }
    if times > 0 {
        show_line(told, name, last, times)?;
    }
    Ok(())
}

/// Adds what a command came to: the number of its status, and the lines that the output and the error stream took.
pub fn show(told: &mut String, status: u8, out: &[u8], err: &[u8]) -> Result<(), AllocError> {
    writeln!(told, "  status {status}")?;
    show_lines(told, "out", out)?;
    show_lines(told, "err", err)
}
