// A script: lines, one after another, and what each came to.
use crate::case_heap::CaseHeap;
use no_memory::NoMemory;
use std::alloc::Global;

// A number in decimal digits.
fn read_decimal(digits: &str) -> Option<u32> {
    digits.parse::<u32>().ok()
}

// A number in hexadecimal digits.
fn read_hexadecimal(digits: &str) -> Option<u32> {
    u32::from_str_radix(digits, 16).ok()
}

// A number, in decimal digits or as hexadecimal ones behind 0x.
fn read_number(text: &str) -> Option<u32> {
    match text.strip_prefix("0x") {
        Some(digits) => read_hexadecimal(digits),
        None => read_decimal(text),
    }
}

// The numbers that spaces part. None where one is none.
fn read_numbers(alloc: Global, text: &str) -> Result<Option<Vec<u32>>, NoMemory> {
    let mut numbers = Vec::new(alloc);
    if !text.is_empty() {
        for part in text.split(' ') {
            match read_number(part) {
                Some(number) => numbers.push(number)?,
                None => return Ok(None),
            }
        }
    }
    Ok(Some(numbers))
}

// Adds what a call answered.
fn add_answer(text: &mut String, answer: Option<u32>) -> Result<(), NoMemory> {
    match answer {
        Some(number) => write!(text, " {number}")?,
        None => text.push_str(" none")?,
    }
    Ok(())
}

// Adds what a collection left.
fn add_collection(text: &mut String, heap: &mut CaseHeap, roots: &[u32]) -> Result<(), NoMemory> {
    match heap.collect(roots) {
        Some(left) => write!(text, " free {}, largest {}", left.free, left.largest)?,
        None => text.push_str(" none")?,
    }
    Ok(())
}

// Plays a line with these numbers, and adds what each call answered.
fn play(
    text: &mut String,
    heap: &mut CaseHeap,
    word: &str,
    numbers: &[u32],
) -> Result<(), NoMemory> {
    match (word, numbers) {
        ("collect", roots) => add_collection(text, heap, roots)?,
        ("write", [place, word]) => add_answer(text, heap.write(*place, *word))?,
        ("link", [place, word]) => add_answer(text, heap.link(*place, *word))?,
        ("back", [place, word]) => add_answer(text, heap.link_back(*place, *word))?,
        _ => {
            for number in numbers {
                add_answer(text, call(heap, word, *number))?;
            }
        }
    }
    Ok(())
}

// Calls what a word names with a number. None where it names no such call.
fn call(heap: &mut CaseHeap, word: &str, number: u32) -> Option<u32> {
    match word {
        "take" => heap.take(number),
        "give" => heap.give(number),
        "object" => heap.put_object(number),
        "join" => heap.join(number),
        _ => None,
    }
}

/// Plays the lines of a script, and says what each came to.
pub fn play_all(alloc: Global, script: &str) -> Result<String, NoMemory> {
    let mut text = String::new(alloc);
    let mut heap = CaseHeap::new(alloc)?;
    for line in script.lines() {
        if line.is_empty() || line.starts_with('#') {
            continue;
        }
        let (word, rest) = line.split_once(' ').unwrap_or((line, ""));
        if word == "case" {
            writeln!(text, "{rest}")?;
            heap = CaseHeap::new(alloc)?;
            continue;
        }
        write!(text, "  {line}:")?;
        match read_numbers(alloc, rest)? {
            Some(numbers) => play(&mut text, &mut heap, word, &numbers)?,
            None => text.push_str(" unread")?,
        }
        text.push('\n')?;
    }
    Ok(text)
}
