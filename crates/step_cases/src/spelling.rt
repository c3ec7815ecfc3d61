// What bytes spell, as text.
use ia32_code::{CodeBuf, Decoded, Inst, decode, encode, len_of, whole_words};
use std::alloc::AllocError;

// Adds where a whole word begins in the bytes, or a dash.
fn push_place(text: &mut String, place: Option<u8>) -> Result<(), AllocError> {
    match place {
        Some(at) => write!(text, " {at}"),
        None => text.push_str(" -"),
    }
}

// Adds where the whole words of the bytes begin, the one within and the one at the end.
fn push_words(text: &mut String, bytes: &[u8]) -> Result<(), AllocError> {
    text.push_str(", words")?;
    match whole_words(bytes) {
        Some(words) => {
            push_place(text, words.within)?;
            push_place(text, words.at_end)
        }
        None => text.push_str(" none"),
    }
}

// Adds the canonical bytes of an instruction, and how many they are.
fn push_canonical(text: &mut String, inst: &Inst) -> Result<(), AllocError> {
    let mut room = CodeBuf::new();
    if encode(inst, &mut room).is_err() {
        return text.push_str(", canonical none");
    }
    text.push_str(", canonical ")?;
    for byte in room.bytes() {
        write!(text, "{byte:02X}")?;
    }
    write!(text, " of {}", len_of(inst))
}

/// Adds what bytes spell: the instruction with the bytes that it takes, its canonical bytes, and where its whole words begin.
pub fn push_spelled(text: &mut String, bytes: &[u8]) -> Result<(), AllocError> {
    match decode(bytes) {
        Decoded::Short => text.push_str("short")?,
        Decoded::Unknown => text.push_str("unknown")?,
        Decoded::One { inst, len } => {
            write!(text, "{inst:?} in {len}")?;
            push_canonical(text, &inst)?;
        }
    }
    push_words(text, bytes)
}
