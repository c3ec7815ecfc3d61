// What a file stands for, as text.
use crate::unplayed::Unplayed;
use file_fields::ImageFault;
use std::alloc::{AllocError, Global};
use unit_files::Unit;

/// Adds bytes as hexadecimal digits, in a line.
pub fn tell_bytes(told: &mut String, bytes: &[u8]) -> Result<(), AllocError> {
    told.push_str("  ")?;
    for byte in bytes {
        write!(told, "{byte:02X}")?;
    }
    told.push('\n')
}

// Adds how many rows stand before the code.
fn tell_front(told: &mut String, unit: &Unit) -> Result<(), AllocError> {
    write!(
        told,
        "heap {} stacks {} names {} sigs {} functions {} entries {} classes {} kinds {}",
        unit.heap_words(),
        unit.stacks(),
        unit.names().len(),
        unit.sigs().len(),
        unit.functions().len(),
        unit.entries().len(),
        unit.classes().len(),
        unit.kinds().len()
    )
}

// Adds how many rows of data there are, how long the code is, and how many rows stand behind it.
fn tell_code(told: &mut String, unit: &Unit) -> Result<(), AllocError> {
    write!(
        told,
        " statics {} arrays {} words {} code {} blocks {} marks {} fixups {}",
        unit.statics().len(),
        unit.data_rows().len(),
        unit.data_words().len(),
        unit.code().len(),
        unit.blocks().len(),
        unit.marks().len(),
        unit.fixups().len()
    )
}

// Adds a unit, and whether it is written as the file from which it was read.
fn tell_unit(alloc: Global, told: &mut String, unit: &Unit, file: &[u8]) -> Result<(), Unplayed> {
    tell_front(told, unit)?;
    tell_code(told, unit)?;
    let written = unit.write(alloc)?;
    let same = written.as_slice() == file;
    told.push_str(if same {
        ", written so\n"
    } else {
        ", written otherwise\n"
    })?;
    Ok(())
}

// Adds a fault.
fn tell_fault(told: &mut String, fault: ImageFault) -> Result<(), Unplayed> {
    match fault {
        ImageFault::NoMemory => Err(Unplayed::NoMemory),
        _ => {
            writeln!(told, "{fault:?}")?;
            Ok(())
        }
    }
}

/// Adds what the bytes of a file stand for.
pub fn tell_file(alloc: Global, told: &mut String, file: &[u8]) -> Result<(), Unplayed> {
    match Unit::read(alloc, file) {
        Ok(unit) => tell_unit(alloc, told, &unit, file),
        Err(fault) => tell_fault(told, fault),
    }
}
