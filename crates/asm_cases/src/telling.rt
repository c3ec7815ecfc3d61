// What a text comes to: the rows of its unit, or its first fault.
use crate::unplayed::Unplayed;
use std::alloc::{AllocError, Global};
use std::fmt::Debug;
use tal_asm::{AsmAnswer, assemble};
use tal_syntax::{Module, Name, TextAnswer, parse};
use unit_files::{Unit, UnitBlock, UnitClass, UnitSig};

/// More than the bytes of any case.
const MOST: usize = 1_000_000;

// Adds the names, in a line.
fn tell_names(told: &mut String, names: &[Name]) -> Result<(), AllocError> {
    told.push_str("  names")?;
    for name in names {
        told.push(' ')?;
        for letter in name.bytes() {
            told.push(char::from(*letter))?;
        }
    }
    told.push('\n')
}

// Adds rows, each in a line.
fn tell_rows<T: Debug>(told: &mut String, rows: &[T]) -> Result<(), AllocError> {
    for row in rows {
        writeln!(told, "  {row:?}")?;
    }
    Ok(())
}

// Adds values in a line.
fn tell_values<T: Debug>(told: &mut String, values: &[T]) -> Result<(), AllocError> {
    for value in values {
        write!(told, " {value:?}")?;
    }
    told.push('\n')
}

// Adds how a row is named.
fn tell_name(told: &mut String, table: &str, name: u32, ext: bool) -> Result<(), AllocError> {
    write!(told, "  {table} of name {name}")?;
    told.push_str(if ext { ", extern:" } else { ":" })
}

// Adds signatures.
fn tell_sigs(told: &mut String, sigs: &[UnitSig]) -> Result<(), AllocError> {
    for sig in sigs {
        tell_name(told, "signature", sig.name, sig.ext)?;
        writeln!(told, " {:?}", sig.sig)?;
    }
    Ok(())
}

// Adds classes.
fn tell_classes(told: &mut String, classes: &[UnitClass]) -> Result<(), AllocError> {
    for class in classes {
        tell_name(told, "class", class.name, class.ext)?;
        write!(told, " below {:?}, fields", class.row.parent)?;
        tell_values(told, class.row.fields.items())?;
        told.push_str("    methods")?;
        tell_values(told, class.row.methods.items())?;
    }
    Ok(())
}

// Adds the numbers of the data arrays.
fn tell_numbers(told: &mut String, numbers: &[u32]) -> Result<(), AllocError> {
    told.push_str("  numbers")?;
    tell_values(told, numbers)
}

// Adds the code's bytes, in a line.
fn tell_code(told: &mut String, code: &[u8]) -> Result<(), AllocError> {
    told.push_str("  code ")?;
    for byte in code {
        write!(told, "{byte:02X}")?;
    }
    told.push('\n')
}

// Adds the annotations of blocks.
fn tell_blocks(told: &mut String, blocks: &[UnitBlock]) -> Result<(), AllocError> {
    for block in blocks {
        write!(told, "  block at {}: {:?}, slots", block.offset, block.regs)?;
        tell_values(told, block.slots.items())?;
    }
    Ok(())
}

// Adds the tables of a unit.
fn tell_tables(told: &mut String, unit: &Unit) -> Result<(), AllocError> {
    writeln!(
        told,
        "  heap {} stacks {}",
        unit.heap_words(),
        unit.stacks()
    )?;
    tell_names(told, unit.names())?;
    tell_sigs(told, unit.sigs())?;
    tell_rows(told, unit.functions())?;
    tell_rows(told, unit.entries())?;
    tell_classes(told, unit.classes())?;
    tell_rows(told, unit.kinds())?;
    tell_rows(told, unit.statics())?;
    tell_rows(told, unit.data_rows())?;
    tell_numbers(told, unit.data_words())
}

// Adds the code of a unit, and the rows that stand behind it.
fn tell_places(told: &mut String, unit: &Unit) -> Result<(), AllocError> {
    tell_code(told, unit.code())?;
    tell_blocks(told, unit.blocks())?;
    tell_rows(told, unit.marks())?;
    tell_rows(told, unit.fixups())
}

// Adds a unit.
fn tell_unit(alloc: Global, told: &mut String, unit: &Unit) -> Result<(), Unplayed> {
    tell_tables(told, unit)?;
    tell_places(told, unit)?;
    let file = unit.write(alloc)?;
    writeln!(told, "  file of {} bytes", file.len())?;
    Ok(())
}

// Adds the unit of a module, or its first fault.
fn tell_module(alloc: Global, told: &mut String, module: &Module) -> Result<(), Unplayed> {
    match assemble(alloc, module) {
        Ok(unit) => tell_unit(alloc, told, &unit),
        Err(AsmAnswer::Fault(fault)) => {
            writeln!(told, "  line {} code {}", fault.line, fault.code)?;
            Ok(())
        }
        Err(AsmAnswer::NoMemory) => Err(Unplayed::NoMemory),
    }
}

/// Adds what a text comes to.
pub fn tell_text(alloc: Global, told: &mut String, text: &[u8]) -> Result<(), Unplayed> {
    if text.len() > MOST {
        return Err(Unplayed::Form);
    }
    match parse(alloc, text) {
        Ok(module) => tell_module(alloc, told, &module),
        Err(TextAnswer::Fault(fault)) => {
            writeln!(
                told,
                "  line {} column {} code {}",
                fault.line, fault.column, fault.code
            )?;
            Ok(())
        }
        Err(TextAnswer::NoMemory) => Err(Unplayed::NoMemory),
    }
}
