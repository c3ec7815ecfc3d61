// Whether the files of the sample kernel and its applications are the texts that the program has of them.
use no_memory::NoMemory;
use outside::{Files, ReadAnswer};
use sample_images::{app_source, kernel_source};
use std::alloc::Global;

// More than the bytes of any of these texts.
const MOST: usize = 10_000;

// Whether a file has just these bytes.
fn has_bytes<F: Files>(
    alloc: Global,
    files: &mut F,
    name: &str,
    text: &[u8],
) -> Result<bool, NoMemory> {
    match files.read(alloc, name, MOST) {
        Ok(bytes) => Ok(bytes.as_slice() == text),
        Err(ReadAnswer::Failed) => Ok(false),
        Err(ReadAnswer::NoMemory) => Err(NoMemory),
    }
}

// Adds whether a file is the text of the sample.
fn compare<F: Files>(
    alloc: Global,
    told: &mut String,
    files: &mut F,
    name: &str,
    text: &str,
) -> Result<(), NoMemory> {
    let is_same = has_bytes(alloc, files, name, text.as_bytes())?;
    writeln!(told, "{name} is the sample's text: {is_same}")?;
    Ok(())
}

/// Adds whether each file of the sample is its text.
pub fn compare_samples<F: Files>(
    alloc: Global,
    told: &mut String,
    files: &mut F,
) -> Result<(), NoMemory> {
    compare(alloc, told, files, "kernel.asm", kernel_source())?;
    compare(alloc, told, files, "app1.asm", app_source(1).unwrap_or(""))?;
    compare(alloc, told, files, "app2.asm", app_source(2).unwrap_or(""))
}
