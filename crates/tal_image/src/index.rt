// Where rows stand by their offsets in the code: made once for an image, so that each look-up is one step.
ghost use Rattle.std.specs.Prelude.{◌≡◌, ◌≤◌, ℕ, length, map, IfOk};
ghost use Rattle.tal_image.specs.Kept.{RisesBy, IsIndex, kept_place, owners};

use crate::parts::{BlockPart, FunctionPart, MarkPart};
use no_memory::NoMemory;
use std::alloc::Global;

/// An index of rising numbers: at each of them one more than its place among them, and 0 elsewhere.
pub(crate) fn index_of(alloc: Global, rising: &[u32]) -> Result<Vec<u32>, NoMemory>
    requires few { length rising.now ≤ 65536 }
    requires rising { RisesBy (λ (n : ℕ). n) rising.now }
    ensures { IfOk result (λ places. IsIndex (λ (n : ℕ). n) rising.now places.items) }
{
    let mut places = Vec::new(alloc);
    let mut next: u32 = 0;
    for number in rising {
        places.resize(*number as usize, 0)?;
        next += 1;
        places.push(next)?;
    }
    Ok(places)
}

/// The place that an index has for a number.
pub(crate) fn place_in(places: &[u32], number: u32) -> Option<usize>
    ensures { result ≡ kept_place places.now number }
{
    let next = places.get(number as usize).copied().unwrap_or(0);
    if next > 0 {
        Some(next as usize - 1)
    } else {
        None
    }
}

/// Where blocks begin in the code.
pub(crate) fn block_offsets(alloc: Global, blocks: &[BlockPart]) -> Result<Vec<u32>, NoMemory>
    ensures { IfOk result (λ offsets. offsets.items ≡ map (λ b. b.offset) blocks.now) }
{
    let offsets = blocks.iter().map(|b| b.offset).collect(alloc)?;
    Ok(offsets)
}

/// Where the instructions of marks begin in the code.
pub(crate) fn mark_offsets(alloc: Global, marks: &[MarkPart]) -> Result<Vec<u32>, NoMemory>
    ensures { IfOk result (λ offsets. offsets.items ≡ map (λ m. m.offset) marks.now) }
{
    let offsets = marks.iter().map(|m| m.offset).collect(alloc)?;
    Ok(offsets)
}

/// For each byte of the code the number of the function that has it.
pub(crate) fn owners(alloc: Global, functions: &[FunctionPart]) -> Result<Vec<u32>, NoMemory>
    requires { length functions.now ≤ 16384 }
    ensures { IfOk result (λ all. all.items ≡ owners 0 functions.now) }
{
    let mut all = Vec::new(alloc);
    let mut next: u32 = 0;
    for function in functions {
        let end = all.len() + function.length as usize;
        all.resize(end, next)?;
        next += 1;
    }
    Ok(all)
}
