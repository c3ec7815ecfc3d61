// What single lines need: numbers within their limits, and the numbers of data arrays. The codes: 12 what is given twice, 17 a
// number that does not fit.
ghost use Rattle.std.specs.Prelude.{◌≡◌, ◌<◌, ◌^◌, IfOk, IfSome, map};
ghost use Rattle.tal_names.specs.Declarations.{names_shown};
ghost use Rattle.tal_operands.specs.Addresses.{word};
ghost use Rattle.tal_rows.specs.Lines.{natural};
ghost use Rattle.tal_tables.specs.Rows.{heap_line, stacks_line, has_entry, array_numbers, name_number};

use no_memory::NoMemory;
use std::alloc::Global;
use tal_names::{ModuleNames, NameSet};
use tal_syntax::{Name, NumberList};
use unit_files::UnitEntry;

// A number that is not negative.
#[tactic(auto, unfolding(tal_rows::specs::Lines::natural))]
fn natural(number: i64) -> Option<u64>
    ensures { result ≡ natural number }
{
    if number < 0 {
        None
    } else {
        Some(number as u64)
    }
}

/// The words of a heap, which has so many already, or code 12 or 17: 64 to 4194304, a multiple of 4.
#[tactic(auto, unfolding(crate::specs::Rows::heap_line))]
pub(crate) fn heap_line(given: u32, number: i64) -> Result<u32, u8>
    ensures { result ≡ heap_line given number }
{
    if given != 0 {
        return Err(12);
    }
    let Some(words) = natural(number) else {
        return Err(17);
    };
    if !(64 <= words && words <= 4194304 && words % 4 == 0) {
        return Err(17);
    }
    Ok(words as u32)
}

/// The number of stacks, where there are so many already, or code 12 or 17: 2 to 64.
#[tactic(auto, unfolding(crate::specs::Rows::stacks_line))]
pub(crate) fn stacks_line(given: u32, number: i64) -> Result<u32, u8>
    ensures { result ≡ stacks_line given number }
{
    if given != 0 {
        return Err(12);
    }
    let Some(stacks) = natural(number) else {
        return Err(17);
    };
    if !(2 <= stacks && stacks <= 64) {
        return Err(17);
    }
    Ok(stacks as u32)
}

/// Whether a stack has an entry.
#[tactic(auto, unfolding(crate::specs::Rows::has_entry), using(crate::proofs::Limits::next_entry))]
pub(crate) fn has_entry(entries: &[UnitEntry], stack: i64) -> bool
    ensures { result ≡ has_entry entries.now stack }
{
    let Some(number) = natural(stack) else {
        return false;
    };
    for entry in entries {
        if u64::from(entry.stack) == number {
            return true;
        }
    }
    false
}

/// The number of a row's name among the names of the unit.
pub(crate) fn name_number(names: &NameSet, name: &Name) -> u32
    ensures { result ≡ name_number names.now name.now }
{
    match names.number(name.bytes()) {
        Some(number) => number,
        None => 0,
    }
}

// Numbers modulo 2^32.
fn words(alloc: Global, numbers: &[i64]) -> Result<Vec<u32>, NoMemory>
    ensures { IfOk result (λ words. words.items ≡ map word numbers.now) }
{
    let words = numbers
        .iter()
        .map(|number| (number.cast_unsigned() % 0x1_0000_0000) as u32)
        .collect(alloc)?;
    Ok(words)
}

/// The numbers of a data array of the kind, with so many elements.
#[tactic(auto, unfolding(crate::specs::Rows::array_numbers))]
pub(crate) fn array_numbers(
    alloc: Global,
    names: &ModuleNames,
    ext: bool,
    kind: u32,
    length: u64,
    numbers: &Option<NumberList>,
) -> Result<Vec<u32>, NoMemory>
    requires { length < 2 ^ 32 }
    ensures { IfOk result (λ found. found.items ≡ array_numbers (names_shown names.now) ext kind length numbers.now) }
{
    if ext {
        return Ok(Vec::new(alloc));
    }
    match numbers {
        Some(list) => words(alloc, list.items()),
        None => {
            let counts = match names.number_kinds.get(kind as usize) {
                Some(is_number) => *is_number,
                None => false,
            };
            if counts {
                Ok(vec![in alloc; 0; length as usize]?)
            } else {
                Ok(Vec::new(alloc))
            }
        }
    }
}
