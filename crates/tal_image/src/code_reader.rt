// The readers of the code, and of the blocks and marks that say something of it.
ghost use Rattle.std.specs.Prelude.{◌≡◌, ◌≤◌, ◌++◌, true, false, IfOk, OnOk, map};
ghost use Rattle.file_fields.specs.Reading.{GivesView};
ghost use Rattle.tal_image.specs.CodeReading.{headed, function_starts, starts_at, starts_behind, body_at, code_at, place_fits, offset_fits, mark_says};
ghost use Rattle.tal_image.specs.Fields.{block_where, mark_where, after_block, after_mark};
ghost use Rattle.tal_image.specs.Kept.{data_place};

use crate::mark_words::MarkWords;
use crate::parts::{BlockPart, FunctionPart, MarkPart, Tables, TypeList};
use crate::row_reader::seven;
use crate::start::{Start, put_instruction, start_at};
use file_fields::{ImageFault, Reader, RowAfter, require};
use ia32_code::{Decoded, decode};
use no_memory::NoMemory;
use std::alloc::Global;
use tal_types::Ty;

/// Puts so many bytes behind others, of which the first begins something.
#[tactic(auto, unfolding(crate::specs::CodeReading::headed))]
fn put_span(starts: &mut Vec<bool>, length: u32) -> Result<(), NoMemory>
    ensures { OnOk result (starts.new.items ≡ starts.old.items ++ headed true false length) }
{
    let end = starts.len() + length as usize;
    if length > 0 {
        starts.push(true)?;
    }
    starts.resize(end, false)?;
    Ok(())
}

/// For each byte of the code, whether a function begins there.
pub fn function_starts(alloc: Global, functions: &[FunctionPart]) -> Result<Vec<bool>, NoMemory>
    ensures { IfOk result (λ starts. starts.items ≡ function_starts functions.now) }
{
    let mut starts = Vec::new(alloc);
    for function in functions {
        put_span(&mut starts, function.length)?;
    }
    Ok(starts)
}

/// Whether something begins at a byte.
fn starts_at(starts: &[bool], offset: u32) -> bool
    ensures { result ≡ starts_at starts.now offset }
{
    starts.get(offset as usize).copied().unwrap_or(false)
}

/// Whether a block may begin at an offset.
#[tactic(auto, unfolding(crate::specs::CodeReading::place_fits))]
fn place_fits(instructions: &[Start], functions: &[bool], least: u64, offset: u32) -> bool
    ensures { result ≡ place_fits instructions.now functions.now least offset }
{
    least <= u64::from(offset)
        && start_at(instructions, offset).is_start()
        && !starts_at(functions, offset)
}

/// The next instructions, of so many bytes in all; what begins at each byte stands then behind `starts`.
fn body(reader: &mut Reader<'_>, starts: &mut Vec<Start>, size: u32) -> Result<(), ImageFault>
    ensures gives { GivesView (λ u. starts.new.items) result (starts_behind starts.old.items (body_at size reader.old.file.now reader.old.at)) reader.new.at }
    ensures file { reader.new.file ≡ reader.old.file }
    ensures onward { reader.old.at ≤ reader.new.at }
{
    let mut left = size;
    while left > 0 {
        let rest = &reader.file[reader.at..];
        match decode(rest) {
            Decoded::One { inst, len } => {
                let length = u32::from(len);
                if length > left {
                    let at = reader.at as u32;
                    return Err(ImageFault::Bad { at, field: 23 });
                }
                put_instruction(starts, inst, length)?;
                reader.at += length as usize;
                left -= length;
            }
            Decoded::Short => {
                let at = reader.file.len() as u32;
                return Err(ImageFault::Short { at });
            }
            Decoded::Unknown => {
                let at = reader.at as u32;
                return Err(ImageFault::Bad { at, field: 23 });
            }
        }
    }
    Ok(())
}

/// The instructions of the functions: for each byte what begins there.
pub fn code(
    alloc: Global,
    reader: &mut Reader<'_>,
    functions: &[FunctionPart],
) -> Result<Vec<Start>, ImageFault>
    ensures gives { GivesView (λ v. v.items) result (code_at functions.now reader.old.file.now reader.old.at) reader.new.at }
    ensures file { reader.new.file ≡ reader.old.file }
    ensures onward { reader.old.at ≤ reader.new.at }
{
    let mut starts = Vec::new(alloc);
    for function in functions {
        body(reader, &mut starts, function.length)?;
    }
    Ok(starts)
}

/// Where blocks may begin: for each byte of the code what begins there, and whether a function does.
#[derive(Drop)]
pub struct BlockPlaces<'a> {
    pub tables: Tables,
    pub instructions: &'a [Start],
    pub functions: &'a [bool],
}

impl<'a> RowAfter<BlockPlaces<'a>, u64> for BlockPart {
    ghost fields = { λ p later least. block_where p.tables (place_fits p.instructions.now p.functions.now least) };

    ghost after = { after_block };

    #[tactic(auto, using(crate::proofs::Reading::CodeRows::block_run))]
    fn read(
        alloc: Global,
        reader: &mut Reader<'_>,
        places: &BlockPlaces<'a>,
        _later: u32,
        kept: &mut u64,
    ) -> Result<BlockPart, ImageFault> {
        let least = *kept;
        let at = reader.at as u32;
        let offset = reader.number()?;
        require(
            place_fits(places.instructions, places.functions, least, offset),
            at,
            24,
        )?;
        let types = seven(alloc, reader, &places.tables)?;
        let count = reader.ranged(0, 64, 25)?;
        let slots = reader.rows::<Tables, Ty>(alloc, &places.tables, count)?;
        *kept = u64::from(offset) + 1;
        Ok(BlockPart {
            offset,
            types,
            slots: TypeList::of(slots),
        })
    }
}

/// Where marks may stand, and what they stand for: for each byte of the code what begins there, and the words of marks.
#[derive(Drop)]
pub(crate) struct MarkPlaces<'a> {
    pub words: &'a MarkWords,
    pub starts: &'a [Start],
}

impl<'a> RowAfter<MarkPlaces<'a>, u64> for MarkPart {
    ghost fields = { λ p later least. mark_where (offset_fits p.starts.now least) (mark_says p.words.now.tables (map (λ f. f.address) p.words.now.funs.items) (map (data_place p.words.now.statics) p.words.now.offsets.items) p.starts.now) };

    ghost after = { after_mark };

    #[tactic(auto, using(crate::proofs::Reading::CodeRows::mark_run), unfolding(crate::specs::CodeReading::offset_fits))]
    fn read(
        _alloc: Global,
        reader: &mut Reader<'_>,
        places: &MarkPlaces<'a>,
        _later: u32,
        kept: &mut u64,
    ) -> Result<MarkPart, ImageFault> {
        let least = *kept;
        let at = reader.at as u32;
        let offset = reader.number()?;
        if u64::from(offset) < least {
            return Err(ImageFault::Bad { at, field: 26 });
        }
        let Some(number) = start_at(places.starts, offset).number() else {
            return Err(ImageFault::Bad { at, field: 26 });
        };
        let at = reader.at as u32;
        let (tag, index) = reader.pair()?;
        require(places.words.is_word(tag, index, number), at, 27)?;
        *kept = u64::from(offset) + 1;
        Ok(MarkPart { offset, tag, index })
    }
}
