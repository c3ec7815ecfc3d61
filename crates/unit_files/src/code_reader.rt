// The readers of the code, and of the blocks, marks and fix-ups that say something of it.
ghost use Rattle.std.specs.Prelude.{◌≡◌, ◌≤◌, ◌<◌, ℕ, [], Some, Err};
ghost use Rattle.file_fields.specs.Reading.{GivesView};
ghost use Rattle.tal_image.specs.Conditions.{same_number};
ghost use Rattle.tal_image.specs.CodeReading.{place_fits, offset_fits};
ghost use Rattle.unit_files.specs.Conditions.{marked_rows, fixed_rows, is_null_tag};
ghost use Rattle.unit_files.specs.CodeWords.{unit_starts_at, lacks_function, unit_mark_says, unit_mark_by, fixup_by};
ghost use Rattle.unit_files.specs.Fields.{tables_behind, unit_block_where};
ghost use Rattle.unit_files.specs.Formed.{after_unit_block, after_unit_mark, after_fixup};
ghost use Rattle.unit_files.specs.Unit.{own_functions};

use crate::code_places::{CodeByte, byte_at};
use crate::parts::{FixUp, UnitBlock, UnitFun, UnitMark};
use crate::row_reader::{UnitHeader, below};
use file_fields::{ImageFault, Reader, RowAfter, require};
use ia32_code::{Decoded, decode};
use std::alloc::Global;
use tal_image::{BlockPart, BlockPlaces, FunctionPart, Start, code, start_at};

/// The fault of code without a function, at its first byte.
fn no_function(reader: &Reader<'_>) -> ImageFault
    ensures { (n : ℕ) → 0 < n → unit_starts_at [] n reader.now.file.now reader.now.at ≡ Err result }
{
    let (_, rest) = reader.file.split_at(reader.at);
    let refused = ImageFault::Bad {
        at: reader.at as u32,
        field: 23,
    };
    match decode(rest) {
        Decoded::Short => ImageFault::Short {
            at: reader.file.len() as u32,
        },
        Decoded::One { .. } => refused,
        Decoded::Unknown => refused,
    }
}

/// Whether there is code and no function that it belongs to.
fn lacks_function(functions: &[UnitFun], size: u32) -> bool
    ensures { result ≡ lacks_function functions.now size }
{
    functions.is_empty() && size > 0
}

/// The instructions of a unit's functions, where these are those whose code is in it, and the code has so many bytes: for
/// each byte what begins there.
pub(crate) fn unit_code(
    alloc: Global,
    reader: &mut Reader<'_>,
    functions: &[UnitFun],
    own: &[FunctionPart],
    size: u32,
) -> Result<Vec<Start>, ImageFault>
    requires { own.now ≡ own_functions functions.now }
    ensures gives { GivesView (λ v. v.items) result (unit_starts_at functions.now size reader.old.file.now reader.old.at) reader.new.at }
    ensures file { reader.new.file ≡ reader.old.file }
    ensures onward { reader.old.at ≤ reader.new.at }
{
    if lacks_function(functions, size) {
        return Err(no_function(reader));
    }
    code(alloc, reader, own)
}

impl<'a> RowAfter<BlockPlaces<'a>, u64> for UnitBlock {
    ghost fields = { λ p later least. unit_block_where p.tables (place_fits p.instructions.now p.functions.now least) };

    ghost after = { after_unit_block };

    #[tactic(auto, using(crate::proofs::Reading::CodeRows::block_run))]
    fn read(
        alloc: Global,
        reader: &mut Reader<'_>,
        places: &BlockPlaces<'a>,
        later: u32,
        kept: &mut u64,
    ) -> Result<UnitBlock, ImageFault> {
        let block = <BlockPart as RowAfter<BlockPlaces<'a>, u64>>::read(
            alloc, reader, places, later, kept,
        )?;
        let regs = block.types;
        Ok(UnitBlock {
            offset: block.offset,
            regs,
            slots: block.slots,
        })
    }
}

/// What marks and fix-ups look at: the header, and for each byte of the code what begins there and what else is known of it.
#[derive(Drop)]
pub(crate) struct CodePlaces<'a> {
    pub header: UnitHeader,
    pub starts: &'a [Start],
    pub bytes: &'a [CodeByte],
}

/// Whether a mark's tag is one of null.
fn is_null_tag(tag: u32) -> bool
    ensures { result ≡ is_null_tag tag }
{
    tag == 1 || tag == 3 || tag == 5
}

impl UnitHeader {
    /// How many rows a mark's tag may name.
    #[tactic(auto, unfolding(crate::specs::Conditions::marked_rows))]
    fn marked_rows(&self, tag: u32) -> u32
        ensures { result ≡ marked_rows (tables_behind self.now) self.now.image.functions self.now.image.arrays tag }
    {
        match tag {
            1 | 7 => self.image.classes,
            3 | 8 => self.image.kinds,
            5 => self.image.sigs,
            6 => self.image.functions,
            10 => self.image.arrays,
            _ => 0,
        }
    }

    /// How many things a fix-up's kind may name.
    #[tactic(auto, unfolding(crate::specs::Conditions::fixed_rows))]
    fn fixed_rows(&self, kind: u32) -> u32
        ensures { result ≡ fixed_rows (tables_behind self.now) self.now.image.functions self.now.image.arrays self.now.image.statics kind }
    {
        match kind {
            1 => self.image.classes,
            2 => self.image.kinds,
            3 | 6 => self.image.functions,
            4 => self.image.arrays,
            5 => self.image.statics,
            7 => 11,
            _ => 0,
        }
    }
}

/// Whether there is a number and it is 0.
#[tactic(auto, unfolding(tal_image::specs::Conditions::same_number))]
fn is_zero(number: Option<u32>) -> bool
    ensures { result ≡ same_number (Some 0) number }
{
    match number {
        Some(number) => 0 == number,
        None => false,
    }
}

impl CodePlaces<'_> {
    /// Whether a mark may stand at an offset: it is at least this, and an instruction with an immediate number begins there.
    #[tactic(auto, unfolding(tal_image::specs::CodeReading::offset_fits))]
    fn has_mark(&self, least: u64, offset: u32) -> bool
        ensures { result ≡ offset_fits self.now.starts.now least offset }
    {
        least <= u64::from(offset) && start_at(self.starts, offset).number().is_some()
    }

    /// Whether a mark at an offset may have a tag and an index.
    #[tactic(auto, unfolding(crate::specs::CodeWords::unit_mark_says))]
    fn says(&self, offset: u32, tag: u32, index: u32) -> bool
        ensures { result ≡ unit_mark_says self.now.header self.now.starts.now self.now.bytes.now offset tag index }
    {
        let is_there = index < self.header.marked_rows(tag);
        let is_open = is_zero(start_at(self.starts, offset).number());
        let is_wide = is_null_tag(tag) || byte_at(self.bytes, offset).wide;
        is_there && is_open && is_wide
    }
}

impl<'a> RowAfter<CodePlaces<'a>, u64> for UnitMark {
    ghost fields = { λ p later least. unit_mark_by p.header p.starts.now p.bytes.now least };

    ghost after = { after_unit_mark };

    #[tactic(auto, using(crate::proofs::Reading::CodeRows::mark_run))]
    fn read(
        _alloc: Global,
        reader: &mut Reader<'_>,
        places: &CodePlaces<'a>,
        _later: u32,
        kept: &mut u64,
    ) -> Result<UnitMark, ImageFault> {
        let least = *kept;
        let at = reader.at as u32;
        let offset = reader.number()?;
        require(places.has_mark(least, offset), at, 26)?;
        let at = reader.at as u32;
        let (tag, index) = reader.pair()?;
        require(places.says(offset, tag, index), at, 27)?;
        *kept = u64::from(offset) + 1;
        Ok(UnitMark { offset, tag, index })
    }
}

impl<'a> RowAfter<CodePlaces<'a>, u64> for FixUp {
    ghost fields = { λ p later least. fixup_by p.header p.bytes.now least };

    ghost after = { after_fixup };

    #[tactic(auto, using(crate::proofs::Reading::CodeRows::fixup_run), unfolding(crate::specs::CodeWords::hole_fits))]
    fn read(
        _alloc: Global,
        reader: &mut Reader<'_>,
        places: &CodePlaces<'a>,
        _later: u32,
        kept: &mut u64,
    ) -> Result<FixUp, ImageFault> {
        let least = *kept;
        let at = reader.at as u32;
        let offset = reader.number()?;
        let is_later = least <= u64::from(offset);
        require(is_later && byte_at(places.bytes, offset).hole, at, 30)?;
        let kind = reader.ranged(1, 7, 30)?;
        let index = below(reader, places.header.fixed_rows(kind), 30)?;
        *kept = u64::from(offset) + 1;
        Ok(FixUp {
            offset,
            kind,
            index,
        })
    }
}
