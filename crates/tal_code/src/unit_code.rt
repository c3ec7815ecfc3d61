// The code of a unit so far.
ghost use Rattle.std.specs.Prelude.{◌≡◌, ℕ, ◌≤◌, ◌+◌, ◌++◌, true, length, Some, take, drop, IfOk, IfSome, OnOk};
ghost use Rattle.tal_image.specs.Conditions.{most_code};
ghost use Rattle.tal_code.specs.Holes.{zeroed_hole, open_bytes, PlacesWithin};
ghost use Rattle.tal_code.specs.Functions.{no_code, most_blocks, instruction_marks, fixups_of, with_inst, with_block, has_room};

use crate::holes::{HolePlace, HoledCode};
use no_memory::NoMemory;
use std::alloc::Global;
use std::marker::Model;
use tal_operands::Sense;
use tal_types::Ty;
use unit_files::{FixUp, TyList, UnitBlock, UnitMark};

/// The code of a unit, of its functions so far: bytes with 0 in what is left to the linker, and the blocks, marks and fix-ups,
/// with offsets in the code. Contracts see it as these lists, which are within the limits of a unit.
#[derive(Drop)]
pub struct UnitCode {
    pub(crate) code: Vec<u8>,
    pub(crate) blocks: Vec<UnitBlock>,
    pub(crate) marks: Vec<UnitMark>,
    pub(crate) fixups: Vec<FixUp>,
}

impl Model for UnitCode {
    ghost use Rattle.std.specs.Prelude.{length, ◌≤◌};
    ghost use Rattle.tal_image.specs.Conditions.{most_code};
    ghost use Rattle.tal_code.specs.Functions.{UnitCodeView, most_blocks, most_marks, most_fixups};

    ghost Value = { UnitCodeView };

    ghost view = { λ u. record { code = u.code.items; blocks = u.blocks.items; marks = u.marks.items; fixups = u.fixups.items } };

    ghost invariant = { λ u. (length u.code.items ≤ most_code) × (length u.blocks.items ≤ most_blocks) × (length u.marks.items ≤ most_marks) × (length u.fixups.items ≤ most_fixups) };
}

/// The rows of a unit that its code makes.
#[derive(Drop)]
pub struct CodeRows {
    pub code: Vec<u8>,
    pub blocks: Vec<UnitBlock>,
    pub marks: Vec<UnitMark>,
    pub fixups: Vec<FixUp>,
}

// Puts 0 into the word at a place behind the start.
fn clear_hole(code: &mut [u8], start: usize, place: Option<HolePlace>)
    requires { IfSome place (λ p. start + p.at + 4 ≤ length code.old) }
    ensures bytes { code.new ≡ take start code.old ++ zeroed_hole place (drop start code.old) }
    ensures length { length code.new ≡ length code.old }
{
    match place {
        None => {}
        Some(place) => {
            let at = start + usize::from(place.at);
            code[at..at + 4].copy_from_slice(&[0; 4]);
        }
    }
}

// Puts the bytes of an instruction last, with 0 in its holes.
fn push_open(code: &mut Vec<u8>, holed: &HoledCode) -> Result<(), NoMemory>
    requires { PlacesWithin holed.now }
    ensures { OnOk result (code.new.items ≡ code.old.items ++ open_bytes holed.now) }
{
    let start = code.len();
    code.extend_from_slice(holed.bytes.bytes())?;
    let bytes = code.as_mut_slice();
    clear_hole(bytes, start, holed.near);
    clear_hole(bytes, start, holed.far);
    Ok(())
}

// Puts the mark of an instruction last, if it has one.
#[tactic(auto, unfolding(crate::specs::Functions::instruction_marks))]
fn push_mark(marks: &mut Vec<UnitMark>, offset: u32, sense: Option<Sense>) -> Result<(), NoMemory>
    ensures { OnOk result (marks.new.items ≡ marks.old.items ++ instruction_marks offset sense) }
{
    if let Some(sense) = sense {
        marks.push(UnitMark {
            offset,
            tag: sense.tag,
            index: sense.index,
        })?;
    }
    Ok(())
}

// Puts the fix-up of a hole last, if there is one.
#[tactic(auto, unfolding(crate::specs::Functions::fixups_of))]
fn push_fixup(
    fixups: &mut Vec<FixUp>,
    offset: u32,
    place: Option<HolePlace>,
) -> Result<(), NoMemory>
    requires { offset ≤ most_code }
    ensures { OnOk result (fixups.new.items ≡ fixups.old.items ++ fixups_of offset place) }
{
    if let Some(place) = place {
        fixups.push(FixUp {
            offset: offset + u32::from(place.at),
            kind: place.hole.kind,
            index: place.hole.index,
        })?;
    }
    Ok(())
}

// How many bytes an instruction has.
fn open_length(holed: &HoledCode) -> usize
    requires { PlacesWithin holed.now }
    ensures bytes { result ≡ length (open_bytes holed.now) }
    ensures few { result ≤ 16 }
{
    holed.bytes.bytes().len()
}

// How many marks an instruction has.
#[tactic(auto, unfolding(crate::specs::Functions::instruction_marks))]
fn mark_count(sense: Option<Sense>) -> usize
    ensures marks { (offset : ℕ) → length (instruction_marks offset sense) ≡ result }
    ensures few { result ≤ 1 }
{
    match sense {
        Some(_) => 1,
        None => 0,
    }
}

// How many fix-ups a hole has.
#[tactic(auto, unfolding(crate::specs::Functions::fixups_of))]
fn fixup_count(place: Option<HolePlace>) -> usize
    ensures fixups { (offset : ℕ) → length (fixups_of offset place) ≡ result }
    ensures few { result ≤ 1 }
{
    match place {
        Some(_) => 1,
        None => 0,
    }
}

impl UnitCode {
    /// No code. It takes no memory.
    pub fn new(alloc: Global) -> UnitCode
        ensures { result ≡ no_code }
    {
        UnitCode {
            code: Vec::new(alloc),
            blocks: Vec::new(alloc),
            marks: Vec::new(alloc),
            fixups: Vec::new(alloc),
        }
    }

    /// How many bytes the code has, 1048576 at most.
    pub fn len(&self) -> u32
        ensures bytes { result ≡ length self.now.code }
        ensures few { result ≤ most_code }
    {
        self.code.len() as u32
    }

    // How many blocks there are.
    pub(crate) fn block_count(&self) -> u32
        ensures { result ≡ length self.now.blocks }
    {
        self.blocks.len() as u32
    }

    /// The rows that the code makes.
    pub fn into_rows(self) -> CodeRows
        ensures code { result.code.items ≡ self.code }
        ensures blocks { result.blocks.items ≡ self.blocks }
        ensures marks { result.marks.items ≡ self.marks }
        ensures fixups { result.fixups.items ≡ self.fixups }
    {
        let UnitCode {
            code,
            blocks,
            marks,
            fixups,
        } = self;
        CodeRows {
            code,
            blocks,
            marks,
            fixups,
        }
    }

    /// Whether there is room for an instruction; one without a spelling takes none.
    #[tactic(auto, unfolding(crate::specs::Functions::has_room, crate::specs::Functions::with_inst))]
    pub(crate) fn has_room(&self, sense: Option<Sense>, holed: &Option<HoledCode>) -> bool
        requires { IfSome holed.now PlacesWithin }
        ensures { result ≡ has_room (with_inst self.now sense holed.now) }
    {
        let bytes = self.code.len();
        let Some(holed) = holed else {
            return true;
        };
        let fixups = self.fixups.len() + fixup_count(holed.near) + fixup_count(holed.far);
        bytes + open_length(holed) <= 1_048_576
            && self.marks.len() + mark_count(sense) <= 65536
            && fixups <= 262_144
    }

    /// The code with an instruction more, for which there is room.
    #[tactic(auto, unfolding(crate::specs::Functions::with_inst))]
    pub(crate) fn with_inst(
        mut self,
        sense: Option<Sense>,
        holed: &HoledCode,
    ) -> Result<UnitCode, NoMemory>
        requires room { has_room (with_inst self sense (Some holed.now)) ≡ true }
        requires places { PlacesWithin holed.now }
        ensures { IfOk result (λ u. u ≡ with_inst self sense (Some holed.now)) }
    {
        let offset = self.len();
        push_open(&mut self.code, holed)?;
        push_mark(&mut self.marks, offset, sense)?;
        push_fixup(&mut self.fixups, offset, holed.near)?;
        push_fixup(&mut self.fixups, offset, holed.far)?;
        Ok(self)
    }

    /// The code with a block more, where there are fewer than the most.
    #[tactic(auto, unfolding(crate::specs::Functions::with_block))]
    pub(crate) fn with_block(mut self, regs: [Ty; 7], slots: Vec<Ty>) -> Result<UnitCode, NoMemory>
        requires { length self.blocks + 1 ≤ most_blocks }
        ensures { IfOk result (λ u. u ≡ with_block self regs slots.items) }
    {
        let offset = self.len();
        self.blocks.push(UnitBlock {
            offset,
            regs,
            slots: TyList::of(slots),
        })?;
        Ok(self)
    }
}
