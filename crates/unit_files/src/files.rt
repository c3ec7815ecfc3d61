ghost use Rattle.std.specs.Prelude.{◌≡◌, ◌⊎◌, IfOk, IfErr, MatchResult};
ghost use Rattle.file_fields.specs.declared.fault.ImageFault.{ImageFault};
ghost use Rattle.unit_files.specs.Fields.{FirstUnitFault};
ghost use Rattle.unit_files.specs.Formed.{UnitOf};
ghost use Rattle.unit_files.specs.Unit.{UnitParts, UnitFileOf, unit_header};

use crate::laws::one_meaning;
use crate::parts::MAGIC;
use crate::unit::Unit;
use crate::unit_reader::unit_rows;
use crate::writing::UnitFile;
use file_fields::{ImageFault, put_all};
use no_memory::NoMemory;
use std::alloc::Global;

impl Unit {
    /// The unit for which the bytes of a file stand. A refusal is the file's first fault, or want of memory.
    pub fn read(alloc: Global, bytes: &[u8]) -> Result<Unit, ImageFault>
        ensures ok { IfOk result (λ u. UnitOf bytes.now u) }
        ensures whole { (u : UnitParts) → UnitOf bytes.now u → MatchResult result (λ v. v ≡ u) (λ e. e ≡ ImageFault.NoMemory) }
        ensures fault { IfErr result (λ e. (e ≡ ImageFault.NoMemory) ⊎ FirstUnitFault bytes.now e) }
        ensures first { (f : ImageFault) → FirstUnitFault bytes.now f → MatchResult result (λ _. ⊥) (λ e. (e ≡ f) ⊎ (e ≡ ImageFault.NoMemory)) }
    {
        one_meaning();
        let read = unit_rows(alloc, bytes)?;
        Ok(Unit::of(alloc, read.rows)?)
    }

    /// The numbers of the file's header.
    fn header(&self) -> [u32; 16]
        ensures { result ≡ unit_header self.now }
    {
        let rows = &self.rows;
        [
            MAGIC,
            1,
            rows.heap_words,
            rows.stacks,
            rows.sigs.len() as u32,
            rows.functions.len() as u32,
            rows.classes.len() as u32,
            rows.kinds.len() as u32,
            rows.statics.len() as u32,
            rows.arrays.len() as u32,
            rows.code.len() as u32,
            rows.blocks.len() as u32,
            rows.marks.len() as u32,
            rows.names.len() as u32,
            rows.entries.len() as u32,
            rows.fixups.len() as u32,
        ]
    }

    /// The file of the unit.
    pub fn write(&self, alloc: Global) -> Result<Vec<u8>, NoMemory>
        ensures file { IfOk result (λ bytes. bytes.items ≡ UnitFileOf self.now) }
        ensures stands { IfOk result (λ bytes. UnitOf bytes.items self.now) }
    {
        let rows = &self.rows;
        let mut file = Vec::new(alloc);
        put_all::<UnitFile, _>(&mut file, &self.header())?;
        put_all::<UnitFile, _>(&mut file, &rows.names)?;
        put_all::<UnitFile, _>(&mut file, &rows.sigs)?;
        put_all::<UnitFile, _>(&mut file, &rows.functions)?;
        put_all::<UnitFile, _>(&mut file, &rows.entries)?;
        put_all::<UnitFile, _>(&mut file, &rows.classes)?;
        put_all::<UnitFile, _>(&mut file, &rows.kinds)?;
        put_all::<UnitFile, _>(&mut file, &rows.statics)?;
        put_all::<UnitFile, _>(&mut file, &rows.arrays)?;
        file.extend_from_slice(&rows.code)?;
        put_all::<UnitFile, _>(&mut file, &rows.blocks)?;
        put_all::<UnitFile, _>(&mut file, &rows.marks)?;
        put_all::<UnitFile, _>(&mut file, &rows.fixups)?;
        Ok(file)
    }
}
