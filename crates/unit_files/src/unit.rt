ghost use Rattle.std.specs.Prelude.{◌≡◌, ◌++◌, map, IfOk};
ghost use Rattle.std.specs.List.{flat_map};
ghost use Rattle.unit_files.specs.Formed.{UnitFormed};
ghost use Rattle.unit_files.specs.Unit.{unit_of};

use crate::parts::{
    FixUp, UnitArray, UnitBlock, UnitClass, UnitData, UnitEntry, UnitFun, UnitKind, UnitMark,
    UnitRows, UnitSig, UnitStatic,
};
use no_memory::NoMemory;
use std::alloc::Global;
use std::marker::Model;
use tal_syntax::Name;

/// A unit: the rows of an image with their names, and what a linker adds. Contracts see it as its parts, which keep the
/// conditions of unit files.
#[derive(Drop)]
pub struct Unit {
    pub(crate) rows: UnitRows,
    /// the rows of the data arrays
    pub(crate) data_rows: Vec<UnitData>,
    /// the numbers of all data arrays
    pub(crate) data_words: Vec<u32>,
}

impl Model for Unit {
    ghost use Rattle.unit_files.specs.Unit.{UnitParts, unit_of};
    ghost use Rattle.unit_files.specs.Kept.{KeepsUnit};

    ghost Value = { UnitParts };

    ghost view = { λ u. unit_of u.rows };

    ghost invariant = { KeepsUnit };
}

/// The rows of data arrays.
fn data_rows(alloc: Global, arrays: &[UnitArray]) -> Result<Vec<UnitData>, NoMemory>
    ensures { IfOk result (λ rows. rows.items ≡ map (λ a. a.row) arrays.now) }
{
    let rows = arrays.iter().map(|array| array.row).collect(alloc)?;
    Ok(rows)
}

/// The numbers of data arrays, one array after another.
fn data_words(alloc: Global, arrays: &[UnitArray]) -> Result<Vec<u32>, NoMemory>
    ensures { IfOk result (λ words. words.items ≡ flat_map (λ a. a.numbers) arrays.now) }
{
    let mut words = Vec::new(alloc);
    for array in arrays {
        words.extend_from_slice(array.numbers.items())?;
    }
    Ok(words)
}

impl Unit {
    /// The unit of these rows, which keep the conditions of unit files: whoever puts a unit together needs no file of it.
    pub fn of(alloc: Global, rows: UnitRows) -> Result<Unit, NoMemory>
        requires { UnitFormed (unit_of rows) }
        ensures { IfOk result (λ u. u ≡ unit_of rows) }
    {
        let data_rows = data_rows(alloc, &rows.arrays)?;
        let data_words = data_words(alloc, &rows.arrays)?;
        Ok(Unit {
            rows,
            data_rows,
            data_words,
        })
    }

    /// What a unit may be relied on for: it keeps each condition of unit files. It computes nothing.
    pub fn formed(&self)
        ensures { UnitFormed self.now }
    {
        let _rows = &self.rows;
    }

    /// The size of the heap in words, 64 to 4194304, a multiple of 4; 0 where the unit does not give it.
    pub fn heap_words(&self) -> u32
        ensures { result ≡ self.now.heap_words }
    {
        self.rows.heap_words
    }

    /// How many stacks there are, 2 to 64; 0 where the unit does not give it.
    pub fn stacks(&self) -> u32
        ensures { result ≡ self.now.stacks }
    {
        self.rows.stacks
    }

    /// The names, at most 65536.
    pub fn names(&self) -> &[Name]
        ensures { result.now ≡ self.now.names }
    {
        &self.rows.names
    }

    /// The code's bytes, at most 1048576.
    pub fn code(&self) -> &[u8]
        ensures { result.now ≡ self.now.code }
    {
        &self.rows.code
    }

    /// The signatures, at most 4096.
    pub fn sigs(&self) -> &[UnitSig]
        ensures { result.now ≡ self.now.sigs }
    {
        &self.rows.sigs
    }

    /// The functions, at most 16384, in the order of their code.
    pub fn functions(&self) -> &[UnitFun]
        ensures { result.now ≡ self.now.functions }
    {
        &self.rows.functions
    }

    /// The entries, at most 64.
    pub fn entries(&self) -> &[UnitEntry]
        ensures { result.now ≡ self.now.entries }
    {
        &self.rows.entries
    }

    /// The classes, at most 1024.
    pub fn classes(&self) -> &[UnitClass]
        ensures { result.now ≡ self.now.classes }
    {
        &self.rows.classes
    }

    /// The array kinds, at most 256.
    pub fn kinds(&self) -> &[UnitKind]
        ensures { result.now ≡ self.now.kinds }
    {
        &self.rows.kinds
    }

    /// The statics, at most 65536.
    pub fn statics(&self) -> &[UnitStatic]
        ensures { result.now ≡ self.now.statics }
    {
        &self.rows.statics
    }

    /// The data arrays, at most 65536.
    pub fn data_rows(&self) -> &[UnitData]
        ensures { result.now ≡ map (λ a. a.row) self.now.arrays }
    {
        &self.data_rows
    }

    /// The numbers of all data arrays, one array after another.
    pub fn data_words(&self) -> &[u32]
        ensures { result.now ≡ flat_map (λ a. a.numbers) self.now.arrays }
    {
        &self.data_words
    }

    /// The annotations of blocks, at most 65536, by rising offsets.
    pub fn blocks(&self) -> &[UnitBlock]
        ensures { result.now ≡ self.now.blocks }
    {
        &self.rows.blocks
    }

    /// The marks, at most 65536, by rising offsets.
    pub fn marks(&self) -> &[UnitMark]
        ensures { result.now ≡ self.now.marks }
    {
        &self.rows.marks
    }

    /// The fix-ups, at most 262144, by rising offsets.
    pub fn fixups(&self) -> &[FixUp]
        ensures { result.now ≡ self.now.fixups }
    {
        &self.rows.fixups
    }
}
