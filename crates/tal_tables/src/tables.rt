// The tables of a module's unit, as far as its lines have made them.
ghost use Rattle.std.specs.Prelude.{◌≡◌, length};
ghost use Rattle.unit_files.specs.Unit.{unit_of};
ghost use Rattle.tal_tables.specs.Rows.{no_tables, unit_with};

use std::alloc::Global;
use std::marker::Model;
use tal_syntax::Name;
use unit_files::{
    FixUp, UnitArray, UnitBlock, UnitClass, UnitEntry, UnitFun, UnitKind, UnitMark, UnitRows,
    UnitSig, UnitStatic,
};

/// The tables of a unit, row by row as the lines of its module make them. Contracts see what they hold, within the limits of
/// each table.
#[derive(Drop)]
pub struct ModuleTables {
    pub(crate) heap_words: u32,
    pub(crate) stacks: u32,
    pub(crate) sigs: Vec<UnitSig>,
    pub(crate) functions: Vec<UnitFun>,
    pub(crate) entries: Vec<UnitEntry>,
    pub(crate) classes: Vec<UnitClass>,
    pub(crate) kinds: Vec<UnitKind>,
    pub(crate) statics: Vec<UnitStatic>,
    pub(crate) arrays: Vec<UnitArray>,
    pub(crate) words: u32,
}

impl Model for ModuleTables {
    ghost use Rattle.tal_tables.specs.Rows.{ModuleTablesView};
    ghost use Rattle.tal_tables.specs.Kept.{WithinLimits, kept_tables};

    ghost Value = { ModuleTablesView };

    ghost view = { kept_tables };

    ghost invariant = { λ t. WithinLimits (kept_tables t) };
}

impl ModuleTables {
    /// Empty tables. It takes no memory.
    pub fn new(alloc: Global) -> ModuleTables
        ensures { result ≡ no_tables }
    {
        ModuleTables {
            heap_words: 0,
            stacks: 0,
            sigs: Vec::new(alloc),
            functions: Vec::new(alloc),
            entries: Vec::new(alloc),
            classes: Vec::new(alloc),
            kinds: Vec::new(alloc),
            statics: Vec::new(alloc),
            arrays: Vec::new(alloc),
            words: 0,
        }
    }

    /// How many functions there are.
    pub fn functions(&self) -> u32
        ensures { result ≡ length self.now.functions }
    {
        self.functions.len() as u32
    }

    /// The rows of the unit with these tables, these names and this code.
    pub fn into_rows(
        self,
        names: Vec<Name>,
        code: Vec<u8>,
        blocks: Vec<UnitBlock>,
        marks: Vec<UnitMark>,
        fixups: Vec<FixUp>,
    ) -> UnitRows
        ensures { unit_of result ≡ unit_with self names.items code.items blocks.items marks.items fixups.items }
    {
        UnitRows {
            heap_words: self.heap_words,
            stacks: self.stacks,
            names,
            sigs: self.sigs,
            functions: self.functions,
            entries: self.entries,
            classes: self.classes,
            kinds: self.kinds,
            statics: self.statics,
            arrays: self.arrays,
            code,
            blocks,
            marks,
            fixups,
        }
    }
}
