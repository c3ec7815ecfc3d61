// What marks stand for: the words of null, of functions, of class tables, of descriptors and of data arrays.
ghost use Rattle.std.specs.Prelude.{◌≡◌, ◌≤◌, ◌+◌, Some, IfOk, All, map, slice_get};
ghost use Rattle.object_layout.specs.Areas.{code_start};
ghost use Rattle.tal_image.specs.Conditions.{fun_rows, same_number, most_words};
ghost use Rattle.tal_image.specs.CodeReading.{mark_word_by};
ghost use Rattle.tal_image.specs.Fields.{tables_of};
ghost use Rattle.tal_image.specs.ImageReading.{front_parts_of, FitsMemory, places_of_arrays};
ghost use Rattle.tal_image.specs.Kept.{array_offsets, data_place};

use crate::image_reader::TableRows;
use crate::parts::Tables;
use crate::placement::{array_offsets, data_place, fun_rows};
use no_memory::NoMemory;
use object_layout::FunRow;
use object_layout::areas::{descriptor_address, table_address};
use std::alloc::Global;

/// What marks stand for: how many rows the tables have, the functions with their addresses, how many statics there are, and
/// where the data arrays begin behind them, in words from the first.
#[derive(Drop)]
pub(crate) struct MarkWords {
    pub tables: Tables,
    pub funs: Vec<FunRow>,
    pub statics: u32,
    pub offsets: Vec<u32>,
    ghost classes: { tables.classes ≤ 1024 },
    ghost kinds: { tables.kinds ≤ 256 },
    ghost few: { All (λ offset. statics + offset ≤ most_words) offsets.items },
}

impl MarkWords {
    /// What marks stand for behind these tables.
    pub(crate) fn behind(alloc: Global, front: &TableRows) -> Result<MarkWords, NoMemory>
        requires { FitsMemory (front_parts_of front.now) }
        ensures tables { IfOk result (λ words. words.tables ≡ tables_of front.now.header) }
        ensures funs { IfOk result (λ words. words.funs.items ≡ fun_rows code_start front.now.functions.items) }
        ensures offsets { IfOk result (λ words. words.offsets.items ≡ array_offsets 0 front.now.arrays.items) }
        ensures places { IfOk result (λ words. map (data_place words.statics) words.offsets.items ≡ places_of_arrays (front_parts_of front.now)) }
    {
        let funs = fun_rows(alloc, &front.functions)?;
        let offsets = array_offsets(alloc, &front.arrays)?;
        Ok(MarkWords {
            tables: Tables::of(&front.header),
            funs,
            statics: front.header.statics,
            offsets,
        })
    }

    /// The address of a function, if it is there.
    fn address(&self, index: u32) -> Option<u32>
        ensures { result ≡ slice_get (map (λ f. f.address) self.now.funs.items) index }
    {
        let row = self.funs.get(index as usize)?;
        Some(row.address)
    }

    /// The address of a data array, if it is there.
    fn place(&self, index: u32) -> Option<u32>
        ensures { result ≡ slice_get (map (data_place self.now.statics) self.now.offsets.items) index }
    {
        let offset = self.offsets.get(index as usize)?;
        Some(data_place(self.statics, *offset))
    }

    /// The word that a mark with a tag and an index stands for, if there is such a mark.
    #[tactic(auto, unfolding(crate::specs::CodeReading::mark_word_by))]
    fn word(&self, tag: u32, index: u32) -> Option<u32>
        ensures { result ≡ mark_word_by self.now.tables (map (λ f. f.address) self.now.funs.items) (map (data_place self.now.statics) self.now.offsets.items) tag index }
    {
        match tag {
            1 if index < self.tables.classes => Some(0),
            3 if index < self.tables.kinds => Some(0),
            5 if index < self.tables.sigs => Some(0),
            6 => self.address(index),
            7 if index < self.tables.classes => Some(table_address(index)),
            8 if index < self.tables.kinds => Some(descriptor_address(index)),
            10 => self.place(index),
            _ => None,
        }
    }

    /// Whether a mark with a tag and an index may stand at a number.
    #[tactic(auto, unfolding(crate::specs::Conditions::same_number))]
    pub(crate) fn is_word(&self, tag: u32, index: u32, number: u32) -> bool
        ensures { result ≡ same_number (mark_word_by self.now.tables (map (λ f. f.address) self.now.funs.items) (map (data_place self.now.statics) self.now.offsets.items) tag index) (Some number) }
    {
        match self.word(tag, index) {
            Some(word) => word == number,
            None => false,
        }
    }
}
