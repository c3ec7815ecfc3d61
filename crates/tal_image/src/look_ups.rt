ghost use Rattle.std.specs.Prelude.{◌≡◌, ◌≤◌, ◌<◌, ℕ, length, slice_get, slice_index, Some};
ghost use Rattle.object_layout.specs.Areas.{code_start};
ghost use Rattle.tal_image.specs.Kept.{RisesBy, IsLastUpTo};
ghost use Rattle.tal_image.specs.Shown.{spans, function_in, data_row_in, data_words, array_words};

use crate::image::Image;
use crate::index::place_in;
use crate::parts::{ArrayPart, DataRow};
use crate::placement::data_place;
use object_layout::areas::{CODE_START, descriptor_address};
use object_layout::{FieldTy, Shapes};
use tal_types::{Annotation, Context, ImageView, Mark, Sig, Span};

/// Where the last of rising numbers stands that is not above this one.
fn find_last(rising: &[u32], number: u32) -> Option<usize>
    requires { RisesBy (λ (n : ℕ). n) rising.now }
    ensures { IsLastUpTo rising.now number result }
{
    match rising.binary_search(&number) {
        Ok(at) => Some(at),
        Err(next) => next.checked_sub(1),
    }
}

/// The number at a place of a list, and 0 past its end.
fn number_or_zero(numbers: &[u32], at: usize) -> u32
    ensures { result ≡ slice_index numbers.now at }
{
    numbers.get(at).copied().unwrap_or(0)
}

/// A word of a data array, of which the first two are its descriptor's address and its length; none past its last.
fn array_word(array: &ArrayPart, word: u32) -> Option<u32>
    requires kind { array.now.kind < 256 }
    requires numbers { length array.now.numbers ≤ array.now.size }
    ensures { result ≡ slice_get (array_words array.now) word }
{
    match word {
        0 => Some(descriptor_address(array.kind)),
        1 => Some(array.size),
        _ if word - 2 < array.size => {
            Some(number_or_zero(array.numbers.items(), word as usize - 2))
        }
        _ => None,
    }
}

impl Image {
    /// Function `f`, which is there.
    fn span(&self, f: usize) -> Span
        requires { f < length self.now.functions }
        ensures { slice_get (spans code_start self.now.functions) f ≡ Some result }
    {
        let row = self.rows.functions[f];
        let start = self.starts[f];
        Span {
            start,
            end: start + row.length,
            sig: row.sig,
        }
    }

    /// Function `f`: the addresses of its first byte and of the byte behind its last one, and its signature's number;
    /// none where there is no such function.
    pub fn function(&self, f: u32) -> Option<Span>
        ensures { result ≡ function_in self.now f }
    {
        let f = f as usize;
        if f < self.rows.functions.len() {
            Some(self.span(f))
        } else {
            None
        }
    }

    /// Data array `d`: the address of its first word, its kind and its length; none where there is no such array.
    pub fn data_row(&self, d: u32) -> Option<DataRow>
        ensures { result ≡ data_row_in self.now d }
    {
        let array = self.rows.arrays.get(d as usize)?;
        let offset = self.offsets[d as usize];
        let statics = self.rows.statics.items().len() as u32;
        Some(DataRow {
            place: data_place(statics, offset),
            kind: array.kind,
            length: array.size,
        })
    }

    /// What word `i` after the last static holds at first; none past the last word of the data arrays.
    pub fn data_word(&self, i: u32) -> Option<u32>
        ensures { result ≡ slice_get (data_words self.now) i }
    {
        let d = find_last(&self.offsets, i)?;
        array_word(&self.rows.arrays[d], i - self.offsets[d])
    }
}

impl ImageView for Image {
    ghost use Rattle.tal_image.specs.Shown.{shown};

    ghost shown = { λ i. shown i };

    #[tactic(auto, unfolding(crate::specs::Shown::shown))]
    fn shapes(&self) -> &Shapes {
        self.shapes.meets_laws();
        &self.shapes
    }

    #[tactic(auto, unfolding(crate::specs::Shown::shown))]
    fn statics(&self) -> &[FieldTy] {
        self.rows.statics.items()
    }

    #[tactic(auto, unfolding(crate::specs::Shown::shown))]
    fn sig(&self, s: u32) -> Option<Sig> {
        self.rows.sigs.get(s as usize).copied()
    }

    fn function_at(&self, address: u32) -> Option<u32> {
        self.formed();
        let span = self.function_of(address)?;
        if span.start == address {
            Some(span.sig)
        } else {
            None
        }
    }

    fn function_of(&self, pc: u32) -> Option<Span> {
        let offset = pc.checked_sub(CODE_START)?;
        let f = self.owners.get(offset as usize)?;
        Some(self.span(*f as usize))
    }

    fn block_at(&self, pc: u32) -> Option<Context> {
        let block = self.annotation_at(pc)?;
        Some(Context::plain(block.types, block.slots))
    }

    fn annotation_at(&self, pc: u32) -> Option<Annotation<'_>> {
        let offset = pc.checked_sub(CODE_START)?;
        let at = place_in(&self.block_places, offset)?;
        let block = &self.rows.blocks[at];
        Some(Annotation {
            types: &block.types,
            slots: block.slots.items(),
        })
    }

    fn mark_at(&self, pc: u32) -> Option<Mark> {
        let offset = pc.checked_sub(CODE_START)?;
        let at = place_in(&self.mark_places, offset)?;
        let mark = self.rows.marks[at];
        Some(Mark {
            tag: mark.tag,
            index: mark.index,
        })
    }

    #[tactic(auto, unfolding(crate::specs::Shown::shown))]
    fn data_kind(&self, d: u32) -> Option<u32> {
        let array = self.rows.arrays.get(d as usize)?;
        Some(array.kind)
    }
}
