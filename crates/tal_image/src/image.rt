ghost use Rattle.std.specs.Prelude.{◌≡◌, ◌≤◌, length, slice_get, IfOk};
ghost use Rattle.object_layout.specs.Areas.{code_start};
ghost use Rattle.tal_image.specs.Conditions.{fun_rows};
ghost use Rattle.tal_image.specs.Formed.{Formed};
ghost use Rattle.tal_image.specs.Image.{parts_of};
ghost use Rattle.tal_image.specs.Shown.{shapes_of};

use crate::image_reader::PlacedRows;
use crate::image_rows::ImageRows;
use crate::index::{block_offsets, index_of, mark_offsets, owners};
use crate::parts::{BlockPart, MarkPart};
use crate::placement::{addresses, array_offsets, fun_rows};
use no_memory::NoMemory;
use object_layout::{FunRow, ShapeFault, Shapes};
use std::alloc::Global;
use std::marker::Model;
use tal_types::Sig;

/// An image: what the machine starts with, and what is said of its code. Contracts see it as its parts, which keep the
/// conditions of image files.
#[derive(Drop)]
pub struct Image {
    pub(crate) rows: ImageRows,
    /// the classes and the array kinds
    pub(crate) shapes: Shapes,
    /// where each function begins, as an address
    pub(crate) starts: Vec<u32>,
    /// for each byte of the code the number of the function that has it
    pub(crate) owners: Vec<u32>,
    /// which block begins at an offset of the code
    pub(crate) block_places: Vec<u32>,
    /// which mark is of the instruction that begins at an offset of the code
    pub(crate) mark_places: Vec<u32>,
    /// where each data array begins, in words from the first
    pub(crate) offsets: Vec<u32>,
}

impl Model for Image {
    ghost use Rattle.tal_image.specs.Image.{ImageParts, parts_of};
    ghost use Rattle.tal_image.specs.Kept.{KeepsImage};

    ghost Value = { ImageParts };

    ghost view = { λ i. parts_of i.rows };

    ghost invariant = { KeepsImage };
}

/// The classes and the array kinds of an image whose functions have these addresses.
fn shapes(alloc: Global, rows: &ImageRows, funs: &[FunRow]) -> Result<Shapes, NoMemory>
    requires formed { Formed (parts_of rows.now) }
    requires funs { funs.now ≡ fun_rows code_start rows.now.functions.items }
    ensures { IfOk result (λ shapes. shapes ≡ shapes_of (parts_of rows.now)) }
{
    match Shapes::of(
        alloc,
        &rows.classes,
        &rows.kinds,
        funs,
        rows.sigs.len() as u32,
    ) {
        Ok(shapes) => Ok(shapes),
        Err(fault) => {
            prove!(matches!(&fault, ShapeFault::NoMemory));
            Err(NoMemory)
        }
    }
}

impl Image {
    /// The image of these rows, which keep the conditions of image files: whoever puts an image together needs no file of it.
    pub fn of(alloc: Global, rows: ImageRows) -> Result<Image, NoMemory>
        requires { Formed (parts_of rows) }
        ensures { IfOk result (λ i. i ≡ parts_of rows) }
    {
        let funs = fun_rows(alloc, &rows.functions)?;
        let offsets = array_offsets(alloc, &rows.arrays)?;
        Image::placed(
            alloc,
            PlacedRows {
                rows,
                funs,
                offsets,
            },
        )
    }

    /// The image of these rows, which keep the conditions of image files.
    pub(crate) fn placed(alloc: Global, placed: PlacedRows) -> Result<Image, NoMemory>
        requires { Formed placed }
        ensures { IfOk result (λ i. i ≡ placed) }
    {
        let PlacedRows {
            rows,
            funs,
            offsets,
        } = placed;
        let shapes = shapes(alloc, &rows, &funs)?;
        let starts = addresses(alloc, &funs)?;
        let owners = owners(alloc, &rows.functions)?;
        let block_offsets = block_offsets(alloc, &rows.blocks)?;
        let block_places = index_of(alloc, &block_offsets)?;
        let mark_offsets = mark_offsets(alloc, &rows.marks)?;
        let mark_places = index_of(alloc, &mark_offsets)?;
        Ok(Image {
            rows,
            shapes,
            starts,
            owners,
            block_places,
            mark_places,
            offsets,
        })
    }

    /// What an image may be relied on for: it keeps each condition of image files. It computes nothing.
    pub fn formed(&self)
        ensures { Formed self.now }
    {
        let _rows = &self.rows;
    }

    /// The size of the heap in words, 64 to 4194304, a multiple of 4.
    pub fn heap_words(&self) -> u32
        ensures { result ≡ self.now.heap_words }
    {
        self.rows.heap_words
    }

    /// How many stacks there are, 2 to 64.
    pub fn stacks(&self) -> u32
        ensures { result ≡ self.now.stacks }
    {
        self.rows.stacks
    }

    /// How many functions there are, 1 to 16384.
    pub fn functions(&self) -> u32
        ensures { result ≡ length self.now.functions }
    {
        self.rows.functions.len() as u32
    }

    /// The number of the function at which stack `s` begins; none where there is no such stack.
    pub fn entry(&self, s: u32) -> Option<u32>
        ensures { result ≡ slice_get self.now.entries s }
    {
        self.rows.entries.get(s as usize).copied()
    }

    /// The code's bytes, 1 to 1048576. The first has the address 0x100000.
    pub fn code(&self) -> &[u8]
        ensures whole { result.now ≡ self.now.code }
        ensures short { length result.now ≤ 1048576 }
    {
        &self.rows.code
    }

    /// How many data arrays there are, at most 65536.
    pub fn data_arrays(&self) -> u32
        ensures { result ≡ length self.now.arrays }
    {
        self.rows.arrays.len() as u32
    }

    /// The signatures, by their numbers.
    pub fn sigs(&self) -> &[Sig]
        ensures { result.now ≡ self.now.sigs }
    {
        &self.rows.sigs
    }

    /// How many classes there are, at most 1024.
    pub fn classes(&self) -> u32
        ensures { result ≡ length self.now.classes }
    {
        self.rows.classes.len() as u32
    }

    /// How many array kinds there are, at most 256.
    pub fn kinds(&self) -> u32
        ensures { result ≡ length self.now.kinds }
    {
        self.rows.kinds.len() as u32
    }

    /// The annotations of blocks, by rising addresses.
    pub fn blocks(&self) -> &[BlockPart]
        ensures { result.now ≡ self.now.blocks }
    {
        &self.rows.blocks
    }

    /// The marks, by rising addresses.
    pub fn marks(&self) -> &[MarkPart]
        ensures { result.now ≡ self.now.marks }
    {
        &self.rows.marks
    }
}
