// The reader of a whole image file: the tables, then the code with what is said of it.
ghost use Rattle.std.specs.Prelude.{◌≡◌, ◌⊎◌, ◌≤◌, ◌-◌, take, drop, IfOk, IfErr};
ghost use Rattle.file_fields.specs.declared.fault.ImageFault.TheVariants.{NoMemory as no_memory};
ghost use Rattle.file_fields.specs.Grammar.{AreBytes};
ghost use Rattle.file_fields.specs.Reading.{GivesAt, GivesView};
ghost use Rattle.tal_image.specs.Formed.{ImageOf};
ghost use Rattle.tal_image.specs.Fields.{FirstFault};
ghost use Rattle.tal_image.specs.ImageReading.{front_parts_of, behind_of, front_at, behind_at, image_at, FitsMemory};
ghost use Rattle.object_layout.specs.Areas.{code_start};
ghost use Rattle.tal_image.specs.Conditions.{fun_rows};
ghost use Rattle.tal_image.specs.Kept.{array_offsets};

use crate::class_reader::classes;
use crate::code_reader::{BlockPlaces, MarkPlaces, code, function_starts};
use crate::header_reader::header;
use crate::image_rows::ImageRows;
use crate::laws::{image_ends, read_as_fields};
use crate::mark_words::MarkWords;
use crate::parts::{ArrayPart, BlockPart, FunctionPart, Header, MAGIC, MarkPart, Tables};
use crate::row_reader::{Entries, Kinds, field_types};
use file_fields::{ImageFault, Reader, Row, read_whole};
use object_layout::{ClassRow, FieldList, FunRow, KindRow};
use std::alloc::Global;
use std::marker::Model;
use tal_types::Sig;

/// What stands before the code of an image file.
#[derive(Drop)]
pub(crate) struct TableRows {
    pub header: Header,
    pub sigs: Vec<Sig>,
    pub functions: Vec<FunctionPart>,
    pub entries: Vec<u32>,
    pub classes: Vec<ClassRow>,
    pub kinds: Vec<KindRow>,
    pub statics: FieldList,
    pub arrays: Vec<ArrayPart>,
}

/// The code and what is said of it, and where the functions and the data arrays lie.
#[derive(Drop)]
pub(crate) struct CodeRows {
    pub code: Vec<u8>,
    pub blocks: Vec<BlockPart>,
    pub marks: Vec<MarkPart>,
    pub funs: Vec<FunRow>,
    pub offsets: Vec<u32>,
}

/// An image's rows, its functions with their addresses, and where its data arrays begin, in words from the first. Contracts
/// see them as the image's parts.
#[derive(Drop)]
pub(crate) struct PlacedRows {
    pub rows: ImageRows,
    pub funs: Vec<FunRow>,
    pub offsets: Vec<u32>,
}

impl Model for PlacedRows {
    ghost use Rattle.tal_image.specs.Image.{ImageParts, parts_of};

    ghost Value = { ImageParts };

    ghost use Rattle.tal_image.specs.Kept.{ArePlaced};

    ghost view = { λ placed. parts_of placed.rows };

    ghost invariant = { ArePlaced };
}

/// The tables.
#[tactic(auto, unfolding(crate::specs::ImageReading::front_at))]
fn table_rows(alloc: Global, reader: &mut Reader<'_>) -> Result<TableRows, ImageFault>
    ensures gives { GivesView front_parts_of result (front_at reader.old.file.now reader.old.at) reader.new.at }
    ensures file { reader.new.file ≡ reader.old.file }
    ensures room { IfOk result (λ rows. FitsMemory (front_parts_of rows)) }
{
    let header = header(reader, MAGIC, false)?;
    let tables = Tables::of(&header);
    let sigs = reader.rows::<Tables, Sig>(alloc, &tables, header.sigs)?;
    let functions = reader.rows_after::<Tables, u32, FunctionPart>(
        alloc,
        &tables,
        header.functions,
        header.code,
    )?;
    let places = Entries {
        sigs: &sigs,
        functions: &functions,
    };
    let entries = reader.rows::<Entries<'_>, u32>(alloc, &places, header.stacks)?;
    let classes = classes(alloc, reader, &tables, &functions, header.classes)?;
    let kinds = reader.rows::<Tables, KindRow>(alloc, &tables, header.kinds)?;
    let statics = field_types(alloc, reader, &tables, header.statics)?;
    let rows = Kinds {
        tables,
        rows: &kinds,
    };
    let arrays = reader.rows_after::<Kinds<'_>, u32, ArrayPart>(
        alloc,
        &rows,
        header.arrays,
        header.statics,
    )?;
    Ok(TableRows {
        header,
        sigs,
        functions,
        entries,
        classes,
        kinds,
        statics,
        arrays,
    })
}

/// The bytes that were read from a place on.
fn bytes_from(alloc: Global, reader: &Reader<'_>, start: usize) -> Result<Vec<u8>, ImageFault>
    requires { start ≤ reader.now.at }
    ensures bytes { IfOk result (λ bytes. bytes.items ≡ take (reader.now.at - start) (drop start reader.now.file.now)) }
    ensures err { IfErr result (λ fault. fault ≡ no_memory) }
{
    let bytes = Vec::from_slice(alloc, &reader.file[start..reader.at])?;
    Ok(bytes)
}

/// The code and what is said of it, behind these tables.
#[tactic(auto, unfolding(crate::specs::ImageReading::behind_at))]
fn code_rows(
    alloc: Global,
    reader: &mut Reader<'_>,
    front: &TableRows,
) -> Result<CodeRows, ImageFault>
    requires { FitsMemory (front_parts_of front.now) }
    ensures gives { GivesView behind_of result (behind_at (front_parts_of front.now) reader.old.file.now reader.old.at) reader.new.at }
    ensures file { reader.new.file ≡ reader.old.file }
    ensures funs { IfOk result (λ rows. rows.funs.items ≡ fun_rows code_start front.now.functions.items) }
    ensures offsets { IfOk result (λ rows. rows.offsets.items ≡ array_offsets 0 front.now.arrays.items) }
{
    let tables = Tables::of(&front.header);
    let words = MarkWords::behind(alloc, front)?;
    let firsts = function_starts(alloc, &front.functions)?;
    let start = reader.at;
    let starts = code(alloc, reader, &front.functions)?;
    let code = bytes_from(alloc, reader, start)?;
    let places = BlockPlaces {
        tables,
        instructions: &starts,
        functions: &firsts,
    };
    let blocks = reader.rows_after::<BlockPlaces<'_>, u64, BlockPart>(
        alloc,
        &places,
        front.header.blocks,
        0,
    )?;
    let places = MarkPlaces {
        words: &words,
        starts: &starts,
    };
    let marks = reader.rows_after::<MarkPlaces<'_>, u64, MarkPart>(
        alloc,
        &places,
        front.header.marks,
        0,
    )?;
    Ok(CodeRows {
        code,
        blocks,
        marks,
        funs: words.funs,
        offsets: words.offsets,
    })
}

/// The numbers of a file are bytes. It computes nothing.
fn are_bytes(file: &[u8])
    ensures { AreBytes file.now }
{}

impl Row<()> for PlacedRows {
    ghost use Rattle.tal_image.specs.Fields.{image_fields};

    ghost fields = { λ _. image_fields };

    fn read(
        alloc: Global,
        reader: &mut Reader<'_>,
        _context: &(),
    ) -> Result<PlacedRows, ImageFault> {
        ia32_code::laws::decoded_law();
        are_bytes(reader.file);
        let rows = image(alloc, reader)?;
        Ok(rows)
    }
}

/// A whole image.
#[tactic(auto, unfolding(crate::specs::ImageReading::image_at))]
fn image(alloc: Global, reader: &mut Reader<'_>) -> Result<PlacedRows, ImageFault>
    ensures gives { GivesAt result (image_at reader.old.file.now reader.old.at) reader.new.at }
    ensures file { reader.new.file ≡ reader.old.file }
{
    let front = table_rows(alloc, reader)?;
    let behind = code_rows(alloc, reader, &front)?;
    let rows = ImageRows {
        heap_words: front.header.heap_words,
        stacks: front.header.stacks,
        sigs: front.sigs,
        functions: front.functions,
        entries: front.entries,
        classes: front.classes,
        kinds: front.kinds,
        statics: front.statics,
        arrays: front.arrays,
        code: behind.code,
        blocks: behind.blocks,
        marks: behind.marks,
    };
    Ok(PlacedRows {
        rows,
        funs: behind.funs,
        offsets: behind.offsets,
    })
}

/// The rows of the image for which the bytes stand; else their first fault, or want of memory.
pub(crate) fn image_rows(alloc: Global, bytes: &[u8]) -> Result<PlacedRows, ImageFault>
    ensures ok { IfOk result (λ rows. ImageOf bytes.now rows) }
    ensures fault { IfErr result (λ fault. (fault ≡ no_memory) ⊎ FirstFault bytes.now fault) }
{
    read_as_fields();
    image_ends();
    let rows = read_whole::<(), PlacedRows>(alloc, bytes, &())?;
    Ok(rows)
}
