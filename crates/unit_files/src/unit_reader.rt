// The reader of a whole unit file: what stands before the classes, the tables, then the code with what is said of it.
ghost use Rattle.std.specs.Prelude.{◌≡◌, ◌⊎◌, ◌≤◌, ◌-◌, ◌++◌, ◌∷◌, [], take, drop, map, Ok, IfOk, IfErr, OnOk};
ghost use Rattle.file_fields.specs.declared.fault.ImageFault.TheVariants.{NoMemory as no_memory};
ghost use Rattle.file_fields.specs.Grammar.{AreBytes};
ghost use Rattle.file_fields.specs.Reading.{◌▸◌, GivesAt, GivesView, run};
ghost use Rattle.tal_image.specs.CodeReading.{AllPositive};
ghost use Rattle.unit_files.specs.Unit.{function_parts, own_functions, kind_row};
ghost use Rattle.unit_files.specs.Fields.{front_fields, table_fields, code_fields, unit_fields, FirstUnitFault};
ghost use Rattle.unit_files.specs.Formed.{UnitOf};
ghost use Rattle.unit_files.specs.CodeWords.{unit_code_of, unit_code_read};
ghost use Rattle.unit_files.specs.UnitReading.{unit_front_of, table_parts_of};

use crate::class_reader::classes;
use crate::code_places::code_table;
use crate::code_reader::{CodePlaces, unit_code};
use crate::laws::{read_as_fields, unit_ends};
use crate::parts::{
    FixUp, UnitArray, UnitBlock, UnitClass, UnitEntry, UnitFun, UnitKind, UnitMark, UnitRows,
    UnitSig, UnitStatic,
};
use crate::row_reader::{ArrayKinds, UnitHeader, unit_header};
use file_fields::{ImageFault, Reader, Row, read_whole};
use no_memory::NoMemory;
use object_layout::KindRow;
use std::alloc::Global;
use std::marker::Model;
use tal_image::{BlockPlaces, FunctionPart, function_starts};
use tal_syntax::Name;

/// What stands before the classes of a unit file.
#[derive(Drop)]
pub(crate) struct FrontRows {
    pub header: UnitHeader,
    pub names: Vec<Name>,
    pub sigs: Vec<UnitSig>,
    pub functions: Vec<UnitFun>,
    pub entries: Vec<UnitEntry>,
}

/// The tables behind it.
#[derive(Drop)]
pub(crate) struct TableRows {
    pub classes: Vec<UnitClass>,
    pub kinds: Vec<UnitKind>,
    pub statics: Vec<UnitStatic>,
    pub arrays: Vec<UnitArray>,
}

/// The code and what is said of it.
#[derive(Drop)]
pub(crate) struct CodeRows {
    pub code: Vec<u8>,
    pub blocks: Vec<UnitBlock>,
    pub marks: Vec<UnitMark>,
    pub fixups: Vec<FixUp>,
}

/// The rows of a unit. Contracts see them as the unit's parts.
#[derive(Drop)]
pub(crate) struct ReadRows {
    pub rows: UnitRows,
}

impl Model for ReadRows {
    ghost use Rattle.unit_files.specs.Unit.{UnitParts, unit_of};

    ghost Value = { UnitParts };

    ghost view = { λ read. unit_of read.rows };
}

/// What stands before the classes.
fn front_rows(alloc: Global, reader: &mut Reader<'_>) -> Result<FrontRows, ImageFault>
    ensures gives { GivesView unit_front_of result (run front_fields reader.old.file.now reader.old.at) reader.new.at }
    ensures file { reader.new.file ≡ reader.old.file }
    ensures positive { IfOk result (λ rows. AllPositive (own_functions rows.functions.items)) }
{
    tal_image::laws::row_reaches();
    let header = unit_header(reader)?;
    let names = reader.rows::<UnitHeader, Name>(alloc, &header, header.names)?;
    let sigs = reader.rows::<UnitHeader, UnitSig>(alloc, &header, header.image.sigs)?;
    let functions = reader.rows_after::<UnitHeader, u32, UnitFun>(
        alloc,
        &header,
        header.image.functions,
        header.image.code,
    )?;
    let entries = reader.rows::<UnitHeader, UnitEntry>(alloc, &header, header.entries)?;
    Ok(FrontRows {
        header,
        names,
        sigs,
        functions,
        entries,
    })
}

/// Functions without their names.
fn function_parts(alloc: Global, functions: &[UnitFun]) -> Result<Vec<FunctionPart>, NoMemory>
    ensures { IfOk result (λ parts. parts.items ≡ function_parts functions.now) }
{
    let parts = functions
        .iter()
        .map(|f| FunctionPart {
            length: f.length,
            sig: f.sig,
        })
        .collect(alloc)?;
    Ok(parts)
}

/// Puts a function behind others, if its code is in the unit.
#[tactic(auto, unfolding(crate::specs::Unit::own_functions))]
fn put_own(own: &mut Vec<FunctionPart>, function: &UnitFun) -> Result<(), NoMemory>
    ensures { OnOk result (own.new.items ≡ own.old.items ++ own_functions (function.now ∷ [])) }
{
    if !function.ext {
        own.push(FunctionPart {
            length: function.length,
            sig: function.sig,
        })?;
    }
    Ok(())
}

/// Those whose code is in the unit.
fn own_functions(alloc: Global, functions: &[UnitFun]) -> Result<Vec<FunctionPart>, NoMemory>
    ensures { IfOk result (λ own. own.items ≡ own_functions functions.now) }
{
    let mut own = Vec::new(alloc);
    for f in functions {
        put_own(&mut own, f)?;
    }
    Ok(own)
}

/// Array kinds without their names.
fn kind_rows(alloc: Global, kinds: &[UnitKind]) -> Result<Vec<KindRow>, NoMemory>
    ensures { IfOk result (λ rows. rows.items ≡ map kind_row kinds.now) }
{
    let rows = kinds
        .iter()
        .map(|kind| KindRow {
            element: kind.element,
        })
        .collect(alloc)?;
    Ok(rows)
}

/// The tables behind what stands before the classes.
fn table_rows(
    alloc: Global,
    reader: &mut Reader<'_>,
    front: &FrontRows,
) -> Result<TableRows, ImageFault>
    ensures gives { GivesView table_parts_of result (run (table_fields (unit_front_of front.now)) reader.old.file.now reader.old.at) reader.new.at }
    ensures file { reader.new.file ≡ reader.old.file }
{
    let header = front.header;
    let functions = function_parts(alloc, &front.functions)?;
    let classes = classes(alloc, reader, &header, &functions)?;
    let kinds = reader.rows::<UnitHeader, UnitKind>(alloc, &header, header.image.kinds)?;
    let statics = reader.rows::<UnitHeader, UnitStatic>(alloc, &header, header.image.statics)?;
    let rows = kind_rows(alloc, &kinds)?;
    let places = ArrayKinds {
        header,
        rows: &rows,
    };
    let arrays = reader.rows_after::<ArrayKinds<'_>, u32, UnitArray>(
        alloc,
        &places,
        header.image.arrays,
        header.image.statics,
    )?;
    Ok(TableRows {
        classes,
        kinds,
        statics,
        arrays,
    })
}

/// The bytes that were read from a place on.
fn bytes_from(alloc: Global, reader: &Reader<'_>, start: usize) -> Result<Vec<u8>, ImageFault>
    requires { start ≤ reader.now.at }
    ensures bytes { IfOk result (λ bytes. bytes.items ≡ take (reader.now.at - start) (drop start reader.now.file.now)) }
    ensures err { IfErr result (λ fault. fault ≡ no_memory) }
{
    let bytes = Vec::from_slice(alloc, &reader.file[start..reader.at])?;
    Ok(bytes)
}

/// The numbers of a file are bytes. It computes nothing.
fn are_bytes(file: &[u8])
    ensures { AreBytes file.now }
{}

/// The code and what is said of it, behind these rows.
fn code_rows(
    alloc: Global,
    reader: &mut Reader<'_>,
    front: &FrontRows,
) -> Result<CodeRows, ImageFault>
    requires { AllPositive (own_functions front.now.functions.items) }
    ensures gives { GivesView unit_code_read result (run (code_fields (unit_front_of front.now)) reader.old.file.now reader.old.at ▸ λ c. Ok (unit_code_of c.0, c.1)) reader.new.at }
    ensures file { reader.new.file ≡ reader.old.file }
{
    ia32_code::laws::decoded_law();
    tal_image::laws::read_code_laws();
    are_bytes(reader.file);
    let header = front.header;
    let own = own_functions(alloc, &front.functions)?;
    let firsts = function_starts(alloc, &own)?;
    let start = reader.at;
    let starts = unit_code(alloc, reader, &front.functions, &own, header.image.code)?;
    let code = bytes_from(alloc, reader, start)?;
    let bytes = code_table(alloc, &code)?;
    let places = BlockPlaces {
        tables: header.tables(),
        instructions: &starts,
        functions: &firsts,
    };
    let blocks = reader.rows_after::<BlockPlaces<'_>, u64, UnitBlock>(
        alloc,
        &places,
        header.image.blocks,
        0,
    )?;
    let places = CodePlaces {
        header,
        starts: &starts,
        bytes: &bytes,
    };
    let marks = reader.rows_after::<CodePlaces<'_>, u64, UnitMark>(
        alloc,
        &places,
        header.image.marks,
        0,
    )?;
    let fixups = reader.rows_after::<CodePlaces<'_>, u64, FixUp>(alloc, &places, header.fixups, 0)?;
    Ok(CodeRows {
        code,
        blocks,
        marks,
        fixups,
    })
}

impl Row<()> for ReadRows {
    ghost use Rattle.unit_files.specs.Fields.{unit_fields};

    ghost fields = { λ _. unit_fields };

    fn read(alloc: Global, reader: &mut Reader<'_>, _context: &()) -> Result<ReadRows, ImageFault> {
        let front = front_rows(alloc, reader)?;
        let tables = table_rows(alloc, reader, &front)?;
        let behind = code_rows(alloc, reader, &front)?;
        let rows = UnitRows {
            heap_words: front.header.image.heap_words,
            stacks: front.header.image.stacks,
            names: front.names,
            sigs: front.sigs,
            functions: front.functions,
            entries: front.entries,
            classes: tables.classes,
            kinds: tables.kinds,
            statics: tables.statics,
            arrays: tables.arrays,
            code: behind.code,
            blocks: behind.blocks,
            marks: behind.marks,
            fixups: behind.fixups,
        };
        Ok(ReadRows { rows })
    }
}

/// The rows of the unit for which the bytes stand; else their first fault, or want of memory.
pub(crate) fn unit_rows(alloc: Global, bytes: &[u8]) -> Result<ReadRows, ImageFault>
    ensures ok { IfOk result (λ rows. UnitOf bytes.now rows) }
    ensures fault { IfErr result (λ fault. (fault ≡ no_memory) ⊎ FirstUnitFault bytes.now fault) }
{
    read_as_fields();
    unit_ends();
    let rows = read_whole::<(), ReadRows>(alloc, bytes, &())?;
    Ok(rows)
}
