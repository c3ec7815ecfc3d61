// The readers of the header, the names and the rows of the tables: an image's rows, with names before them.
ghost use Rattle.std.specs.Prelude.{◌≡◌, ◌+◌, length, map, nat_lt, IfOk};
ghost use Rattle.file_fields.specs.Grammar.{checked};
ghost use Rattle.file_fields.specs.Reading.{GivesAt, GivesView, run};
ghost use Rattle.tal_image.specs.Conditions.{most_code, most_words};
ghost use Rattle.unit_files.specs.Conditions.{is_name};
ghost use Rattle.unit_files.specs.Fields.{unit_header_fields, tables_behind, name_fields, mention_fields, unit_sig_fields, unit_function_fields, entry_fields, unit_kind_fields, unit_static_fields, unit_array_fields};
ghost use Rattle.unit_files.specs.Formed.{after_unit_fun, with_unit_array};

use crate::names::is_name;
use crate::parts::{MAGIC, UnitArray, UnitData, UnitEntry, UnitFun, UnitKind, UnitSig, UnitStatic};
use file_fields::{ImageFault, Reader, Row, RowAfter, require};
use object_layout::{FieldTy, KindRow};
use std::alloc::Global;
use tal_image::{Header, Kinds, Tables, array, function, header};
use tal_syntax::Name;
use tal_types::Sig;

/// The header of a unit file: an image's, in which numbers may be left out, and how many names (at most 65536), entries (at
/// most 64) and fix-ups (at most 262144) follow.
#[derive(Clone, Copy, Debug, PartialEq, Eq)]
pub(crate) struct UnitHeader {
    pub image: Header,
    pub names: u32,
    pub entries: u32,
    pub fixups: u32,
}

/// What stands before a row: the number of its name, and whether it is extern.
#[derive(Clone, Copy, Debug, PartialEq, Eq)]
pub(crate) struct Mention {
    pub name: u32,
    pub ext: bool,
}

impl UnitHeader {
    /// The tables to which types refer.
    pub(crate) fn tables(&self) -> Tables
        ensures { result ≡ tables_behind self.now }
    {
        Tables::of(&self.image)
    }
}

/// The header.
#[tactic(auto, using(crate::proofs::Reading::RowReadings::header_run))]
pub(crate) fn unit_header(reader: &mut Reader<'_>) -> Result<UnitHeader, ImageFault>
    ensures gives { GivesAt result (run unit_header_fields reader.old.file.now reader.old.at) reader.new.at }
    ensures file { reader.new.file ≡ reader.old.file }
{
    Ok(UnitHeader {
        image: header(reader, MAGIC, true)?,
        names: reader.ranged(0, 65536, 28)?,
        entries: reader.ranged(0, 64, 15)?,
        fixups: reader.ranged(0, 262_144, 30)?,
    })
}

/// The next number, below a count by the condition `field`.
#[tactic(auto, using(file_fields::specs::Composed::checked_run))]
pub(crate) fn below(reader: &mut Reader<'_>, count: u32, field: u32) -> Result<u32, ImageFault>
    ensures gives { GivesAt result (run (checked (λ n. nat_lt n count) field) reader.old.file.now reader.old.at) reader.new.at }
    ensures file { reader.new.file ≡ reader.old.file }
{
    let at = reader.at as u32;
    let number = reader.number()?;
    require(number < count, at, field)?;
    Ok(number)
}

impl Row<UnitHeader> for Name {
    ghost fields = { λ h. name_fields };

    #[tactic(auto, using(crate::proofs::Reading::RowReadings::name_run))]
    fn read(
        alloc: Global,
        reader: &mut Reader<'_>,
        _header: &UnitHeader,
    ) -> Result<Name, ImageFault> {
        let count = reader.ranged(1, 63, 28)?;
        let at = reader.at as u32;
        let letters = reader.chunk(count as usize)?;
        require(is_name(letters), at, 28)?;
        Ok(Name::of(alloc, letters)?)
    }
}

/// What stands before the next row, where there are so many names.
#[tactic(auto, using(crate::proofs::Reading::RowReadings::mention_run))]
pub(crate) fn read_mention(reader: &mut Reader<'_>, names: u32) -> Result<Mention, ImageFault>
    ensures gives { GivesAt result (run (mention_fields names) reader.old.file.now reader.old.at) reader.new.at }
    ensures file { reader.new.file ≡ reader.old.file }
{
    let name = below(reader, names, 29)?;
    let ext = reader.ranged(0, 1, 29)?;
    Ok(Mention {
        name,
        ext: ext == 1,
    })
}

impl Row<UnitHeader> for UnitSig {
    ghost fields = { λ h. unit_sig_fields h.names (tables_behind h) };

    #[tactic(auto, using(crate::proofs::Reading::RowReadings::sig_run))]
    fn read(
        alloc: Global,
        reader: &mut Reader<'_>,
        header: &UnitHeader,
    ) -> Result<UnitSig, ImageFault> {
        let mention = read_mention(reader, header.names)?;
        let sig = Sig::read(alloc, reader, &header.tables())?;
        Ok(UnitSig {
            name: mention.name,
            ext: mention.ext,
            sig,
        })
    }
}

impl RowAfter<UnitHeader, u32> for UnitFun {
    ghost fields = { λ h later left. unit_function_fields h.names (tables_behind h) later left };

    ghost after = { after_unit_fun };

    #[tactic(auto, using(crate::proofs::Reading::RowReadings::function_run))]
    fn read(
        _alloc: Global,
        reader: &mut Reader<'_>,
        header: &UnitHeader,
        later: u32,
        kept: &mut u32,
    ) -> Result<UnitFun, ImageFault> {
        let left = *kept;
        let mention = read_mention(reader, header.names)?;
        let row = function(reader, &header.tables(), mention.ext, later, left)?;
        *kept = left - row.length;
        Ok(UnitFun {
            name: mention.name,
            ext: mention.ext,
            length: row.length,
            sig: row.sig,
        })
    }
}

impl Row<UnitHeader> for UnitEntry {
    ghost fields = { λ h. entry_fields h.image.functions };

    #[tactic(auto, using(crate::proofs::Reading::RowReadings::entry_run))]
    fn read(
        _alloc: Global,
        reader: &mut Reader<'_>,
        header: &UnitHeader,
    ) -> Result<UnitEntry, ImageFault> {
        let stack = reader.ranged(0, 63, 15)?;
        let function = below(reader, header.image.functions, 15)?;
        Ok(UnitEntry { stack, function })
    }
}

impl Row<UnitHeader> for UnitKind {
    ghost fields = { λ h. unit_kind_fields h.names (tables_behind h) };

    #[tactic(auto, using(crate::proofs::Reading::RowReadings::kind_run))]
    fn read(
        alloc: Global,
        reader: &mut Reader<'_>,
        header: &UnitHeader,
    ) -> Result<UnitKind, ImageFault> {
        let mention = read_mention(reader, header.names)?;
        let element = FieldTy::read(alloc, reader, &header.tables())?;
        Ok(UnitKind {
            name: mention.name,
            ext: mention.ext,
            element,
        })
    }
}

impl Row<UnitHeader> for UnitStatic {
    ghost fields = { λ h. unit_static_fields h.names (tables_behind h) };

    #[tactic(auto, using(crate::proofs::Reading::RowReadings::static_run))]
    fn read(
        alloc: Global,
        reader: &mut Reader<'_>,
        header: &UnitHeader,
    ) -> Result<UnitStatic, ImageFault> {
        let mention = read_mention(reader, header.names)?;
        let ty = FieldTy::read(alloc, reader, &header.tables())?;
        Ok(UnitStatic {
            name: mention.name,
            ext: mention.ext,
            ty,
        })
    }
}

/// What a data array must be one of: the array kinds.
#[derive(Drop)]
pub(crate) struct ArrayKinds<'a> {
    pub header: UnitHeader,
    pub rows: &'a [KindRow],
}

impl<'a> RowAfter<ArrayKinds<'a>, u32> for UnitArray {
    ghost fields = { λ k later used. unit_array_fields k.header.names (tables_behind k.header) k.rows.now used };

    ghost after = { with_unit_array };

    #[tactic(auto, using(crate::proofs::Reading::RowReadings::array_run))]
    fn read(
        alloc: Global,
        reader: &mut Reader<'_>,
        kinds: &ArrayKinds<'a>,
        _later: u32,
        kept: &mut u32,
    ) -> Result<UnitArray, ImageFault> {
        let used = *kept;
        let mention = read_mention(reader, kinds.header.names)?;
        let places = Kinds {
            tables: kinds.header.tables(),
            rows: kinds.rows,
        };
        let array = array(alloc, reader, &places, mention.ext, used)?;
        *kept = used + 2 + array.size;
        Ok(UnitArray {
            row: UnitData {
                name: mention.name,
                ext: mention.ext,
                kind: array.kind,
                length: array.size,
            },
            numbers: array.numbers,
        })
    }
}
