// The rows of the tables: types, signatures, functions, entries, array kinds and data arrays, each with the limits of what it
// names.
ghost use Rattle.std.specs.Prelude.{◌≡◌, ◌≤◌, ◌+◌, ◌==◌, ℕ, length, IfOk};
ghost use Rattle.std.specs.List.{list_all};
ghost use Rattle.file_fields.specs.Grammar.{Grammar, checked, each};
ghost use Rattle.file_fields.specs.Reading.{GivesAt, run};
ghost use Rattle.tal_image.specs.Conditions.{type_fits, part_length_fits, entry_fits, starts_stack, kind_fits, array_fits, with_array, most_words, numbers_given, part_numbers};
ghost use Rattle.tal_image.specs.Fields.{tables_of, type_field, field_type_field, sig_fields, function_where, function_fields, kind_fields, any_number, array_where, array_fields, after_function};
ghost use Rattle.tal_image.specs.Image.{type_tag};

use crate::parts::{ArrayPart, FunctionPart, Header, NumberList, Tables};
use crate::type_codes::{field_type_with, tag_and_index, type_with};
use file_fields::{ImageFault, Reader, Row, RowAfter, require};
use object_layout::{FieldList, FieldTy, KindRow};
use std::alloc::Global;
use tal_types::{Sig, Ty};

impl Tables {
    /// How many rows the tables have behind a header.
    pub fn of(header: &Header) -> Tables
        ensures { result ≡ tables_of header.now }
    {
        Tables {
            sigs: header.sigs,
            classes: header.classes,
            kinds: header.kinds,
        }
    }

    /// Whether a type may have a tag and an index.
    #[tactic(auto, unfolding(crate::specs::Conditions::type_fits))]
    fn type_fits(&self, tag: u32, index: u32) -> bool
        ensures { result ≡ type_fits self.now tag index }
    {
        let sizes = [
            1,
            self.classes,
            self.classes,
            self.kinds,
            self.kinds,
            self.sigs,
            self.sigs,
            self.classes,
            self.kinds,
            1,
        ];
        match sizes.get(tag as usize) {
            Some(size) => index < *size,
            None => false,
        }
    }
}

/// Whether all types are junk.
fn all_junk(types: &[Ty]) -> bool
    ensures { result ≡ list_all (λ t. type_tag t == 9) types.now }
{
    types.iter().all(|t| tag_and_index(*t).0 == 9)
}

/// Whether a stack may begin at a function of the signature.
#[tactic(auto, unfolding(crate::specs::Conditions::starts_stack))]
fn starts_stack(sig: &Sig) -> bool
    ensures { result ≡ starts_stack sig.now }
{
    all_junk(&sig.params) && tag_and_index(sig.result).0 == 0
}

/// Whether a stack may begin at a function.
#[tactic(auto, unfolding(crate::specs::Conditions::entry_fits))]
fn entry_fits(sigs: &[Sig], functions: &[FunctionPart], function: u32) -> bool
    ensures { result ≡ entry_fits sigs.now functions.now function }
{
    match functions.get(function as usize) {
        Some(row) => match sigs.get(row.sig as usize) {
            Some(sig) => starts_stack(sig),
            None => false,
        },
        None => false,
    }
}

/// How many numbers the file has for a data array of a kind and a length.
#[tactic(auto, unfolding(crate::specs::Conditions::numbers_given, tal_types::specs::Types::of_field, crate::specs::Image::type_tag))]
fn numbers_given(kinds: &[KindRow], kind: u32, size: u32) -> u32
    ensures { result ≡ numbers_given kinds.now kind size }
{
    match kinds.get(kind as usize) {
        Some(row) => match row.element {
            FieldTy::Num => size,
            FieldTy::Ref(_) | FieldTy::ArrRef(_) | FieldTy::Fun(_) => 0,
        },
        None => 0,
    }
}

impl Row<Tables> for Ty {
    ghost fields = { λ t. type_field t };

    #[tactic(auto, using(crate::proofs::Reading::RowReadings::type_run))]
    fn read(_alloc: Global, reader: &mut Reader<'_>, tables: &Tables) -> Result<Ty, ImageFault> {
        let at = reader.at as u32;
        let (tag, index) = reader.pair()?;
        require(tables.type_fits(tag, index), at, 12)?;
        Ok(type_with(tag, index))
    }
}

impl Row<Tables> for FieldTy {
    ghost fields = { λ t. field_type_field t };

    #[tactic(auto, using(crate::proofs::Reading::RowReadings::field_type_run))]
    fn read(
        _alloc: Global,
        reader: &mut Reader<'_>,
        tables: &Tables,
    ) -> Result<FieldTy, ImageFault> {
        let at = reader.at as u32;
        let (tag, index) = reader.pair()?;
        require(tables.type_fits(tag, index), at, 12)?;
        require(tag == 0 || tag == 1 || tag == 3 || tag == 5, at, 18)?;
        Ok(field_type_with(tag, index))
    }
}

/// The next types of fields or statics, so many.
pub(crate) fn field_types(
    alloc: Global,
    reader: &mut Reader<'_>,
    tables: &Tables,
    count: u32,
) -> Result<FieldList, ImageFault>
    ensures gives { GivesAt result (run (each count (field_type_field tables.now)) reader.old.file.now reader.old.at) reader.new.at }
    ensures file { reader.new.file ≡ reader.old.file }
    ensures count { IfOk result (λ fields. length fields ≡ count) }
{
    let mut fields = FieldList::new(alloc);
    for i in 0..count {
        let one = FieldTy::read(alloc, reader, tables)?;
        fields.push(one)?;
    }
    Ok(fields)
}

/// The next types, one for each register but ESP.
#[tactic(auto, using(crate::proofs::Reading::RowReadings::seven_run))]
pub(crate) fn seven(
    alloc: Global,
    reader: &mut Reader<'_>,
    tables: &Tables,
) -> Result<[Ty; 7], ImageFault>
    ensures gives { GivesAt result (run (each 7 (type_field tables.now)) reader.old.file.now reader.old.at) reader.new.at }
    ensures file { reader.new.file ≡ reader.old.file }
{
    Ok([
        Ty::read(alloc, reader, tables)?,
        Ty::read(alloc, reader, tables)?,
        Ty::read(alloc, reader, tables)?,
        Ty::read(alloc, reader, tables)?,
        Ty::read(alloc, reader, tables)?,
        Ty::read(alloc, reader, tables)?,
        Ty::read(alloc, reader, tables)?,
    ])
}

impl Row<Tables> for Sig {
    ghost fields = { λ t. sig_fields t };

    #[tactic(auto, using(crate::proofs::Reading::RowReadings::sig_run))]
    fn read(alloc: Global, reader: &mut Reader<'_>, tables: &Tables) -> Result<Sig, ImageFault> {
        let params = seven(alloc, reader, tables)?;
        let result = Ty::read(alloc, reader, tables)?;
        Ok(Sig { params, result })
    }
}

impl Row<Tables> for KindRow {
    ghost fields = { λ t. kind_fields t };

    #[tactic(auto, using(crate::proofs::Reading::RowReadings::kind_run))]
    fn read(
        alloc: Global,
        reader: &mut Reader<'_>,
        tables: &Tables,
    ) -> Result<KindRow, ImageFault> {
        let element = FieldTy::read(alloc, reader, tables)?;
        Ok(KindRow { element })
    }
}

impl Row<Tables> for u32 {
    ghost fields = { λ t. any_number };

    #[tactic(auto, using(file_fields::specs::Composed::checked_run))]
    fn read(_alloc: Global, reader: &mut Reader<'_>, _tables: &Tables) -> Result<u32, ImageFault> {
        let number = reader.number()?;
        Ok(number)
    }
}

/// Whether a function, extern or not, may have a length before so many others, where so many bytes of the code are left.
#[tactic(auto, unfolding(crate::specs::Conditions::part_length_fits))]
fn length_fits(ext: bool, later: u32, left: u32, length: u32) -> bool
    ensures { result ≡ part_length_fits ext later left length }
{
    if ext {
        length == 0 && (later > 0 || length == left)
    } else {
        1 <= length && length <= left && (later > 0 || length == left)
    }
}

/// The next function, extern or not, before so many others, where so many bytes of the code are left.
#[tactic(auto, using(crate::proofs::Reading::RowReadings::function_run))]
pub fn function(
    reader: &mut Reader<'_>,
    tables: &Tables,
    ext: bool,
    later: u32,
    left: u32,
) -> Result<FunctionPart, ImageFault>
    ensures gives { GivesAt result (run (function_where tables.now (part_length_fits ext later left)) reader.old.file.now reader.old.at) reader.new.at }
    ensures file { reader.new.file ≡ reader.old.file }
    ensures fits { IfOk result (λ f. f.length ≤ left) }
{
    let at = reader.at as u32;
    let length = reader.number()?;
    require(length_fits(ext, later, left, length), at, 13)?;
    let at = reader.at as u32;
    let sig = reader.number()?;
    require(sig < tables.sigs, at, 14)?;
    Ok(FunctionPart { length, sig })
}

impl RowAfter<Tables, u32> for FunctionPart {
    ghost fields = { λ t later left. function_fields t later left };

    ghost after = { after_function };

    #[tactic(auto, unfolding(crate::specs::Conditions::part_length_fits))]
    fn read(
        _alloc: Global,
        reader: &mut Reader<'_>,
        tables: &Tables,
        later: u32,
        kept: &mut u32,
    ) -> Result<FunctionPart, ImageFault> {
        let left = *kept;
        let row = function(reader, tables, false, later, left)?;
        *kept = left - row.length;
        Ok(row)
    }
}

/// What the function at which a stack begins must be one of: the functions, and their signatures.
#[derive(Drop)]
pub(crate) struct Entries<'a> {
    pub sigs: &'a [Sig],
    pub functions: &'a [FunctionPart],
}

impl<'a> Row<Entries<'a>> for u32 {
    ghost fields = { λ e. checked (entry_fits e.sigs.now e.functions.now) 15 };

    #[tactic(auto, using(file_fields::specs::Composed::checked_run))]
    fn read(
        _alloc: Global,
        reader: &mut Reader<'_>,
        entries: &Entries<'a>,
    ) -> Result<u32, ImageFault> {
        let at = reader.at as u32;
        let function = reader.number()?;
        require(
            entry_fits(entries.sigs, entries.functions, function),
            at,
            15,
        )?;
        Ok(function)
    }
}

/// The next number, an array kind.
#[tactic(auto, using(file_fields::specs::Composed::checked_run))]
fn kind_number(reader: &mut Reader<'_>, tables: &Tables) -> Result<u32, ImageFault>
    ensures gives { GivesAt result (run (checked (kind_fits tables.now) 21) reader.old.file.now reader.old.at) reader.new.at }
    ensures file { reader.new.file ≡ reader.old.file }
{
    let at = reader.at as u32;
    let kind = reader.number()?;
    require(kind < tables.kinds, at, 21)?;
    Ok(kind)
}

/// The next number, the length of a data array, where so many words are taken before it.
#[tactic(auto, using(file_fields::specs::Composed::checked_run))]
fn array_size(reader: &mut Reader<'_>, used: u32) -> Result<u32, ImageFault>
    ensures gives { GivesAt result (run (checked (array_fits used) 22) reader.old.file.now reader.old.at) reader.new.at }
    ensures file { reader.new.file ≡ reader.old.file }
    ensures fits { IfOk result (λ n. used + 2 + n ≤ most_words) }
{
    let at = reader.at as u32;
    let size = reader.number()?;
    require(u64::from(used) + 2 + u64::from(size) <= 65536, at, 22)?;
    Ok(size)
}

/// What a data array must be one of: the array kinds.
#[derive(Drop)]
pub struct Kinds<'a> {
    pub tables: Tables,
    pub rows: &'a [KindRow],
}

/// How many numbers the file has for a data array, extern or not, of a kind and a length.
#[tactic(auto, unfolding(crate::specs::Conditions::part_numbers))]
fn part_numbers(ext: bool, kinds: &[KindRow], kind: u32, size: u32) -> u32
    ensures { result ≡ part_numbers ext kinds.now kind size }
{
    if ext {
        0
    } else {
        numbers_given(kinds, kind, size)
    }
}

/// The next data array, extern or not, where so many words are taken before it.
#[tactic(auto, using(crate::proofs::Reading::RowReadings::array_run))]
pub fn array(
    alloc: Global,
    reader: &mut Reader<'_>,
    kinds: &Kinds<'_>,
    ext: bool,
    used: u32,
) -> Result<ArrayPart, ImageFault>
    ensures gives { GivesAt result (run (array_where kinds.now.tables (part_numbers ext kinds.now.rows.now) used) reader.old.file.now reader.old.at) reader.new.at }
    ensures file { reader.new.file ≡ reader.old.file }
    ensures fits { IfOk result (λ a. used + 2 + a.size ≤ most_words) }
{
    let kind = kind_number(reader, &kinds.tables)?;
    let size = array_size(reader, used)?;
    let given = part_numbers(ext, kinds.rows, kind, size);
    let numbers = reader.rows::<Tables, u32>(alloc, &kinds.tables, given)?;
    Ok(ArrayPart {
        kind,
        size,
        numbers: NumberList::of(numbers),
    })
}

impl<'a> RowAfter<Kinds<'a>, u32> for ArrayPart {
    ghost fields = { λ k later used. array_fields k.tables k.rows.now used };

    ghost after = { with_array };

    #[tactic(auto, unfolding(crate::specs::Conditions::part_numbers))]
    fn read(
        alloc: Global,
        reader: &mut Reader<'_>,
        kinds: &Kinds<'a>,
        _later: u32,
        kept: &mut u32,
    ) -> Result<ArrayPart, ImageFault> {
        let used = *kept;
        let row = array(alloc, reader, kinds, false, used)?;
        *kept = used + 2 + row.size;
        Ok(row)
    }
}
