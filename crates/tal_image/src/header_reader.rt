// The reader of the header, with the limits of what follows.
ghost use Rattle.std.specs.Prelude.{◌≡◌, ◌≤◌, ◌==◌, ℕ, Bool, IfOk};
ghost use Rattle.file_fields.specs.declared.fault.ImageFault.TheVariants.{Magic, Version};
ghost use Rattle.file_fields.specs.Grammar.{between, field, checked};
ghost use Rattle.file_fields.specs.Reading.{GivesAt, run};
ghost use Rattle.tal_image.specs.Conditions.{where_given, heap_fits, most_code, most_words};
ghost use Rattle.tal_image.specs.Fields.{header_where};

use crate::parts::Header;
use file_fields::{ImageFault, Reader, require};

/// The next number, which must be the magic number.
#[tactic(auto, using(file_fields::specs::Composed::number_run))]
fn letters(reader: &mut Reader<'_>, magic: u32) -> Result<u32, ImageFault>
    ensures gives { GivesAt result (run (field (λ n. n == magic) (λ at. Magic)) reader.old.file.now reader.old.at) reader.new.at }
    ensures file { reader.new.file ≡ reader.old.file }
{
    let number = reader.number()?;
    if number == magic {
        Ok(number)
    } else {
        Err(ImageFault::Magic)
    }
}

/// The next number, which must be the version 1.
#[tactic(auto, using(file_fields::specs::Composed::number_run))]
fn version(reader: &mut Reader<'_>) -> Result<u32, ImageFault>
    ensures gives { GivesAt result (run (field (λ n. n == 1) (λ at. Version)) reader.old.file.now reader.old.at) reader.new.at }
    ensures file { reader.new.file ≡ reader.old.file }
{
    let number = reader.number()?;
    if number == 1 {
        Ok(number)
    } else {
        Err(ImageFault::Version)
    }
}

/// The next number, the size of the heap in words.
#[tactic(auto, using(file_fields::specs::Composed::checked_run))]
fn heap_words(reader: &mut Reader<'_>, partial: bool) -> Result<u32, ImageFault>
    ensures gives { GivesAt result (run (checked (where_given partial heap_fits) 1) reader.old.file.now reader.old.at) reader.new.at }
    ensures file { reader.new.file ≡ reader.old.file }
{
    let at = reader.at as u32;
    let number = reader.number()?;
    let given = 64 <= number && number <= 4_194_304 && number % 4 == 0;
    require(is_met(partial, number, given), at, 1)?;
    Ok(number)
}

/// Whether a number meets a condition that may be left out, if it is one of those.
fn is_met(partial: bool, number: u32, met: bool) -> bool
    ensures { (ok : ℕ → Bool) → met ≡ ok number → result ≡ where_given partial ok number }
{
    if partial { number == 0 || met } else { met }
}

/// Whether a number lies from `low` to `high`.
fn is_within(low: u32, high: u32, number: u32) -> bool
    ensures { result ≡ between low high number }
{
    low <= number && number <= high
}

/// The next number, from `low` to `high` by the condition `field`, or 0 where it may be left out.
#[tactic(auto, using(file_fields::specs::Composed::checked_run))]
fn given(
    reader: &mut Reader<'_>,
    partial: bool,
    low: u32,
    high: u32,
    field: u32,
) -> Result<u32, ImageFault>
    ensures gives { GivesAt result (run (checked (where_given partial (between low high)) field) reader.old.file.now reader.old.at) reader.new.at }
    ensures file { reader.new.file ≡ reader.old.file }
    ensures most { IfOk result (λ n. n ≤ high) }
{
    let at = reader.at as u32;
    let number = reader.number()?;
    let within = is_within(low, high, number);
    require(is_met(partial, number, within), at, field)?;
    Ok(number)
}

/// The header of a file with a magic number; `partial` says whether it may leave numbers out.
#[tactic(auto, using(crate::proofs::Reading::RowReadings::header_run))]
pub fn header(reader: &mut Reader<'_>, magic: u32, partial: bool) -> Result<Header, ImageFault>
    ensures gives { GivesAt result (run (header_where magic partial) reader.old.file.now reader.old.at) reader.new.at }
    ensures file { reader.new.file ≡ reader.old.file }
    ensures classes { IfOk result (λ h. h.classes ≤ 1024) }
    ensures kinds { IfOk result (λ h. h.kinds ≤ 256) }
    ensures statics { IfOk result (λ h. h.statics ≤ most_words) }
    ensures code { IfOk result (λ h. h.code ≤ most_code) }
{
    letters(reader, magic)?;
    version(reader)?;
    Ok(Header {
        heap_words: heap_words(reader, partial)?,
        stacks: given(reader, partial, 2, 64, 2)?,
        sigs: given(reader, partial, 1, 4096, 3)?,
        functions: given(reader, partial, 1, 16384, 4)?,
        classes: reader.ranged(0, 1024, 5)?,
        kinds: reader.ranged(0, 256, 6)?,
        statics: reader.ranged(0, 65536, 7)?,
        arrays: reader.ranged(0, 65536, 8)?,
        code: given(reader, partial, 1, 1_048_576, 9)?,
        blocks: reader.ranged(0, 65536, 10)?,
        marks: reader.ranged(0, 65536, 11)?,
    })
}
