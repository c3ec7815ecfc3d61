// A reader with a place in a file. A refusal is the first fault there.
ghost use Rattle.std.specs.Prelude.{◌≡◌, ◌≤◌, ◌<◌, ◌^◌, length, IfOk, IfErr, OnOk, true, false};
ghost use Rattle.file_fields.specs.declared.fault.ImageFault.TheVariants.{Bad};
ghost use Rattle.file_fields.specs.Grammar.{between, checked};
ghost use Rattle.file_fields.specs.Reading.{GivesAt, GivesView, chunk_at, any_number_at, pair_at, run};

use crate::fault::ImageFault;

/// A place in a file.
#[derive(Drop)]
pub struct Reader<'a> {
    pub file: &'a [u8],
    pub at: usize,
    ghost within: { at ≤ length file.now },
    ghost small: { length file.now < 2 ^ 32 },
}

/// Nothing where a condition holds; else the fault of the field at a place by the condition's number.
pub fn require(holds: bool, at: u32, field: u32) -> Result<(), ImageFault>
    ensures met { OnOk result (holds ≡ true) }
    ensures broken { IfErr result (λ fault. (holds ≡ false) × (fault ≡ Bad at field)) }
{
    if holds {
        Ok(())
    } else {
        Err(ImageFault::Bad { at, field })
    }
}

impl<'a> Reader<'a> {
    /// A reader at the first byte of a file.
    pub fn new(file: &'a [u8]) -> Reader<'a>
        requires { length file.now < 2 ^ 32 }
        ensures file { result.file ≡ file.entry }
        ensures front { result.at ≡ 0 }
    {
        Reader { file, at: 0 }
    }

    /// The next bytes, so many.
    pub fn chunk(&mut self, count: usize) -> Result<&'a [u8], ImageFault>
        ensures gives { GivesView (λ t. t.now) result (chunk_at count self.old.file.now self.old.at) self.new.at }
        ensures file { self.new.file ≡ self.old.file }
        ensures long { IfOk result (λ t. length t.now ≡ count) }
    {
        let (_, rest) = self.file.split_at(self.at);
        if rest.len() < count {
            return Err(ImageFault::Short {
                at: self.file.len() as u32,
            });
        }
        let (bytes, _) = rest.split_at(count);
        self.at += count;
        Ok(bytes)
    }

    /// The next number.
    pub fn number(&mut self) -> Result<u32, ImageFault>
        ensures gives { GivesAt result (any_number_at self.old.file.now self.old.at) self.new.at }
        ensures file { self.new.file ≡ self.old.file }
    {
        let bytes = self.chunk(4)?;
        Ok(u32::from_le_bytes([bytes[0], bytes[1], bytes[2], bytes[3]]))
    }

    /// The next two numbers, as one field.
    pub fn pair(&mut self) -> Result<(u32, u32), ImageFault>
        ensures gives { GivesAt result (pair_at self.old.file.now self.old.at) self.new.at }
        ensures file { self.new.file ≡ self.old.file }
    {
        let bytes = self.chunk(8)?;
        let first = u32::from_le_bytes([bytes[0], bytes[1], bytes[2], bytes[3]]);
        let second = u32::from_le_bytes([bytes[4], bytes[5], bytes[6], bytes[7]]);
        Ok((first, second))
    }

    /// The next number, from `low` to `high` by the condition `field`.
    #[tactic(auto, using(crate::specs::Composed::checked_run))]
    pub fn ranged(&mut self, low: u32, high: u32, field: u32) -> Result<u32, ImageFault>
        ensures gives { GivesAt result (run (checked (between low high) field) self.old.file.now self.old.at) self.new.at }
        ensures file { self.new.file ≡ self.old.file }
        ensures most { IfOk result (λ n. n ≤ high) }
    {
        let at = self.at as u32;
        let number = self.number()?;
        require(low <= number && number <= high, at, field)?;
        Ok(number)
    }
}
