// The rows of a file, one after another.
ghost use Rattle.std.specs.Prelude.{◌≡◌, ℕ, length, IfOk};
ghost use Rattle.file_fields.specs.Grammar.{Grammar, many, each};
ghost use Rattle.file_fields.specs.Reading.{GivesAt, GivesView, run};

use crate::fault::ImageFault;
use crate::reader::Reader;
use std::alloc::Global;

/// A part of a file, which is read with the help of what earlier parts tell, a C.
pub trait Row<C> {
    /// its fields
    ghost fields: { C → Grammar Self };

    /// Reads the next one.
    fn read(alloc: Global, reader: &mut Reader<'_>, context: &C) -> Result<Self, ImageFault>
        ensures gives { GivesAt result (run (fields context.now) reader.old.file.now reader.old.at) reader.new.at }
        ensures file { reader.new.file ≡ reader.old.file };
}

/// A row that also looks at what is kept of those before it, an S, and at how many come after it.
pub trait RowAfter<C, S> {
    /// its fields
    ghost fields: { C → ℕ → S → Grammar Self };

    /// what is kept after it
    ghost after: { S → Self → S };

    /// Reads the next one, of which so many come later.
    fn read(
        alloc: Global,
        reader: &mut Reader<'_>,
        context: &C,
        later: u32,
        kept: &mut S,
    ) -> Result<Self, ImageFault>
        ensures gives { GivesAt result (run (fields context.now later kept.old) reader.old.file.now reader.old.at) reader.new.at }
        ensures kept { IfOk result (λ row. kept.new ≡ after kept.old row) }
        ensures file { reader.new.file ≡ reader.old.file };
}

impl Reader<'_> {
    /// The next rows, so many.
    pub fn rows<C, T: Row<C> + Drop>(
        &mut self,
        alloc: Global,
        context: &C,
        count: u32,
    ) -> Result<Vec<T>, ImageFault>
        ensures gives { GivesView (λ v. v.items) result (run (each count (T.fields context.now)) self.old.file.now self.old.at) self.new.at }
        ensures count { IfOk result (λ v. length v.items ≡ count) }
        ensures file { self.new.file ≡ self.old.file }
    {
        let mut rows = Vec::new(alloc);
        for i in 0..count {
            let one = T::read(alloc, self, context)?;
            rows.push(one)?;
        }
        Ok(rows)
    }

    /// The next rows, so many, each after those before it, before the first of which this is kept.
    pub fn rows_after<C, S: Drop, T: RowAfter<C, S> + Drop>(
        &mut self,
        alloc: Global,
        context: &C,
        count: u32,
        first: S,
    ) -> Result<Vec<T>, ImageFault>
        ensures gives { GivesView (λ v. v.items) result (run (many count (T.fields context.now) T.after first) self.old.file.now self.old.at) self.new.at }
        ensures count { IfOk result (λ v. length v.items ≡ count) }
        ensures file { self.new.file ≡ self.old.file }
    {
        let mut rows = Vec::new(alloc);
        let mut kept = first;
        for i in 0..count {
            let one = T::read(alloc, self, context, count - i - 1, &mut kept)?;
            rows.push(one)?;
        }
        Ok(rows)
    }
}
