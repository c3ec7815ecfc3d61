// The reader of the classes, each with its name.
ghost use Rattle.std.specs.Prelude.{◌≡◌, ◌++◌, ◌∷◌, [], IfOk};
ghost use Rattle.file_fields.specs.Reading.{GivesView, run};
ghost use Rattle.tal_image.specs.Conditions.{class_view};
ghost use Rattle.tal_image.specs.Fields.{with_class};
ghost use Rattle.tal_image.specs.ClassReading.{AreSizes};
ghost use Rattle.unit_files.specs.Fields.{tables_behind, unit_class_fields, unit_classes};
ghost use Rattle.unit_files.specs.ClassNames.{named_class, named_classes};

use crate::parts::UnitClass;
use crate::row_reader::{Mention, UnitHeader, read_mention};
use file_fields::{ImageFault, Reader};
use no_memory::NoMemory;
use object_layout::ClassRow;
use std::alloc::Global;
use tal_image::{ClassSize, FunctionPart, SizedClass, class};

/// What stands before the next class, and the class, after these, whose sizes are these.
#[tactic(auto, using(crate::proofs::Reading::RowReadings::class_run))]
fn next_class(
    alloc: Global,
    reader: &mut Reader<'_>,
    header: &UnitHeader,
    functions: &[FunctionPart],
    rows: &[ClassRow],
    sizes: &[ClassSize],
) -> Result<(Mention, SizedClass), ImageFault>
    requires { AreSizes (class_view functions.now rows.now) sizes.now }
    ensures gives { GivesView (λ c. named_class c.0 c.1.row) result (run (unit_class_fields header.now.names (tables_behind header.now) functions.now rows.now) reader.old.file.now reader.old.at) reader.new.at }
    ensures file { reader.new.file ≡ reader.old.file }
    ensures sized { IfOk result (λ c. AreSizes (class_view functions.now (with_class rows.now c.1.row)) (sizes.now ++ c.1.size ∷ [])) }
{
    let mention = read_mention(reader, header.names)?;
    let one = class(alloc, reader, &header.tables(), functions, rows, sizes)?;
    Ok((mention, one))
}

/// Classes with what stands before each.
fn named(
    alloc: Global,
    mentions: Vec<Mention>,
    rows: Vec<ClassRow>,
) -> Result<Vec<UnitClass>, NoMemory>
    ensures { IfOk result (λ classes. classes.items ≡ named_classes mentions.items rows.items) }
{
    let classes = mentions
        .into_iter()
        .zip(rows)
        .map(|(mention, row)| UnitClass {
            name: mention.name,
            ext: mention.ext,
            row,
        })
        .collect(alloc)?;
    Ok(classes)
}

/// The next classes, as many as the header says.
pub(crate) fn classes(
    alloc: Global,
    reader: &mut Reader<'_>,
    header: &UnitHeader,
    functions: &[FunctionPart],
) -> Result<Vec<UnitClass>, ImageFault>
    ensures gives { GivesView (λ v. v.items) result (run (unit_classes header.now functions.now) reader.old.file.now reader.old.at) reader.new.at }
    ensures file { reader.new.file ≡ reader.old.file }
{
    let mut mentions = Vec::new(alloc);
    let mut rows = Vec::new(alloc);
    let mut sizes = Vec::new(alloc);
    for i in 0..header.image.classes {
        let (mention, one) = next_class(alloc, reader, header, functions, &rows, &sizes)?;
        mentions.push(mention)?;
        rows.push(one.row)?;
        sizes.push(one.size)?;
    }
    Ok(named(alloc, mentions, rows)?)
}
