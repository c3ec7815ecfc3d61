// What holds of the definitions alone: each law is a function with nothing to do, whose clause is the law.
ghost use Rattle.std.specs.Prelude.{◌^◌};
ghost use Rattle.file_fields.specs.Laws.{EndsBy};
ghost use Rattle.unit_files.specs.Fields.{unit_fields};
ghost use Rattle.unit_files.specs.Laws.{OneUnitMeaning, ReadAsUnit, EachIsUnit};

use crate::unit::Unit;

/// What a file stands for is one thing: one unit, or one first fault, and not both.
pub fn one_meaning()
    ensures { OneUnitMeaning }
{
    read_as_fields();
    file_fields::laws::one_meaning::<Unit>();
}

/// The file of a unit is its fields one after another: whoever reads fields that are sound to the end of a file has read a
/// unit, and of each unit's file the fields are sound.
pub fn read_as_fields()
    ensures { ReadAsUnit }
{
    ia32_code::laws::spelling_length();
    file_fields::laws::number_meanings();
    tal_image::laws::row_meanings();
}

/// Each file stands for a unit or has a first fault.
pub fn each_is_one()
    ensures { EachIsUnit }
{
    read_as_fields();
    file_fields::laws::each_is_one::<Unit>();
}

/// A file that ends inside a field of a unit has no more than 64 MiB.
pub(crate) fn unit_ends()
    ensures { EndsBy unit_fields (2 ^ 31) }
{
    tal_image::laws::row_reaches();
    file_fields::laws::ends_by_most::<Unit>();
}
