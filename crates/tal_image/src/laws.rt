// What holds of the definitions alone: each law is a function with nothing to do, whose clause is the law.
ghost use Rattle.std.specs.Prelude.{◌^◌};
ghost use Rattle.file_fields.specs.Laws.{EndsBy};
ghost use Rattle.tal_image.specs.Fields.{image_fields};
ghost use Rattle.tal_image.specs.Rows.{RowMeanings, RowReaches};
ghost use Rattle.tal_image.specs.CodeReading.{ReadCodeLaws};
ghost use Rattle.tal_image.specs.Laws.{OneImageMeaning, ReadAsFields, EachIsImage, FormedShapes};

use crate::image_reader::PlacedRows;

/// What a file stands for is one thing: one image, or one first fault, and not both.
pub fn one_meaning()
    ensures { OneImageMeaning }
{
    read_as_fields();
    file_fields::laws::one_meaning::<PlacedRows>();
}

/// The file of an image is its fields one after another: whoever reads fields that are sound to the end of a file has read
/// an image, and of each image's file the fields are sound.
pub fn read_as_fields()
    ensures { ReadAsFields }
{
    ia32_code::laws::spelling_length();
    file_fields::laws::number_meanings();
}

/// Each file stands for an image or has a first fault, so that by the law of one meaning what a file is told to be is
/// pinned for every file.
pub fn each_is_one()
    ensures { EachIsImage }
{
    read_as_fields();
    file_fields::laws::each_is_one::<PlacedRows>();
}

/// The classes and array kinds of an image are a table without a fault, and keep the laws of classes.
pub fn formed_shapes()
    ensures { FormedShapes }
{
    object_layout::laws::class_laws();
}

/// What the rows of a file stand for, both ways: for files of another kind with the same rows.
pub fn row_meanings()
    ensures { RowMeanings }
{
    ia32_code::laws::spelling_length();
    file_fields::laws::number_meanings();
}

/// How far the rows of a file reach: for files of another kind with the same rows.
pub fn row_reaches()
    ensures { RowReaches }
{}

/// What is read of the code of functions, and how a condition on an offset in it is looked up.
pub fn read_code_laws()
    ensures { ReadCodeLaws }
{
    ia32_code::laws::decoded_law();
}

/// A file that ends inside a field of an image has no more than 64 MiB.
pub(crate) fn image_ends()
    ensures { EndsBy image_fields (2 ^ 31) }
{
    file_fields::laws::ends_by_most::<PlacedRows>();
}
