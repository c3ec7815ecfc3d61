// Image files, both ways: which images the bytes of a file stand for, and what is wrong with bytes that stand for none.
//
// `Image` is an image: it is read from the bytes of a file and written as them, or put together of its rows (`ImageRows`).
// It shows typing what that asks of it, and finds functions, blocks and marks by an index, and words of data arrays by
// halving. `FileOf` (in specs/) is the file of an image, `Formed` what every image keeps, by the numbers of the conditions,
// and `ImageOf` both together. `FirstFault` is what is wrong with a file: the first of its fields that breaks a condition, or
// in which the file ends. The module `laws` has what holds of them; `ImageFault` is a fault.
//
// A new field of the format stands in its grammar (specs/Fields.antt), in its row's reader (`header_reader`, `row_reader`,
// `class_reader`, `code_reader`) and in its writer (`writing`), and nowhere else.
//
// A file of another kind may have the same rows. Where its conditions differ, the grammar takes the tests from it
// (`header_where`, `function_where`, `array_where`, `block_where`, `mark_where`), and `header`, `function`, `class`, `array`
// and `code` read by them, as does the reader of a block at `BlockPlaces`. `laws::row_meanings` says what each row stands
// for, `laws::row_reaches` how many bytes it has at most, `laws::read_code_laws` what begins where in the code.
#![tactic(auto)]

mod class_reader;
mod code_reader;
mod files;
mod header_reader;
mod image;
mod image_reader;
mod image_rows;
mod index;
pub mod laws;
mod look_ups;
mod mark_words;
mod parts;
mod placement;
mod row_reader;
mod start;
mod type_codes;
mod writing;

pub use class_reader::{ClassSize, SizedClass, class};
pub use code_reader::{BlockPlaces, code, function_starts};
pub use file_fields::ImageFault;
pub use header_reader::header;
pub use image::Image;
pub use image_rows::ImageRows;
pub use parts::{
    ArrayPart, BlockPart, DataRow, FunctionPart, Header, MarkPart, NumberList, Tables, TypeList,
};
pub use row_reader::{Kinds, array, function};
pub use start::{Start, start_at};
pub use writing::ImageFile;
