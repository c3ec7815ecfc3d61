// The parts of an image file as they are written.
ghost use Rattle.std.specs.Prelude.{◌≡◌, ◌<◌, ◌^◌};
ghost use Rattle.tal_image.specs.Image.{parent_number};

use crate::parts::{ArrayPart, BlockPart, FunctionPart, MarkPart};
use crate::type_codes::tag_and_index;
use file_fields::{Part, put_all, put_counted, put_number};
use no_memory::NoMemory;
use object_layout::{ClassRow, FieldTy, KindRow};
use tal_types::{Sig, Ty};

/// Image files, as a format of their parts. Parts of another format are written by it where their bytes are the same.
pub struct ImageFile;

impl Part<ImageFile> for Ty {
    ghost use Rattle.tal_image.specs.Image.{type_bytes};

    ghost fits = { λ t. Unit {0} };

    ghost bytes = { λ t. type_bytes t };

    fn put(&self, file: &mut Vec<u8>) -> Result<(), NoMemory> {
        let (tag, index) = tag_and_index(*self);
        put_number(file, tag)?;
        put_number(file, index)
    }
}

impl Part<ImageFile> for FieldTy {
    ghost use Rattle.tal_image.specs.Image.{field_bytes};

    ghost fits = { λ t. Unit {0} };

    ghost bytes = { λ t. field_bytes t };

    fn put(&self, file: &mut Vec<u8>) -> Result<(), NoMemory> {
        Ty::from(*self).put(file)
    }
}

impl Part<ImageFile> for Sig {
    ghost use Rattle.tal_image.specs.Image.{sig_bytes};

    ghost fits = { λ s. Unit {0} };

    ghost bytes = { λ s. sig_bytes s };

    fn put(&self, file: &mut Vec<u8>) -> Result<(), NoMemory> {
        put_all::<ImageFile, _>(file, &self.params)?;
        self.result.put(file)
    }
}

impl Part<ImageFile> for FunctionPart {
    ghost use Rattle.tal_image.specs.Image.{function_bytes};

    ghost fits = { λ f. Unit {0} };

    ghost bytes = { λ f. function_bytes f };

    fn put(&self, file: &mut Vec<u8>) -> Result<(), NoMemory> {
        put_number(file, self.length)?;
        put_number(file, self.sig)
    }
}

impl Part<ImageFile> for ClassRow {
    ghost use Rattle.tal_image.specs.Image.{class_bytes};
    ghost use Rattle.tal_image.specs.Kept.{ClassHasWords};

    ghost fits = { ClassHasWords };

    ghost bytes = { λ c. class_bytes c };

    fn put(&self, file: &mut Vec<u8>) -> Result<(), NoMemory> {
        let parent = parent_number(self.parent);
        put_number(file, parent)?;
        put_counted::<ImageFile, _>(file, self.fields.items())?;
        put_counted::<ImageFile, _>(file, self.methods.items())
    }
}

/// A class's parent plus 1, or 0 where it has none.
#[tactic(auto, unfolding(crate::specs::Image::parent_number))]
fn parent_number(parent: Option<u32>) -> u32
    requires { parent_number parent < 2 ^ 32 }
    ensures { result ≡ parent_number parent }
{
    match parent {
        None => 0,
        Some(class) => class + 1,
    }
}

impl Part<ImageFile> for KindRow {
    ghost use Rattle.tal_image.specs.Image.{kind_bytes};

    ghost fits = { λ k. Unit {0} };

    ghost bytes = { λ k. kind_bytes k };

    fn put(&self, file: &mut Vec<u8>) -> Result<(), NoMemory> {
        self.element.put(file)
    }
}

impl Part<ImageFile> for ArrayPart {
    ghost use Rattle.tal_image.specs.Image.{array_bytes};

    ghost fits = { λ a. Unit {0} };

    ghost bytes = { λ a. array_bytes a };

    fn put(&self, file: &mut Vec<u8>) -> Result<(), NoMemory> {
        put_number(file, self.kind)?;
        put_number(file, self.size)?;
        put_all::<ImageFile, _>(file, self.numbers.items())
    }
}

impl Part<ImageFile> for BlockPart {
    ghost use Rattle.std.specs.Prelude.{◌<◌, ◌^◌, length};
    ghost use Rattle.tal_image.specs.Image.{block_bytes};

    ghost fits = { λ b. length b.slots < 2 ^ 32 };

    ghost bytes = { λ b. block_bytes b };

    fn put(&self, file: &mut Vec<u8>) -> Result<(), NoMemory> {
        put_number(file, self.offset)?;
        put_all::<ImageFile, _>(file, &self.types)?;
        put_counted::<ImageFile, _>(file, self.slots.items())
    }
}

impl Part<ImageFile> for MarkPart {
    ghost use Rattle.tal_image.specs.Image.{mark_bytes};

    ghost fits = { λ m. Unit {0} };

    ghost bytes = { λ m. mark_bytes m };

    fn put(&self, file: &mut Vec<u8>) -> Result<(), NoMemory> {
        put_number(file, self.offset)?;
        put_number(file, self.tag)?;
        put_number(file, self.index)
    }
}
