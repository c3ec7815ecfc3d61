// The parts of a unit file as they are written.
ghost use Rattle.std.specs.Prelude.{◌≡◌, ◌++◌, OnOk};
ghost use Rattle.tal_image.specs.Image.{array_bytes};
ghost use Rattle.unit_files.specs.Unit.{array_part, mention_bytes};

use crate::parts::{
    FixUp, UnitArray, UnitBlock, UnitClass, UnitEntry, UnitFun, UnitKind, UnitMark, UnitSig,
    UnitStatic,
};
use file_fields::{Part, put_all, put_counted, put_number};
use no_memory::NoMemory;
use object_layout::ClassRow;
use tal_image::{FunctionPart, ImageFile, MarkPart};
use tal_syntax::Name;
use tal_types::Sig;

/// Unit files, as a format of their parts.
pub(crate) struct UnitFile;

/// Puts what stands before a row: the number of its name, and whether it is extern.
fn put_mention(file: &mut Vec<u8>, name: u32, ext: bool) -> Result<(), NoMemory>
    ensures { OnOk result (file.new.items ≡ file.old.items ++ mention_bytes name ext) }
{
    put_number(file, name)?;
    put_number(file, if ext { 1 } else { 0 })
}

impl Part<UnitFile> for Name {
    ghost use Rattle.std.specs.Prelude.{◌<◌, ◌^◌, length};
    ghost use Rattle.unit_files.specs.Unit.{name_bytes};

    ghost fits = { λ letters. length letters < 2 ^ 32 };

    ghost bytes = { λ letters. name_bytes letters };

    fn put(&self, file: &mut Vec<u8>) -> Result<(), NoMemory> {
        put_number(file, self.bytes().len() as u32)?;
        file.extend_from_slice(self.bytes())?;
        Ok(())
    }
}

impl Part<UnitFile> for UnitSig {
    ghost use Rattle.unit_files.specs.Unit.{unit_sig_bytes};

    ghost fits = { λ s. Unit {0} };

    ghost bytes = { λ s. unit_sig_bytes s };

    fn put(&self, file: &mut Vec<u8>) -> Result<(), NoMemory> {
        put_mention(file, self.name, self.ext)?;
        <Sig as Part<ImageFile>>::put(&self.sig, file)
    }
}

impl Part<UnitFile> for UnitFun {
    ghost use Rattle.unit_files.specs.Unit.{unit_function_bytes};

    ghost fits = { λ f. Unit {0} };

    ghost bytes = { λ f. unit_function_bytes f };

    fn put(&self, file: &mut Vec<u8>) -> Result<(), NoMemory> {
        put_mention(file, self.name, self.ext)?;
        let part = FunctionPart {
            length: self.length,
            sig: self.sig,
        };
        part.put(file)
    }
}

impl Part<UnitFile> for UnitEntry {
    ghost use Rattle.unit_files.specs.Unit.{entry_bytes};

    ghost fits = { λ e. Unit {0} };

    ghost bytes = { λ e. entry_bytes e };

    fn put(&self, file: &mut Vec<u8>) -> Result<(), NoMemory> {
        put_number(file, self.stack)?;
        put_number(file, self.function)
    }
}

impl Part<UnitFile> for UnitClass {
    ghost use Rattle.tal_image.specs.Kept.{ClassHasWords};
    ghost use Rattle.unit_files.specs.Unit.{unit_class_bytes};

    ghost fits = { λ c. ClassHasWords c.row };

    ghost bytes = { λ c. unit_class_bytes c };

    fn put(&self, file: &mut Vec<u8>) -> Result<(), NoMemory> {
        put_mention(file, self.name, self.ext)?;
        <ClassRow as Part<ImageFile>>::put(&self.row, file)
    }
}

impl Part<UnitFile> for UnitKind {
    ghost use Rattle.unit_files.specs.Unit.{unit_kind_bytes};

    ghost fits = { λ k. Unit {0} };

    ghost bytes = { λ k. unit_kind_bytes k };

    fn put(&self, file: &mut Vec<u8>) -> Result<(), NoMemory> {
        put_mention(file, self.name, self.ext)?;
        self.element.put(file)
    }
}

impl Part<UnitFile> for UnitStatic {
    ghost use Rattle.unit_files.specs.Unit.{unit_static_bytes};

    ghost fits = { λ s. Unit {0} };

    ghost bytes = { λ s. unit_static_bytes s };

    fn put(&self, file: &mut Vec<u8>) -> Result<(), NoMemory> {
        put_mention(file, self.name, self.ext)?;
        self.ty.put(file)
    }
}

/// Puts a data array without its name.
fn put_array(file: &mut Vec<u8>, array: &UnitArray) -> Result<(), NoMemory>
    ensures { OnOk result (file.new.items ≡ file.old.items ++ array_bytes (array_part array.now)) }
{
    put_number(file, array.row.kind)?;
    put_number(file, array.row.length)?;
    put_all::<ImageFile, _>(file, array.numbers.items())
}

impl Part<UnitFile> for UnitArray {
    ghost use Rattle.unit_files.specs.Unit.{unit_array_bytes};

    ghost fits = { λ a. Unit {0} };

    ghost bytes = { λ a. unit_array_bytes a };

    fn put(&self, file: &mut Vec<u8>) -> Result<(), NoMemory> {
        put_mention(file, self.row.name, self.row.ext)?;
        put_array(file, self)
    }
}

impl Part<UnitFile> for UnitBlock {
    ghost use Rattle.std.specs.Prelude.{◌<◌, ◌^◌, length};
    ghost use Rattle.tal_image.specs.Image.{block_bytes};
    ghost use Rattle.unit_files.specs.Unit.{block_part};

    ghost fits = { λ b. length b.slots < 2 ^ 32 };

    ghost bytes = { λ b. block_bytes (block_part b) };

    fn put(&self, file: &mut Vec<u8>) -> Result<(), NoMemory> {
        put_number(file, self.offset)?;
        put_all::<ImageFile, _>(file, &self.regs)?;
        put_counted::<ImageFile, _>(file, self.slots.items())
    }
}

impl Part<UnitFile> for UnitMark {
    ghost use Rattle.tal_image.specs.Image.{mark_bytes};
    ghost use Rattle.unit_files.specs.Unit.{mark_part};

    ghost fits = { λ m. Unit {0} };

    ghost bytes = { λ m. mark_bytes (mark_part m) };

    fn put(&self, file: &mut Vec<u8>) -> Result<(), NoMemory> {
        let part = MarkPart {
            offset: self.offset,
            tag: self.tag,
            index: self.index,
        };
        part.put(file)
    }
}

impl Part<UnitFile> for FixUp {
    ghost use Rattle.unit_files.specs.Unit.{fixup_bytes};

    ghost fits = { λ f. Unit {0} };

    ghost bytes = { λ f. fixup_bytes f };

    fn put(&self, file: &mut Vec<u8>) -> Result<(), NoMemory> {
        put_number(file, self.offset)?;
        put_number(file, self.kind)?;
        put_number(file, self.index)
    }
}
