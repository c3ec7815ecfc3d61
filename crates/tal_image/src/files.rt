ghost use Rattle.std.specs.Prelude.{◌≡◌, ◌⊎◌, IfOk, IfErr, MatchResult};
ghost use Rattle.file_fields.specs.declared.fault.ImageFault.{ImageFault};
ghost use Rattle.tal_image.specs.Image.{ImageParts, FileOf, header};
ghost use Rattle.tal_image.specs.Formed.{ImageOf};
ghost use Rattle.tal_image.specs.Fields.{FirstFault};

use crate::image::Image;
use crate::image_reader::image_rows;
use crate::laws::one_meaning;
use crate::parts::MAGIC;
use crate::writing::ImageFile;
use file_fields::{ImageFault, put_all};
use no_memory::NoMemory;
use std::alloc::Global;

impl Image {
    /// The image for which the bytes of a file stand. A refusal is the file's first fault, or want of memory.
    pub fn read(alloc: Global, bytes: &[u8]) -> Result<Image, ImageFault>
        ensures ok { IfOk result (λ i. ImageOf bytes.now i) }
        ensures whole { (i : ImageParts) → ImageOf bytes.now i → MatchResult result (λ j. j ≡ i) (λ e. e ≡ ImageFault.NoMemory) }
        ensures fault { IfErr result (λ e. (e ≡ ImageFault.NoMemory) ⊎ FirstFault bytes.now e) }
        ensures first { (f : ImageFault) → FirstFault bytes.now f → MatchResult result (λ _. ⊥) (λ e. (e ≡ f) ⊎ (e ≡ ImageFault.NoMemory)) }
    {
        one_meaning();
        let rows = image_rows(alloc, bytes)?;
        Ok(Image::placed(alloc, rows)?)
    }

    /// The numbers of the file's header.
    fn header(&self) -> [u32; 13]
        ensures { result ≡ header self.now }
    {
        let rows = &self.rows;
        [
            MAGIC,
            1,
            rows.heap_words,
            rows.stacks,
            rows.sigs.len() as u32,
            rows.functions.len() as u32,
            rows.classes.len() as u32,
            rows.kinds.len() as u32,
            rows.statics.items().len() as u32,
            rows.arrays.len() as u32,
            rows.code.len() as u32,
            rows.blocks.len() as u32,
            rows.marks.len() as u32,
        ]
    }

    /// The file of the image.
    pub fn write(&self, alloc: Global) -> Result<Vec<u8>, NoMemory>
        ensures file { IfOk result (λ bytes. bytes.items ≡ FileOf self.now) }
        ensures stands { IfOk result (λ bytes. ImageOf bytes.items self.now) }
    {
        let rows = &self.rows;
        let mut file = Vec::new(alloc);
        put_all::<ImageFile, _>(&mut file, &self.header())?;
        put_all::<ImageFile, _>(&mut file, &rows.sigs)?;
        put_all::<ImageFile, _>(&mut file, &rows.functions)?;
        put_all::<ImageFile, _>(&mut file, &rows.entries)?;
        put_all::<ImageFile, _>(&mut file, &rows.classes)?;
        put_all::<ImageFile, _>(&mut file, &rows.kinds)?;
        put_all::<ImageFile, _>(&mut file, rows.statics.items())?;
        put_all::<ImageFile, _>(&mut file, &rows.arrays)?;
        file.extend_from_slice(&rows.code)?;
        put_all::<ImageFile, _>(&mut file, &rows.blocks)?;
        put_all::<ImageFile, _>(&mut file, &rows.marks)?;
        Ok(file)
    }
}
