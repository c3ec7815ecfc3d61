// Reading a whole file.
ghost use Rattle.std.specs.Prelude.{◌≡◌, ◌<◌, ◌≤◌, ◌^◌, ◌⊎◌, length, IfOk, IfErr};
ghost use Rattle.file_fields.specs.declared.fault.ImageFault.TheVariants.{NoMemory as no_memory};
ghost use Rattle.file_fields.specs.Grammar.{SoundFile, FaultOf};
ghost use Rattle.file_fields.specs.Laws.{EndsBy, IsFrontOf};

use crate::fault::ImageFault;
use crate::reader::Reader;
use crate::rows::Row;
use std::alloc::Global;

/// The front of a file, as far as 32 bits count its bytes.
fn front(file: &[u8]) -> &[u8]
    ensures front { IsFrontOf file.now result.now }
    ensures small { length result.now < 2 ^ 32 }
{
    let (front, _) = file.split_at(file.len().min(u32::MAX as usize));
    front
}

/// What the bytes stand for, as one part and nothing behind it; else their first fault, or want of memory. Files of such a
/// part that end inside a field have at most 2 GiB, so that a longer file has its first fault, or stands for something, by
/// its front.
pub fn read_whole<C, T: Row<C> + Drop>(
    alloc: Global,
    bytes: &[u8],
    context: &C,
) -> Result<T, ImageFault>
    requires { EndsBy (T.fields context.now) (2 ^ 31) }
    ensures ok { IfOk result (λ value. SoundFile (T.fields context.now) bytes.now value) }
    ensures fault { IfErr result (λ fault. (fault ≡ no_memory) ⊎ FaultOf (T.fields context.now) bytes.now fault) }
{
    ia32_code::laws::prefix_law();
    ia32_code::laws::decoded_law();
    let mut reader = Reader::new(front(bytes));
    let value = T::read(alloc, &mut reader, context)?;
    if reader.at < bytes.len() {
        let at = reader.at as u32;
        return Err(ImageFault::Rest { at });
    }
    Ok(value)
}
