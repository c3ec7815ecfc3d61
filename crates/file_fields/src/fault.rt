use no_memory::NoMemory;
use std::alloc::{AllocError, AllocFailed};
use thiserror::Error;

/// Why the bytes of a file stand for nothing.
#[derive(Clone, Copy, Debug, PartialEq, Eq, Error)]
pub enum ImageFault {
    /// The file does not begin with the magic number.
    #[error("the file does not begin as it must")]
    Magic,
    /// The version is not 1.
    #[error("the file has another version")]
    Version,
    /// The file ends inside a field: `at` is its length in bytes.
    #[error("the file ends inside a field")]
    Short { at: u32 },
    /// Bytes follow the last field, from the byte `at` on.
    #[error("bytes follow the last field of the file")]
    Rest { at: u32 },
    /// The field whose first byte is `at` breaks the condition with the number `field`.
    #[error("a field of the file breaks a condition")]
    Bad { at: u32, field: u32 },
    /// There was no memory for what the file stands for.
    #[error("there is no memory for what the file stands for")]
    NoMemory,
}

impl From<NoMemory> for ImageFault {
    ghost use Rattle.std.specs.Prelude.{◌≡◌};
    ghost use Rattle.file_fields.specs.declared.fault.ImageFault.TheVariants.{NoMemory as no_memory};

    ghost from_gives = { λ _ fault. fault ≡ no_memory };

    fn from(_want: NoMemory) -> ImageFault {
        ImageFault::NoMemory
    }
}

impl From<AllocError> for ImageFault {
    ghost use Rattle.std.specs.Prelude.{◌≡◌};
    ghost use Rattle.file_fields.specs.declared.fault.ImageFault.TheVariants.{NoMemory as no_memory};

    ghost from_gives = { λ _ fault. fault ≡ no_memory };

    fn from(_failure: AllocError) -> ImageFault {
        ImageFault::NoMemory
    }
}

impl<T: Drop> From<AllocFailed<T>> for ImageFault {
    ghost use Rattle.std.specs.Prelude.{◌≡◌};
    ghost use Rattle.file_fields.specs.declared.fault.ImageFault.TheVariants.{NoMemory as no_memory};

    ghost from_gives = { λ _ fault. fault ≡ no_memory };

    fn from(_failure: AllocFailed<T>) -> ImageFault {
        ImageFault::NoMemory
    }
}
