use no_memory::NoMemory;
use std::alloc::{AllocError, AllocFailed};
use thiserror::Error;

/// Why the rows of classes and kinds are no table: the first bad row, classes before kinds, and the
/// first fault that it has in the order below.
#[derive(Clone, Copy, Debug, Error, PartialEq, Eq)]
pub enum ShapeFault {
    /// The class's parent is not an earlier class.
    #[error("the parent of a class is not an earlier class")]
    BadParent { row: u32 },
    /// The class has more than seven ancestors.
    #[error("a class is too deep below its root")]
    TooDeep { row: u32 },
    /// More than 256 fields with the parent's, more than 53 methods, class row 1024, or kind row 256.
    #[error("a class has too many fields or methods, or there are too many rows")]
    TooMany { row: u32 },
    /// A field, an element or a method names a class, kind, signature or function that is not there.
    #[error("a row names a class, kind, signature or function that is not there")]
    BadIndex { row: u32 },
    /// Fewer methods than the parent, or another signature in a slot of the parent's.
    #[error("a class does not keep the methods of its parent")]
    BadMethod { row: u32 },
    /// There was no memory for the tables.
    #[error("out of memory")]
    NoMemory,
}

impl From<NoMemory> for ShapeFault {
    ghost use Rattle.std.specs.Prelude.{◌≡◌};
    ghost use Rattle.object_layout.specs.declared.faults.ShapeFault.TheVariants.{NoMemory as no_memory};

    ghost from_gives = { λ _ fault. fault ≡ no_memory };

    fn from(_want: NoMemory) -> ShapeFault {
        ShapeFault::NoMemory
    }
}

impl From<AllocError> for ShapeFault {
    ghost use Rattle.std.specs.Prelude.{◌≡◌};
    ghost use Rattle.object_layout.specs.declared.faults.ShapeFault.TheVariants.{NoMemory as no_memory};

    ghost from_gives = { λ _ fault. fault ≡ no_memory };

    fn from(_failure: AllocError) -> ShapeFault {
        ShapeFault::NoMemory
    }
}

impl<T: Drop> From<AllocFailed<T>> for ShapeFault {
    ghost use Rattle.std.specs.Prelude.{◌≡◌};
    ghost use Rattle.object_layout.specs.declared.faults.ShapeFault.TheVariants.{NoMemory as no_memory};

    ghost from_gives = { λ _ fault. fault ≡ no_memory };

    fn from(_failure: AllocFailed<T>) -> ShapeFault {
        ShapeFault::NoMemory
    }
}
