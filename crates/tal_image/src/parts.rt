use std::marker::Model;
use tal_types::Ty;

/// The magic number of image files, whose bytes are the letters VRVI.
pub(crate) const MAGIC: u32 = 0x4956_5256;

/// What the header of an image file tells: the size of the heap in words (64 to 4194304, a multiple of 4), the number of
/// stacks (2 to 64), how many signatures (1 to 4096), functions (1 to 16384), classes (at most 1024), array kinds (at most
/// 256), statics and data arrays (at most 65536 each) follow, the length of the code in bytes (1 to 1048576), and how many
/// blocks and marks follow it (at most 65536 each).
#[derive(Clone, Copy, Debug, PartialEq, Eq)]
pub struct Header {
    pub heap_words: u32,
    pub stacks: u32,
    pub sigs: u32,
    pub functions: u32,
    pub classes: u32,
    pub kinds: u32,
    pub statics: u32,
    pub arrays: u32,
    pub code: u32,
    pub blocks: u32,
    pub marks: u32,
}

/// How many rows the tables have to which types refer: 1 to 4096 signatures, at most 1024 classes, at most 256 array kinds.
#[derive(Clone, Copy, Debug, PartialEq, Eq)]
pub struct Tables {
    pub sigs: u32,
    pub classes: u32,
    pub kinds: u32,
}

/// A function: the length of its code in bytes, 1 to 1048576, and the number of its signature.
#[derive(Clone, Copy, Debug, PartialEq, Eq)]
pub struct FunctionPart {
    pub length: u32,
    pub sig: u32,
}

/// A mark: where in the code its instruction begins, in bytes from the code's first (below 1048576), and what the immediate
/// there means. The tags are those of `tal_types::Mark`: 1, 3 and 5 null of a class, an array kind or a signature, 6 a
/// function's address, 7 a class's table, 8 an array kind's descriptor, 10 a data array's address; the index is that thing's
/// number.
#[derive(Clone, Copy, Debug, PartialEq, Eq)]
pub struct MarkPart {
    pub offset: u32,
    pub tag: u32,
    pub index: u32,
}

/// The numbers of a data array. Contracts see it as a list.
#[derive(Drop)]
pub struct NumberList {
    numbers: Vec<u32>,
}

impl Model for NumberList {
    ghost use Rattle.std.specs.Prelude.{List, ℕ};

    ghost Value = { List ℕ };

    ghost view = { λ list. list.numbers.items };
}

impl NumberList {
    ghost use Rattle.std.specs.Prelude.{◌≡◌};

    /// These numbers.
    pub fn of(numbers: Vec<u32>) -> NumberList
        ensures { result ≡ numbers.items }
    {
        NumberList { numbers }
    }

    /// The numbers, the first one first.
    pub fn items(&self) -> &[u32]
        ensures { result.now ≡ self.now }
    {
        &self.numbers
    }
}

/// A data array: the number of its array kind (below 256), its length (at most 65534), and its numbers, where the kind is one
/// of numbers.
#[derive(Drop)]
pub struct ArrayPart {
    pub kind: u32,
    pub size: u32,
    pub numbers: NumberList,
}

/// The types of a block's slots. Contracts see it as a list.
#[derive(Drop)]
pub struct TypeList {
    types: Vec<Ty>,
}

impl Model for TypeList {
    ghost use Rattle.std.specs.Prelude.{List};
    ghost use Rattle.tal_types.specs.declared.types.Ty.{Ty};

    ghost Value = { List Ty };

    ghost view = { λ list. list.types.items };
}

impl TypeList {
    ghost use Rattle.std.specs.Prelude.{◌≡◌};

    /// These types.
    pub fn of(types: Vec<Ty>) -> TypeList
        ensures { result ≡ types.items }
    {
        TypeList { types }
    }

    /// The types, slot 0 first.
    pub fn items(&self) -> &[Ty]
        ensures { result.now ≡ self.now }
    {
        &self.types
    }
}

/// The annotation of a block: where in the code it begins, in bytes from the code's first (below 1048576), the types of EAX,
/// ECX, EDX, EBX, EBP, ESI and EDI, and those of the slots, slot 0 first (at most 64).
#[derive(Drop)]
pub struct BlockPart {
    pub offset: u32,
    pub types: [Ty; 7],
    pub slots: TypeList,
}

/// A data array as it lies in memory: the address of its first word (0x300000 to 0x340000), the number of its array kind
/// (below 256), and how many elements it has (at most 65534).
#[derive(Clone, Copy, Debug, PartialEq, Eq)]
pub struct DataRow {
    pub place: u32,
    pub kind: u32,
    pub length: u32,
}
