// The rows of a unit. A row of a table has a name, by its number among the unit's names, and is extern where another unit has
// what it names.
use object_layout::{ClassRow, FieldTy};
use tal_image::NumberList;
pub use tal_image::TypeList as TyList;
use tal_syntax::Name;
use tal_types::{Sig, Ty};

/// The magic number of unit files, whose bytes are the letters VRVU.
pub(crate) const MAGIC: u32 = 0x5556_5256;

/// A signature.
#[derive(Drop)]
pub struct UnitSig {
    pub name: u32,
    pub ext: bool,
    pub sig: Sig,
}

/// A function: the length of its code in bytes, 1 to 1048576, or 0 where it is extern, and the number of its signature.
#[derive(Clone, Copy, Debug, PartialEq, Eq)]
pub struct UnitFun {
    pub name: u32,
    pub ext: bool,
    pub length: u32,
    pub sig: u32,
}

/// The function at which a stack, 0 to 63, begins.
#[derive(Clone, Copy, Debug, PartialEq, Eq)]
pub struct UnitEntry {
    pub stack: u32,
    pub function: u32,
}

/// A class.
#[derive(Drop)]
pub struct UnitClass {
    pub name: u32,
    pub ext: bool,
    pub row: ClassRow,
}

/// An array kind: what its elements hold.
#[derive(Clone, Copy, Debug, PartialEq, Eq)]
pub struct UnitKind {
    pub name: u32,
    pub ext: bool,
    pub element: FieldTy,
}

/// A static: what it holds.
#[derive(Clone, Copy, Debug, PartialEq, Eq)]
pub struct UnitStatic {
    pub name: u32,
    pub ext: bool,
    pub ty: FieldTy,
}

/// A data array: the number of its array kind (below 256), and how many elements it has (at most 65534).
#[derive(Clone, Copy, Debug, PartialEq, Eq)]
pub struct UnitData {
    pub name: u32,
    pub ext: bool,
    pub kind: u32,
    pub length: u32,
}

/// A data array with its numbers, which are those of its elements where the kind is one of numbers and the row is not
/// extern, and else none.
#[derive(Drop)]
pub struct UnitArray {
    pub row: UnitData,
    pub numbers: NumberList,
}

/// The annotation of a block: where in the code it begins, in bytes from the code's first (below 1048576), the types of EAX,
/// ECX, EDX, EBX, EBP, ESI and EDI, and those of the slots, slot 0 first (at most 64).
#[derive(Drop)]
pub struct UnitBlock {
    pub offset: u32,
    pub regs: [Ty; 7],
    pub slots: TyList,
}

/// A mark: where in the code its instruction begins, and what the immediate number there will mean, by a tag of
/// `tal_types::Mark` and the number of a row.
#[derive(Clone, Copy, Debug, PartialEq, Eq)]
pub struct UnitMark {
    pub offset: u32,
    pub tag: u32,
    pub index: u32,
}

/// A word that is left to the linker: where in the code it lies, and what comes there. The kinds are 1 the table of a class,
/// 2 the descriptor of an array kind, 3 a function, 4 a data array, 5 a static, each as an address, and 6 a function, 7 an
/// entry of the Nucleus, each relative to the word's end. The index is that thing's number.
#[derive(Clone, Copy, Debug, PartialEq, Eq)]
pub struct FixUp {
    pub offset: u32,
    pub kind: u32,
    pub index: u32,
}

/// The rows of a unit, in the order of its file; the heap's words and the number of stacks are 0 where the unit does not give
/// them.
#[derive(Drop)]
pub struct UnitRows {
    pub heap_words: u32,
    pub stacks: u32,
    pub names: Vec<Name>,
    pub sigs: Vec<UnitSig>,
    pub functions: Vec<UnitFun>,
    pub entries: Vec<UnitEntry>,
    pub classes: Vec<UnitClass>,
    pub kinds: Vec<UnitKind>,
    pub statics: Vec<UnitStatic>,
    pub arrays: Vec<UnitArray>,
    pub code: Vec<u8>,
    pub blocks: Vec<UnitBlock>,
    pub marks: Vec<UnitMark>,
    pub fixups: Vec<FixUp>,
}
