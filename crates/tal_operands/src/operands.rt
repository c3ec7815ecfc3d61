// The operands of a module's instructions, each by itself.
ghost use Rattle.std.specs.Prelude.{◌≡◌};
ghost use Rattle.tal_names.specs.Declarations.{names_shown};
ghost use Rattle.tal_operands.specs.Operands.{wide, no_faults, plain_operand, row_operand, null_sense, null_operand, memory_operand, is_nucleus_entry, nucleus_operand, called_operand, arg_operand};

use crate::addresses::{Address, word};
use code_words::OperandWord;
use ia32_code::Mem;
use tal_names::ModuleNames;
use tal_syntax::Arg;
use tal_types::Ty;

// Stands for a hole while an instruction is spelled.
const WIDE: u32 = 0x0100_0000;

/// A word of an instruction that is left to the linker. The kinds are 1 the table of a class, 2 the descriptor of an array
/// kind, 3 a function, 4 a data array, 5 a static, each as an address, and 6 a function, 7 an entry of the Nucleus, each
/// relative to the word's end. The index is that thing's number.
#[derive(Clone, Copy, Debug, PartialEq, Eq, Drop)]
pub struct Hole {
    pub kind: u32,
    pub index: u32,
}

/// What an immediate number means. The tags are those of marks: 1, 3 and 5 null of a class, an array kind or a signature, 6 a
/// function, 7 a class's table, 8 an array kind's descriptor, 10 a data array; the index is that thing's number.
#[derive(Clone, Copy, Debug, PartialEq, Eq, Drop)]
pub struct Sense {
    pub tag: u32,
    pub index: u32,
}

/// What may be wrong with operands.
#[derive(Clone, Copy, Debug, PartialEq, Eq, Drop)]
pub struct OperandFaults {
    /// A name is not declared in its table.
    pub unknown: bool,
    /// An address has more registers than a base and an index.
    pub crowded: bool,
    /// There is `null`, `tab`, `desc`, `code` or `data`, which not every instruction takes.
    pub special: bool,
    /// No such entry of the Nucleus; or a static with a number, a member or another static beside it.
    pub range: bool,
    /// `null` of a type that has none.
    pub null_type: bool,
}

/// An operand: its word, and the holes in it, `near` in an address and `far` in what stands at the instruction's end.
#[derive(Clone, Copy, Debug, PartialEq, Eq, Drop)]
pub struct Operand {
    pub word: OperandWord,
    pub near: Option<Hole>,
    pub far: Option<Hole>,
    pub sense: Option<Sense>,
    pub faults: OperandFaults,
}

impl OperandFaults {
    // Nothing is wrong.
    pub(crate) fn none() -> OperandFaults
        ensures { result ≡ no_faults }
    {
        OperandFaults {
            unknown: false,
            crowded: false,
            special: false,
            range: false,
            null_type: false,
        }
    }
}

// An operand without a name.
fn plain(word: OperandWord) -> Operand
    ensures { result ≡ plain_operand word }
{
    Operand {
        word,
        near: None,
        far: None,
        sense: None,
        faults: OperandFaults::none(),
    }
}

// An immediate number for a row, which has a number where it is declared.
#[tactic(auto, unfolding(crate::specs::Operands::row_operand))]
fn row_operand(kind: u32, tag: u32, row: Option<u32>) -> Operand
    ensures { result ≡ row_operand kind tag row }
{
    let (index, unknown) = match row {
        Some(number) => (number, false),
        None => (0, true),
    };
    Operand {
        far: Some(Hole { kind, index }),
        sense: Some(Sense { tag, index }),
        faults: OperandFaults {
            unknown,
            special: true,
            ..OperandFaults::none()
        },
        ..plain(OperandWord::Number(WIDE))
    }
}

// The mark of null, for the types that have one.
#[tactic(auto, unfolding(crate::specs::Operands::null_sense))]
fn null_sense(ty: Ty) -> Option<Sense>
    ensures { result ≡ null_sense ty }
{
    match ty {
        Ty::Ref(index) => Some(Sense { tag: 1, index }),
        Ty::ArrRef(index) => Some(Sense { tag: 3, index }),
        Ty::Fun(index) => Some(Sense { tag: 5, index }),
        _ => None,
    }
}

// Null of a type, which is there where its name is declared.
#[tactic(auto, unfolding(crate::specs::Operands::null_operand))]
fn null_operand(ty: Option<Ty>) -> Operand
    ensures { result ≡ null_operand ty }
{
    match ty {
        None => Operand {
            faults: OperandFaults {
                unknown: true,
                special: true,
                ..OperandFaults::none()
            },
            ..plain(OperandWord::Number(0))
        },
        Some(ty) => {
            let sense = null_sense(ty);
            Operand {
                sense,
                faults: OperandFaults {
                    special: true,
                    null_type: !sense.is_some(),
                    ..OperandFaults::none()
                },
                ..plain(OperandWord::Number(0))
            }
        }
    }
}

// An operand in memory.
#[tactic(auto, unfolding(crate::specs::Operands::memory_operand))]
fn memory_operand(address: Address) -> Operand
    ensures { result ≡ memory_operand address }
{
    let (disp, near) = match address.place {
        Some(index) => (WIDE, Some(Hole { kind: 5, index })),
        None => (address.disp, None),
    };
    let word = OperandWord::Memory(Mem {
        base: address.base,
        index: address.index,
        scale: address.scale,
        disp,
    });
    Operand {
        near,
        faults: OperandFaults {
            unknown: address.unknown,
            crowded: address.crowded,
            range: address.twice || (address.place.is_some() && address.counted),
            ..OperandFaults::none()
        },
        ..plain(word)
    }
}

// Whether the Nucleus has the entry.
#[tactic(auto, unfolding(crate::specs::Operands::is_nucleus_entry))]
fn is_entry(number: i64) -> bool
    ensures { result ≡ is_nucleus_entry number }
{
    !(number < 0) && !(10 < number)
}

// A call of the Nucleus.
#[tactic(auto, unfolding(crate::specs::Operands::nucleus_operand))]
fn nucleus_operand(number: i64) -> Operand
    ensures { result ≡ nucleus_operand number }
{
    Operand {
        far: Some(Hole {
            kind: 7,
            index: word(number),
        }),
        faults: OperandFaults {
            range: !is_entry(number),
            ..OperandFaults::none()
        },
        ..plain(OperandWord::Target(0))
    }
}

// A function that is called, which has a number where it is declared.
#[tactic(auto, unfolding(crate::specs::Operands::called_operand))]
fn called_operand(function: Option<u32>) -> Operand
    ensures { result ≡ called_operand function }
{
    let (index, unknown) = match function {
        Some(number) => (number, false),
        None => (0, true),
    };
    Operand {
        far: Some(Hole { kind: 6, index }),
        faults: OperandFaults {
            unknown,
            ..OperandFaults::none()
        },
        ..plain(OperandWord::Target(0))
    }
}

/// An operand. A call's target is a function, another target a label at this distance from the next instruction.
#[tactic(auto, unfolding(crate::specs::Operands::arg_operand))]
pub(crate) fn operand_of(names: &ModuleNames, call: bool, distance: i32, arg: &Arg) -> Operand
    ensures { result ≡ arg_operand (names_shown names.now) call distance arg.now }
{
    match arg {
        Arg::Register(reg) => plain(OperandWord::Register(*reg)),
        Arg::Cl => plain(OperandWord::Cl),
        Arg::Number(number) => plain(OperandWord::Number(word(*number))),
        Arg::Null(ty) => null_operand(names.type_of(ty)),
        Arg::Tab(name) => row_operand(1, 7, names.classes.number(name.bytes())),
        Arg::Desc(name) => row_operand(2, 8, names.kinds.number(name.bytes())),
        Arg::Code(name) => row_operand(3, 6, names.functions.number(name.bytes())),
        Arg::DataOf(name) => row_operand(4, 10, names.arrays.number(name.bytes())),
        Arg::Memory(terms) => memory_operand(Address::of(names, terms.items())),
        Arg::Nucleus(number) => nucleus_operand(*number),
        Arg::Target(name) => {
            if call {
                called_operand(names.functions.number(name.bytes()))
            } else {
                plain(OperandWord::Target(distance))
            }
        }
    }
}
