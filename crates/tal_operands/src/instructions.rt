// The operands of an instruction together.
ghost use Rattle.std.specs.Prelude.{◌≡◌};
ghost use Rattle.std.specs.Option.{option_or};
ghost use Rattle.tal_names.specs.Declarations.{names_shown};
ghost use Rattle.tal_operands.specs.Instructions.{takes_special, is_call, with_word, either_faults, with_operand, without_operands, line_instruction, is_misplaced, inst_fault};

use crate::operands::{Hole, Operand, OperandFaults, Sense, operand_of};
use code_words::{Mnemonic, OperandWord, OperandWords, Words};
use ia32_code::Alu;
use tal_names::ModuleNames;
use tal_syntax::Arg;

/// An instruction of a module: its words, in which a number that fits no byte stands for each hole; the hole in its address
/// and the one at its end; the mark of its immediate number; and what is wrong with its operands.
#[derive(Clone, Copy, Debug, PartialEq, Eq, Drop)]
pub struct Instruction {
    pub words: Words,
    pub near: Option<Hole>,
    pub far: Option<Hole>,
    pub sense: Option<Sense>,
    pub faults: OperandFaults,
}

// Whether the instruction takes `null`, `tab`, `desc`, `code` and `data`.
#[tactic(auto, unfolding(crate::specs::Instructions::takes_special))]
fn takes_special(mnemonic: Mnemonic) -> bool
    ensures { result ≡ takes_special mnemonic }
{
    match mnemonic {
        Mnemonic::Mov | Mnemonic::Push | Mnemonic::Alu(Alu::Cmp) => true,
        _ => false,
    }
}

// Whether the target is a function.
#[tactic(auto, unfolding(crate::specs::Instructions::is_call))]
fn is_call(mnemonic: Mnemonic) -> bool
    ensures { result ≡ is_call mnemonic }
{
    match mnemonic {
        Mnemonic::Call => true,
        _ => false,
    }
}

// One operand more, up to three.
#[tactic(auto, unfolding(crate::specs::Instructions::with_word))]
fn with_word(operands: OperandWords, word: OperandWord) -> OperandWords
    ensures { result ≡ with_word operands word }
{
    match operands {
        OperandWords::Zero => OperandWords::One(word),
        OperandWords::One(first) => OperandWords::Two(first, word),
        OperandWords::Two(first, second) => OperandWords::Three(first, second, word),
        OperandWords::Three(first, second, third) => OperandWords::Three(first, second, third),
    }
}

// The first, where there is one, else the second.
fn first_of<T: Copy + Drop>(first: Option<T>, second: Option<T>) -> Option<T>
    ensures { result ≡ option_or first second }
{
    match first {
        Some(value) => Some(value),
        None => second,
    }
}

impl OperandFaults {
    // What is wrong with either.
    #[tactic(auto, unfolding(crate::specs::Instructions::either_faults))]
    fn or(self, other: OperandFaults) -> OperandFaults
        ensures { result ≡ either_faults self other }
    {
        OperandFaults {
            unknown: self.unknown || other.unknown,
            crowded: self.crowded || other.crowded,
            special: self.special || other.special,
            range: self.range || other.range,
            null_type: self.null_type || other.null_type,
        }
    }
}

impl Instruction {
    // A mnemonic without operands.
    fn bare(mnemonic: Mnemonic) -> Instruction
        ensures { result ≡ without_operands mnemonic }
    {
        Instruction {
            words: Words {
                mnemonic,
                operands: OperandWords::Zero,
            },
            near: None,
            far: None,
            sense: None,
            faults: OperandFaults::none(),
        }
    }

    // One operand more.
    #[tactic(auto, unfolding(crate::specs::Instructions::with_operand))]
    fn with_operand(self, operand: Operand) -> Instruction
        ensures { result ≡ with_operand self operand }
    {
        Instruction {
            words: Words {
                mnemonic: self.words.mnemonic,
                operands: with_word(self.words.operands, operand.word),
            },
            near: first_of(self.near, operand.near),
            far: first_of(self.far, operand.far),
            sense: first_of(self.sense, operand.sense),
            faults: self.faults.or(operand.faults),
        }
    }

    /// Whether its operands cannot be spelled: an address has too many registers, or an operand is `null`, `tab`, `desc`, `code`
    /// or `data` and the instruction is none of MOV, PUSH and CMP.
    #[tactic(auto, unfolding(crate::specs::Instructions::is_misplaced))]
    pub fn is_misplaced(&self) -> bool
        ensures { result ≡ is_misplaced self.now }
    {
        self.faults.crowded || (self.faults.special && !takes_special(self.words.mnemonic))
    }

    /// The least code of what is wrong with the instruction, if anything is: 11 a name that is not declared, 13 operands that
    /// cannot be spelled, 15 an unknown label, 16 no room, 17 a number that does not fit, 18 a type that is not allowed. The caller
    /// tells whether its words have a spelling, whether its label is known, and whether there is room.
    #[tactic(auto, unfolding(crate::specs::Instructions::inst_fault))]
    pub fn fault(&self, is_spelled: bool, knows_label: bool, has_room: bool) -> Option<u8>
        ensures { result ≡ inst_fault self.now is_spelled knows_label has_room }
    {
        if self.faults.unknown {
            Some(11)
        } else if self.is_misplaced() || !is_spelled {
            Some(13)
        } else if !knows_label {
            Some(15)
        } else if !has_room {
            Some(16)
        } else if self.faults.range {
            Some(17)
        } else if self.faults.null_type {
            Some(18)
        } else {
            None
        }
    }
}

/// The instruction of a line. `distance` is how far its label is from the next instruction, where it has one.
#[tactic(auto, using(crate::proofs::Steps::here), unfolding(crate::specs::Instructions::with_args))]
pub fn instruction_of(
    names: &ModuleNames,
    mnemonic: Mnemonic,
    args: &[Arg],
    distance: i32,
) -> Instruction
    ensures { result ≡ line_instruction (names_shown names.now) mnemonic args.now distance }
{
    let call = is_call(mnemonic);
    let mut instruction = Instruction::bare(mnemonic);
    for arg in args {
        instruction = instruction.with_operand(operand_of(names, call, distance, arg));
    }
    instruction
}
