// What begins at the bytes of the code, by which each block and mark is read in a time of its own.
ghost use Rattle.std.specs.Prelude.{◌≡◌, ◌++◌, OnOk};
ghost use Rattle.tal_image.specs.declared.start.Start.TheVariants.{Nothing};
ghost use Rattle.tal_image.specs.Conditions.{immediate, marked_number};
ghost use Rattle.tal_image.specs.CodeReading.{headed, start_of, start_at, is_start, start_number};

use ia32_code::{Alu, Inst, Operand};
use no_memory::NoMemory;

/// What begins at a byte of the code: nothing, or an instruction, with its immediate number where it is a MOV, a PUSH or a
/// CMP that has one.
#[derive(Clone, Copy)]
pub enum Start {
    Nothing,
    Instruction,
    Immediate(u32),
}

/// The number of an operand, where it is an immediate one.
#[tactic(auto, unfolding(crate::specs::Conditions::immediate))]
fn immediate(operand: Operand) -> Option<u32>
    ensures { result ≡ immediate operand }
{
    match operand {
        Operand::I(number) => Some(number),
        Operand::R(_) | Operand::M(_) => None,
    }
}

/// The immediate number of a MOV, a PUSH or a CMP.
#[tactic(auto, unfolding(crate::specs::Conditions::marked_number, crate::specs::Conditions::compared))]
fn marked_number(inst: Inst) -> Option<u32>
    ensures { result ≡ marked_number inst }
{
    match inst {
        Inst::Mov { src, .. } | Inst::Push(src) => immediate(src),
        Inst::Alu {
            op: Alu::Cmp,
            src,
            ..
        } => immediate(src),
        _ => None,
    }
}

impl Start {
    /// What begins where an instruction does.
    fn of(inst: Inst) -> Start
        ensures { result ≡ start_of inst }
    {
        match marked_number(inst) {
            Some(number) => Start::Immediate(number),
            None => Start::Instruction,
        }
    }

    /// Whether an instruction begins.
    pub fn is_start(self) -> bool
        ensures { result ≡ is_start self }
    {
        match self {
            Start::Nothing => false,
            Start::Instruction | Start::Immediate(_) => true,
        }
    }

    /// The immediate number of the instruction that begins, if one with such a number does.
    pub fn number(self) -> Option<u32>
        ensures { result ≡ start_number self }
    {
        match self {
            Start::Immediate(number) => Some(number),
            Start::Nothing | Start::Instruction => None,
        }
    }
}

/// Puts the starts of an instruction of so many bytes behind others.
#[tactic(auto, unfolding(crate::specs::CodeReading::headed))]
pub(crate) fn put_instruction(
    starts: &mut Vec<Start>,
    inst: Inst,
    length: u32,
) -> Result<(), NoMemory>
    ensures { OnOk result (starts.new.items ≡ starts.old.items ++ headed (start_of inst) Nothing length) }
{
    let end = starts.len() + length as usize;
    if length > 0 {
        starts.push(Start::of(inst))?;
    }
    starts.resize(end, Start::Nothing)?;
    Ok(())
}

/// What begins at a byte.
pub fn start_at(starts: &[Start], offset: u32) -> Start
    ensures { result ≡ start_at starts.now offset }
{
    starts
        .get(offset as usize)
        .copied()
        .unwrap_or(Start::Nothing)
}
