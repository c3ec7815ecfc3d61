// From words to instructions. Each private function mirrors a definition of the way back.
ghost use Rattle.std.specs.Prelude.{◌≡◌, Some, IfSome};
ghost use Rattle.code_words.specs.Saying.{said_of, HasByteCount};
ghost use Rattle.code_words.specs.Meaning.{operand_of, count_of, bare, one, two, shifted, popped, called, jumped, branched, multiplication, meant_by};
ghost use Rattle.ia32_code.specs.declared.instruction.Inst.{Inst};

use crate::words::{Mnemonic, OperandWord, OperandWords, Words};
use ia32_code::{Cond, Count, Inst, Operand};

// The operand of an instruction that is said so.
#[tactic(auto, unfolding(crate::specs::Meaning::operand_of))]
fn operand_of(word: OperandWord) -> Option<Operand>
    ensures { result ≡ operand_of word }
{
    match word {
        OperandWord::Register(reg) => Some(Operand::R(reg)),
        OperandWord::Memory(mem) => Some(Operand::M(mem)),
        OperandWord::Number(number) => Some(Operand::I(number)),
        OperandWord::Cl | OperandWord::Target(_) => None,
    }
}

// The count that is said so: a byte, or CL.
#[tactic(auto, unfolding(crate::specs::Meaning::count_of))]
fn count_of(word: OperandWord) -> Option<Count>
    ensures { result ≡ count_of word }
{
    match word {
        OperandWord::Number(number) => {
            if number < 256 {
                Some(Count::By(number as u8))
            } else {
                None
            }
        }
        OperandWord::Cl => Some(Count::Cl),
        OperandWord::Register(_) | OperandWord::Memory(_) | OperandWord::Target(_) => None,
    }
}

// An instruction without operands.
#[tactic(auto, unfolding(crate::specs::Meaning::bare))]
fn bare(operands: OperandWords, inst: Inst) -> Option<Inst>
    ensures { result ≡ bare operands inst }
{
    match operands {
        OperandWords::Zero => Some(inst),
        OperandWords::One(_) | OperandWords::Two(_, _) | OperandWords::Three(_, _, _) => None,
    }
}

// One operand alone.
#[tactic(auto, unfolding(crate::specs::Meaning::one))]
fn one(operands: OperandWords) -> Option<Operand>
    ensures { result ≡ one operands }
{
    match operands {
        OperandWords::One(word) => operand_of(word),
        OperandWords::Zero | OperandWords::Two(_, _) | OperandWords::Three(_, _, _) => None,
    }
}

// Two operands.
#[tactic(auto, unfolding(crate::specs::Meaning::two))]
fn two(operands: OperandWords) -> Option<(Operand, Operand)>
    ensures { result ≡ two operands }
{
    match operands {
        OperandWords::Two(dst, src) => Some((operand_of(dst)?, operand_of(src)?)),
        OperandWords::Zero | OperandWords::One(_) | OperandWords::Three(_, _, _) => None,
    }
}

// An operand and a count.
#[tactic(auto, unfolding(crate::specs::Meaning::shifted))]
fn shifted(operands: OperandWords) -> Option<(Operand, Count)>
    ensures { result ≡ shifted operands }
{
    match operands {
        OperandWords::Two(dst, by) => Some((operand_of(dst)?, count_of(by)?)),
        OperandWords::Zero | OperandWords::One(_) | OperandWords::Three(_, _, _) => None,
    }
}

// A POP: a register alone.
#[tactic(auto, unfolding(crate::specs::Meaning::popped))]
fn popped(operands: OperandWords) -> Option<Inst>
    ensures { result ≡ popped operands }
{
    match operands {
        OperandWords::One(OperandWord::Register(reg)) => Some(Inst::Pop(reg)),
        _ => None,
    }
}

// A call goes to a place in the code, or to what an operand holds.
#[tactic(auto, unfolding(crate::specs::Meaning::called, crate::specs::Meaning::one))]
fn called(operands: OperandWords) -> Option<Inst>
    ensures { result ≡ called operands }
{
    match operands {
        OperandWords::One(OperandWord::Target(distance)) => Some(Inst::CallRel(distance)),
        _ => Some(Inst::CallAt(one(operands)?)),
    }
}

// A jump goes to a place in the code.
#[tactic(auto, unfolding(crate::specs::Meaning::jumped))]
fn jumped(operands: OperandWords) -> Option<Inst>
    ensures { result ≡ jumped operands }
{
    match operands {
        OperandWords::One(OperandWord::Target(distance)) => Some(Inst::Jmp(distance)),
        _ => None,
    }
}

// And so does a branch.
#[tactic(auto, unfolding(crate::specs::Meaning::branched))]
fn branched(cond: Cond, operands: OperandWords) -> Option<Inst>
    ensures { result ≡ branched cond operands }
{
    match operands {
        OperandWords::One(OperandWord::Target(distance)) => Some(Inst::Jcc(cond, distance)),
        _ => None,
    }
}

// The number of operands tells the three forms of IMUL apart.
#[tactic(auto, unfolding(crate::specs::Meaning::multiplication, crate::specs::Meaning::two))]
fn multiplied(operands: OperandWords) -> Option<Inst>
    ensures { result ≡ multiplication operands }
{
    match operands {
        OperandWords::One(word) => Some(Inst::Imul1(operand_of(word)?)),
        OperandWords::Three(dst, src, OperandWord::Number(imm)) => Some(Inst::Imul3 {
            dst: operand_of(dst)?,
            src: operand_of(src)?,
            imm,
        }),
        _ => {
            let (dst, src) = two(operands)?;
            Some(Inst::Imul2 { dst, src })
        }
    }
}

// The instruction, by its mnemonic.
#[tactic(auto, unfolding(crate::specs::Meaning::meant_by))]
fn meant_by(words: Words) -> Option<Inst>
    ensures { result ≡ meant_by words }
{
    let operands = words.operands;
    match words.mnemonic {
        Mnemonic::Alu(op) => {
            let (dst, src) = two(operands)?;
            Some(Inst::Alu { op, dst, src })
        }
        Mnemonic::Mov => {
            let (dst, src) = two(operands)?;
            Some(Inst::Mov { dst, src })
        }
        Mnemonic::Lea => {
            let (dst, src) = two(operands)?;
            Some(Inst::Lea { dst, src })
        }
        Mnemonic::Test => {
            let (dst, src) = two(operands)?;
            Some(Inst::Test { dst, src })
        }
        Mnemonic::Inc => Some(Inst::Inc(one(operands)?)),
        Mnemonic::Dec => Some(Inst::Dec(one(operands)?)),
        Mnemonic::Not => Some(Inst::Not(one(operands)?)),
        Mnemonic::Neg => Some(Inst::Neg(one(operands)?)),
        Mnemonic::Mul => Some(Inst::Mul(one(operands)?)),
        Mnemonic::Imul => multiplied(operands),
        Mnemonic::Div => Some(Inst::Div(one(operands)?)),
        Mnemonic::Idiv => Some(Inst::Idiv(one(operands)?)),
        Mnemonic::Shift(op) => {
            let (dst, by) = shifted(operands)?;
            Some(Inst::Shift { op, dst, by })
        }
        Mnemonic::Cdq => bare(operands, Inst::Cdq),
        Mnemonic::Nop => bare(operands, Inst::Nop),
        Mnemonic::Push => Some(Inst::Push(one(operands)?)),
        Mnemonic::Pop => popped(operands),
        Mnemonic::Call => called(operands),
        Mnemonic::Ret => bare(operands, Inst::Ret),
        Mnemonic::Jmp => jumped(operands),
        Mnemonic::Jcc(cond) => branched(cond, operands),
    }
}

/// The instruction that these words say; none where they say none. Some that are meant have no spelling: `len_of` tells.
pub fn meant(words: Words) -> Option<Inst>
    ensures says { IfSome result (λ i. said_of i ≡ Some words) }
    ensures means { (i : Inst) → HasByteCount i → said_of i ≡ Some words → result ≡ Some i }
    ensures one { result ≡ meant_by words }
{
    meant_by(words)
}
