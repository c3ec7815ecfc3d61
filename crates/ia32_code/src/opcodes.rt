// The row of an opcode, in constant time: the table of spellings looked up by its bytes.
ghost use Rattle.std.specs.Prelude.{◌≡◌, ◌<◌, [], ◌∷◌};
ghost use Rattle.ia32_code.specs.Table.{opcode_bytes};
ghost use Rattle.ia32_code.specs.Opcodes.{row_with, row_with_digit, operation_of, shift_of_number, condition_of};

use crate::instruction::{Alu, Cond, Shift};
use crate::operand_form::reg_of;
use crate::row::{Encoding, Row};

#[tactic(auto, unfolding(crate::specs::Opcodes::operation_of))]
fn operation(number: u8) -> Option<Alu>
    ensures { result ≡ operation_of number }
{
    match number {
        0 => Some(Alu::Add),
        1 => Some(Alu::Or),
        4 => Some(Alu::And),
        5 => Some(Alu::Sub),
        6 => Some(Alu::Xor),
        7 => Some(Alu::Cmp),
        _ => None,
    }
}

#[tactic(auto, unfolding(crate::specs::Opcodes::shift_of_number))]
fn shift(number: u8) -> Option<Shift>
    ensures { result ≡ shift_of_number number }
{
    match number {
        4 => Some(Shift::Shl),
        5 => Some(Shift::Shr),
        7 => Some(Shift::Sar),
        _ => None,
    }
}

#[tactic(auto, unfolding(crate::specs::Opcodes::condition_of))]
fn condition(number: u8) -> Option<Cond>
    ensures { result ≡ condition_of number }
{
    match number {
        0 => Some(Cond::O),
        1 => Some(Cond::No),
        2 => Some(Cond::B),
        3 => Some(Cond::Ae),
        4 => Some(Cond::E),
        5 => Some(Cond::Ne),
        6 => Some(Cond::Be),
        7 => Some(Cond::A),
        8 => Some(Cond::S),
        9 => Some(Cond::Ns),
        12 => Some(Cond::L),
        13 => Some(Cond::Ge),
        14 => Some(Cond::Le),
        15 => Some(Cond::G),
        _ => None,
    }
}

/// The opcodes of an operation on two operands hold it in their upper bits.
fn operation_row(opcode: u8) -> Option<Row>
    requires { opcode < 64 }
    ensures { result ≡ row_with (opcode ∷ []) }
{
    let op = operation(opcode / 8)?;
    match opcode % 8 {
        1 => Some(Row::AluStore(op)),
        3 => Some(Row::AluLoad(op)),
        5 => Some(Row::AluEax(op)),
        _ => None,
    }
}

/// The row of an opcode of one byte, in the order of the table. Of rows that a digit tells apart it is the first.
#[tactic(auto, unfolding(crate::specs::Opcodes::row_with))]
#[inline(always)]
pub fn row_of(opcode: u8) -> Option<Row>
    ensures { result ≡ row_with (opcode ∷ []) }
{
    match opcode {
        0x00..=0x3F => operation_row(opcode),
        0x81 => Some(Row::AluWord(Alu::Add)),
        0x83 => Some(Row::AluByte(Alu::Add)),
        0x89 => Some(Row::MovStore),
        0x8B => Some(Row::MovLoad),
        0xA1 => Some(Row::MovLoadEax),
        0xA3 => Some(Row::MovStoreEax),
        0xB8..=0xBF => Some(Row::MovReg(reg_of(opcode - 0xB8))),
        0xC7 => Some(Row::MovWord),
        0x8D => Some(Row::Lea),
        0x85 => Some(Row::TestStore),
        0xA9 => Some(Row::TestEax),
        0xF7 => Some(Row::TestWord),
        0x40..=0x47 => Some(Row::IncReg(reg_of(opcode - 0x40))),
        0xFF => Some(Row::Inc),
        0x48..=0x4F => Some(Row::DecReg(reg_of(opcode - 0x48))),
        0x6B => Some(Row::Imul3Byte),
        0x69 => Some(Row::Imul3Word),
        0xD1 => Some(Row::ShiftOne(Shift::Shl)),
        0xC1 => Some(Row::ShiftBy(Shift::Shl)),
        0xD3 => Some(Row::ShiftCl(Shift::Shl)),
        0x99 => Some(Row::Cdq),
        0x90 => Some(Row::Nop),
        0x50..=0x57 => Some(Row::PushReg(reg_of(opcode - 0x50))),
        0x6A => Some(Row::PushByte),
        0x68 => Some(Row::PushWord),
        0x58..=0x5F => Some(Row::PopReg(reg_of(opcode - 0x58))),
        0xE8 => Some(Row::CallRel),
        0xC3 => Some(Row::Ret),
        0xE9 => Some(Row::JmpWord),
        0xEB => Some(Row::JmpByte),
        0x70..=0x7F => Some(Row::JccByte(condition(opcode - 0x70)?)),
        0xF4 => Some(Row::PrivBare(0xF4)),
        0xFA..=0xFB => Some(Row::PrivBare(opcode)),
        0xCC => Some(Row::PrivBare(0xCC)),
        0xCF => Some(Row::PrivBare(0xCF)),
        0xEC..=0xEF => Some(Row::PrivBare(opcode)),
        0xCD => Some(Row::PrivByte(0xCD)),
        0xE4..=0xE7 => Some(Row::PrivByte(opcode)),
        _ => None,
    }
}

/// The row of a byte after 0F.
#[tactic(auto, unfolding(crate::specs::Opcodes::row_with))]
#[inline(always)]
pub fn row_of_escaped(opcode: u8) -> Option<Row>
    ensures { result ≡ row_with (0x0F ∷ opcode ∷ []) }
{
    match opcode {
        0xAF => Some(Row::Imul2),
        0x80..=0x8F => Some(Row::JccWord(condition(opcode - 0x80)?)),
        _ => None,
    }
}

#[tactic(auto, unfolding(crate::specs::Opcodes::row_with_digit))]
fn unary_row(digit: u8) -> Option<Row>
    requires { digit < 8 }
    ensures { result ≡ row_with_digit (0xF7 ∷ []) digit }
{
    match digit {
        0 => Some(Row::TestWord),
        2 => Some(Row::Not),
        3 => Some(Row::Neg),
        4 => Some(Row::Mul),
        5 => Some(Row::Imul1),
        6 => Some(Row::Div),
        7 => Some(Row::Idiv),
        _ => None,
    }
}

#[tactic(auto, unfolding(crate::specs::Opcodes::row_with_digit))]
fn step_row(digit: u8) -> Option<Row>
    requires { digit < 8 }
    ensures { result ≡ row_with_digit (0xFF ∷ []) digit }
{
    match digit {
        0 => Some(Row::Inc),
        1 => Some(Row::Dec),
        2 => Some(Row::CallAt),
        6 => Some(Row::Push),
        _ => None,
    }
}

#[tactic(auto, unfolding(crate::specs::Opcodes::row_with_digit))]
fn move_row(digit: u8) -> Option<Row>
    requires { digit < 8 }
    ensures { result ≡ row_with_digit (0xC7 ∷ []) digit }
{
    match digit {
        0 => Some(Row::MovWord),
        _ => None,
    }
}

/// The row of an opcode and a digit.
#[inline(always)]
pub fn row_of_digit(encoding: Encoding, digit: u8) -> Option<Row>
    requires { digit < 8 }
    ensures { result ≡ row_with_digit (opcode_bytes encoding.escaped encoding.opcode) digit }
{
    if encoding.escaped {
        return None;
    }
    match encoding.opcode {
        0x81 => Some(Row::AluWord(operation(digit)?)),
        0x83 => Some(Row::AluByte(operation(digit)?)),
        0xC7 => move_row(digit),
        0xF7 => unary_row(digit),
        0xFF => step_row(digit),
        0xD1 => Some(Row::ShiftOne(shift(digit)?)),
        0xC1 => Some(Row::ShiftBy(shift(digit)?)),
        0xD3 => Some(Row::ShiftCl(shift(digit)?)),
        _ => None,
    }
}
