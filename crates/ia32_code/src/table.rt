// The table of spellings as the code has it: how each row is spelled, and what it means.
ghost use Rattle.std.specs.Prelude.{◌≡◌, ◌<◌, true, false};
ghost use Rattle.std.specs.Int.{w8, cast_signed};
ghost use Rattle.ia32_code.specs.Table.{line, SpelledBy};
ghost use Rattle.ia32_code.specs.Table as spec;
ghost use Rattle.ia32_code.specs.Spells.{TrailingFits};

use crate::instruction::{Alu, Count, Inst, Operand, Reg, Shift};
use crate::operand_form::{memory, sign_extend};
use crate::row::{Encoding, ModRm, Row, Trailing};

fn plain(opcode: u8, modrm: ModRm, trailing: Trailing) -> Encoding
    ensures { result ≡ record { escaped = false; opcode = opcode; modrm = modrm; trailing = trailing } }
{
    Encoding {
        escaped: false,
        opcode,
        modrm,
        trailing,
    }
}

fn escaped(opcode: u8, modrm: ModRm, trailing: Trailing) -> Encoding
    ensures { result ≡ record { escaped = true; opcode = opcode; modrm = modrm; trailing = trailing } }
{
    Encoding {
        escaped: true,
        opcode,
        modrm,
        trailing,
    }
}

/// How a row is spelled.
#[inline(always)]
pub fn encoding_of(row: Row) -> Encoding
    ensures { SpelledBy (line row) result }
{
    match row {
        Row::AluStore(op) => plain(8 * op.number() + 1, ModRm::Register, Trailing::Nothing),
        Row::AluLoad(op) => plain(8 * op.number() + 3, ModRm::Register, Trailing::Nothing),
        Row::AluEax(op) => plain(8 * op.number() + 5, ModRm::Absent, Trailing::Word),
        Row::AluWord(op) => plain(0x81, ModRm::Digit(op.number()), Trailing::Word),
        Row::AluByte(op) => plain(0x83, ModRm::Digit(op.number()), Trailing::Byte),
        Row::MovStore => plain(0x89, ModRm::Register, Trailing::Nothing),
        Row::MovLoad => plain(0x8B, ModRm::Register, Trailing::Nothing),
        Row::MovLoadEax => plain(0xA1, ModRm::Absent, Trailing::Word),
        Row::MovStoreEax => plain(0xA3, ModRm::Absent, Trailing::Word),
        Row::MovReg(reg) => plain(0xB8 + reg.number(), ModRm::Absent, Trailing::Word),
        Row::MovWord => plain(0xC7, ModRm::Digit(0), Trailing::Word),
        Row::Lea => plain(0x8D, ModRm::Memory, Trailing::Nothing),
        Row::TestStore => plain(0x85, ModRm::Register, Trailing::Nothing),
        Row::TestEax => plain(0xA9, ModRm::Absent, Trailing::Word),
        Row::TestWord => plain(0xF7, ModRm::Digit(0), Trailing::Word),
        Row::IncReg(reg) => plain(0x40 + reg.number(), ModRm::Absent, Trailing::Nothing),
        Row::Inc => plain(0xFF, ModRm::Digit(0), Trailing::Nothing),
        Row::DecReg(reg) => plain(0x48 + reg.number(), ModRm::Absent, Trailing::Nothing),
        Row::Dec => plain(0xFF, ModRm::Digit(1), Trailing::Nothing),
        Row::Not => plain(0xF7, ModRm::Digit(2), Trailing::Nothing),
        Row::Neg => plain(0xF7, ModRm::Digit(3), Trailing::Nothing),
        Row::Mul => plain(0xF7, ModRm::Digit(4), Trailing::Nothing),
        Row::Imul1 => plain(0xF7, ModRm::Digit(5), Trailing::Nothing),
        Row::Div => plain(0xF7, ModRm::Digit(6), Trailing::Nothing),
        Row::Idiv => plain(0xF7, ModRm::Digit(7), Trailing::Nothing),
        Row::Imul2 => escaped(0xAF, ModRm::Register, Trailing::Nothing),
        Row::Imul3Byte => plain(0x6B, ModRm::Register, Trailing::Byte),
        Row::Imul3Word => plain(0x69, ModRm::Register, Trailing::Word),
        Row::ShiftOne(op) => plain(0xD1, ModRm::Digit(op.number()), Trailing::Nothing),
        Row::ShiftBy(op) => plain(0xC1, ModRm::Digit(op.number()), Trailing::Byte),
        Row::ShiftCl(op) => plain(0xD3, ModRm::Digit(op.number()), Trailing::Nothing),
        Row::Cdq => plain(0x99, ModRm::Absent, Trailing::Nothing),
        Row::Nop => plain(0x90, ModRm::Absent, Trailing::Nothing),
        Row::PushReg(reg) => plain(0x50 + reg.number(), ModRm::Absent, Trailing::Nothing),
        Row::PushByte => plain(0x6A, ModRm::Absent, Trailing::Byte),
        Row::PushWord => plain(0x68, ModRm::Absent, Trailing::Word),
        Row::Push => plain(0xFF, ModRm::Digit(6), Trailing::Nothing),
        Row::PopReg(reg) => plain(0x58 + reg.number(), ModRm::Absent, Trailing::Nothing),
        Row::CallRel => plain(0xE8, ModRm::Absent, Trailing::Word),
        Row::CallAt => plain(0xFF, ModRm::Digit(2), Trailing::Nothing),
        Row::Ret => plain(0xC3, ModRm::Absent, Trailing::Nothing),
        Row::JmpWord => plain(0xE9, ModRm::Absent, Trailing::Word),
        Row::JmpByte => plain(0xEB, ModRm::Absent, Trailing::Byte),
        Row::JccWord(cond) => escaped(0x80 + cond.number(), ModRm::Absent, Trailing::Word),
        Row::JccByte(cond) => plain(0x70 + cond.number(), ModRm::Absent, Trailing::Byte),
        Row::PrivBare(op) => plain(op, ModRm::Absent, Trailing::Nothing),
        Row::PrivByte(op) => plain(op, ModRm::Absent, Trailing::Byte),
    }
}

/// The distance in a byte.
fn distance(byte: u32) -> i32
    requires { byte < 256 }
    ensures { result ≡ cast_signed w8 byte }
{
    (byte as u8).cast_signed() as i32
}

/// The word at an address.
fn address(disp: u32) -> Operand
    ensures { result ≡ spec.memory disp }
{
    memory(None, None, 0, disp)
}

fn alu(op: Alu, dst: Operand, src: Operand) -> Inst
    ensures { result ≡ Inst.Alu op dst src }
{
    Inst::Alu { op, dst, src }
}

fn mov(dst: Operand, src: Operand) -> Inst
    ensures { result ≡ Inst.Mov dst src }
{
    Inst::Mov { dst, src }
}

fn test(dst: Operand, src: Operand) -> Inst
    ensures { result ≡ Inst.Test dst src }
{
    Inst::Test { dst, src }
}

fn imul3(dst: Operand, src: Operand, imm: u32) -> Inst
    ensures { result ≡ Inst.Imul3 dst src imm }
{
    Inst::Imul3 { dst, src, imm }
}

fn shift(op: Shift, dst: Operand, by: Count) -> Inst
    ensures { result ≡ Inst.Shift op dst by }
{
    Inst::Shift { op, dst, by }
}

/// The instruction that a row spells with a register, an operand and a number.
#[inline(always)]
pub fn build(row: Row, reg: Reg, operand: Operand, number: u32) -> Inst
    requires { TrailingFits (line row).trailing number }
    ensures { result ≡ (line row).gives reg operand number }
{
    let r = Operand::R(reg);
    let eax = Operand::R(Reg::Eax);
    let m = operand;
    match row {
        Row::AluStore(op) => alu(op, m, r),
        Row::AluLoad(op) => alu(op, r, m),
        Row::AluEax(op) => alu(op, eax, Operand::I(number)),
        Row::AluWord(op) => alu(op, m, Operand::I(number)),
        Row::AluByte(op) => alu(op, m, Operand::I(sign_extend(number as u8))),
        Row::MovStore => mov(m, r),
        Row::MovLoad => mov(r, m),
        Row::MovLoadEax => mov(eax, address(number)),
        Row::MovStoreEax => mov(address(number), eax),
        Row::MovReg(dst) => mov(Operand::R(dst), Operand::I(number)),
        Row::MovWord => mov(m, Operand::I(number)),
        Row::Lea => Inst::Lea { dst: r, src: m },
        Row::TestStore => test(m, r),
        Row::TestEax => test(eax, Operand::I(number)),
        Row::TestWord => test(m, Operand::I(number)),
        Row::IncReg(dst) => Inst::Inc(Operand::R(dst)),
        Row::Inc => Inst::Inc(m),
        Row::DecReg(dst) => Inst::Dec(Operand::R(dst)),
        Row::Dec => Inst::Dec(m),
        Row::Not => Inst::Not(m),
        Row::Neg => Inst::Neg(m),
        Row::Mul => Inst::Mul(m),
        Row::Imul1 => Inst::Imul1(m),
        Row::Div => Inst::Div(m),
        Row::Idiv => Inst::Idiv(m),
        Row::Imul2 => Inst::Imul2 { dst: r, src: m },
        Row::Imul3Byte => imul3(r, m, sign_extend(number as u8)),
        Row::Imul3Word => imul3(r, m, number),
        Row::ShiftOne(op) => shift(op, m, Count::By(1)),
        Row::ShiftBy(op) => shift(op, m, Count::By(number as u8)),
        Row::ShiftCl(op) => shift(op, m, Count::Cl),
        Row::Cdq => Inst::Cdq,
        Row::Nop => Inst::Nop,
        Row::PushReg(src) => Inst::Push(Operand::R(src)),
        Row::PushByte => Inst::Push(Operand::I(sign_extend(number as u8))),
        Row::PushWord => Inst::Push(Operand::I(number)),
        Row::Push => Inst::Push(m),
        Row::PopReg(dst) => Inst::Pop(dst),
        Row::CallRel => Inst::CallRel(number.cast_signed()),
        Row::CallAt => Inst::CallAt(m),
        Row::Ret => Inst::Ret,
        Row::JmpWord => Inst::Jmp(number.cast_signed()),
        Row::JmpByte => Inst::Jmp(distance(number)),
        Row::JccWord(cond) => Inst::Jcc(cond, number.cast_signed()),
        Row::JccByte(cond) => Inst::Jcc(cond, distance(number)),
        Row::PrivBare(op) => Inst::Priv { op, arg: 0 },
        Row::PrivByte(op) => Inst::Priv {
            op,
            arg: number as u8,
        },
    }
}
