// The choice of the canonical spelling: the shortest, among equals the first row of the table; a branch has its long form.
ghost use Rattle.std.specs.Prelude.{◌≡◌, ◌<◌};
ghost use Rattle.ia32_code.specs.Canonical.{canonical_row, is_eax, alu_imm, alu_of, test_imm, push_of, with_digit, is_absolute, mov_of, lea_of, test_of, shift_of, imul_imm, imul2_of, imul3_of, priv_of};

use crate::instruction::{Alu, Count, Inst, Mem, Operand, Reg, Shift};
use crate::operand_form::{OperandForm, fits_byte, reg_of, shortest_form};
use crate::row::Row;
use crate::spelling::{Spelling, fill, without_modrm};

/// A row with a digit and nothing after the operand.
fn with_digit(row: Row, digit: u8, operand: Operand) -> Option<Spelling>
    ensures { result ≡ with_digit row digit operand }
{
    let form = shortest_form(operand)?;
    Some(fill(row, reg_of(digit), form, 0))
}

fn is_eax(form: OperandForm) -> bool
    ensures { result ≡ is_eax form }
{
    matches!(form, OperandForm::Direct(Reg::Eax))
}

/// Whether the operand is the word at an address, without base and index.
fn is_absolute(mem: &Mem) -> bool
    ensures { result ≡ is_absolute mem.now }
{
    match (mem.base, mem.index) {
        (None, None) => mem.scale == 0,
        (None, Some(_)) | (Some(_), None) | (Some(_), Some(_)) => false,
    }
}

fn alu_imm(op: Alu, number: u32, form: OperandForm) -> Spelling
    ensures { result ≡ alu_imm op number form }
{
    let digit = reg_of(op.number());
    if fits_byte(number) {
        fill(Row::AluByte(op), digit, form, number & 0xFF)
    } else if is_eax(form) {
        without_modrm(Row::AluEax(op), number)
    } else {
        fill(Row::AluWord(op), digit, form, number)
    }
}

fn alu_of(op: Alu, dst: Operand, src: Operand) -> Option<Spelling>
    ensures { result ≡ alu_of op dst src }
{
    match (dst, src) {
        (_, Operand::R(reg)) => {
            let form = shortest_form(dst)?;
            Some(fill(Row::AluStore(op), reg, form, 0))
        }
        (_, Operand::I(number)) => {
            let form = shortest_form(dst)?;
            Some(alu_imm(op, number, form))
        }
        (Operand::R(reg), Operand::M(_)) => {
            let form = shortest_form(src)?;
            Some(fill(Row::AluLoad(op), reg, form, 0))
        }
        (Operand::M(_) | Operand::I(_), Operand::M(_)) => None,
    }
}

fn mov_of(dst: Operand, src: Operand) -> Option<Spelling>
    ensures { result ≡ mov_of dst src }
{
    match (dst, src) {
        (Operand::R(to), Operand::R(from)) => {
            let form = OperandForm::Direct(to);
            Some(fill(Row::MovStore, from, form, 0))
        }
        (Operand::R(to), Operand::I(number)) => Some(without_modrm(Row::MovReg(to), number)),
        (Operand::R(to), Operand::M(mem)) => {
            if to == Reg::Eax && is_absolute(&mem) {
                return Some(without_modrm(Row::MovLoadEax, mem.disp));
            }
            let form = shortest_form(src)?;
            Some(fill(Row::MovLoad, to, form, 0))
        }
        (Operand::M(mem), Operand::R(from)) => {
            if from == Reg::Eax && is_absolute(&mem) {
                return Some(without_modrm(Row::MovStoreEax, mem.disp));
            }
            let form = shortest_form(dst)?;
            Some(fill(Row::MovStore, from, form, 0))
        }
        (Operand::M(_), Operand::I(number)) => {
            let form = shortest_form(dst)?;
            Some(fill(Row::MovWord, Reg::Eax, form, number))
        }
        (Operand::M(_), Operand::M(_)) | (Operand::I(_), _) => None,
    }
}

fn lea_of(dst: Operand, src: Operand) -> Option<Spelling>
    ensures { result ≡ lea_of dst src }
{
    match (dst, src) {
        (Operand::R(to), Operand::M(_)) => {
            let form = shortest_form(src)?;
            Some(fill(Row::Lea, to, form, 0))
        }
        _ => None,
    }
}

fn test_imm(number: u32, form: OperandForm) -> Spelling
    ensures { result ≡ test_imm number form }
{
    if is_eax(form) {
        without_modrm(Row::TestEax, number)
    } else {
        fill(Row::TestWord, Reg::Eax, form, number)
    }
}

fn test_of(dst: Operand, src: Operand) -> Option<Spelling>
    ensures { result ≡ test_of dst src }
{
    match src {
        Operand::R(reg) => {
            let form = shortest_form(dst)?;
            Some(fill(Row::TestStore, reg, form, 0))
        }
        Operand::I(number) => {
            let form = shortest_form(dst)?;
            Some(test_imm(number, form))
        }
        Operand::M(_) => None,
    }
}

fn imul2_of(dst: Operand, src: Operand) -> Option<Spelling>
    ensures { result ≡ imul2_of dst src }
{
    let Operand::R(to) = dst else {
        return None;
    };
    let form = shortest_form(src)?;
    Some(fill(Row::Imul2, to, form, 0))
}

fn imul_imm(number: u32, to: Reg, form: OperandForm) -> Spelling
    ensures { result ≡ imul_imm number to form }
{
    if fits_byte(number) {
        fill(Row::Imul3Byte, to, form, number & 0xFF)
    } else {
        fill(Row::Imul3Word, to, form, number)
    }
}

fn imul3_of(dst: Operand, src: Operand, number: u32) -> Option<Spelling>
    ensures { result ≡ imul3_of dst src number }
{
    let Operand::R(to) = dst else {
        return None;
    };
    let form = shortest_form(src)?;
    Some(imul_imm(number, to, form))
}

fn shift_of(op: Shift, operand: Operand, by: Count) -> Option<Spelling>
    ensures { result ≡ shift_of op operand by }
{
    match by {
        Count::Cl => with_digit(Row::ShiftCl(op), op.number(), operand),
        Count::By(count) => {
            let form = shortest_form(operand)?;
            let digit = reg_of(op.number());
            if count == 1 {
                Some(fill(Row::ShiftOne(op), digit, form, 0))
            } else {
                Some(fill(Row::ShiftBy(op), digit, form, count as u32))
            }
        }
    }
}

fn push_of(operand: Operand) -> Option<Spelling>
    ensures { result ≡ push_of operand }
{
    match operand {
        Operand::R(from) => Some(without_modrm(Row::PushReg(from), 0)),
        Operand::M(_) => with_digit(Row::Push, 6, operand),
        Operand::I(number) => {
            if fits_byte(number) {
                Some(without_modrm(Row::PushByte, number & 0xFF))
            } else {
                Some(without_modrm(Row::PushWord, number))
            }
        }
    }
}

fn priv_of(op: u8, arg: u8) -> Option<Spelling>
    ensures { result ≡ priv_of op arg }
{
    match op {
        0xF4 | 0xFA | 0xFB | 0xCC | 0xCF | 0xEC | 0xED | 0xEE | 0xEF => {
            if arg == 0 {
                Some(without_modrm(Row::PrivBare(op), 0))
            } else {
                None
            }
        }
        0xCD | 0xE4 | 0xE5 | 0xE6 | 0xE7 => Some(without_modrm(Row::PrivByte(op), arg as u32)),
        _ => None,
    }
}

/// The filled row of the canonical spelling, if the instruction has one.
pub fn canonical_row(inst: &Inst) -> Option<Spelling>
    ensures { result ≡ canonical_row inst.now }
{
    match *inst {
        Inst::Alu { op, dst, src } => alu_of(op, dst, src),
        Inst::Mov { dst, src } => mov_of(dst, src),
        Inst::Lea { dst, src } => lea_of(dst, src),
        Inst::Test { dst, src } => test_of(dst, src),
        Inst::Inc(Operand::R(reg)) => Some(without_modrm(Row::IncReg(reg), 0)),
        Inst::Inc(operand) => with_digit(Row::Inc, 0, operand),
        Inst::Dec(Operand::R(reg)) => Some(without_modrm(Row::DecReg(reg), 0)),
        Inst::Dec(operand) => with_digit(Row::Dec, 1, operand),
        Inst::Not(operand) => with_digit(Row::Not, 2, operand),
        Inst::Neg(operand) => with_digit(Row::Neg, 3, operand),
        Inst::Mul(operand) => with_digit(Row::Mul, 4, operand),
        Inst::Imul1(operand) => with_digit(Row::Imul1, 5, operand),
        Inst::Div(operand) => with_digit(Row::Div, 6, operand),
        Inst::Idiv(operand) => with_digit(Row::Idiv, 7, operand),
        Inst::Imul2 { dst, src } => imul2_of(dst, src),
        Inst::Imul3 { dst, src, imm } => imul3_of(dst, src, imm),
        Inst::Shift { op, dst, by } => shift_of(op, dst, by),
        Inst::Cdq => Some(without_modrm(Row::Cdq, 0)),
        Inst::Nop => Some(without_modrm(Row::Nop, 0)),
        Inst::Push(operand) => push_of(operand),
        Inst::Pop(reg) => Some(without_modrm(Row::PopReg(reg), 0)),
        Inst::CallRel(target) => Some(without_modrm(Row::CallRel, target.cast_unsigned())),
        Inst::CallAt(operand) => with_digit(Row::CallAt, 2, operand),
        Inst::Ret => Some(without_modrm(Row::Ret, 0)),
        Inst::Jmp(target) => Some(without_modrm(Row::JmpWord, target.cast_unsigned())),
        Inst::Jcc(cond, target) => Some(without_modrm(Row::JccWord(cond), target.cast_unsigned())),
        Inst::Priv { op, arg } => priv_of(op, arg),
    }
}
