// Reading the spelling at the front of bytes. Each reader gives a value and the bytes after it. The readers are inlined
// into one function: what they hand up is then not copied, which would take longer than the reading.
ghost use Rattle.std.specs.Prelude.{◌≡◌};
ghost use Rattle.ia32_code.specs.Table.{line};
ghost use Rattle.ia32_code.specs.Reading.{GivesRead, word_at, disp_at, sib_at, form_at, trailing_at, end_at, modrm_at, row_at, by_modrm_at, opened_at, spelling_at};

use crate::instruction::Reg;
use crate::opcodes::{row_of, row_of_digit, row_of_escaped};
use crate::operand_form::{Displacement, OperandForm, reg_of};
use crate::row::{ModRm, Row, Trailing};
use crate::spelling::{Spelling, fill};
use crate::table::encoding_of;

/// Why bytes do not begin with an instruction.
#[derive(Clone, Copy, Drop)]
pub enum Stop {
    /// They end too early.
    Short,
    /// No spelling begins so.
    Unknown,
}

#[tactic(auto, unfolding(crate::specs::Reading::word_at))]
#[inline(always)]
fn word_of(bytes: &[u8]) -> Result<(u32, &[u8]), Stop>
    ensures { GivesRead (λ x. (x.0, x.1.now)) result (word_at bytes.now) }
{
    match bytes {
        [a, b, c, d, rest @ ..] => Ok((u32::from_le_bytes([*a, *b, *c, *d]), rest)),
        [] | [_] | [_, _] | [_, _, _] => Err(Stop::Short),
    }
}

#[tactic(auto, unfolding(crate::specs::Reading::disp_at))]
#[inline(always)]
fn displacement_of(mode: u8, bytes: &[u8]) -> Result<(Displacement, &[u8]), Stop>
    ensures { GivesRead (λ x. (x.0, x.1.now)) result (disp_at mode bytes.now) }
{
    if mode == 0 {
        Ok((Displacement::NoDisp, bytes))
    } else if mode == 1 {
        let [byte, rest @ ..] = bytes else {
            return Err(Stop::Short);
        };
        Ok((Displacement::Disp8(*byte), rest))
    } else {
        let (word, rest) = word_of(bytes)?;
        Ok((Displacement::Disp32(word), rest))
    }
}

#[tactic(auto, unfolding(crate::specs::Reading::sib_at))]
#[inline(always)]
fn indexed_of(mode: u8, bytes: &[u8]) -> Result<(OperandForm, &[u8]), Stop>
    ensures { GivesRead (λ x. (x.0, x.1.now)) result (sib_at mode bytes.now) }
{
    let [sib, rest @ ..] = bytes else {
        return Err(Stop::Short);
    };
    let index = reg_of(*sib / 8 % 8);
    if mode == 0 && *sib % 8 == 5 {
        let (word, rest) = word_of(rest)?;
        Ok((OperandForm::Unbased(*sib / 64, index, word), rest))
    } else {
        let (disp, rest) = displacement_of(mode, rest)?;
        Ok((
            OperandForm::Indexed(*sib / 64, index, reg_of(*sib % 8), disp),
            rest,
        ))
    }
}

#[tactic(auto, unfolding(crate::specs::Reading::form_at))]
#[inline(always)]
fn form_of(modrm_byte: u8, bytes: &[u8]) -> Result<(OperandForm, &[u8]), Stop>
    ensures { GivesRead (λ x. (x.0, x.1.now)) result (form_at modrm_byte bytes.now) }
{
    let mode = modrm_byte / 64;
    let rm = modrm_byte % 8;
    if mode == 3 {
        return Ok((OperandForm::Direct(reg_of(rm)), bytes));
    }
    if rm == 4 {
        return indexed_of(mode, bytes);
    }
    if mode == 0 && rm == 5 {
        let (word, rest) = word_of(bytes)?;
        return Ok((OperandForm::Absolute(word), rest));
    }
    let (disp, rest) = displacement_of(mode, bytes)?;
    Ok((OperandForm::Based(reg_of(rm), disp), rest))
}

#[tactic(auto, unfolding(crate::specs::Reading::trailing_at))]
#[inline(always)]
fn number_of(trailing: Trailing, bytes: &[u8]) -> Result<(u32, &[u8]), Stop>
    ensures { GivesRead (λ x. (x.0, x.1.now)) result (trailing_at trailing bytes.now) }
{
    match trailing {
        Trailing::Nothing => Ok((0, bytes)),
        Trailing::Byte => match bytes {
            [byte, rest @ ..] => Ok((*byte as u32, rest)),
            [] => Err(Stop::Short),
        },
        Trailing::Word => word_of(bytes),
    }
}

#[tactic(auto, unfolding(crate::specs::Reading::end_at))]
#[inline(always)]
fn end_of(row: Row, reg: Reg, form: OperandForm, bytes: &[u8]) -> Result<(Spelling, &[u8]), Stop>
    ensures { GivesRead (λ x. (x.0, x.1.now)) result (end_at row reg form bytes.now) }
{
    let (number, rest) = number_of(encoding_of(row).trailing, bytes)?;
    Ok((fill(row, reg, form, number), rest))
}

#[tactic(auto, unfolding(crate::specs::Reading::modrm_at))]
#[inline(always)]
fn modrm_of(row: Row, modrm_byte: u8, bytes: &[u8]) -> Result<(Spelling, &[u8]), Stop>
    ensures { GivesRead (λ x. (x.0, x.1.now)) result (modrm_at row modrm_byte bytes.now) }
{
    let (form, rest) = form_of(modrm_byte, bytes)?;
    end_of(row, reg_of(modrm_byte / 8 % 8), form, rest)
}

/// The row that a ModRM byte leaves of those with the opcode of a row.
#[inline(always)]
fn row_at(row: Row, modrm_byte: u8) -> Option<Row>
    ensures { result ≡ row_at (line row).modrm row modrm_byte }
{
    let encoding = encoding_of(row);
    match encoding.modrm {
        ModRm::Absent | ModRm::Register => Some(row),
        ModRm::Memory => if modrm_byte / 64 == 3 {
            None
        } else {
            Some(row)
        },
        ModRm::Digit(_) => row_of_digit(encoding, modrm_byte / 8 % 8),
    }
}

#[inline(always)]
fn by_modrm_of(row: Row, bytes: &[u8]) -> Result<(Spelling, &[u8]), Stop>
    ensures { GivesRead (λ x. (x.0, x.1.now)) result (by_modrm_at (line row).modrm row bytes.now) }
{
    if let ModRm::Absent = encoding_of(row).modrm {
        return end_of(row, Reg::Eax, OperandForm::Direct(Reg::Eax), bytes);
    }
    let [modrm_byte, rest @ ..] = bytes else {
        return Err(Stop::Short);
    };
    match row_at(row, *modrm_byte) {
        Some(row) => modrm_of(row, *modrm_byte, rest),
        None => Err(Stop::Unknown),
    }
}

#[tactic(auto, unfolding(crate::specs::Reading::opened_at))]
#[inline(always)]
fn opened_of(row: Option<Row>, bytes: &[u8]) -> Result<(Spelling, &[u8]), Stop>
    ensures { GivesRead (λ x. (x.0, x.1.now)) result (opened_at row bytes.now) }
{
    let Some(row) = row else {
        return Err(Stop::Unknown);
    };
    by_modrm_of(row, bytes)
}

/// The spelling at the front of the bytes.
#[tactic(auto, unfolding(crate::specs::Reading::spelling_at))]
#[inline(always)]
pub fn spelling_of(bytes: &[u8]) -> Result<(Spelling, &[u8]), Stop>
    ensures { GivesRead (λ x. (x.0, x.1.now)) result (spelling_at bytes.now) }
{
    let [first, rest @ ..] = bytes else {
        return Err(Stop::Short);
    };
    if *first != 0x0F {
        return opened_of(row_of(*first), rest);
    }
    match rest {
        [second, rest @ ..] => opened_of(row_of_escaped(*second), rest),
        [] => Err(Stop::Short),
    }
}
