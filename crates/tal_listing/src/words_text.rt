// The text of an instruction.
ghost use Rattle.std.specs.Prelude.{◌≡◌, ◌++◌, OnOk};
ghost use Rattle.std.specs.String.{string_bytes};
ghost use Rattle.tal_listing.specs.Words.{base_text, factor_text, index_text, memory_text, target_address, operand_text, operands_text, words_text, system_text, inst_text};

use crate::number_text::{push_byte, push_number};
use code_words::{OperandWord, OperandWords, Words, register_text, said};
use hex_text::push_word_digits;
use ia32_code::{Inst, Mem, Reg};
use std::alloc::AllocError;

// Appends the base of an operand in memory.
fn push_base(out: &mut String, base: Option<Reg>) -> Result<(), AllocError>
    ensures { OnOk result (string_bytes out.new ≡ string_bytes out.old ++ base_text base) }
{
    if let Some(reg) = base {
        out.push_str(register_text(reg))?;
        out.push_str("+")?;
    }
    Ok(())
}

// The factor of an index.
fn factor_text(scale: u8) -> &'static str
    ensures { result.now ≡ factor_text scale }
{
    match scale {
        0 => "1",
        1 => "2",
        2 => "4",
        _ => "8",
    }
}

// Appends the index of an operand in memory.
fn push_index(out: &mut String, index: Option<Reg>, scale: u8) -> Result<(), AllocError>
    ensures { OnOk result (string_bytes out.new ≡ string_bytes out.old ++ index_text index scale) }
{
    if let Some(reg) = index {
        out.push_str(register_text(reg))?;
        out.push_str("*")?;
        out.push_str(factor_text(scale))?;
        out.push_str("+")?;
    }
    Ok(())
}

// Appends an operand in memory.
fn push_memory(out: &mut String, mem: Mem) -> Result<(), AllocError>
    ensures { OnOk result (string_bytes out.new ≡ string_bytes out.old ++ memory_text mem) }
{
    out.push_str("[")?;
    push_base(out, mem.base)?;
    push_index(out, mem.index, mem.scale)?;
    push_number(out, mem.disp)?;
    out.push_str("]")?;
    Ok(())
}

// The address that lies so far from the next instruction.
fn target(next: u32, distance: i32) -> u32
    ensures { result ≡ target_address next distance }
{
    next.wrapping_add(distance.cast_unsigned())
}

// Appends an operand.
fn push_operand(out: &mut String, next: u32, operand: OperandWord) -> Result<(), AllocError>
    ensures { OnOk result (string_bytes out.new ≡ string_bytes out.old ++ operand_text next operand) }
{
    match operand {
        OperandWord::Register(reg) => out.push_str(register_text(reg))?,
        OperandWord::Memory(mem) => push_memory(out, mem)?,
        OperandWord::Number(number) => push_number(out, number)?,
        OperandWord::Cl => out.push_str("cl")?,
        OperandWord::Target(distance) => push_word_digits(out, target(next, distance))?,
    }
    Ok(())
}

// Appends the operands.
fn push_operands(out: &mut String, next: u32, operands: OperandWords) -> Result<(), AllocError>
    ensures { OnOk result (string_bytes out.new ≡ string_bytes out.old ++ operands_text next operands) }
{
    match operands {
        OperandWords::Zero => {}
        OperandWords::One(a) => {
            out.push_str(" ")?;
            push_operand(out, next, a)?;
        }
        OperandWords::Two(a, b) => {
            out.push_str(" ")?;
            push_operand(out, next, a)?;
            out.push_str(", ")?;
            push_operand(out, next, b)?;
        }
        OperandWords::Three(a, b, c) => {
            out.push_str(" ")?;
            push_operand(out, next, a)?;
            out.push_str(", ")?;
            push_operand(out, next, b)?;
            out.push_str(", ")?;
            push_operand(out, next, c)?;
        }
    }
    Ok(())
}

// Appends a mnemonic with its operands.
fn push_words(out: &mut String, next: u32, words: Words) -> Result<(), AllocError>
    ensures { OnOk result (string_bytes out.new ≡ string_bytes out.old ++ words_text next words) }
{
    out.push_str(words.mnemonic.text())?;
    push_operands(out, next, words.operands)?;
    Ok(())
}

// Appends an instruction of the system, and nothing of another.
#[tactic(auto, unfolding(crate::specs::Words::system_text))]
fn push_system(out: &mut String, inst: &Inst) -> Result<(), AllocError>
    ensures { OnOk result (string_bytes out.new ≡ string_bytes out.old ++ system_text inst.now) }
{
    if let Inst::Priv { op, arg } = *inst {
        out.push_str("priv ")?;
        push_byte(out, op)?;
        out.push_str(" ")?;
        push_byte(out, arg)?;
    }
    Ok(())
}

// Appends an instruction, where the next one has this address.
#[tactic(auto, unfolding(crate::specs::Words::inst_text))]
pub(crate) fn push_inst(out: &mut String, next: u32, inst: &Inst) -> Result<(), AllocError>
    ensures { OnOk result (string_bytes out.new ≡ string_bytes out.old ++ inst_text next inst.now) }
{
    match said(inst) {
        Some(words) => push_words(out, next, words),
        None => push_system(out, inst),
    }
}
