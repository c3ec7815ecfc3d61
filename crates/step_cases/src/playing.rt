// An instruction is run, and told.
use crate::case::{Case, REGISTERS};
use crate::one_word::{OneWord, needs_no_word};
use crate::unplayed::Unplayed;
use ia32_code::{Decoded, Inst, decode, len_of};
use ia32_step::{Cpu, Effect, exec};
use stack_states::FlagBits;
use std::alloc::AllocError;

/// Where each instruction stands.
const START: u32 = 0x40_0000;

/// The flags by their letters, in the order CF, ZF, SF and OF; a dash is a flag that is not set.
fn push_flags(text: &mut String, flags: FlagBits) -> Result<(), AllocError> {
    text.push(if flags.carry { 'C' } else { '-' })?;
    text.push(if flags.zero { 'Z' } else { '-' })?;
    text.push(if flags.sign { 'S' } else { '-' })?;
    text.push(if flags.overflow { 'O' } else { '-' })
}

// What is left to do, and where it goes on, where that is not the next instruction.
fn push_effect(text: &mut String, effect: Effect, pc: u32, next: u32) -> Result<(), AllocError> {
    match effect {
        Effect::Next if pc == next => Ok(()),
        Effect::Next => write!(text, " to {pc:08X}"),
        Effect::Fault(number) => write!(text, " fault {number}"),
        Effect::Call(function) => write!(text, " call {function:08X}"),
        Effect::Return => text.push_str(" return"),
    }
}

// The registers that the case shows, and each other that has changed.
fn push_registers(
    text: &mut String,
    shown: &[bool; 8],
    before: &[u32; 8],
    after: &[u32; 8],
) -> Result<(), AllocError> {
    for number in 0..8usize {
        if shown[number] || before[number] != after[number] {
            write!(text, " {} {:08X}", REGISTERS[number], after[number])?;
        }
    }
    Ok(())
}

/// Runs the instruction of these bytes, and adds what it came to.
pub fn play(
    text: &mut String,
    case: &Case,
    code: &[u8],
    regs: [u32; 8],
    flags: FlagBits,
) -> Result<(), Unplayed> {
    let Decoded::One { inst, len } = decode(code) else {
        return Err(Unplayed::Form);
    };
    if len_of(&inst) == 0 || matches!(inst, Inst::Priv { .. }) || !needs_no_word(&inst) {
        return Err(Unplayed::Form);
    }
    let mut cpu = Cpu {
        regs,
        flags,
        pc: START,
    };
    let effect = exec(&mut cpu, &mut OneWord { word: 0 }, &inst, len);
    push_registers(text, &case.shown, &regs, &cpu.regs)?;
    text.push(' ')?;
    push_flags(text, cpu.flags)?;
    push_effect(text, effect, cpu.pc, START + u32::from(len))?;
    Ok(())
}
