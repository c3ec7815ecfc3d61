// The report of a run.
ghost use Rattle.std.specs.Prelude.{◌≡◌, ◌≢◌, ◌<◌, ◌++◌, ◌∷◌, [], Some, IfOk, OnOk, length, slice_get};
ghost use Rattle.device_model.specs.declared.screen.TheConstants.{CELLS};
ghost use Rattle.run_report.specs.Shown.{ShownStack};
ghost use Rattle.run_report.specs.Report.{ReportText, end_line, flag_mark, spaced, regs_line, words_line, state_text, stacks_text, statics_text, screen_text, head_text};

use crate::number_text::{push_decimal, push_spaced, push_words};
use crate::run_end::RunEnd;
use crate::screen_text::{push_attributes, push_marks};
use crate::shown::Shown;
use device_model::CELLS;
use no_memory::NoMemory;
use stack_states::{FlagBits, StackState};
use std::alloc::{AllocError, Global};

// Appends the line of the end.
fn push_end(out: &mut Vec<u8>, end: RunEnd) -> Result<(), AllocError>
    ensures { OnOk result (out.new.items ≡ out.old.items ++ end_line end) }
{
    match end {
        RunEnd::Turns => out.extend_from_slice(b"end turns\n"),
        RunEnd::Halted(number) => {
            out.extend_from_slice(b"end halted ")?;
            push_decimal(out, number as usize)?;
            out.extend_from_slice(b"\n")
        }
        RunEnd::KernelFault(vector) => {
            out.extend_from_slice(b"end fault ")?;
            push_decimal(out, vector as usize)?;
            out.extend_from_slice(b"\n")
        }
        RunEnd::NoMemory => Ok(()),
    }
}

// The letter of a flag that is set.
fn mark_of(set: bool, letter: u8) -> u8
    ensures { result ≡ flag_mark set letter }
{
    if set { letter } else { b'-' }
}

// Appends the line of the registers and the flags.
fn push_regs(out: &mut Vec<u8>, regs: &[u32; 8], flags: FlagBits) -> Result<(), AllocError>
    ensures { OnOk result (out.new.items ≡ out.old.items ++ regs_line regs.now flags) }
{
    let (below_esp, from_esp) = regs.split_at(4);
    let (_esp, above_esp) = from_esp.split_at(1);
    out.extend_from_slice(b"regs")?;
    push_words(out, below_esp)?;
    push_words(out, above_esp)?;
    let marks = [
        b' ',
        mark_of(flags.carry, b'C'),
        mark_of(flags.zero, b'Z'),
        mark_of(flags.sign, b'S'),
        mark_of(flags.overflow, b'O'),
        b'\n',
    ];
    out.extend_from_slice(&marks)
}

// Appends the line of a stack's words.
fn push_words_line(out: &mut Vec<u8>, words: &[u32]) -> Result<(), AllocError>
    ensures { OnOk result (out.new.items ≡ out.old.items ++ words_line words.now) }
{
    out.extend_from_slice(b"words")?;
    push_words(out, words)?;
    out.push(b'\n')?;
    Ok(())
}

// Appends a place and the line's end.
fn push_place(out: &mut Vec<u8>, pc: u32) -> Result<(), AllocError>
    ensures { OnOk result (out.new.items ≡ out.old.items ++ spaced pc ++ 10 ∷ []) }
{
    push_spaced(out, pc)?;
    out.push(b'\n')?;
    Ok(())
}

// Appends what follows a stack's number.
fn push_state<V: Shown>(
    out: &mut Vec<u8>,
    machine: &V,
    words: &[u32],
    state: StackState,
) -> Result<(), AllocError>
    ensures { OnOk result (out.new.items ≡ out.old.items ++ state_text (V.shown machine.now) words.now state) }
{
    match state {
        StackState::Empty => out.extend_from_slice(b" empty\n"),
        StackState::Running => {
            out.extend_from_slice(b" running")?;
            push_place(out, machine.pc())?;
            push_regs(out, &machine.regs(), machine.flags())?;
            push_words_line(out, words)
        }
        StackState::Yielded { pc, .. } => {
            out.extend_from_slice(b" yielded")?;
            push_place(out, pc)?;
            push_words_line(out, words)
        }
        StackState::Interrupted { regs, flags, pc } => {
            out.extend_from_slice(b" interrupted")?;
            push_place(out, pc)?;
            push_regs(out, &regs, flags)?;
            push_words_line(out, words)
        }
    }
}

// Appends what follows the number of this stack.
fn push_stack<V: Shown>(out: &mut Vec<u8>, machine: &V, stack: u32) -> Result<(), AllocError>
    requires { stack < length (V.shown machine.now).stacks }
    ensures { OnOk result ((t : ShownStack) → slice_get (V.shown machine.now).stacks stack ≡ Some t
        → out.new.items ≡ out.old.items ++ state_text (V.shown machine.now) t.words t.state) }
{
    push_state(
        out,
        machine,
        machine.stack_words(stack),
        machine.state(stack),
    )
}

// Appends the lines of all stacks.
fn push_stacks<V: Shown>(out: &mut Vec<u8>, machine: &V) -> Result<(), AllocError>
    ensures { OnOk result (out.new.items ≡ out.old.items ++ stacks_text (V.shown machine.now) 0 (V.shown machine.now).stacks) }
{
    let count = machine.stacks();
    for stack in 0..count {
        out.extend_from_slice(b"stack ")?;
        push_decimal(out, stack as usize)?;
        push_stack(out, machine, stack)?;
    }
    Ok(())
}

// Appends the lines of the statics.
fn push_statics(out: &mut Vec<u8>, statics: &[u32]) -> Result<(), AllocError>
    ensures { OnOk result (out.new.items ≡ out.old.items ++ statics_text 0 statics.now) }
{
    for (number, word) in statics.iter().enumerate() {
        out.extend_from_slice(b"static ")?;
        push_decimal(out, number)?;
        push_spaced(out, *word)?;
        out.push(b'\n')?;
    }
    Ok(())
}

// Appends the lines of the end and of the turns.
#[tactic(auto, unfolding(crate::specs::Report::head_text))]
pub(crate) fn push_head(out: &mut Vec<u8>, end: RunEnd, turns: u32) -> Result<(), AllocError>
    ensures { OnOk result (out.new.items ≡ out.old.items ++ head_text end turns) }
{
    push_end(out, end)?;
    out.extend_from_slice(b"turns ")?;
    push_decimal(out, turns as usize)?;
    out.push(b'\n')?;
    Ok(())
}

// Appends the lines of the screen.
#[tactic(auto, unfolding(crate::specs::Report::screen_text))]
fn push_screen(out: &mut Vec<u8>, cells: &[u16]) -> Result<(), AllocError>
    requires { length cells.now ≡ CELLS }
    ensures { OnOk result (out.new.items ≡ out.old.items ++ screen_text cells.now) }
{
    out.extend_from_slice(b"screen\n")?;
    push_marks(out, cells)?;
    out.extend_from_slice(b"attributes\n")?;
    push_attributes(out, cells)
}

// The cells of the screen, row by row.
fn cells_of<V: Shown>(alloc: Global, machine: &V) -> Result<Vec<u16>, AllocError>
    ensures cells { IfOk result (λ cells. cells.items ≡ (V.shown machine.now).cells) }
    ensures all { IfOk result (λ cells. length cells.items ≡ CELLS) }
{
    let mut cells = Vec::with_capacity(alloc, CELLS)?;
    for position in 0..CELLS {
        cells.push(machine.cell(position as u32))?;
    }
    Ok(cells)
}

// Appends the whole report, with these cells of the screen.
fn push_report<V: Shown>(
    out: &mut Vec<u8>,
    machine: &V,
    cells: &[u16],
    end: RunEnd,
    turns: u32,
) -> Result<(), AllocError>
    requires cells { cells.now ≡ (V.shown machine.now).cells }
    requires all { length cells.now ≡ CELLS }
    ensures { OnOk result (out.new.items ≡ out.old.items ++ ReportText (V.shown machine.now) end turns) }
{
    push_head(out, end, turns)?;
    push_stacks(out, machine)?;
    push_statics(out, machine.statics())?;
    push_screen(out, cells)?;
    Ok(())
}

/// The report of a run that came to this end after so many turns: the end, the turns, every stack with its words, the
/// statics, the screen and its attributes.
pub fn report<V: Shown>(
    alloc: Global,
    machine: &V,
    end: RunEnd,
    turns: u32,
) -> Result<Vec<u8>, NoMemory>
    requires { end ≢ RunEnd.NoMemory }
    ensures { IfOk result (λ text. text.items ≡ ReportText (V.shown machine.now) end turns) }
{
    let cells = cells_of(alloc, machine)?;
    let mut out = Vec::new(alloc);
    push_report(&mut out, machine, &cells, end, turns)?;
    Ok(out)
}
