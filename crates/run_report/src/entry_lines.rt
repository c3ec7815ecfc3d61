// The text of a journal.
ghost use Rattle.std.specs.Prelude.{◌≡◌, ◌++◌, IfOk, OnOk, decimal};
ghost use Rattle.run_report.specs.JournalLines.{JournalText, happened_text, journal_line};

use crate::number_text::{push_decimal, push_spaced};
use no_memory::NoMemory;
use nucleus_calls::Journal;
use stack_states::{Entry, EntryKind};
use std::alloc::{AllocError, Global};

// Appends a word for what happened, and the number of the stack, the line or the vector that it was about.
fn push_about(out: &mut Vec<u8>, what: &[u8], number: u32) -> Result<(), AllocError>
    ensures { OnOk result (out.new.items ≡ out.old.items ++ what.now ++ decimal number) }
{
    out.extend_from_slice(what)?;
    push_decimal(out, number as usize)
}

// Appends what happened.
fn push_happened(out: &mut Vec<u8>, kind: EntryKind, value: u32) -> Result<(), AllocError>
    ensures { OnOk result (out.new.items ≡ out.old.items ++ happened_text kind value) }
{
    match kind {
        EntryKind::Call(number) => {
            push_about(out, b" call ", number as u32)?;
            push_spaced(out, value)
        }
        EntryKind::Yield => push_about(out, b" yield ", value),
        EntryKind::Interrupt => push_about(out, b" interrupt ", value),
        EntryKind::Fault => push_about(out, b" fault ", value),
        EntryKind::Ended => out.extend_from_slice(b" ended"),
    }
}

// Appends the line of an entry.
fn push_entry(out: &mut Vec<u8>, entry: Entry) -> Result<(), AllocError>
    ensures { OnOk result (out.new.items ≡ out.old.items ++ journal_line entry) }
{
    push_decimal(out, entry.turn as usize)?;
    push_about(out, b" ", entry.stack as u32)?;
    push_happened(out, entry.kind, entry.value)?;
    out.push(b'\n')?;
    Ok(())
}

// Appends the lines of entries.
#[tactic(auto, unfolding(crate::specs::JournalLines::JournalText))]
fn push_entries(out: &mut Vec<u8>, entries: &[Entry]) -> Result<(), AllocError>
    ensures { OnOk result (out.new.items ≡ out.old.items ++ JournalText entries.now) }
{
    for entry in entries {
        push_entry(out, *entry)?;
    }
    Ok(())
}

/// The text of a journal: for each entry a line with its turn, its stack and what happened.
pub fn journal_text(alloc: Global, journal: &Journal) -> Result<Vec<u8>, NoMemory>
    ensures { IfOk result (λ text. text.items ≡ JournalText journal.now.entries) }
{
    let mut out = Vec::new(alloc);
    push_entries(&mut out, journal.entries())?;
    Ok(out)
}
