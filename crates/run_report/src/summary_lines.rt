// The text of a summary.
ghost use Rattle.std.specs.Prelude.{◌≡◌, ◌≢◌, ◌++◌, IfOk, OnOk};
ghost use Rattle.std.specs.List.{count_by};
ghost use Rattle.run_report.specs.Summary.{SummaryText, is_counted, counted_name, count_line, counts_text};

use crate::number_text::push_decimal;
use crate::report_text::push_head;
use crate::run_end::RunEnd;
use no_memory::NoMemory;
use nucleus_calls::Journal;
use stack_states::{Entry, EntryKind};
use std::alloc::{AllocError, Global};

/// What a summary counts of a journal's entries.
#[derive(Clone, Copy, Debug, PartialEq, Eq)]
pub enum Counted {
    /// Calls of the Nucleus that answered.
    Calls,
    /// Those that placed an object or an array.
    Placed,
    /// Those that were refused one.
    Refused,
    /// Yields to another stack.
    Yields,
    /// Interrupts.
    Interrupts,
    /// Faults of applications.
    Faults,
    /// Applications that ended.
    Ended,
}

/// The calls that ask for an object or an array are those of lower numbers than this.
const ALLOCATIONS: u8 = 2;

// Whether an entry counts as this.
fn is_counted(what: Counted, entry: &Entry) -> bool
    ensures { result ≡ is_counted what entry.now.kind entry.now.value }
{
    match (what, entry.kind) {
        (Counted::Calls, EntryKind::Call(_)) => true,
        (Counted::Placed, EntryKind::Call(number)) => number < ALLOCATIONS && entry.value != 0,
        (Counted::Refused, EntryKind::Call(number)) => number < ALLOCATIONS && entry.value == 0,
        (Counted::Yields, EntryKind::Yield) => true,
        (Counted::Interrupts, EntryKind::Interrupt) => true,
        (Counted::Faults, EntryKind::Fault) => true,
        (Counted::Ended, EntryKind::Ended) => true,
        _ => false,
    }
}

// How many entries count as this.
fn count(what: Counted, entries: &[Entry]) -> usize
    ensures { result ≡ count_by (λ e. is_counted what e.kind e.value) entries.now }
{
    entries
        .iter()
        .filter(|entry| is_counted(what, entry))
        .count()
}

// The name of what is counted, as its line has it.
fn counted_name(what: Counted) -> &'static [u8]
    ensures { result.now ≡ counted_name what }
{
    match what {
        Counted::Calls => b"calls ",
        Counted::Placed => b"placed ",
        Counted::Refused => b"refused ",
        Counted::Yields => b"yields ",
        Counted::Interrupts => b"interrupts ",
        Counted::Faults => b"faults ",
        Counted::Ended => b"ended ",
    }
}

// Appends the line of a count.
fn push_count(out: &mut Vec<u8>, what: Counted, entries: &[Entry]) -> Result<(), AllocError>
    ensures { OnOk result (out.new.items ≡ out.old.items ++ count_line entries.now what) }
{
    out.extend_from_slice(counted_name(what))?;
    push_decimal(out, count(what, entries))?;
    out.push(b'\n')?;
    Ok(())
}

// Appends the lines of all counts.
fn push_counts(out: &mut Vec<u8>, entries: &[Entry]) -> Result<(), AllocError>
    ensures { OnOk result (out.new.items ≡ out.old.items ++ counts_text entries.now) }
{
    push_count(out, Counted::Calls, entries)?;
    push_count(out, Counted::Placed, entries)?;
    push_count(out, Counted::Refused, entries)?;
    push_count(out, Counted::Yields, entries)?;
    push_count(out, Counted::Interrupts, entries)?;
    push_count(out, Counted::Faults, entries)?;
    push_count(out, Counted::Ended, entries)?;
    Ok(())
}

/// The summary of a run that came to this end after so many turns, with this journal: the end, the turns, and how many entries
/// there are of each kind.
#[tactic(auto, unfolding(crate::specs::Summary::SummaryText))]
pub fn summary_text(
    alloc: Global,
    end: RunEnd,
    turns: u32,
    journal: &Journal,
) -> Result<Vec<u8>, NoMemory>
    requires { end ≢ RunEnd.NoMemory }
    ensures { IfOk result (λ text. text.items ≡ SummaryText end turns journal.now.entries) }
{
    let mut out = Vec::new(alloc);
    push_head(&mut out, end, turns)?;
    push_counts(&mut out, journal.entries())?;
    Ok(out)
}
