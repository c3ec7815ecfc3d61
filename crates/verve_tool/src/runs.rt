// The commands `run` and `journal`: the run of an accepted image, its report, and the entries of its journal.
ghost use Rattle.std.specs.Prelude.{◌≡◌, ◌⊎◌, ◌≤◌, [], Some, None, IfOk, IfErr, IsErrAnd};
ghost use Rattle.kernel_machine.specs.Machine.{MachineView, shown_by, run_answer};
ghost use Rattle.verve_tool.specs.Commands.{Run};
ghost use Rattle.verve_tool.specs.Runs.{run_causes, run_text, status_at};
ghost use Rattle.verve_tool.specs.Seen.{call_of, files_seen, OnlyReads};
ghost use Rattle.verve_tool.specs.Stops.{Acted, Made, StopsAt, IsUnread, run_of};

use crate::load::load_run;
use crate::putting::put_text;
use crate::status::Status;
use crate::stop::Stop;
use crate::words::{RunCommand, RunText};
use kernel_machine::laws::machines_show_their_runs;
use kernel_machine::{MOST_TURNS, Machine, run as run_machine};
use no_memory::NoMemory;
use nucleus_calls::Journal;
use outside::{Files, Sink};
use run_report::{RunEnd, journal_text, report};
use std::alloc::Global;

// At most so many turns: the text of a journal takes some 30 bytes a turn.
pub(crate) const JOURNAL_TURNS: u32 = 5000000;

// The status of a command whose run came to this end and was told.
fn status_after(end: RunEnd) -> Status
    ensures { result ≡ status_at end }
{
    match end {
        RunEnd::KernelFault(_) => Status::KernelFault,
        RunEnd::Turns | RunEnd::Halted(_) | RunEnd::NoMemory => Status::Done,
    }
}

// Reads the files of a run, and takes its turns. The machine is kept.
fn make_run<'a, F: Files>(
    alloc: Global,
    run: RunCommand<'a>,
    files: &mut F,
    journal: &mut Journal,
    kept: &mut Option<Machine>,
) -> Result<RunEnd, Stop<'a>>
    requires few { run.turns ≤ MOST_TURNS }
    requires clear { journal.old.entries ≡ [] }
    requires empty { kept.old ≡ None }
    ensures made { IfOk result (λ end. Made (run_of run.entry) (F.told files.old) kept.new journal.new.entries end) }
    ensures stopped { let seen = files_seen F.told F.steady F.read_faults F.write_faults in
        IfErr result (λ s. StopsAt (seen files.old) (seen files.new) (run_causes (run_of run.entry)) s) }
    ensures idle { IfErr result (λ s. (journal.new.entries ≡ []) × (kept.new ≡ None)) }
    ensures reads { let seen = files_seen F.told F.steady F.read_faults F.write_faults in
        OnlyReads (seen files.old) (seen files.new) (IsErrAnd result IsUnread) }
{
    let (checked, events) = load_run(alloc, files, run)?;
    let mut machine = Machine::new(alloc, checked, events)?;
    let end = run_machine(&mut machine, journal, run.turns);
    *kept = Some(machine);
    Ok(end)
}

// The text of the machine that is kept, after a run that answered this.
fn text_kept(
    alloc: Global,
    text: RunText,
    kept: &Option<Machine>,
    end: RunEnd,
    journal: &Journal,
) -> Result<Vec<u8>, NoMemory>
    requires kept { (machine : MachineView) × (kept.now ≡ Some machine) × ((end ≡ RunEnd.NoMemory) ⊎ (end ≡ run_answer machine.ending)) }
    ensures { (machine : MachineView) → kept.now ≡ Some machine → IfOk result (λ told. (end ≡ run_answer machine.ending)
        × (told.items ≡ run_text text (shown_by machine) end machine.turns journal.now.entries)) }
{
    if end == RunEnd::NoMemory {
        return Err(NoMemory);
    }
    let machine = kept.as_ref().unwrap();
    let mut told = report(alloc, machine, end, machine.turns_taken())?;
    match text {
        RunText::Report => {}
        RunText::Journal => {
            told.extend_from_slice(b"journal\n")?;
            told.extend_from_slice(&journal_text(alloc, journal)?)?;
        }
    }
    Ok(told)
}

// Runs an image over events, and tells this text of the run.
pub(crate) fn act_run<'a, F: Files, K: Sink>(
    alloc: Global,
    text: RunText,
    run: RunCommand<'a>,
    files: &mut F,
    out: &mut K,
    journal: &mut Journal,
    kept: &mut Option<Machine>,
) -> Result<Status, Stop<'a>>
    requires few { run.turns ≤ MOST_TURNS }
    requires clear { journal.old.entries ≡ [] }
    requires empty { kept.old ≡ None }
    ensures { Acted (Run text (run_of run.entry)) (call_of F.told F.steady F.read_faults F.write_faults K.told K.faults
        files.old files.new out.old out.new journal.new.entries kept.new) result }
{
    machines_show_their_runs();
    let end = make_run(alloc, run, files, journal, kept)?;
    let told = text_kept(alloc, text, kept, end, journal)?;
    put_text(out, &told, status_after(end))
}
