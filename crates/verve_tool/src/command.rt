// The top call.
ghost use Rattle.std.specs.Prelude.{◌≡◌, ◌⊎◌, ℕ, List, Some, None};
ghost use Rattle.outside.specs.FileMaps.{FileMap};
ghost use Rattle.outside.specs.Faults.{Quiet};
ghost use Rattle.tal_image.specs.Image.{ImageParts};
ghost use Rattle.verve_tool.specs.Causes.{Cause, Missing, TypedImage, IsFirstCause, NoneHolds, status_of};
ghost use Rattle.verve_tool.specs.Commands.{Request, Check, command_form, WordsOf, NoCommand};
ghost use Rattle.verve_tool.specs.Forms.{WritesQuietly};
ghost use Rattle.verve_tool.specs.Lines.{Says};
ghost use Rattle.verve_tool.specs.Outcome.{Outcome, IsWorked};
ghost use Rattle.verve_tool.specs.Seen.{call_of, Leaves};
ghost use Rattle.verve_tool.specs.Stops.{told_status, told_line};
ghost use Rattle.verve_tool.specs.declared.status.Status.{Status};

use crate::assembling::act_asm;
use crate::checks::act_check;
use crate::complaint::complain;
use crate::laws::{nothing_stops, one_cause};
use crate::listings::act_list;
use crate::runs::act_run;
use crate::status::Status;
use crate::stop::Stop;
use crate::words::{Command, read_words};
use kernel_machine::Machine;
use nucleus_calls::Journal;
use outside::{Files, Sink};
use std::alloc::Global;

// Does what the words say, and tells nothing on the error stream.
fn act<'a, F: Files, K: Sink>(
    alloc: Global,
    words: &'a [String],
    files: &mut F,
    out: &mut K,
    journal: &mut Journal,
    kept: &mut Option<Machine>,
) -> Result<Status, Stop<'a>>
    ensures { Outcome words.now (call_of F.told F.steady F.read_faults F.write_faults K.told K.faults
        files.old files.new out.old out.new journal.new.entries kept.new) (told_status result) (told_line result) }
{
    journal.clear();
    *kept = None;
    let Some(command) = read_words(words) else {
        return Err(Stop::Usage);
    };
    match command {
        Command::Check(image) => act_check(alloc, image, files, out),
        Command::List(image) => act_list(alloc, image, files, out),
        Command::Asm { text, unit } => act_asm(alloc, text, unit, files, out),
        Command::Run(text, run) => act_run(alloc, text, run, files, out, journal, kept),
    }
}

// The status of what a command answers. What stopped it goes to `err` as one line.
fn tell<E: Sink>(err: &mut E, answer: Result<Status, Stop<'_>>) -> Status
    ensures status { result ≡ told_status answer.entry }
    ensures line { Says (E.faults err.old) (E.faults err.new) (E.told err.old) (E.told err.new) (told_line answer.entry) }
    ensures silent { (result ≡ Status.Done) ⊎ (result ≡ Status.KernelFault)
        → (E.told err.new ≡ E.told err.old) × (E.faults err.new ≡ E.faults err.old) }
{
    match answer {
        Ok(status) => status,
        Err(stop) => {
            complain(err, &stop);
            stop.status()
        }
    }
}

/// Does what the words of a command line, without the program's own name, say: `run IMAGE EVENTS TURNS` runs the image of
/// one file over the events of another for so many turns at most, from 1 to [`kernel_machine::MOST_TURNS`], and puts the
/// report into `out` in one piece; `journal IMAGE EVENTS TURNS` does so for at most 5000000 turns, and puts the entries of the
/// run's journal behind the report; `check IMAGE` puts `accepted` into `out` where the image of a file is well typed;
/// `list IMAGE` puts the listing of a file's image into `out` in one piece, well typed or not; `asm TEXT UNIT` writes the unit of
/// a text into a file. An image file and a text have at most 4 MiB, an event file 32 MiB.
///
/// [`Status`] says for each answer when it comes. What stops the command goes to `err` as one line, for which no memory is
/// taken; a failure of `err` changes nothing but the line, of which `err` then has a front. The journal is cleared first, and
/// is then that of the run in this call. The machine that ran is kept after `Done`, `WriteFault` and `KernelFault` of a run;
/// after `NoMemory` it is kept, or none is and nothing ran; after any other answer, and after a check or a listing, none is.
pub fn verve<F: Files, K: Sink, E: Sink>(
    alloc: Global,
    words: &[String],
    files: &mut F,
    out: &mut K,
    err: &mut E,
    journal: &mut Journal,
    kept: &mut Option<Machine>,
) -> Status
    // What the status tells: of the words, the files, the run and its report, with the line that goes to `err`.
    ensures outcome { (line : List ℕ) × Outcome words.now (call_of F.told F.steady F.read_faults F.write_faults K.told K.faults
        files.old files.new out.old out.new journal.new.entries kept.new) result line × Says (E.faults err.old) (E.faults err.new) (E.told err.old) (E.told err.new) line }

    // When each status comes. Want of memory may come in place of each but Usage.
    ensures usage { NoCommand words.now → result ≡ Status.Usage }
    ensures missing { (map : FileMap) (request : Request) (name line : List ℕ) → F.told files.old ≡ Some map → WordsOf words.now request
        → IsFirstCause (Some map) (command_form request).causes (Missing name) line → (result ≡ Status.ReadFault) ⊎ (result ≡ Status.NoMemory) }
    ensures stopped { (map : FileMap) (request : Request) (cause : Cause) (line : List ℕ) → F.told files.old ≡ Some map → WordsOf words.now request
        → Quiet (F.read_faults files.old) (F.read_faults files.new) → IsFirstCause (Some map) (command_form request).causes cause line
        → (result ≡ status_of cause) ⊎ (result ≡ Status.NoMemory) }
    ensures complete { (map : FileMap) (request : Request) → F.told files.old ≡ Some map → WordsOf words.now request
        → Quiet (F.read_faults files.old) (F.read_faults files.new) → NoneHolds (Some map) (command_form request).causes
        → let call = call_of F.told F.steady F.read_faults F.write_faults K.told K.faults
        files.old files.new out.old out.new journal.new.entries kept.new in
        WritesQuietly (command_form request).writes call → IsWorked call request result ⊎ (result ≡ Status.NoMemory) }
    ensures accepted { (map : FileMap) (name : List ℕ) → F.told files.old ≡ Some map → WordsOf words.now (Check name) → result ≡ Status.Done
        → (image : ImageParts) × TypedImage (Some map) name image }

    // What stays: a command may write the file that it names to be written, and words that are no command write none.
    ensures leaves { (request : Request) → WordsOf words.now request
        → Leaves (command_form request).writes (call_of F.told F.steady F.read_faults F.write_faults K.told K.faults
        files.old files.new out.old out.new journal.new.entries kept.new) result }
    ensures untouched { NoCommand words.now → Leaves None (call_of F.told F.steady F.read_faults F.write_faults K.told K.faults
        files.old files.new out.old out.new journal.new.entries kept.new) result }
    ensures silent { (result ≡ Status.Done) ⊎ (result ≡ Status.KernelFault)
        → (E.told err.new ≡ E.told err.old) × (E.faults err.new ≡ E.faults err.old) }
{
    one_cause();
    nothing_stops();
    let answer = act(alloc, words, files, out, journal, kept);
    tell(err, answer)
}
