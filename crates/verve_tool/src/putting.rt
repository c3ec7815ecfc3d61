// The last step of a command: its text goes into the output, or into a file.
ghost use Rattle.std.specs.Prelude.{◌≡◌, IsErrAnd};
ghost use Rattle.verve_tool.specs.Seen.{files_seen, sink_seen, OnlyPuts, OnlyWrites};
ghost use Rattle.verve_tool.specs.Stops.{IsPut, IsWritten};

use crate::status::Status;
use crate::stop::Stop;
use outside::{Files, Sink};

// Puts the text in one piece. Where it is whole, the command has this status.
pub(crate) fn put_text<'a, K: Sink>(
    out: &mut K,
    text: &[u8],
    whole: Status,
) -> Result<Status, Stop<'a>>
    ensures put { IsPut (sink_seen K.told K.faults out.old) (sink_seen K.told K.faults out.new) text.now whole result }
    ensures puts { OnlyPuts (sink_seen K.told K.faults out.old) (sink_seen K.told K.faults out.new) (IsErrAnd result (λ s. s ≡ Stop.Write)) }
{
    match out.put(text) {
        Ok(()) => Ok(whole),
        Err(_) => Err(Stop::Write),
    }
}

// Writes the file. Where it is whole, the command is done.
pub(crate) fn write_file<'a, F: Files>(
    files: &mut F,
    name: &str,
    bytes: &[u8],
) -> Result<Status, Stop<'a>>
    ensures written { let seen = files_seen F.told F.steady F.read_faults F.write_faults in
        IsWritten (seen files.old) (seen files.new) name.now bytes.now result }
    ensures writes { let seen = files_seen F.told F.steady F.read_faults F.write_faults in
        OnlyWrites (seen files.old) (seen files.new) (IsErrAnd result (λ s. s ≡ Stop.Write)) }
{
    match files.write(name, bytes) {
        Ok(()) => Ok(Status::Done),
        Err(_) => Err(Stop::Write),
    }
}
