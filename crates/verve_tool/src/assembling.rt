// The command `asm`: the unit of a text, written into a file.
ghost use Rattle.std.specs.Prelude.{◌≡◌, ◌≤◌, ◌∷◌, [], ℕ, List, length, None, Ok, Option, IfOk, IfErr};
ghost use Rattle.outside.specs.FileMaps.{FileMap};
ghost use Rattle.verve_tool.specs.Causes.{Unassembled, FileRead};
ghost use Rattle.verve_tool.specs.Commands.{Assemble};
ghost use Rattle.verve_tool.specs.Seen.{call_of};
ghost use Rattle.verve_tool.specs.Stops.{Acted, StopsBy};
ghost use Rattle.verve_tool.specs.Texts.{unit_at};

use crate::load::{TEXT_MOST, read_file};
use crate::putting::write_file;
use crate::status::Status;
use crate::stop::Stop;
use asm_faults::AsmAnswer;
use outside::{Files, Sink};
use std::alloc::Global;
use tal_asm::assemble;
use tal_syntax::{TextAnswer, TextFault, parse};
use unit_files::Unit;

// The unit of a text, which is that of a file of this name.
fn make_unit<'a>(alloc: Global, bytes: &[u8]) -> Result<Unit, Stop<'a>>
    requires within { length bytes.now ≤ TEXT_MOST }
    ensures made { IfOk result (λ unit. unit_at bytes.now ≡ Ok unit) }
    ensures stopped { (told : Option FileMap) (name : List ℕ) → FileRead told name TEXT_MOST bytes.now
        → IfErr result (λ s. StopsBy told (Unassembled name ∷ []) s) }
{
    let module = match parse(alloc, bytes) {
        Ok(module) => module,
        Err(TextAnswer::Fault(fault)) => return Err(Stop::Text(fault)),
        Err(TextAnswer::NoMemory) => return Err(Stop::NoMemory),
    };
    match assemble(alloc, &module) {
        Ok(unit) => Ok(unit),
        Err(AsmAnswer::Fault(fault)) => Err(Stop::Text(TextFault {
            line: fault.line,
            column: 0,
            code: fault.code,
        })),
        Err(AsmAnswer::NoMemory) => Err(Stop::NoMemory),
    }
}

// Reads a text, and writes the file of its unit. Nothing goes into the output.
pub(crate) fn act_asm<'a, F: Files, K: Sink>(
    alloc: Global,
    text: &'a str,
    unit: &str,
    files: &mut F,
    out: &K,
) -> Result<Status, Stop<'a>>
    ensures { Acted (Assemble text.now unit.now) (call_of F.told F.steady F.read_faults F.write_faults K.told K.faults
        files.old files.new out.now out.now [] None) result }
{
    let _ = out;
    let bytes = read_file(alloc, files, text, TEXT_MOST)?;
    let made = make_unit(alloc, &bytes)?;
    let file = made.write(alloc)?;
    write_file(files, unit, &file)
}
