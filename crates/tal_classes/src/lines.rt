// The lines of a class one after another.
ghost use Rattle.std.specs.Prelude.{◌≡◌};
ghost use Rattle.asm_faults.specs.Answers.{AnswersBy};
ghost use Rattle.tal_names.specs.Declarations.{names_shown};
ghost use Rattle.tal_classes.specs.Members.{so_far, take_member, class_row};
ghost use Rattle.tal_classes.specs.Steps.{IsTaken};

use crate::class::OpenClass;
use asm_faults::{AsmAnswer, AsmFault};
use object_layout::ClassRow;
use std::alloc::Global;
use tal_names::ModuleNames;
use tal_syntax::{Form, TextLine};
use unit_files::UnitClass;

// The fault of a line.
fn fault_at(line: &TextLine, code: u8) -> AsmAnswer
    ensures { result ≡ AsmAnswer.Fault (record { line = line.now.number; code = code }) }
{
    AsmAnswer::Fault(AsmFault {
        line: line.number,
        code,
    })
}

impl OpenClass {
    // Takes a line, and answers whether it is one of a class.
    #[tactic(auto, unfolding(crate::specs::Members::take_member))]
    fn take_member(
        &mut self,
        alloc: Global,
        names: &ModuleNames,
        line: &TextLine,
    ) -> Result<bool, AsmAnswer>
        ensures { IsTaken result (take_member (names_shown names.now) (so_far self.old) line.now.form) line.now.number (so_far self.old) (so_far self.new) }
    {
        match &line.form {
            Form::Field { name, ty } => {
                let held = match self.field_line(names, name, ty) {
                    Ok(held) => held,
                    Err(code) => return Err(fault_at(line, code)),
                };
                self.add_field(alloc, name, held)?;
                Ok(true)
            }
            Form::Method { name, sig, func } => {
                let method = match self.method_line(names, name, sig, func) {
                    Ok(method) => method,
                    Err(code) => return Err(fault_at(line, code)),
                };
                self.add_method(alloc, name, method)?;
                Ok(true)
            }
            _ => Ok(false),
        }
    }
}

/// The row of a class below another one, or its first fault; or there is no memory for it. `rows` are those of the classes
/// before it, and `behind` the lines behind its first, of which those up to its end are read.
#[tactic(auto, unfolding(crate::specs::Members::take_members, crate::specs::Members::class_row))]
pub fn class_row(
    alloc: Global,
    names: &ModuleNames,
    rows: &[UnitClass],
    parent: Option<u32>,
    behind: &[TextLine],
) -> Result<ClassRow, AsmAnswer>
    ensures { AnswersBy result (class_row (names_shown names.now) rows.now parent behind.now) }
{
    let mut class = OpenClass::begin(alloc, rows, parent)?;
    let mut left = behind;
    'lines: while let [line, more @ ..] = left {
        match class.take_member(alloc, names, line) {
            Ok(true) => left = more,
            Ok(false) => return Ok(class.into_row(alloc)?),
            Err(answer) => return Err(answer),
        }
    }
    Ok(class.into_row(alloc)?)
}
