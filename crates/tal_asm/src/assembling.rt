// A module's lines one after another.
ghost use Rattle.std.specs.Prelude.{◌≡◌, length, Some, Err, IfOk};
ghost use Rattle.tal_names.specs.Declarations.{names_shown};
ghost use Rattle.tal_rows.specs.Lines.{function_line};
ghost use Rattle.tal_code.specs.Functions.{has_code, function_code};
ghost use Rattle.asm_faults.specs.Answers.{AnswersBy, at_line};
ghost use Rattle.tal_tables.specs.Rows.{make, then_make, name_number, take_row};
ghost use Rattle.unit_files.specs.Unit.{unit_of};
ghost use Rattle.tal_asm.specs.Lines.{with_tables, with_code, take_line, take_lines, nothing};
ghost use Rattle.tal_asm.specs.Steps.{LineIsMade, LinesAreMade, GivesUnitRows};
ghost use Rattle.tal_asm.specs.UnitFor.{is_before, names_fault, unless_before, unit_made, UnitFor};

use crate::laws;
use crate::mentions::first_mention;
use asm_faults::{AsmAnswer, AsmFault};
use no_memory::NoMemory;
use std::alloc::Global;
use tal_code::{UnitCode, has_code};
use tal_names::{ModuleNames, NameSet};
use tal_syntax::{Form, Module, Name, TextLine};
use tal_tables::ModuleTables;
use unit_files::{Unit, UnitRows};

// What the lines so far have made.
#[derive(Drop)]
struct Assembled {
    tables: ModuleTables,
    code: UnitCode,
}

// The fault of the line that mentions the first name too many: a unit has 65536 at most.
#[tactic(auto, unfolding(crate::specs::UnitFor::names_fault))]
fn names_fault(names: &NameSet, lines: &[TextLine]) -> Option<AsmFault>
    ensures { result ≡ names_fault names.now lines.now }
{
    match names.name(65536) {
        Some(name) => Some(AsmFault {
            line: first_mention(name, lines),
            code: 16,
        }),
        None => None,
    }
}

// Whether a fault stands before another one.
fn is_before(first: AsmFault, second: AsmFault) -> bool
    ensures { result ≡ is_before first second }
{
    first.line < second.line || (first.line == second.line && first.code < second.code)
}

// The names, in their order.
fn name_list(alloc: Global, names: &NameSet) -> Result<Vec<Name>, NoMemory>
    ensures { IfOk result (λ list. list.items ≡ names.now) }
{
    let mut list = Vec::new(alloc);
    for number in 0..names.len() {
        if let Some(name) = names.name(number) {
            list.push(Name::of(alloc, name)?)?;
        }
    }
    Ok(list)
}

// Takes all lines of a function that is not extern.
fn take_function(
    alloc: Global,
    names: &ModuleNames,
    unit_names: &NameSet,
    tables: &mut ModuleTables,
    code: UnitCode,
    line: u32,
    name: &Name,
    sig: &Name,
    behind: &[TextLine],
) -> Result<UnitCode, AsmAnswer>
    ensures { LineIsMade result (then_make (at_line line (function_line (names_shown names.now) name.now sig.now (has_code behind.now) (length tables.old.functions))) (λ found. make (with_code (record { tables = tables.old; code = code }) (name_number unit_names.now name.now) found) (function_code (names_shown names.now) code behind.now))) tables.new }
{
    let found = tables.function_line(names, line, name, sig, has_code(behind))?;
    let before = code.len();
    let code = code.with_function(alloc, names, behind)?;
    let length = code.len().saturating_sub(before);
    tables.add_function(unit_names, name, false, length, found)?;
    Ok(code)
}

// Takes a line that makes a row among the tables, or none.
fn take_row(
    alloc: Global,
    names: &ModuleNames,
    unit_names: &NameSet,
    tables: &mut ModuleTables,
    code: UnitCode,
    line: &TextLine,
    behind: &[TextLine],
) -> Result<UnitCode, AsmAnswer>
    ensures { LineIsMade result (make (with_tables (record { tables = tables.old; code = code })) (take_row (names_shown names.now) unit_names.now tables.old line.now.number line.now.form behind.now)) tables.new }
{
    tables.take_row(alloc, names, unit_names, line, behind)?;
    Ok(code)
}

// Takes a line before those behind it.
#[tactic(auto, unfolding(crate::specs::Lines::take_line))]
fn take_line(
    alloc: Global,
    names: &ModuleNames,
    unit_names: &NameSet,
    tables: &mut ModuleTables,
    code: UnitCode,
    line: &TextLine,
    behind: &[TextLine],
) -> Result<UnitCode, AsmAnswer>
    ensures { LineIsMade result (take_line (names_shown names.now) unit_names.now (record { tables = tables.old; code = code }) line.now.number line.now.form behind.now) tables.new }
{
    match &line.form {
        Form::Func { ext, name, sig } => {
            if *ext {
                take_row(alloc, names, unit_names, tables, code, line, behind)
            } else {
                let number = line.number;
                take_function(
                    alloc, names, unit_names, tables, code, number, name, sig, behind,
                )
            }
        }
        _ => take_row(alloc, names, unit_names, tables, code, line, behind),
    }
}

// Takes the lines from front to back.
#[tactic(auto, unfolding(crate::specs::Lines::take_lines))]
fn take_lines(
    alloc: Global,
    names: &ModuleNames,
    unit_names: &NameSet,
    lines: &[TextLine],
) -> Result<Assembled, AsmAnswer>
    ensures { LinesAreMade result (take_lines (names_shown names.now) unit_names.now nothing lines.now) }
{
    let mut tables = ModuleTables::new(alloc);
    let mut code = UnitCode::new(alloc);
    let mut left = lines;
    'lines: while let [line, behind @ ..] = left {
        match take_line(alloc, names, unit_names, &mut tables, code, line, behind) {
            Ok(more) => code = more,
            Err(answer) => return Err(answer),
        }
        left = behind;
    }
    Ok(Assembled { tables, code })
}

impl Assembled {
    // The rows of the unit, with its names.
    fn into_rows(self, alloc: Global, unit_names: &NameSet) -> Result<UnitRows, NoMemory>
        ensures { IfOk result (λ rows. unit_of rows ≡ unit_made unit_names.now (record { tables = self.tables; code = self.code })) }
    {
        let names = name_list(alloc, unit_names)?;
        let code = self.code.into_rows();
        Ok(
            self.tables
                .into_rows(names, code.code, code.blocks, code.marks, code.fixups),
        )
    }
}

// The rows of the unit that all lines make, with its names; or their first fault.
fn unit_rows(
    alloc: Global,
    names: &ModuleNames,
    unit_names: &NameSet,
    lines: &[TextLine],
) -> Result<UnitRows, AsmAnswer>
    ensures { GivesUnitRows result (make (unit_made unit_names.now) (take_lines (names_shown names.now) unit_names.now nothing lines.now)) }
{
    match take_lines(alloc, names, unit_names, lines) {
        Ok(made) => Ok(made.into_rows(alloc, unit_names)?),
        Err(answer) => Err(answer),
    }
}

// The first of two faults: that of too many names, and that of the lines, if they have one.
#[tactic(auto, unfolding(crate::specs::UnitFor::unless_before))]
fn first_fault(
    alloc: Global,
    names: &ModuleNames,
    unit_names: &NameSet,
    lines: &[TextLine],
    excess: AsmFault,
) -> AsmAnswer
    ensures { GivesUnitRows (Err result) (unless_before (Some excess) (make (unit_made unit_names.now) (take_lines (names_shown names.now) unit_names.now nothing lines.now))) }
{
    match take_lines(alloc, names, unit_names, lines) {
        Ok(_) => AsmAnswer::Fault(excess),
        Err(AsmAnswer::Fault(fault)) => {
            AsmAnswer::Fault(if is_before(excess, fault) {
                excess
            } else {
                fault
            })
        }
        Err(AsmAnswer::NoMemory) => AsmAnswer::NoMemory,
    }
}

// The rows of the unit that lines stand for; or their first fault.
#[tactic(auto, unfolding(crate::specs::UnitFor::UnitFor, crate::specs::UnitFor::unless_before))]
fn assembled_rows(alloc: Global, lines: &[TextLine]) -> Result<UnitRows, AsmAnswer>
    ensures { GivesUnitRows result (UnitFor lines.now) }
{
    let names = ModuleNames::of(alloc, lines)?;
    let Ok(unit_names) = names.unit_names(alloc, lines) else {
        return Err(AsmAnswer::NoMemory);
    };
    match names_fault(&unit_names, lines) {
        Some(excess) => Err(first_fault(alloc, &names, &unit_names, lines, excess)),
        None => unit_rows(alloc, &names, &unit_names, lines),
    }
}

/// The unit of a module; or its first line with a fault, and there the least code; or there is no memory for it. Each line is
/// read once.
pub fn assemble(alloc: Global, module: &Module) -> Result<Unit, AsmAnswer>
    ensures { AnswersBy result (UnitFor «module».now) }
{
    laws::lines_make_units();
    laws::names_are_names();
    match assembled_rows(alloc, module.lines()) {
        Ok(rows) => Ok(Unit::of(alloc, rows)?),
        Err(answer) => Err(answer),
    }
}
