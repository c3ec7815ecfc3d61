// What a text's lines declare or mean, as text.
ghost use Rattle.std.specs.Prelude.{◌≡◌};
ghost use Rattle.tal_names.specs.Declarations.{names_shown, names_of};

use crate::case::Case;
use crate::unplayed::Unplayed;
use std::alloc::{AllocError, Global};
use std::fmt::Debug;
use tal_names::{ModuleNames, NameSet};
use tal_operands::{Instruction, instruction_of};
use tal_rows::{
    class_line, data_line, entry_line, function_line, kind_line, label_line, sig_line, static_line,
};
use tal_syntax::{Form, Module, TextAnswer, TextLine, parse};

/// More than the bytes of any case.
const MOST: usize = 1_000_000;

/// How far the label of each jump and call is from the next instruction.
const DISTANCE: i32 = 7;

// Adds a row, or the code of a line that declares none.
fn tell_row<T: Debug>(told: &mut String, row: &Result<T, u8>) -> Result<(), AllocError> {
    match row {
        Ok(row) => write!(told, "{row:?}"),
        Err(code) => write!(told, "code {code}"),
    }
}

// Adds what may be there behind a word.
fn tell_some<T: Debug>(told: &mut String, word: &str, found: &Option<T>) -> Result<(), AllocError> {
    match found {
        Some(found) => write!(told, ", {word} {found:?}"),
        None => Ok(()),
    }
}

// Adds a code, 0 where there is none.
fn tell_code(told: &mut String, code: Option<u8>) -> Result<(), AllocError> {
    match code {
        Some(code) => write!(told, " {code}"),
        None => told.push_str(" 0"),
    }
}

// Adds an instruction, and its codes: where all else is well, where there is no room, no such label, and no spelling.
fn tell_instruction(told: &mut String, line: &Instruction) -> Result<(), AllocError> {
    write!(told, "{:?} {:?}", line.words.mnemonic, line.words.operands)?;
    tell_some(told, "near", &line.near)?;
    tell_some(told, "far", &line.far)?;
    tell_some(told, "mark", &line.sense)?;
    told.push_str(", codes")?;
    tell_code(told, line.fault(true, true, true))?;
    tell_code(told, line.fault(true, true, false))?;
    tell_code(told, line.fault(true, false, false))?;
    tell_code(told, line.fault(false, false, false))
}

// Adds what a line declares or means.
fn tell_form(
    told: &mut String,
    names: &ModuleNames,
    form: &Form,
    case: &Case,
) -> Result<(), AllocError> {
    match form {
        Form::Entry { stack, func } => {
            tell_row(told, &entry_line(names, *stack, func, case.is_amiss))
        }
        Form::Sig {
            name,
            params,
            result,
            ..
        } => tell_row(
            told,
            &sig_line(names, name, params.items(), result, case.rows),
        ),
        Form::Kind { name, element, .. } => {
            tell_row(told, &kind_line(names, name, element, case.rows))
        }
        Form::Static { name, ty, .. } => {
            tell_row(told, &static_line(names, name, ty, case.rows, case.words))
        }
        Form::DataArray {
            name,
            kind,
            length,
            numbers,
            ..
        } => tell_row(
            told,
            &data_line(names, name, kind, *length, numbers, case.rows, case.words),
        ),
        Form::Class { name, parent, .. } => {
            tell_row(told, &class_line(names, name, parent, case.rows))
        }
        Form::Func { name, sig, .. } => tell_row(
            told,
            &function_line(names, name, sig, !case.is_amiss, case.rows),
        ),
        Form::Label { regs, slots, .. } => tell_row(
            told,
            &label_line(names, regs.items(), slots, !case.is_amiss, case.rows),
        ),
        Form::Inst { mnemonic, args } => tell_instruction(
            told,
            &instruction_of(names, *mnemonic, args.items(), DISTANCE),
        ),
        Form::Heap(_) | Form::Stacks(_) | Form::Field { .. } | Form::Method { .. } | Form::End =>
            told.push('-'),
    }
}

// Adds a name.
fn tell_name(told: &mut String, name: &[u8]) -> Result<(), AllocError> {
    told.push(' ')?;
    for letter in name {
        told.push(char::from(*letter))?;
    }
    Ok(())
}

// Adds names in their order.
fn tell_set(told: &mut String, names: &NameSet) -> Result<(), AllocError> {
    told.push_str("  names")?;
    for number in 0..names.len() {
        if let Some(name) = names.name(number) {
            tell_name(told, name)?;
        }
    }
    told.push('\n')
}

// Adds the names of a module's unit.
fn tell_names(
    alloc: Global,
    told: &mut String,
    names: &ModuleNames,
    lines: &[TextLine],
) -> Result<(), Unplayed>
    requires { names_shown names.now ≡ names_of lines.now }
{
    let found = names.unit_names(alloc, lines)?;
    Ok(tell_set(told, &found)?)
}

// Adds what a line declares or means, by its number.
fn tell_line(
    told: &mut String,
    names: &ModuleNames,
    line: &TextLine,
    case: &Case,
) -> Result<(), AllocError> {
    write!(told, "  {}: ", line.number)?;
    tell_form(told, names, &line.form, case)?;
    told.push('\n')
}

// Adds what lines declare or mean.
fn tell_lines(
    told: &mut String,
    names: &ModuleNames,
    lines: &[TextLine],
    case: &Case,
) -> Result<(), AllocError> {
    for line in lines {
        tell_line(told, names, line, case)?;
    }
    Ok(())
}

// Adds what the lines of a module declare or mean, and the names of its unit where the case shows them.
fn tell_all(
    alloc: Global,
    told: &mut String,
    names: &ModuleNames,
    lines: &[TextLine],
    case: &Case,
) -> Result<(), Unplayed>
    requires { names_shown names.now ≡ names_of lines.now }
{
    tell_lines(told, names, lines, case)?;
    if case.shows_names {
        return tell_names(alloc, told, names, lines);
    }
    Ok(())
}

// Looks the names of a module up, and adds what its lines declare or mean. (The names are let go at one place alone: each
// further place makes the proof longer.)
fn tell_module(
    alloc: Global,
    told: &mut String,
    module: &Module,
    case: &Case,
) -> Result<(), Unplayed> {
    let names = ModuleNames::of(alloc, module.lines())?;
    tell_all(alloc, told, &names, module.lines(), case)
}

/// Adds what each line of a case's text declares or means, or the text's first fault.
pub fn tell_text(alloc: Global, told: &mut String, case: &Case) -> Result<(), Unplayed> {
    if case.text.len() > MOST {
        return Err(Unplayed::Form);
    }
    match parse(alloc, &case.text) {
        Ok(module) => tell_module(alloc, told, &module, case),
        Err(TextAnswer::Fault(fault)) => {
            writeln!(
                told,
                "  line {} column {} code {}",
                fault.line, fault.column, fault.code
            )?;
            Ok(())
        }
        Err(TextAnswer::NoMemory) => Err(Unplayed::NoMemory),
    }
}
