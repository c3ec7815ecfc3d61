// Reading a text line by line.
ghost use Rattle.std.specs.Prelude.{◌≡◌, ◌<◌, ◌≤◌, ◌+◌, ◌-◌, ◌^◌, ◌∷◌, [], length, Option, None, Some, IfOk};
ghost use Rattle.text_tokens.specs.Lexing.{line_tokens};
ghost use Rattle.tal_syntax.specs.Lines.{CutIs};
ghost use Rattle.tal_syntax.specs.Modules.{IsModule, NoModule, TextOf};
ghost use Rattle.tal_syntax.specs.Text.{after, IsLineTaken, behind_line, text_end, IsFault, line_fault, GivesText, text_at, line_at};

use crate::fault::{TextAnswer, TextFault};
use crate::form::{Form, Scope};
use crate::line::{LineStop, first_column, read_line};
use crate::text_lines::cut_line;
use std::alloc::Global;
use std::marker::Model;

/// A line that is not empty.
#[derive(Drop)]
pub struct TextLine {
    /// Counted from 1, empty lines too.
    pub number: u32,
    pub form: Form,
}

/// The lines of a text that are not empty. Contracts see it as their list.
#[derive(Drop)]
pub struct Module {
    lines: Vec<TextLine>,
}

impl Model for Module {
    ghost use Rattle.std.specs.Prelude.{List};
    ghost use Rattle.tal_syntax.specs.declared.module.TextLine.{TextLine};
    ghost use Rattle.tal_syntax.specs.Modules.{IsModule};

    ghost Value = { List TextLine };

    ghost view = { λ text. text.lines.items };

    ghost invariant = { λ text. IsModule text.lines.items };
}

// Lines that are read. Contracts see them as their list.
#[derive(Drop)]
struct FoundLines {
    lines: Vec<TextLine>,
}

impl Model for FoundLines {
    ghost use Rattle.std.specs.Prelude.{List};
    ghost use Rattle.tal_syntax.specs.declared.module.TextLine.{TextLine};

    ghost Value = { List TextLine };

    ghost view = { λ found. found.lines.items };
}

impl Module {
    /// The lines that are not empty, in order. They are those of some text.
    pub fn lines(&self) -> &[TextLine]
        ensures lines { result.now ≡ self.now }
        ensures text { IsModule result.now }
    {
        &self.lines
    }
}

// What the lines up to a form have begun.
fn scope_after(scope: Scope, form: &Form) -> Scope
    ensures { result ≡ after scope form.now }
{
    match form {
        Form::Class { .. } => Scope::InClass,
        Form::Func { ext, .. } => { if *ext { Scope::Outside } else { Scope::InFunc } }
        Form::End => Scope::Outside,
        _ => scope,
    }
}

// The fault of a line that has no form.
fn fault_of(stop: LineStop, number: u64, scope: Scope, line: &[u8], is_last: bool) -> TextAnswer
    requires line { length line.now < 2 ^ 32 }
    requires number { number < 2 ^ 32 }
    ensures { IsFault stop result (λ f. line_fault number scope line.now is_last f) }
{
    match stop {
        LineStop::At { column, code } => TextAnswer::Fault(TextFault {
            line: number as u32,
            column: column as u64,
            code,
        }),
        LineStop::Unfinished => {
            if is_last && scope != Scope::Outside {
                TextAnswer::Fault(TextFault {
                    line: number as u32,
                    column: line.len() as u64 + 1,
                    code: 5,
                })
            } else {
                TextAnswer::Fault(TextFault {
                    line: number as u32,
                    column: first_column(line) as u64,
                    code: 3,
                })
            }
        }
        LineStop::NoMemory => TextAnswer::NoMemory,
    }
}

// Reads a line, adds it where it is not empty, and tells what the lines so far have begun.
fn take_line(
    alloc: Global,
    lines: &mut Vec<TextLine>,
    number: u64,
    line: &[u8],
    scope: Scope,
    is_last: bool,
) -> Result<Scope, TextAnswer>
    requires line { length line.now < 2 ^ 32 }
    requires number { number < 2 ^ 32 }
    ensures { IsLineTaken result (line_at scope (line_tokens line.now)) number scope line.now is_last lines.old.items lines.new.items }
{
    match read_line(alloc, line, scope) {
        Err(stop) => Err(fault_of(stop, number, scope, line, is_last)),
        Ok(None) => Ok(scope),
        Ok(Some(form)) => {
            let after = scope_after(scope, &form);
            lines.push(TextLine {
                number: number as u32,
                form,
            })?;
            Ok(after)
        }
    }
}

// What a text that ends here has.
fn at_end(
    lines: Vec<TextLine>,
    number: u64,
    scope: Scope,
    line: &[u8],
) -> Result<FoundLines, TextAnswer>
    requires line { length line.now < 2 ^ 32 }
    requires number { number < 2 ^ 32 }
    ensures { GivesText result (behind_line lines.items (text_end number scope line.now)) }
{
    if scope == Scope::Outside {
        return Ok(FoundLines { lines });
    }
    Err(TextAnswer::Fault(TextFault {
        line: number as u32,
        column: line.len() as u64 + 1,
        code: 5,
    }))
}

// Reads the lines from front to back.
fn read_text(alloc: Global, bytes: &[u8]) -> Result<FoundLines, TextAnswer>
    requires { length bytes.now ≤ 4294967294 }
    ensures { GivesText result (text_at bytes.now) }
{
    let mut lines = Vec::new(alloc);
    let mut scope = Scope::Outside;
    let mut left = bytes;
    let mut number = 1u64;
    loop {
        let (line, rest) = cut_line(left);
        match rest {
            None => {
                scope = take_line(alloc, &mut lines, number, line, scope, true)?;
                return at_end(lines, number, scope, line);
            }
            Some(rest) => {
                scope = take_line(alloc, &mut lines, number, line, scope, false)?;
                left = rest;
                number += 1;
            }
        }
    }
}

/// The module that a text stands for, or its first fault.
///
/// The text has LF behind each line, before which a CR may stand; the last line needs none.
pub fn parse(alloc: Global, bytes: &[u8]) -> Result<Module, TextAnswer>
    requires { length bytes.now ≤ 4294967294 }
    ensures gives { GivesText result (text_at bytes.now) }
    // A module has the sentences of the text's lines, and a text with a fault has no module.
    ensures module { IfOk result (TextOf bytes.now) }
    ensures no_module { NoModule result bytes.now }
{
    match read_text(alloc, bytes) {
        Ok(found) => Ok(Module { lines: found.lines }),
        Err(answer) => Err(answer),
    }
}
