// Reading one line.
ghost use Rattle.std.specs.Prelude.{◌≡◌, ◌<◌, ◌^◌, length};
ghost use Rattle.text_tokens.specs.Token.{lexemes_of, long_name};
ghost use Rattle.text_tokens.specs.Lexing.{line_tokens};
ghost use Rattle.tal_syntax.specs.Text.{passed, column_behind, refusal, refused_or_long, IsRefusal, line_at, GivesLine};

use crate::form::{Form, Scope};
use crate::forms::form;
use crate::tokens_read::Stop;
use std::alloc::Global;
use text_tokens::{Token, Tokens};

/// Why a line has no form.
#[derive(Clone, Copy, Drop)]
pub enum LineStop {
    At { column: usize, code: u8 },
    /// The line is the front of a form.
    Unfinished,
    NoMemory,
}

// The column of the next token.
fn column(tokens: &Tokens<'_>) -> usize
    ensures { result ≡ column_behind tokens.now.line tokens.now.left }
{
    tokens.column()
}

// The column of the first name before it that is too long.
fn long_before(tokens: &Tokens<'_>) -> Option<usize>
    ensures { result ≡ long_name (passed tokens.now.line tokens.now.left) }
{
    tokens.long_name()
}

// The fault of a line at a token that no form has there.
fn refused(tokens: &Tokens<'_>) -> LineStop
    ensures { IsRefusal result (refused_or_long (long_name (passed tokens.now.line tokens.now.left)) (refusal tokens.now.line tokens.now.left)) }
{
    if let Some(column) = long_before(tokens) {
        return LineStop::At { column, code: 4 };
    }
    let column = column(tokens);
    match tokens.peek() {
        None => LineStop::Unfinished,
        Some(Token::EndOfLine) => LineStop::Unfinished,
        Some(Token::Bad(code)) => LineStop::At { column, code },
        _ => LineStop::At { column, code: 3 },
    }
}

/// The column of a line's first token, or of its end.
pub fn first_column(line: &[u8]) -> usize
    requires { length line.now < 2 ^ 32 }
    ensures { result ≡ column_behind (line_tokens line.now) (lexemes_of (line_tokens line.now)) }
{
    let tokens = Tokens::of(line);
    column(&tokens)
}

/// The form of a line, or none where it is empty.
#[tactic(auto, unfolding(crate::specs::Text::line_at))]
pub fn read_line(alloc: Global, line: &[u8], scope: Scope) -> Result<Option<Form>, LineStop>
    requires { length line.now < 2 ^ 32 }
    ensures { GivesLine result (line_at scope (line_tokens line.now)) }
{
    let mut tokens = Tokens::of(line);
    if let Some(Token::EndOfLine) = tokens.peek() {
        return Ok(None);
    }
    match form(alloc, &mut tokens, scope) {
        Ok(form) => match long_before(&tokens) {
            None => Ok(Some(form)),
            Some(column) => Err(LineStop::At { column, code: 4 }),
        },
        Err(Stop::Refused) => Err(refused(&tokens)),
        Err(Stop::Memory) => Err(LineStop::NoMemory),
    }
}
