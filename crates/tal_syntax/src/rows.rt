// Lists of rows, up to a closing mark.
ghost use Rattle.std.specs.Prelude.{◌≡◌, ◌∷◌, [], ◌≢◌};
ghost use Rattle.tal_syntax.specs.Reading.{Read, GivesSame, GivesVia, some_rows, rows_at, comma_at, number_at};
ghost use Rattle.tal_syntax.specs.Rows.{type_at, reg_type_at};

use crate::form::{RegType, TypeText};
use crate::lists::{NumberList, RegTypeList, TypeTextList};
use crate::tokens_read::{Stop, mark, number, takes};
use crate::types::{reg_type, type_text};
use std::alloc::Global;
use text_tokens::Tokens;

/// What stands in each place of a list.
pub trait Row: Drop {
    ghost reads: { Read Self };

    ghost reads_next: { Read Self };

    /// The first row.
    fn read(alloc: Global, tokens: &mut Tokens<'_>) -> Result<Self, Stop>
        ensures gives { GivesSame result (reads tokens.old.left) tokens.new.left }
        ensures line { tokens.new.line ≡ tokens.old.line };

    /// A further row, with what stands before it.
    fn read_next(alloc: Global, tokens: &mut Tokens<'_>) -> Result<Self, Stop>
        ensures gives { GivesSame result (reads_next tokens.old.left) tokens.new.left }
        ensures line { tokens.new.line ≡ tokens.old.line };
}

impl Row for RegType {
    ghost reads = { reg_type_at };

    ghost reads_next = { comma_at reg_type_at };

    fn read(alloc: Global, tokens: &mut Tokens<'_>) -> Result<RegType, Stop> {
        reg_type(alloc, tokens)
    }

    #[tactic(auto, unfolding(crate::specs::Reading::comma_at))]
    fn read_next(alloc: Global, tokens: &mut Tokens<'_>) -> Result<RegType, Stop> {
        mark(tokens, b',')?;
        reg_type(alloc, tokens)
    }
}

impl Row for TypeText {
    ghost reads = { type_at };

    ghost reads_next = { comma_at type_at };

    fn read(alloc: Global, tokens: &mut Tokens<'_>) -> Result<TypeText, Stop> {
        type_text(alloc, tokens)
    }

    #[tactic(auto, unfolding(crate::specs::Reading::comma_at))]
    fn read_next(alloc: Global, tokens: &mut Tokens<'_>) -> Result<TypeText, Stop> {
        mark(tokens, b',')?;
        type_text(alloc, tokens)
    }
}

impl Row for i64 {
    ghost reads = { number_at };

    ghost reads_next = { comma_at number_at };

    fn read(alloc: Global, tokens: &mut Tokens<'_>) -> Result<i64, Stop> {
        number(tokens)
    }

    #[tactic(auto, unfolding(crate::specs::Reading::comma_at))]
    fn read_next(alloc: Global, tokens: &mut Tokens<'_>) -> Result<i64, Stop> {
        mark(tokens, b',')?;
        number(tokens)
    }
}

/// A first row, and those behind it up to the closing mark.
pub fn some_rows<R: Row>(alloc: Global, tokens: &mut Tokens<'_>, close: u8) -> Result<Vec<R>, Stop>
    ensures gives { GivesVia (λ rows. rows.items) result (some_rows close R.reads R.reads_next tokens.old.left) tokens.new.left }
    ensures line { tokens.new.line ≡ tokens.old.line }
{
    let mut rows = Vec::new(alloc);
    rows.push(R::read(alloc, tokens)?)?;
    for _ in 0..u64::MAX {
        if takes(tokens, close) {
            return Ok(rows);
        }
        rows.push(R::read_next(alloc, tokens)?)?;
    }
    mark(tokens, close)?;
    Ok(rows)
}

/// Registers with their types between commas, up to the closing parenthesis.
#[tactic(auto, unfolding(crate::specs::Reading::rows_at))]
pub fn reg_types(alloc: Global, tokens: &mut Tokens<'_>) -> Result<RegTypeList, Stop>
    ensures gives { GivesSame result (rows_at 41 reg_type_at tokens.old.left) tokens.new.left }
    ensures line { tokens.new.line ≡ tokens.old.line }
{
    if takes(tokens, b')') {
        return Ok(RegTypeList::new(alloc));
    }
    let rows: Vec<RegType> = some_rows(alloc, tokens, b')')?;
    Ok(RegTypeList::of(rows))
}

/// Types between commas, up to the closing bracket.
#[tactic(auto, unfolding(crate::specs::Reading::rows_at))]
pub fn types(alloc: Global, tokens: &mut Tokens<'_>) -> Result<TypeTextList, Stop>
    ensures gives { GivesSame result (rows_at 93 type_at tokens.old.left) tokens.new.left }
    ensures line { tokens.new.line ≡ tokens.old.line }
{
    if takes(tokens, b']') {
        return Ok(TypeTextList::new(alloc));
    }
    let rows: Vec<TypeText> = some_rows(alloc, tokens, b']')?;
    Ok(TypeTextList::of(rows))
}

/// Numbers between commas, up to the closing brace.
#[tactic(auto, unfolding(crate::specs::Reading::rows_at))]
pub fn numbers(alloc: Global, tokens: &mut Tokens<'_>) -> Result<NumberList, Stop>
    ensures gives { GivesSame result (rows_at 125 number_at tokens.old.left) tokens.new.left }
    ensures line { tokens.new.line ≡ tokens.old.line }
{
    if takes(tokens, b'}') {
        return Ok(NumberList::new(alloc));
    }
    let rows: Vec<i64> = some_rows(alloc, tokens, b'}')?;
    Ok(NumberList::of(rows))
}
