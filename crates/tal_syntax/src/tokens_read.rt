// Reading single tokens.
ghost use Rattle.std.specs.Prelude.{◌≡◌, IsTrue, ◌↔◌, true, false, if◌then◌else◌};
ghost use Rattle.tal_syntax.specs.Reading.{GivesSame, mark_at, name_at, number_at, line_end_at, typed_at};
ghost use Rattle.tal_syntax.specs.Rows.{Peels};
ghost use Rattle.tal_syntax.specs.declared.tokens_read.Stop.TheVariants.{Memory};

use crate::name::Name;
use ia32_code::Reg;
use no_memory::NoMemory;
use std::alloc::{AllocError, AllocFailed, Global};
use text_tokens::{Token, Tokens};

/// Why a reader stopped.
#[derive(Clone, Copy, Drop)]
pub enum Stop {
    /// No sentence has the next token there.
    Refused,
    Memory,
}

impl From<NoMemory> for Stop {
    ghost from_gives = { λ _ stop. stop ≡ Memory };

    fn from(_want: NoMemory) -> Stop {
        Stop::Memory
    }
}

impl From<AllocError> for Stop {
    ghost from_gives = { λ _ stop. stop ≡ Memory };

    fn from(_failure: AllocError) -> Stop {
        Stop::Memory
    }
}

impl<T: Drop> From<AllocFailed<T>> for Stop {
    ghost from_gives = { λ _ stop. stop ≡ Memory };

    fn from(_failure: AllocFailed<T>) -> Stop {
        Stop::Memory
    }
}

/// Takes the next token where it is this mark.
pub fn takes(tokens: &mut Tokens<'_>, byte: u8) -> bool
    ensures peels { Peels byte result tokens.old.left tokens.new.left }
    ensures line { tokens.new.line ≡ tokens.old.line }
{
    match tokens.peek() {
        Some(Token::Mark(found)) if found == byte => {
            tokens.advance();
            true
        }
        _ => false,
    }
}

/// A mark.
#[tactic(auto, unfolding(crate::specs::Reading::mark_at))]
pub fn mark(tokens: &mut Tokens<'_>, byte: u8) -> Result<(), Stop>
    ensures gives { GivesSame result (mark_at byte tokens.old.left) tokens.new.left }
    ensures line { tokens.new.line ≡ tokens.old.line }
{
    match tokens.peek() {
        Some(Token::Mark(found)) if found == byte => {
            tokens.advance();
            Ok(())
        }
        _ => Err(Stop::Refused),
    }
}

/// A name.
#[tactic(auto, unfolding(crate::specs::Reading::name_at))]
pub fn name(alloc: Global, tokens: &mut Tokens<'_>) -> Result<Name, Stop>
    ensures gives { GivesSame result (name_at tokens.old.left) tokens.new.left }
    ensures line { tokens.new.line ≡ tokens.old.line }
{
    match tokens.peek() {
        Some(Token::Name(letters)) => {
            tokens.advance();
            Ok(Name::of(alloc, letters)?)
        }
        _ => Err(Stop::Refused),
    }
}

/// A number.
#[tactic(auto, unfolding(crate::specs::Reading::number_at))]
pub fn number(tokens: &mut Tokens<'_>) -> Result<i64, Stop>
    ensures gives { GivesSame result (number_at tokens.old.left) tokens.new.left }
    ensures line { tokens.new.line ≡ tokens.old.line }
{
    match tokens.peek() {
        Some(Token::Number(number)) => {
            tokens.advance();
            Ok(number)
        }
        _ => Err(Stop::Refused),
    }
}

/// The line's end.
#[tactic(auto, unfolding(crate::specs::Reading::line_end_at))]
pub fn line_end(tokens: &mut Tokens<'_>) -> Result<(), Stop>
    ensures gives { GivesSame result (line_end_at tokens.old.left) tokens.new.left }
    ensures line { tokens.new.line ≡ tokens.old.line }
{
    match tokens.peek() {
        Some(Token::EndOfLine) => {
            tokens.advance();
            Ok(())
        }
        _ => Err(Stop::Refused),
    }
}

/// A register that may have a type: each but the stack pointer.
#[tactic(auto, unfolding(crate::specs::Reading::typed_at))]
pub fn typed_register(tokens: &mut Tokens<'_>) -> Result<Reg, Stop>
    ensures gives { GivesSame result (typed_at tokens.old.left) tokens.new.left }
    ensures line { tokens.new.line ≡ tokens.old.line }
{
    match tokens.peek() {
        Some(Token::Register(Reg::Esp)) => Err(Stop::Refused),
        Some(Token::Register(reg)) => {
            tokens.advance();
            Ok(reg)
        }
        _ => Err(Stop::Refused),
    }
}
