// Reading operands.
ghost use Rattle.std.specs.Prelude.{◌≡◌};
ghost use Rattle.tal_syntax.specs.Reading.{GivesSame, choose, by_key};
ghost use Rattle.tal_syntax.specs.Operands.{factor, factor_at, register_at, two_names, term_key, term_at, signed_at, terms_at, arg_key, arg_at, count_at, called_at};

use crate::form::{Arg, Term};
use crate::lists::TermList;
use crate::name::Name;
use crate::rows::{Row, some_rows};
use crate::tokens_read::{Stop, name, number, takes};
use crate::types::type_text;
use ia32_code::Reg;
use std::alloc::Global;
use text_tokens::{Keyword, Token, Tokens};

// The factor of an index, if a number is one.
fn factor(number: i64) -> Option<u8>
    ensures { result ≡ factor number }
{
    if number == 1 {
        Some(1)
    } else if number == 2 {
        Some(2)
    } else if number == 4 {
        Some(4)
    } else if number == 8 {
        Some(8)
    } else {
        None
    }
}

// A factor behind `*`.
#[tactic(auto, unfolding(crate::specs::Operands::factor_at))]
fn factor_read(tokens: &mut Tokens<'_>) -> Result<u8, Stop>
    ensures gives { GivesSame result (factor_at tokens.old.left) tokens.new.left }
    ensures line { tokens.new.line ≡ tokens.old.line }
{
    let Some(Token::Number(number)) = tokens.peek() else {
        return Err(Stop::Refused);
    };
    match factor(number) {
        Some(factor) => {
            tokens.advance();
            Ok(factor)
        }
        None => Err(Stop::Refused),
    }
}

// A register in a memory operand, behind its name: it may have a factor.
#[tactic(auto, unfolding(crate::specs::Operands::register_at))]
fn register(tokens: &mut Tokens<'_>, reg: Reg) -> Result<Term, Stop>
    ensures gives { GivesSame result (register_at reg tokens.old.left) tokens.new.left }
    ensures line { tokens.new.line ≡ tokens.old.line }
{
    if takes(tokens, b'*') {
        return Ok(Term::Scaled(reg, factor_read(tokens)?));
    }
    Ok(Term::Register(reg))
}

// Two names.
fn two_names(alloc: Global, tokens: &mut Tokens<'_>) -> Result<(Name, Name), Stop>
    ensures gives { GivesSame result (two_names tokens.old.left) tokens.new.left }
    ensures line { tokens.new.line ≡ tokens.old.line }
{
    let first = name(alloc, tokens)?;
    let second = name(alloc, tokens)?;
    Ok((first, second))
}

// A term that a word begins.
fn keyed_term(alloc: Global, tokens: &mut Tokens<'_>) -> Result<Term, Stop>
    ensures gives { GivesSame result (choose (by_key term_key) tokens.old.left) tokens.new.left }
    ensures line { tokens.new.line ≡ tokens.old.line }
{
    let Some(Token::Key(keyword)) = tokens.peek() else {
        return Err(Stop::Refused);
    };
    match keyword {
        Keyword::Field => {
            tokens.advance();
            let (class, field) = two_names(alloc, tokens)?;
            Ok(Term::FieldByte(class, field))
        }
        Keyword::Method => {
            tokens.advance();
            let (class, method) = two_names(alloc, tokens)?;
            Ok(Term::MethodByte(class, method))
        }
        Keyword::Display => {
            tokens.advance();
            Ok(Term::DisplayByte(name(alloc, tokens)?))
        }
        Keyword::Static => {
            tokens.advance();
            Ok(Term::StaticAt(name(alloc, tokens)?))
        }
        _ => Err(Stop::Refused),
    }
}

// A term of a memory operand.
#[tactic(auto, unfolding(crate::specs::Operands::term_at))]
fn term(alloc: Global, tokens: &mut Tokens<'_>) -> Result<Term, Stop>
    ensures gives { GivesSame result (term_at tokens.old.left) tokens.new.left }
    ensures line { tokens.new.line ≡ tokens.old.line }
{
    match tokens.peek() {
        Some(Token::Register(reg)) => {
            tokens.advance();
            register(tokens, reg)
        }
        Some(Token::Number(number)) => {
            tokens.advance();
            Ok(Term::Number(number))
        }
        Some(Token::Key(_)) => keyed_term(alloc, tokens),
        _ => Err(Stop::Refused),
    }
}

// A further term, with the sign before it.
#[tactic(auto, unfolding(crate::specs::Operands::signed_at))]
fn signed_term(alloc: Global, tokens: &mut Tokens<'_>) -> Result<Term, Stop>
    ensures gives { GivesSame result (signed_at tokens.old.left) tokens.new.left }
    ensures line { tokens.new.line ≡ tokens.old.line }
{
    match tokens.peek() {
        Some(Token::Mark(b'+')) => {
            tokens.advance();
            term(alloc, tokens)
        }
        Some(Token::Mark(b'-')) => {
            tokens.advance();
            let number = number(tokens)?;
            Ok(Term::Number(number.wrapping_neg()))
        }
        _ => Err(Stop::Refused),
    }
}

impl Row for Term {
    ghost reads = { term_at };

    ghost reads_next = { signed_at };

    fn read(alloc: Global, tokens: &mut Tokens<'_>) -> Result<Term, Stop> {
        term(alloc, tokens)
    }

    fn read_next(alloc: Global, tokens: &mut Tokens<'_>) -> Result<Term, Stop> {
        signed_term(alloc, tokens)
    }
}

// The terms of a memory operand behind its opening bracket.
#[tactic(auto, unfolding(crate::specs::Operands::terms_at))]
fn terms(alloc: Global, tokens: &mut Tokens<'_>) -> Result<TermList, Stop>
    ensures gives { GivesSame result (terms_at tokens.old.left) tokens.new.left }
    ensures line { tokens.new.line ≡ tokens.old.line }
{
    let terms: Vec<Term> = some_rows(alloc, tokens, b']')?;
    Ok(TermList::of(terms))
}

// An operand that a word begins.
fn keyed_arg(alloc: Global, tokens: &mut Tokens<'_>) -> Result<Arg, Stop>
    ensures gives { GivesSame result (choose (by_key arg_key) tokens.old.left) tokens.new.left }
    ensures line { tokens.new.line ≡ tokens.old.line }
{
    let Some(Token::Key(keyword)) = tokens.peek() else {
        return Err(Stop::Refused);
    };
    match keyword {
        Keyword::Null => {
            tokens.advance();
            Ok(Arg::Null(type_text(alloc, tokens)?))
        }
        Keyword::Tab => {
            tokens.advance();
            Ok(Arg::Tab(name(alloc, tokens)?))
        }
        Keyword::Desc => {
            tokens.advance();
            Ok(Arg::Desc(name(alloc, tokens)?))
        }
        Keyword::Code => {
            tokens.advance();
            Ok(Arg::Code(name(alloc, tokens)?))
        }
        Keyword::Data => {
            tokens.advance();
            Ok(Arg::DataOf(name(alloc, tokens)?))
        }
        _ => Err(Stop::Refused),
    }
}

/// An operand.
#[tactic(auto, unfolding(crate::specs::Operands::arg_at))]
pub fn arg(alloc: Global, tokens: &mut Tokens<'_>) -> Result<Arg, Stop>
    ensures gives { GivesSame result (arg_at tokens.old.left) tokens.new.left }
    ensures line { tokens.new.line ≡ tokens.old.line }
{
    match tokens.peek() {
        Some(Token::Register(reg)) => {
            tokens.advance();
            Ok(Arg::Register(reg))
        }
        Some(Token::Number(number)) => {
            tokens.advance();
            Ok(Arg::Number(number))
        }
        Some(Token::Key(_)) => keyed_arg(alloc, tokens),
        Some(Token::Mark(b'[')) => {
            tokens.advance();
            Ok(Arg::Memory(terms(alloc, tokens)?))
        }
        _ => Err(Stop::Refused),
    }
}

/// The count of a shift.
#[tactic(auto, unfolding(crate::specs::Operands::count_at, crate::specs::Operands::arg_at))]
pub fn count(alloc: Global, tokens: &mut Tokens<'_>) -> Result<Arg, Stop>
    ensures gives { GivesSame result (count_at tokens.old.left) tokens.new.left }
    ensures line { tokens.new.line ≡ tokens.old.line }
{
    if let Some(Token::Key(Keyword::Cl)) = tokens.peek() {
        tokens.advance();
        return Ok(Arg::Cl);
    }
    arg(alloc, tokens)
}

/// What a call goes to.
#[tactic(auto, unfolding(crate::specs::Operands::called_at))]
pub fn called(alloc: Global, tokens: &mut Tokens<'_>) -> Result<Arg, Stop>
    ensures gives { GivesSame result (called_at tokens.old.left) tokens.new.left }
    ensures line { tokens.new.line ≡ tokens.old.line }
{
    match tokens.peek() {
        Some(Token::Register(reg)) => {
            tokens.advance();
            Ok(Arg::Register(reg))
        }
        Some(Token::Name(letters)) => {
            tokens.advance();
            Ok(Arg::Target(Name::of(alloc, letters)?))
        }
        Some(Token::Key(Keyword::Nucleus)) => {
            tokens.advance();
            Ok(Arg::Nucleus(number(tokens)?))
        }
        Some(Token::Mark(b'[')) => {
            tokens.advance();
            Ok(Arg::Memory(terms(alloc, tokens)?))
        }
        _ => Err(Stop::Refused),
    }
}
