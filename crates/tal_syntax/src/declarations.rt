// Reading lines outside classes and functions.
ghost use Rattle.std.specs.Prelude.{◌≡◌};
ghost use Rattle.tal_syntax.specs.Reading.{GivesSame};
ghost use Rattle.tal_syntax.specs.Forms.{heap_at, stacks_at, entry_at, sig_at, kind_at, static_at, numbers_at, data_at, outer_data_at, parent_at, class_at, func_at, extern_at, outside_at};

use crate::form::Form;
use crate::lists::NumberList;
use crate::name::Name;
use crate::rows::{numbers, reg_types};
use crate::tokens_read::{Stop, line_end, mark, name, number};
use crate::types::type_text;
use std::alloc::Global;
use text_tokens::{Keyword, Token, Tokens};

// The words of the heap, behind `heap`.
#[tactic(auto, unfolding(crate::specs::Forms::heap_at))]
fn heap(tokens: &mut Tokens<'_>) -> Result<Form, Stop>
    ensures gives { GivesSame result (heap_at tokens.old.left) tokens.new.left }
    ensures line { tokens.new.line ≡ tokens.old.line }
{
    let words = number(tokens)?;
    line_end(tokens)?;
    Ok(Form::Heap(words))
}

// The number of stacks, behind `stacks`.
#[tactic(auto, unfolding(crate::specs::Forms::stacks_at))]
fn stacks(tokens: &mut Tokens<'_>) -> Result<Form, Stop>
    ensures gives { GivesSame result (stacks_at tokens.old.left) tokens.new.left }
    ensures line { tokens.new.line ≡ tokens.old.line }
{
    let stacks = number(tokens)?;
    line_end(tokens)?;
    Ok(Form::Stacks(stacks))
}

// A stack and the function that it begins with, behind `entry`.
#[tactic(auto, unfolding(crate::specs::Forms::entry_at))]
fn entry(alloc: Global, tokens: &mut Tokens<'_>) -> Result<Form, Stop>
    ensures gives { GivesSame result (entry_at tokens.old.left) tokens.new.left }
    ensures line { tokens.new.line ≡ tokens.old.line }
{
    let stack = number(tokens)?;
    let func = name(alloc, tokens)?;
    line_end(tokens)?;
    Ok(Form::Entry { stack, func })
}

// A signature, behind `sig`.
#[tactic(auto, unfolding(crate::specs::Forms::sig_at))]
fn sig(alloc: Global, tokens: &mut Tokens<'_>, ext: bool) -> Result<Form, Stop>
    ensures gives { GivesSame result (sig_at ext tokens.old.left) tokens.new.left }
    ensures line { tokens.new.line ≡ tokens.old.line }
{
    let name = name(alloc, tokens)?;
    mark(tokens, b'(')?;
    let params = reg_types(alloc, tokens)?;
    let result = type_text(alloc, tokens)?;
    line_end(tokens)?;
    Ok(Form::Sig {
        ext,
        name,
        params,
        result,
    })
}

// A kind of array, behind `kind`.
#[tactic(auto, unfolding(crate::specs::Forms::kind_at))]
fn kind(alloc: Global, tokens: &mut Tokens<'_>, ext: bool) -> Result<Form, Stop>
    ensures gives { GivesSame result (kind_at ext tokens.old.left) tokens.new.left }
    ensures line { tokens.new.line ≡ tokens.old.line }
{
    let name = name(alloc, tokens)?;
    let element = type_text(alloc, tokens)?;
    line_end(tokens)?;
    Ok(Form::Kind { ext, name, element })
}

// A static, behind `static`.
#[tactic(auto, unfolding(crate::specs::Forms::static_at))]
fn static_word(alloc: Global, tokens: &mut Tokens<'_>, ext: bool) -> Result<Form, Stop>
    ensures gives { GivesSame result (static_at ext tokens.old.left) tokens.new.left }
    ensures line { tokens.new.line ≡ tokens.old.line }
{
    let name = name(alloc, tokens)?;
    let ty = type_text(alloc, tokens)?;
    line_end(tokens)?;
    Ok(Form::Static { ext, name, ty })
}

// The numbers of a data array, where they are given, and the line's end.
#[tactic(auto, unfolding(crate::specs::Forms::numbers_at))]
fn data_numbers(alloc: Global, tokens: &mut Tokens<'_>) -> Result<Option<NumberList>, Stop>
    ensures gives { GivesSame result (numbers_at tokens.old.left) tokens.new.left }
    ensures line { tokens.new.line ≡ tokens.old.line }
{
    match tokens.peek() {
        Some(Token::EndOfLine) => {
            tokens.advance();
            Ok(None)
        }
        Some(Token::Mark(b'{')) => {
            tokens.advance();
            let list = numbers(alloc, tokens)?;
            line_end(tokens)?;
            Ok(Some(list))
        }
        _ => Err(Stop::Refused),
    }
}

// A data array, behind `data`.
#[tactic(auto, unfolding(crate::specs::Forms::data_at))]
fn data(alloc: Global, tokens: &mut Tokens<'_>) -> Result<Form, Stop>
    ensures gives { GivesSame result (data_at tokens.old.left) tokens.new.left }
    ensures line { tokens.new.line ≡ tokens.old.line }
{
    let array = name(alloc, tokens)?;
    let kind = name(alloc, tokens)?;
    let length = number(tokens)?;
    let numbers = data_numbers(alloc, tokens)?;
    Ok(Form::DataArray {
        ext: false,
        name: array,
        kind,
        length,
        numbers,
    })
}

// A data array of another unit, behind `extern data`.
#[tactic(auto, unfolding(crate::specs::Forms::outer_data_at))]
fn outer_data(alloc: Global, tokens: &mut Tokens<'_>) -> Result<Form, Stop>
    ensures gives { GivesSame result (outer_data_at tokens.old.left) tokens.new.left }
    ensures line { tokens.new.line ≡ tokens.old.line }
{
    let array = name(alloc, tokens)?;
    let kind = name(alloc, tokens)?;
    let length = number(tokens)?;
    line_end(tokens)?;
    Ok(Form::DataArray {
        ext: true,
        name: array,
        kind,
        length,
        numbers: None,
    })
}

// The class below which a class is, where it is given, and the line's end.
#[tactic(auto, unfolding(crate::specs::Forms::parent_at))]
fn parent(alloc: Global, tokens: &mut Tokens<'_>) -> Result<Option<Name>, Stop>
    ensures gives { GivesSame result (parent_at tokens.old.left) tokens.new.left }
    ensures line { tokens.new.line ≡ tokens.old.line }
{
    match tokens.peek() {
        Some(Token::Key(Keyword::Below)) => {
            tokens.advance();
            let parent = name(alloc, tokens)?;
            line_end(tokens)?;
            Ok(Some(parent))
        }
        Some(Token::EndOfLine) => {
            tokens.advance();
            Ok(None)
        }
        _ => Err(Stop::Refused),
    }
}

// A class, behind `class`.
#[tactic(auto, unfolding(crate::specs::Forms::class_at))]
fn class(alloc: Global, tokens: &mut Tokens<'_>, ext: bool) -> Result<Form, Stop>
    ensures gives { GivesSame result (class_at ext tokens.old.left) tokens.new.left }
    ensures line { tokens.new.line ≡ tokens.old.line }
{
    let name = name(alloc, tokens)?;
    let parent = parent(alloc, tokens)?;
    Ok(Form::Class { ext, name, parent })
}

// A function, behind `func`.
#[tactic(auto, unfolding(crate::specs::Forms::func_at))]
fn func(alloc: Global, tokens: &mut Tokens<'_>, ext: bool) -> Result<Form, Stop>
    ensures gives { GivesSame result (func_at ext tokens.old.left) tokens.new.left }
    ensures line { tokens.new.line ≡ tokens.old.line }
{
    let func = name(alloc, tokens)?;
    let sig = name(alloc, tokens)?;
    line_end(tokens)?;
    Ok(Form::Func {
        ext,
        name: func,
        sig,
    })
}

// What stands behind `extern`.
#[tactic(auto, unfolding(crate::specs::Forms::extern_at))]
fn outer(alloc: Global, tokens: &mut Tokens<'_>) -> Result<Form, Stop>
    ensures gives { GivesSame result (extern_at tokens.old.left) tokens.new.left }
    ensures line { tokens.new.line ≡ tokens.old.line }
{
    let Some(Token::Key(keyword)) = tokens.peek() else {
        return Err(Stop::Refused);
    };
    match keyword {
        Keyword::Sig => {
            tokens.advance();
            sig(alloc, tokens, true)
        }
        Keyword::Kind => {
            tokens.advance();
            kind(alloc, tokens, true)
        }
        Keyword::Static => {
            tokens.advance();
            static_word(alloc, tokens, true)
        }
        Keyword::Data => {
            tokens.advance();
            outer_data(alloc, tokens)
        }
        Keyword::Class => {
            tokens.advance();
            class(alloc, tokens, true)
        }
        Keyword::Func => {
            tokens.advance();
            func(alloc, tokens, true)
        }
        _ => Err(Stop::Refused),
    }
}

/// A line outside classes and functions.
#[tactic(auto, unfolding(crate::specs::Forms::outside_at))]
pub fn declaration(alloc: Global, tokens: &mut Tokens<'_>) -> Result<Form, Stop>
    ensures gives { GivesSame result (outside_at tokens.old.left) tokens.new.left }
    ensures line { tokens.new.line ≡ tokens.old.line }
{
    let Some(Token::Key(keyword)) = tokens.peek() else {
        return Err(Stop::Refused);
    };
    match keyword {
        Keyword::Heap => {
            tokens.advance();
            heap(tokens)
        }
        Keyword::Stacks => {
            tokens.advance();
            stacks(tokens)
        }
        Keyword::Entry => {
            tokens.advance();
            entry(alloc, tokens)
        }
        Keyword::Sig => {
            tokens.advance();
            sig(alloc, tokens, false)
        }
        Keyword::Kind => {
            tokens.advance();
            kind(alloc, tokens, false)
        }
        Keyword::Static => {
            tokens.advance();
            static_word(alloc, tokens, false)
        }
        Keyword::Data => {
            tokens.advance();
            data(alloc, tokens)
        }
        Keyword::Class => {
            tokens.advance();
            class(alloc, tokens, false)
        }
        Keyword::Func => {
            tokens.advance();
            func(alloc, tokens, false)
        }
        Keyword::Extern => {
            tokens.advance();
            outer(alloc, tokens)
        }
        _ => Err(Stop::Refused),
    }
}
