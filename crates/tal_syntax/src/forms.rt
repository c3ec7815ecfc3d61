// Reading the lines of classes and functions, and any line.
ghost use Rattle.std.specs.Prelude.{◌≡◌};
ghost use Rattle.tal_syntax.specs.Reading.{GivesSame};
ghost use Rattle.tal_syntax.specs.Forms.{field_line_at, method_at, block_end_at, member_at, label_slots_at, label_at, function_line_at, any_line_at};

use crate::declarations::declaration;
use crate::form::{Form, Scope};
use crate::instructions::inst;
use crate::lists::TypeTextList;
use crate::name::Name;
use crate::rows::{reg_types, types};
use crate::tokens_read::{Stop, line_end, mark, name};
use crate::types::type_text;
use std::alloc::Global;
use text_tokens::{Keyword, Token, Tokens};

// A field, behind `field`.
#[tactic(auto, unfolding(crate::specs::Forms::field_line_at))]
fn field(alloc: Global, tokens: &mut Tokens<'_>) -> Result<Form, Stop>
    ensures gives { GivesSame result (field_line_at tokens.old.left) tokens.new.left }
    ensures line { tokens.new.line ≡ tokens.old.line }
{
    let name = name(alloc, tokens)?;
    let ty = type_text(alloc, tokens)?;
    line_end(tokens)?;
    Ok(Form::Field { name, ty })
}

// A method, behind `method`.
#[tactic(auto, unfolding(crate::specs::Forms::method_at))]
fn method(alloc: Global, tokens: &mut Tokens<'_>) -> Result<Form, Stop>
    ensures gives { GivesSame result (method_at tokens.old.left) tokens.new.left }
    ensures line { tokens.new.line ≡ tokens.old.line }
{
    let method = name(alloc, tokens)?;
    let sig = name(alloc, tokens)?;
    let func = name(alloc, tokens)?;
    line_end(tokens)?;
    Ok(Form::Method {
        name: method,
        sig,
        func,
    })
}

// The end of a class or a function, behind `end`.
#[tactic(auto, unfolding(crate::specs::Forms::block_end_at))]
fn block_end(tokens: &mut Tokens<'_>) -> Result<Form, Stop>
    ensures gives { GivesSame result (block_end_at tokens.old.left) tokens.new.left }
    ensures line { tokens.new.line ≡ tokens.old.line }
{
    line_end(tokens)?;
    Ok(Form::End)
}

// A line of a class.
#[tactic(auto, unfolding(crate::specs::Forms::member_at))]
fn member(alloc: Global, tokens: &mut Tokens<'_>) -> Result<Form, Stop>
    ensures gives { GivesSame result (member_at tokens.old.left) tokens.new.left }
    ensures line { tokens.new.line ≡ tokens.old.line }
{
    let Some(Token::Key(keyword)) = tokens.peek() else {
        return Err(Stop::Refused);
    };
    match keyword {
        Keyword::Field => {
            tokens.advance();
            field(alloc, tokens)
        }
        Keyword::Method => {
            tokens.advance();
            method(alloc, tokens)
        }
        Keyword::End => {
            tokens.advance();
            block_end(tokens)
        }
        _ => Err(Stop::Refused),
    }
}

// The slots of a label, where they are given, and the line's end.
#[tactic(auto, unfolding(crate::specs::Forms::label_slots_at))]
fn slots(alloc: Global, tokens: &mut Tokens<'_>) -> Result<Option<TypeTextList>, Stop>
    ensures gives { GivesSame result (label_slots_at tokens.old.left) tokens.new.left }
    ensures line { tokens.new.line ≡ tokens.old.line }
{
    match tokens.peek() {
        Some(Token::EndOfLine) => {
            tokens.advance();
            Ok(None)
        }
        Some(Token::Mark(b'[')) => {
            tokens.advance();
            let list = types(alloc, tokens)?;
            line_end(tokens)?;
            Ok(Some(list))
        }
        _ => Err(Stop::Refused),
    }
}

// A label, behind its name.
#[tactic(auto, unfolding(crate::specs::Forms::label_at))]
fn label(alloc: Global, tokens: &mut Tokens<'_>, name: Name) -> Result<Form, Stop>
    ensures gives { GivesSame result (label_at name tokens.old.left) tokens.new.left }
    ensures line { tokens.new.line ≡ tokens.old.line }
{
    mark(tokens, b':')?;
    mark(tokens, b'(')?;
    let regs = reg_types(alloc, tokens)?;
    let slots = slots(alloc, tokens)?;
    Ok(Form::Label { name, regs, slots })
}

// A line of a function.
#[tactic(auto, unfolding(crate::specs::Forms::function_line_at))]
fn code(alloc: Global, tokens: &mut Tokens<'_>) -> Result<Form, Stop>
    ensures gives { GivesSame result (function_line_at tokens.old.left) tokens.new.left }
    ensures line { tokens.new.line ≡ tokens.old.line }
{
    match tokens.peek() {
        Some(Token::Key(Keyword::End)) => {
            tokens.advance();
            block_end(tokens)
        }
        Some(Token::Name(letters)) => {
            tokens.advance();
            let name = Name::of(alloc, letters)?;
            label(alloc, tokens, name)
        }
        Some(Token::Mnemonic(mnemonic)) => {
            tokens.advance();
            inst(alloc, tokens, mnemonic)
        }
        _ => Err(Stop::Refused),
    }
}

/// A line that is not empty, where the lines before have begun a scope.
#[tactic(auto, unfolding(crate::specs::Forms::any_line_at))]
pub fn form(alloc: Global, tokens: &mut Tokens<'_>, scope: Scope) -> Result<Form, Stop>
    ensures gives { GivesSame result (any_line_at scope tokens.old.left) tokens.new.left }
    ensures line { tokens.new.line ≡ tokens.old.line }
{
    match scope {
        Scope::Outside => declaration(alloc, tokens),
        Scope::InClass => member(alloc, tokens),
        Scope::InFunc => code(alloc, tokens),
    }
}
