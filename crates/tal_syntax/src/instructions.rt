// Reading instructions.
ghost use Rattle.std.specs.Prelude.{◌≡◌};
ghost use Rattle.tal_syntax.specs.Reading.{GivesSame, comma_at};
ghost use Rattle.tal_syntax.specs.Operands.{operand_at, last_at, alone, two_args_at, third_at, up_to_three_at, operands_of, args_at, inst_line_at};

use crate::form::{Arg, Form};
use crate::lists::ArgList;
use crate::operands::{arg, called, count};
use crate::tokens_read::{Stop, line_end, mark, name};
use code_words::Mnemonic;
use std::alloc::Global;
use text_tokens::{Token, Tokens};

/// Which operands stand behind a mnemonic.
#[derive(Clone, Copy, Drop)]
pub enum Operands {
    Zero,
    One,
    Two,
    UpToThree,
    /// An operand and a count.
    Shifted,
    /// What a call goes to.
    Called,
    /// A label.
    Target,
}

// The operands of a mnemonic.
fn operands_of(mnemonic: Mnemonic) -> Operands
    ensures { result ≡ operands_of mnemonic }
{
    match mnemonic {
        Mnemonic::Alu(_) => Operands::Two,
        Mnemonic::Mov => Operands::Two,
        Mnemonic::Lea => Operands::Two,
        Mnemonic::Test => Operands::Two,
        Mnemonic::Inc => Operands::One,
        Mnemonic::Dec => Operands::One,
        Mnemonic::Not => Operands::One,
        Mnemonic::Neg => Operands::One,
        Mnemonic::Mul => Operands::One,
        Mnemonic::Imul => Operands::UpToThree,
        Mnemonic::Div => Operands::One,
        Mnemonic::Idiv => Operands::One,
        Mnemonic::Shift(_) => Operands::Shifted,
        Mnemonic::Cdq => Operands::Zero,
        Mnemonic::Nop => Operands::Zero,
        Mnemonic::Push => Operands::One,
        Mnemonic::Pop => Operands::One,
        Mnemonic::Call => Operands::Called,
        Mnemonic::Ret => Operands::Zero,
        Mnemonic::Jmp => Operands::Target,
        Mnemonic::Jcc(_) => Operands::Target,
    }
}

// What an operand is for.
#[derive(Clone, Copy, Drop)]
enum Role {
    Any,
    /// The count of a shift.
    Count,
    /// What a call goes to.
    Called,
    /// A label that a jump goes to.
    Target,
}

// An operand.
fn operand(alloc: Global, tokens: &mut Tokens<'_>, role: Role) -> Result<Arg, Stop>
    ensures gives { GivesSame result (operand_at role tokens.old.left) tokens.new.left }
    ensures line { tokens.new.line ≡ tokens.old.line }
{
    match role {
        Role::Any => arg(alloc, tokens),
        Role::Count => count(alloc, tokens),
        Role::Called => called(alloc, tokens),
        Role::Target => Ok(Arg::Target(name(alloc, tokens)?)),
    }
}

// An operand, and the line's end.
fn last(alloc: Global, tokens: &mut Tokens<'_>, role: Role) -> Result<Arg, Stop>
    ensures gives { GivesSame result (last_at (operand_at role) tokens.old.left) tokens.new.left }
    ensures line { tokens.new.line ≡ tokens.old.line }
{
    let last = operand(alloc, tokens, role)?;
    line_end(tokens)?;
    Ok(last)
}

// One operand alone.
fn alone(alloc: Global, tokens: &mut Tokens<'_>, role: Role) -> Result<ArgList, Stop>
    ensures gives { GivesSame result (alone (operand_at role) tokens.old.left) tokens.new.left }
    ensures line { tokens.new.line ≡ tokens.old.line }
{
    let mut args = ArgList::new(alloc);
    args.push(last(alloc, tokens, role)?)?;
    Ok(args)
}

// The last operand behind a comma.
#[tactic(auto, unfolding(crate::specs::Reading::comma_at))]
fn last_behind_comma(alloc: Global, tokens: &mut Tokens<'_>, role: Role) -> Result<Arg, Stop>
    ensures gives { GivesSame result (comma_at (last_at (operand_at role)) tokens.old.left) tokens.new.left }
    ensures line { tokens.new.line ≡ tokens.old.line }
{
    mark(tokens, b',')?;
    last(alloc, tokens, role)
}

// Two operands.
fn pair(alloc: Global, tokens: &mut Tokens<'_>, second: Role) -> Result<ArgList, Stop>
    ensures gives { GivesSame result (two_args_at (operand_at second) tokens.old.left) tokens.new.left }
    ensures line { tokens.new.line ≡ tokens.old.line }
{
    let mut args = ArgList::new(alloc);
    args.push(arg(alloc, tokens)?)?;
    args.push(last_behind_comma(alloc, tokens, second)?)?;
    Ok(args)
}

// The third operand, or the line's end.
#[tactic(auto, unfolding(crate::specs::Operands::third_at))]
fn third(alloc: Global, tokens: &mut Tokens<'_>) -> Result<Option<Arg>, Stop>
    ensures gives { GivesSame result (third_at tokens.old.left) tokens.new.left }
    ensures line { tokens.new.line ≡ tokens.old.line }
{
    match tokens.peek() {
        Some(Token::EndOfLine) => {
            tokens.advance();
            Ok(None)
        }
        Some(Token::Mark(b',')) => {
            tokens.advance();
            Ok(Some(last(alloc, tokens, Role::Any)?))
        }
        _ => Err(Stop::Refused),
    }
}

// One to three operands.
#[tactic(auto, unfolding(crate::specs::Operands::second_at))]
fn up_to_three(alloc: Global, tokens: &mut Tokens<'_>) -> Result<ArgList, Stop>
    ensures gives { GivesSame result (up_to_three_at tokens.old.left) tokens.new.left }
    ensures line { tokens.new.line ≡ tokens.old.line }
{
    let mut args = ArgList::new(alloc);
    args.push(arg(alloc, tokens)?)?;
    match tokens.peek() {
        Some(Token::EndOfLine) => {
            tokens.advance();
            Ok(args)
        }
        Some(Token::Mark(b',')) => {
            tokens.advance();
            args.push(arg(alloc, tokens)?)?;
            match third(alloc, tokens)? {
                None => Ok(args),
                Some(third) => {
                    args.push(third)?;
                    Ok(args)
                }
            }
        }
        _ => Err(Stop::Refused),
    }
}

// The operands of a mnemonic, and the line's end.
#[tactic(auto, unfolding(crate::specs::Operands::args_at))]
fn args(alloc: Global, tokens: &mut Tokens<'_>, operands: Operands) -> Result<ArgList, Stop>
    ensures gives { GivesSame result (args_at operands tokens.old.left) tokens.new.left }
    ensures line { tokens.new.line ≡ tokens.old.line }
{
    match operands {
        Operands::Zero => {
            line_end(tokens)?;
            Ok(ArgList::new(alloc))
        }
        Operands::One => alone(alloc, tokens, Role::Any),
        Operands::Two => pair(alloc, tokens, Role::Any),
        Operands::UpToThree => up_to_three(alloc, tokens),
        Operands::Shifted => pair(alloc, tokens, Role::Count),
        Operands::Called => alone(alloc, tokens, Role::Called),
        Operands::Target => alone(alloc, tokens, Role::Target),
    }
}

/// An instruction, behind its mnemonic.
#[tactic(auto, unfolding(crate::specs::Operands::inst_line_at))]
pub fn inst(alloc: Global, tokens: &mut Tokens<'_>, mnemonic: Mnemonic) -> Result<Form, Stop>
    ensures gives { GivesSame result (inst_line_at mnemonic tokens.old.left) tokens.new.left }
    ensures line { tokens.new.line ≡ tokens.old.line }
{
    let args = args(alloc, tokens, operands_of(mnemonic))?;
    Ok(Form::Inst { mnemonic, args })
}
