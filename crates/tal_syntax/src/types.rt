// Reading types.
ghost use Rattle.std.specs.Prelude.{◌≡◌};
ghost use Rattle.tal_syntax.specs.Reading.{GivesSame};
ghost use Rattle.tal_syntax.specs.Rows.{type_at, reg_type_at};

use crate::form::{RegType, TypeText};
use crate::tokens_read::{Stop, name, typed_register};
use std::alloc::Global;
use text_tokens::{Keyword, Token, Tokens};

/// A type.
#[tactic(auto, unfolding(crate::specs::Rows::type_at))]
pub fn type_text(alloc: Global, tokens: &mut Tokens<'_>) -> Result<TypeText, Stop>
    ensures gives { GivesSame result (type_at tokens.old.left) tokens.new.left }
    ensures line { tokens.new.line ≡ tokens.old.line }
{
    let Some(Token::Key(keyword)) = tokens.peek() else {
        return Err(Stop::Refused);
    };
    match keyword {
        Keyword::Num => {
            tokens.advance();
            Ok(TypeText::Num)
        }
        Keyword::Junk => {
            tokens.advance();
            Ok(TypeText::Junk)
        }
        Keyword::Ref => {
            tokens.advance();
            Ok(TypeText::Ref(name(alloc, tokens)?))
        }
        Keyword::Obj => {
            tokens.advance();
            Ok(TypeText::Obj(name(alloc, tokens)?))
        }
        Keyword::ArrRef => {
            tokens.advance();
            Ok(TypeText::ArrRef(name(alloc, tokens)?))
        }
        Keyword::Arr => {
            tokens.advance();
            Ok(TypeText::Arr(name(alloc, tokens)?))
        }
        Keyword::Fun => {
            tokens.advance();
            Ok(TypeText::Fun(name(alloc, tokens)?))
        }
        Keyword::Code => {
            tokens.advance();
            Ok(TypeText::Code(name(alloc, tokens)?))
        }
        Keyword::Tab => {
            tokens.advance();
            Ok(TypeText::Tab(name(alloc, tokens)?))
        }
        Keyword::Desc => {
            tokens.advance();
            Ok(TypeText::Desc(name(alloc, tokens)?))
        }
        _ => Err(Stop::Refused),
    }
}

/// A register with its type.
#[tactic(auto, unfolding(crate::specs::Rows::reg_type_at))]
pub fn reg_type(alloc: Global, tokens: &mut Tokens<'_>) -> Result<RegType, Stop>
    ensures gives { GivesSame result (reg_type_at tokens.old.left) tokens.new.left }
    ensures line { tokens.new.line ≡ tokens.old.line }
{
    let reg = typed_register(tokens)?;
    let ty = type_text(alloc, tokens)?;
    Ok(RegType { reg, ty })
}
