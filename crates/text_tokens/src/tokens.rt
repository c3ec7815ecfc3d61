// The tokens of a line, read from left to right.
ghost use Rattle.std.specs.Prelude.{List, ◌≡◌, ◌∷◌, [], ◌≤◌, ◌<◌, ◌^◌, length, IfOk};
ghost use Rattle.text_tokens.specs.Token.{PlacedLexeme, IsNextToken, tail, lexemes_of, column_of, long_name, is_long, seen};
ghost use Rattle.text_tokens.specs.Tokens.{StandsBetween, StandsSomewhere, long_with};
ghost use Rattle.text_tokens.specs.Lexing.{line_tokens};

use crate::lexing::{Found, first_of, following};
use crate::token::Token;
use std::marker::Model;

/// A place in a line: before a token, or behind the line's end.
#[derive(Drop)]
pub struct Tokens<'a> {
    line: &'a [u8],
    here: Option<Found<'a>>,
    /// The column of the first name before that is too long.
    long: Option<usize>,
}

impl<'a> Model for Tokens<'a> {
    ghost use Rattle.text_tokens.specs.Token.{TokensView};
    ghost use Rattle.text_tokens.specs.Tokens.{view_of, IsAt};

    ghost Value = { TokensView };

    ghost view = { λ t. view_of t.line.now t.here };

    ghost invariant = { λ t. IsAt t.line.now t.here t.long };
}

impl<'a> Tokens<'a> {
    /// The first token of a line. The line is without its LF.
    #[tactic(auto, unfolding(crate::specs::Tokens::view_of))]
    pub fn of(line: &'a [u8]) -> Tokens<'a>
        requires { length line.now < 2 ^ 32 }
        ensures line { result.line ≡ line_tokens line.now }
        ensures left { result.left ≡ lexemes_of (line_tokens line.now) }
    {
        let first = first_of(line);
        Tokens {
            line,
            here: Some(first),
            long: None,
        }
    }

    /// The next token. None is left behind the line's end.
    #[tactic(auto, unfolding(crate::specs::Tokens::view_of))]
    pub fn peek(&self) -> Option<Token<'a>>
        ensures { IsNextToken result self.now.left }
    {
        match &self.here {
            Some(found) => Some(found.token),
            None => None,
        }
    }

    /// The column of the next token, counted from 1, or 0 where none is left.
    pub fn column(&self) -> usize
        ensures stands { StandsSomewhere self.now }
        ensures column { (before after : List PlacedLexeme) → StandsBetween self.now before after → result ≡ column_of after }
    {
        match &self.here {
            Some(found) => found.column,
            None => 0,
        }
    }

    /// The column of the first name before the next token that is too long.
    pub fn long_name(&self) -> Option<usize>
        ensures stands { StandsSomewhere self.now }
        ensures column { (before after : List PlacedLexeme) → StandsBetween self.now before after → result ≡ long_name before }
    {
        self.long
    }

    /// Goes behind the next token.
    #[tactic(auto, unfolding(crate::specs::Tokens::view_of))]
    pub fn advance(&mut self)
        ensures left { self.new.left ≡ tail self.old.left }
        ensures line { self.new.line ≡ self.old.line }
    {
        self.long = long_with_token(self.long, self.here);
        self.here = following(self.line, self.here);
    }
}

// A name that is too long.
fn is_long(token: Token<'_>) -> bool
    ensures { result ≡ is_long (seen token.entry) }
{
    match token {
        Token::Name(letters) => letters.len() > 63,
        _ => false,
    }
}

// The first long name, with the token here.
fn long_with_token(long: Option<usize>, here: Option<Found<'_>>) -> Option<usize>
    ensures { result ≡ long_with long here.entry }
{
    match here {
        None => long,
        Some(found) => match long {
            Some(column) => Some(column),
            None => {
                if is_long(found.token) {
                    Some(found.column)
                } else {
                    None
                }
            }
        },
    }
}
