// What begins at a place of a line.
ghost use Rattle.std.specs.Prelude.{◌≡◌, slice_index_or, ◌≤◌, ◌<◌, length, drop, take};
ghost use Rattle.std.specs.List.{take_while};
ghost use Rattle.text_tokens.specs.Bytes.{is_name_byte};
ghost use Rattle.text_tokens.specs.Token.{seen};
ghost use Rattle.text_tokens.specs.Pieces.{token_of, glues, behind_value, behind_word, behind_mark, piece_at, piece_in, IsPiece};

use crate::bytes::{allowed, blank, digit, letter, mark_byte, name_byte};
use crate::numbers::{byte_or_zero, signed_token, unsigned_at};
use crate::token::Token;
use crate::words::{Word, word_at};

/// What decides how a byte is read.
#[derive(Clone, Copy, Debug, PartialEq, Eq, Drop)]
pub enum Mode {
    /// Outside a memory operand.
    Line,
    /// Behind the colon of a label, where brackets hold slots.
    Label,
    /// In a memory operand.
    Inside,
    /// In a memory operand, behind a name, a register or a number.
    Behind,
    Comment,
}

/// What stands at a place: a token or nothing, the bytes behind the first, and how to go on.
#[derive(Clone, Copy, Debug, Drop)]
pub struct Piece<'a> {
    pub token: Option<Token<'a>>,
    pub more: usize,
    pub mode: Mode,
}

// How many bytes of a name stand at the front.
fn name_length(bytes: &[u8]) -> usize
    ensures count { result ≡ length (take_while is_name_byte bytes.now) }
    ensures within { result ≤ length bytes.now }
{
    bytes.iter().take_while(|byte| name_byte(**byte)).count()
}

// The bytes of a name at the front.
#[tactic(auto, using(crate::proofs::Fronts::take_front))]
fn name_front(bytes: &[u8]) -> &[u8]
    ensures front { result.now ≡ take_while is_name_byte bytes.now }
    ensures within { length result.now ≤ length bytes.now }
{
    &bytes[..name_length(bytes)]
}

// The token of a word.
fn word_token(letters: &[u8]) -> Token<'_>
    ensures { seen result ≡ token_of letters.now }
{
    match word_at(letters) {
        Some(Word::Key(keyword)) => Token::Key(keyword),
        Some(Word::Register(reg)) => Token::Register(reg),
        Some(Word::Mnemonic(mnemonic)) => Token::Mnemonic(mnemonic),
        None => Token::Name(letters),
    }
}

// Whether a `-` here begins a number.
fn glued(mode: Mode, bytes: &[u8]) -> bool
    ensures { result ≡ glues mode bytes.now }
{
    match mode {
        Mode::Behind => false,
        _ => digit(byte_or_zero(bytes, 1)),
    }
}

// How to go on behind a number or a name.
fn behind_value(mode: Mode) -> Mode
    ensures { result ≡ behind_value mode }
{
    match mode {
        Mode::Inside => Mode::Behind,
        _ => mode,
    }
}

// How to go on behind letters: a name and a register are values, and other words are not.
fn behind_word(token: Token<'_>, mode: Mode) -> Mode
    ensures { result ≡ behind_word (seen token.entry) mode }
{
    match token {
        Token::Key(_) | Token::Mnemonic(_) => match mode {
            Mode::Behind => Mode::Inside,
            _ => mode,
        },
        _ => behind_value(mode),
    }
}

// How to go on behind a mark.
fn behind_mark(byte: u8, mode: Mode) -> Mode
    ensures { result ≡ behind_mark byte mode }
{
    match mode {
        Mode::Line => {
            if byte == b':' {
                Mode::Label
            } else if byte == b'[' {
                Mode::Inside
            } else {
                Mode::Line
            }
        }
        Mode::Inside => {
            if byte == b']' {
                Mode::Line
            } else {
                Mode::Inside
            }
        }
        Mode::Behind => {
            if byte == b']' {
                Mode::Line
            } else {
                Mode::Inside
            }
        }
        Mode::Label => Mode::Label,
        Mode::Comment => Mode::Comment,
    }
}

// What begins with the first of these bytes, outside a comment.
#[tactic(auto, unfolding(crate::specs::Pieces::piece_in))]
fn piece_outside(mode: Mode, bytes: &[u8]) -> Piece<'_>
    requires { 0 < length bytes.now }
    ensures piece { IsPiece result (piece_in mode (slice_index_or bytes.now 0 0) bytes.now) }
    ensures within { result.more < length bytes.now }
{
    let first = bytes[0];
    if blank(first) {
        Piece {
            token: None,
            more: 0,
            mode,
        }
    } else if first == b';' {
        Piece {
            token: None,
            more: 0,
            mode: Mode::Comment,
        }
    } else if letter(first) {
        let letters = name_front(bytes);
        let token = word_token(letters);
        Piece {
            token: Some(token),
            more: letters.len().saturating_sub(1),
            mode: behind_word(token, mode),
        }
    } else if digit(first) {
        let (count, value) = unsigned_at(bytes);
        Piece {
            token: Some(signed_token(false, value)),
            more: count.saturating_sub(1),
            mode: behind_value(mode),
        }
    } else if first == b'-' && glued(mode, bytes) {
        let (_, digits) = bytes.split_at(1);
        let (count, value) = unsigned_at(digits);
        Piece {
            token: Some(signed_token(true, value)),
            more: count,
            mode: behind_value(mode),
        }
    } else if mark_byte(first) {
        Piece {
            token: Some(Token::Mark(first)),
            more: 0,
            mode: behind_mark(first, mode),
        }
    } else {
        let code = if allowed(first) { 3 } else { 1 };
        Piece {
            token: Some(Token::Bad(code)),
            more: 0,
            mode,
        }
    }
}

/// What begins with the first of these bytes.
#[tactic(auto, unfolding(crate::specs::Pieces::piece_at))]
pub fn piece_here(mode: Mode, bytes: &[u8]) -> Piece<'_>
    requires { 0 < length bytes.now }
    ensures piece { IsPiece result (piece_at mode (slice_index_or bytes.now 0 0) bytes.now) }
    ensures within { result.more < length bytes.now }
{
    match mode {
        Mode::Comment => Piece {
            token: if allowed(bytes[0]) {
                None
            } else {
                Some(Token::Bad(1))
            },
            more: 0,
            mode,
        },
        _ => piece_outside(mode, bytes),
    }
}
