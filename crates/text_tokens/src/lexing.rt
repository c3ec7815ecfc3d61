// The tokens of a line, one behind the other.
ghost use Rattle.std.specs.Prelude.{◌≡◌, IfSome, ◌∷◌, [], false, ◌+◌, ◌≤◌, ◌<◌, ◌^◌, length, drop, MatchOption, Some};
ghost use Rattle.text_tokens.specs.Token.{seen, tail_tokens};
ghost use Rattle.text_tokens.specs.Tokens.{tokens_left};
ghost use Rattle.text_tokens.specs.Lexing.{tokens_from, line_tokens, placed, end_at_column};

use crate::pieces::{Mode, piece_here};
use crate::token::Token;

/// A token, its column, and where the rest of the line begins.
#[derive(Clone, Copy, Debug, Drop)]
pub struct Found<'a> {
    pub token: Token<'a>,
    pub column: usize,
    pub at: usize,
    pub mode: Mode,
    /// The line ends here.
    pub ended: bool,
}

/// The first token from a place of a line on. Without one the line ends.
pub fn next_token(line: &[u8], from: usize, mode: Mode) -> Option<Found<'_>>
    requires { from ≤ length line.now }
    ensures { MatchOption result
        (tokens_from 0 mode (from + 1) (drop from line.now) ≡ end_at_column (length line.now + 1) ∷ [])
        (λ f. (tokens_from 0 mode (from + 1) (drop from line.now)
        ≡ placed f.column (seen f.token) ∷ tokens_from 0 f.mode (f.at + 1) (drop f.at line.now)) × (f.at ≤ length line.now) × (f.ended ≡ false)) }
{
    let mut mode = mode;
    for at in from..line.len() {
        let (_, rest) = line.split_at(at);
        let piece = piece_here(mode, rest);
        mode = piece.mode;
        match piece.token {
            Some(token) => {
                return Some(Found {
                    token,
                    column: at + 1,
                    at: at + 1 + piece.more,
                    mode,
                    ended: false,
                });
            }
            None => {}
        }
    }
    None
}

// The first token from a place of a line on, or the line's end.
fn found_from(line: &[u8], from: usize, mode: Mode) -> Found<'_>
    requires in_line { from ≤ length line.now }
    requires small { length line.now < 2 ^ 32 }
    ensures tokens { tokens_left line.now (Some result) ≡ tokens_from 0 mode (from + 1) (drop from line.now) }
    ensures within { result.at ≤ length line.now }
{
    match next_token(line, from, mode) {
        Some(found) => found,
        None => Found {
            token: Token::EndOfLine,
            column: line.len() + 1,
            at: line.len(),
            mode,
            ended: true,
        },
    }
}

/// The first token of a line.
pub fn first_of(line: &[u8]) -> Found<'_>
    requires { length line.now < 2 ^ 32 }
    ensures tokens { tokens_left line.now (Some result) ≡ line_tokens line.now }
    ensures within { result.at ≤ length line.now }
{
    found_from(line, 0, Mode::Line)
}

/// The token behind one.
pub fn following<'a>(line: &'a [u8], here: Option<Found<'a>>) -> Option<Found<'a>>
    requires in_line { IfSome here (λ f. f.at ≤ length line.now) }
    requires small { length line.now < 2 ^ 32 }
    ensures tokens { tokens_left line.now result ≡ tail_tokens (tokens_left line.now here.entry) }
    ensures within { IfSome result (λ f. f.at ≤ length line.now) }
{
    match here {
        None => None,
        Some(found) => {
            if found.ended {
                None
            } else {
                Some(found_from(line, found.at, found.mode))
            }
        }
    }
}
