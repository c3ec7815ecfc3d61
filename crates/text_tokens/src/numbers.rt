// Numbers at the front of bytes.
ghost use Rattle.std.specs.Prelude.{◌≡◌, ℕ, ◌⊎◌, IsTrue, slice_index_or, ◌+◌, ◌≤◌, ◌<◌, ◌^◌, length, drop, take, min};
ghost use Rattle.std.specs.List.{take_while};
ghost use Rattle.std.specs.Char.{is_ascii_digit};
ghost use Rattle.text_tokens.specs.Bytes.{is_hex_digit, digit_of};
ghost use Rattle.text_tokens.specs.Token.{seen};
ghost use Rattle.text_tokens.specs.Numbers.{digits_value, unsigned, is_hex_start, number_token};

use crate::bytes::{digit, hex_digit};
use crate::token::Token;

// The value of a digit in either base.
fn digit_value(byte: u8) -> u64
    ensures value { result ≡ digit_of byte }
    ensures small { result < 256 }
{
    if byte >= b'a' {
        byte as u64 - 87
    } else if byte >= b'A' {
        byte as u64 - 55
    } else if byte >= b'0' {
        byte as u64 - 48
    } else {
        0
    }
}

// How many digits stand at the front.
fn digits_length(bytes: &[u8]) -> usize
    ensures count { result ≡ length (take_while is_ascii_digit bytes.now) }
    ensures within { result ≤ length bytes.now }
{
    bytes.iter().take_while(|byte| digit(**byte)).count()
}

// The digits at the front.
#[tactic(auto, using(crate::proofs::Fronts::take_front))]
fn digits_front(bytes: &[u8]) -> &[u8]
    ensures front { result.now ≡ take_while is_ascii_digit bytes.now }
    ensures within { length result.now ≤ length bytes.now }
{
    &bytes[..digits_length(bytes)]
}

// How many hexadecimal digits stand at the front.
fn hex_length(bytes: &[u8]) -> usize
    ensures count { result ≡ length (take_while is_hex_digit bytes.now) }
    ensures within { result ≤ length bytes.now }
{
    bytes.iter().take_while(|byte| hex_digit(**byte)).count()
}

// The hexadecimal digits at the front.
#[tactic(auto, using(crate::proofs::Fronts::take_front))]
fn hex_front(bytes: &[u8]) -> &[u8]
    ensures front { result.now ≡ take_while is_hex_digit bytes.now }
    ensures within { length result.now ≤ length bytes.now }
{
    &bytes[..hex_length(bytes)]
}

// The value of digits, exact up to 2^32.
fn value(base: u64, digits: &[u8]) -> u64
    requires { (base ≡ 10) ⊎ (base ≡ 16) }
    ensures { min result (2 ^ 32) ≡ min (digits_value base 0 digits.now) (2 ^ 32) }
{
    let mut value = 0u64;
    for digit in digits {
        if value < 0x1_0000_0000 {
            value = value * base + digit_value(*digit);
        }
    }
    value
}

// The byte at a place, or 0 behind the end.
pub fn byte_or_zero(bytes: &[u8], at: usize) -> u8
    ensures { result ≡ slice_index_or bytes.now at 0 }
{
    if at < bytes.len() { bytes[at] } else { 0 }
}

// Whether `0x` and a hexadecimal digit stand at the front.
fn hex_start(bytes: &[u8]) -> bool
    ensures start { result ≡ is_hex_start bytes.now }
    ensures long { IsTrue result → 2 < length bytes.now }
{
    bytes.len() > 2
        && byte_or_zero(bytes, 0) == b'0'
        && byte_or_zero(bytes, 1) == b'x'
        && hex_digit(byte_or_zero(bytes, 2))
}

// A number without a sign: how many bytes it has, and its value, exact up to 2^32.
#[tactic(auto, unfolding(crate::specs::Numbers::unsigned))]
pub fn unsigned_at(bytes: &[u8]) -> (usize, u64)
    ensures bytes { result.0 ≡ (unsigned bytes.now).bytes }
    ensures value { min result.1 (2 ^ 32) ≡ min (unsigned bytes.now).value (2 ^ 32) }
    ensures within { result.0 ≤ length bytes.now }
{
    if hex_start(bytes) {
        let (_, rest) = bytes.split_at(2);
        let digits = hex_front(rest);
        (2 + digits.len(), value(16, digits))
    } else {
        let digits = digits_front(bytes);
        (digits.len(), value(10, digits))
    }
}

// A number's token.
#[tactic(auto, unfolding(crate::specs::Numbers::number_token))]
pub fn signed_token(negative: bool, value: u64) -> Token<'static>
    ensures { (v : ℕ) → min value (2 ^ 32) ≡ min v (2 ^ 32) → seen result ≡ number_token negative v }
{
    if negative {
        if value <= 2147483648 {
            Token::Number(-(value as i64))
        } else {
            Token::Bad(2)
        }
    } else if value <= 4294967295 {
        Token::Number(value as i64)
    } else {
        Token::Bad(2)
    }
}
