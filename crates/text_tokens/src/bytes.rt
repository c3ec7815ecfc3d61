// What a byte may be part of.
ghost use Rattle.std.specs.Prelude.{◌≡◌};
ghost use Rattle.std.specs.Char.{is_ascii_digit};
ghost use Rattle.text_tokens.specs.Bytes.{is_blank, is_letter, is_hex_digit, is_name_byte, is_mark_byte, is_allowed};

/// A space or a tab.
pub fn blank(byte: u8) -> bool
    ensures { result ≡ is_blank byte }
{
    byte == b' ' || byte == b'\t'
}

pub fn letter(byte: u8) -> bool
    ensures { result ≡ is_letter byte }
{
    b'a' <= byte && byte <= b'z' || b'A' <= byte && byte <= b'Z' || byte == b'_'
}

pub fn digit(byte: u8) -> bool
    ensures { result ≡ is_ascii_digit byte }
{
    byte.is_ascii_digit()
}

pub fn hex_digit(byte: u8) -> bool
    ensures { result ≡ is_hex_digit byte }
{
    digit(byte) || b'a' <= byte && byte <= b'f' || b'A' <= byte && byte <= b'F'
}

pub fn name_byte(byte: u8) -> bool
    ensures { result ≡ is_name_byte byte }
{
    letter(byte) || digit(byte)
}

pub fn mark_byte(byte: u8) -> bool
    ensures { result ≡ is_mark_byte byte }
{
    byte == b':'
        || byte == b','
        || byte == b'['
        || byte == b']'
        || byte == b'('
        || byte == b')'
        || byte == b'{'
        || byte == b'}'
        || byte == b'+'
        || byte == b'-'
        || byte == b'*'
}

/// A byte that a line may have.
pub fn allowed(byte: u8) -> bool
    ensures { result ≡ is_allowed byte }
{
    b' ' <= byte && byte <= b'~' || byte == b'\t'
}
