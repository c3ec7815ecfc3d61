// Digits as bytes.
ghost use Rattle.std.specs.Prelude.{◌≡◌, ◌<◌, [], ◌∷◌, slice_index};
ghost use Rattle.hex.specs.Hex.{encode_upper, upper_digits};
ghost use Rattle.hex_text.specs.Words.{word_text};

// The hexadecimal digit of a value, in capitals.
pub(crate) fn hex_digit(value: u8) -> u8
    requires { value < 16 }
    ensures digit { result ≡ slice_index upper_digits value }
    ensures ascii { result < 128 }
{
    if value < 10 {
        b'0' + value
    } else {
        b'A' + (value - 10)
    }
}

/// The two digits of a byte.
#[tactic(auto, unfolding(hex::specs::Hex::encode_with))]
pub fn byte_digits(byte: u8) -> [u8; 2]
    ensures { result ≡ encode_upper (byte ∷ []) }
{
    [hex_digit(byte / 16), hex_digit(byte % 16)]
}

/// The eight digits of a word.
#[tactic(auto, unfolding(hex::specs::Hex::encode_with))]
pub fn word_digits(word: u32) -> [u8; 8]
    ensures { result ≡ word_text word }
{
    let [first, second, third, last] = word.to_be_bytes();
    [
        hex_digit(first / 16),
        hex_digit(first % 16),
        hex_digit(second / 16),
        hex_digit(second % 16),
        hex_digit(third / 16),
        hex_digit(third % 16),
        hex_digit(last / 16),
        hex_digit(last % 16),
    ]
}
