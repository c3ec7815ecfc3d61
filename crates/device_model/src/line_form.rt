// The form of one line of an event file.
ghost use Rattle.std.specs.Prelude.{◌≡◌, ◌<◌, ℕ, List, MatchOption};
ghost use Rattle.std.specs.Char.{is_ascii_digit};
ghost use Rattle.std.specs.List.{prefix_len};
ghost use Rattle.device_model.specs.EventFile.{LineForm, value, HasForm};
ghost use Rattle.device_model.specs.EventFile as spec;
ghost use Rattle.device_model.specs.EventReading.{capped, TakesNumber, TakesForm};

/// What a line says. A number that is too large for 32 bits is held as the greatest.
#[derive(Clone, Copy, Debug, PartialEq, Eq, Drop)]
pub(crate) enum Form {
    /// Nothing.
    Skipped,
    /// `TURN tick`.
    Tick(u32),
    /// `TURN key CODE`.
    Key(u32, u32),
}

const TICK: &[u8] = b" tick";

const KEY: &[u8] = b" key ";

// The number that decimal digits spell.
fn value_of(digits: &[u8]) -> u32
    ensures { result ≡ capped (value digits.now) }
{
    let mut value = 0u32;
    for digit in digits {
        value = value
            .saturating_mul(10)
            .saturating_add(u32::from(digit.saturating_sub(b'0')));
    }
    value
}

// How many digits stand at the front.
fn count_digits(text: &[u8]) -> usize
    ensures { result ≡ prefix_len is_ascii_digit text.now }
{
    for (count, byte) in text.iter().enumerate() {
        if !byte.is_ascii_digit() {
            return count;
        }
    }
    text.len()
}

// The number at the front, and what follows.
fn number_at_front(text: &[u8]) -> Option<(u32, &[u8])>
    ensures { MatchOption result (prefix_len is_ascii_digit text.now ≡ 0) (λ n. TakesNumber text.now n.0 n.1.now) }
{
    let count = count_digits(text);
    if count == 0 {
        return None;
    }
    let (digits, rest) = text.split_at(count);
    Some((value_of(digits), rest))
}

fn is_skipped(line: &[u8]) -> bool
    ensures { result ≡ spec.is_skipped line.now }
{
    matches!(line, [] | [b'#', ..])
}

// The form of a line, if it has one.
pub(crate) fn form_of(line: &[u8]) -> Option<Form>
    ensures { MatchOption result ((form : LineForm) → HasForm line.now form → ⊥) (λ form. TakesForm line.now form) }
{
    if is_skipped(line) {
        return Some(Form::Skipped);
    }
    let (turn, rest) = number_at_front(line)?;
    if rest == TICK {
        return Some(Form::Tick(turn));
    }
    let (code, after) = number_at_front(rest.strip_prefix(KEY)?)?;
    if after.is_empty() {
        Some(Form::Key(turn, code))
    } else {
        None
    }
}
