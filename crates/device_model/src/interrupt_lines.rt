// Interrupt lines as bits of bytes: bit n is line n.
ghost use Rattle.std.specs.Prelude.{◌≡◌, ◌<◌, ℕ, ◌&&◌, MatchOption};
ghost use Rattle.device_model.specs.LineBits.{IsNext, is_set, any_below};

/// An interrupt line, 0 to 7. Line 0 is the timer's, line 1 the keyboard's.
#[derive(Clone, Copy, Debug, PartialEq, Eq, Drop)]
pub struct Line(pub u8);

pub(crate) const TIMER_BIT: u8 = 1 << 0;

pub(crate) const KEYBOARD_BIT: u8 = 1 << 1;

// The line that can be granted.
pub(crate) fn next_of(requests: u8, service: u8, mask: u8) -> Option<Line>
    ensures { MatchOption result ((line : ℕ) → IsNext requests service mask line → ⊥)
        (λ line. IsNext requests service mask line.0) }
{
    let lowest = (requests & !mask).trailing_zeros();
    if lowest < 8 && lowest < service.trailing_zeros() {
        Some(Line(lowest as u8))
    } else {
        None
    }
}

// The lines in service without the lowest.
pub(crate) fn without_lowest(service: u8) -> u8
    ensures { (line : ℕ) → line < 8 → is_set result line ≡ (is_set service line && any_below (is_set service) line) }
{
    let lowest = service.trailing_zeros();
    if lowest < 8 {
        service & !(1 << lowest)
    } else {
        0
    }
}
