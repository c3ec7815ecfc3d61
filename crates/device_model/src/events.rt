// Events, and why bytes are no event file.
use thiserror::Error;

/// The last turn in which an event may be due.
pub const LAST_TURN: u32 = 50_000_000;

/// An event file has at most so many events.
pub const MOST_EVENTS: usize = 1_000_000;

/// Something that happens in a turn.
#[derive(Clone, Copy, Debug, PartialEq, Eq, Drop)]
pub struct Event {
    /// The turn in which it is due, counted from 1.
    pub turn: u32,
    pub kind: EventKind,
}

/// What happens.
#[derive(Clone, Copy, Debug, PartialEq, Eq, Drop)]
pub enum EventKind {
    /// The timer ticks.
    Tick,
    /// The keyboard sends a code.
    Key(u8),
}

/// Why bytes are no event file. The line is the first with a fault, counted from 1; skipped lines count too.
#[derive(Clone, Copy, Debug, PartialEq, Eq, Drop, Error)]
pub enum EventFault {
    /// The line is neither skipped nor `TURN tick` nor `TURN key CODE`.
    #[error("a line has no form of an event")]
    Syntax { line: u32 },
    /// A turn outside 1 to [`LAST_TURN`], a turn below that of the event before, or a code above 255.
    #[error("a number is out of range")]
    Range { line: u32 },
    /// The line's event would be one more than [`MOST_EVENTS`].
    #[error("there are too many events")]
    TooMany { line: u32 },
    /// There was no memory for the list.
    #[error("no memory")]
    NoMemory,
}
