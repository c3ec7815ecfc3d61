// Event files, read line by line from front to back.
ghost use Rattle.std.specs.Prelude.{◌≡◌, ◌≢◌, ◌≤◌, ◌<◌, ℕ, List, ◌∷◌, ◌==◌, ◌↔◌, ◌⊎◌, length, MatchResult, IfOk, IfErr, IsTrue};
ghost use Rattle.std.specs.List.{position_or_len};
ghost use Rattle.device_model.specs.EventFile.{lines_of, InRange, last_turn, EventsOf, InOrder, IsFirstFault};
ghost use Rattle.device_model.specs.EventFile as spec;
ghost use Rattle.device_model.specs.EventReading.{said, CodeFits, LineGives};
ghost use Rattle.device_model.specs.declared.events.Event.{Event};
ghost use Rattle.device_model.specs.declared.events.EventFault.{EventFault};

use crate::events::{LAST_TURN, MOST_EVENTS};
use crate::line_form::{Form, form_of};
use crate::{Event, EventFault, EventKind};
use std::alloc::Global;

const LINE_FEED: u8 = b'\n';

// How many bytes stand before the first LF.
fn line_length(bytes: &[u8]) -> usize
    ensures { result ≡ position_or_len (λ byte. byte == 10) bytes.now }
{
    for (length, byte) in bytes.iter().enumerate() {
        if *byte == LINE_FEED {
            return length;
        }
    }
    bytes.len()
}

// The first line, and the bytes after its LF.
fn first_line(bytes: &[u8]) -> (&[u8], &[u8])
    requires { 0 < length bytes.now }
    ensures lines { lines_of bytes.now ≡ result.0.now ∷ lines_of result.1.now }
    ensures shorter { length result.1.now < length bytes.now }
{
    let (line, rest) = bytes.split_at(line_length(bytes));
    match rest {
        [] => (line, rest),
        [_, after @ ..] => (line, after),
    }
}

fn is_turn(turn: u32, last: u32) -> bool
    ensures { IsTrue result ↔ ((1 ≤ turn) × (turn ≤ LAST_TURN) × (last ≤ turn)) }
{
    (1..=LAST_TURN).contains(&turn) && last <= turn
}

// Whether the numbers of a form are in range after an event of the turn `last`.
fn is_in_range(form: Form, last: u32) -> bool
    ensures range { (before : List Event) → last_turn before ≡ last → IsTrue result ↔ InRange before (said form) }
    ensures code { IsTrue result → CodeFits form }
{
    match form {
        Form::Skipped => true,
        Form::Tick(turn) => is_turn(turn, last),
        Form::Key(turn, code) => is_turn(turn, last) && code <= 255,
    }
}

// The event that a form brings.
fn event_in(form: Form) -> Option<Event>
    requires { CodeFits form }
    ensures { result ≡ spec.event_in (said form) }
{
    match form {
        Form::Skipped => None,
        Form::Tick(turn) => Some(Event {
            turn,
            kind: EventKind::Tick,
        }),
        Form::Key(turn, code) => Some(Event {
            turn,
            kind: EventKind::Key(code as u8),
        }),
    }
}

// What a line brings, after so many events of which the last is due in the turn `last`.
fn read_line(line: &[u8], number: u32, last: u32, count: usize) -> Result<Option<Event>, EventFault>
    ensures { (before : List Event) → last_turn before ≡ last → length before ≡ count
        → LineGives before line.now number result }
{
    let Some(form) = form_of(line) else {
        return Err(EventFault::Syntax { line: number });
    };
    if !is_in_range(form, last) {
        return Err(EventFault::Range { line: number });
    }
    let event = event_in(form);
    if event.is_some() && count >= MOST_EVENTS {
        return Err(EventFault::TooMany { line: number });
    }
    Ok(event)
}

/// Reads an event file: its events, in the order of its lines. A fault names the first line that breaks a rule, and
/// want of memory may come at any line; then what was read is given up. The file has at most 4294967294 bytes, so that each
/// line has a number of 32 bits.
pub fn read_events(alloc: Global, bytes: &[u8]) -> Result<Vec<Event>, EventFault>
    requires { length bytes.now ≤ 4294967294 }
    // What is read is the list of the file.
    ensures found { IfOk result (λ events. EventsOf bytes.now events.items) }
    // Its turns are in range and do not fall.
    ensures in_order { IfOk result (λ events. InOrder events.items) }
    // A fault is that of the first line that breaks a rule.
    ensures fault { IfErr result (IsFirstFault bytes.now) }

    // Where the bytes have a list it is read, and where they have a first fault it is named, unless memory runs out.
    ensures only { (events : List Event) → EventsOf bytes.now events
        → MatchResult result (λ read. read.items ≡ events) (λ given. given ≡ EventFault.NoMemory) }
    ensures only_fault { (fault : EventFault) → IsFirstFault bytes.now fault → fault ≢ EventFault.NoMemory
        → MatchResult result (λ read. ⊥) (λ given. (given ≡ fault) ⊎ (given ≡ EventFault.NoMemory)) }
{
    let mut events = Vec::new(alloc);
    let mut rest = bytes;
    let mut number = 0u32;
    let mut last_turn = 0u32;
    while !rest.is_empty() {
        let (line, after) = first_line(rest);
        number += 1;
        match read_line(line, number, last_turn, events.len()) {
            Err(fault) => return Err(fault),
            Ok(None) => {}
            Ok(Some(event)) => {
                last_turn = event.turn;
                if events.push(event).is_err() {
                    return Err(EventFault::NoMemory);
                }
            }
        }
        rest = after;
    }
    Ok(events)
}
