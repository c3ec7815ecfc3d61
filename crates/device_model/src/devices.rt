// The devices and their calls.
ghost use Rattle.std.specs.Prelude.{◌≡◌, ◌≢◌, ◌↔◌, ◌<◌, ℕ, [], ◌∷◌, Some, None, IfOk, IfNone, IsTrue, IsFalse, is_some, nat_lt, if◌then◌else◌};
ghost use Rattle.device_model.specs.LineBits.{is_set};
ghost use Rattle.device_model.specs.History.{History, Wrote, Drew, InService, cell, port_gives, after_in, has_in, has_out};
ghost use Rattle.device_model.specs.Devices.{StandsFor, IsGrant, NoneInService, SomeInService, after_grant, item_of};

use crate::interrupt_lines::{KEYBOARD_BIT, TIMER_BIT, next_of, without_lowest};
use crate::screen::{BLANK, CELLS};
use crate::{Event, EventKind, Line};
use circular_buffer::HeapCircularBuffer;
use no_memory::NoMemory;
use std::alloc::Global;
use std::marker::Model;

const CONTROLLER_COMMAND: u16 = 0x20;

const CONTROLLER_MASK: u16 = 0x21;

const TIMER_COUNT: u16 = 0x40;

const TIMER_COMMAND: u16 = 0x43;

const KEYBOARD_CODE: u16 = 0x60;

const KEYBOARD_STATUS: u16 = 0x64;

const END_OF_INTERRUPT: u8 = 0x20;

const SET_COUNT: u8 = 0x34;

// How many codes the keyboard's queue holds.
const QUEUE_ROOM: usize = 16;

/// Screen, interrupt controller, timer and keyboard. A contract speaks of each history that they stand for.
#[derive(Drop)]
pub struct Devices {
    /// The lines that are requested, as bits.
    requests: u8,
    /// The lines that are in service, as bits.
    service: u8,
    /// The lines that are masked, as bits.
    mask: u8,
    /// Whether a whole count was ever set, so that ticks are accepted.
    count_set: bool,
    /// How many bytes the last timer command still awaits.
    awaited: u8,
    /// The codes that wait, the oldest first.
    keyboard: HeapCircularBuffer<u8>,
    /// The cells of the screen, row by row.
    cells: Vec<u16>,
}

impl Model for Devices {
    ghost use Rattle.std.specs.Prelude.{◌≡◌, length};
    ghost use Rattle.device_model.specs.declared.screen.TheConstants.{CELLS};
    ghost use Rattle.device_model.specs.Devices.{DevicesView};

    ghost Value = { DevicesView };

    ghost view = { λ d. record {
      requests = d.requests;
      service = d.service;
      mask = d.mask;
      count_set = d.count_set;
      awaited = d.awaited;
      waiting = d.keyboard.items;
      cells = d.cells.items;
    } };

    ghost invariant = { λ d. (d.keyboard.capacity ≡ 16) × (length d.cells.items ≡ CELLS) };
}

impl Devices {
    /// Devices to which nothing happened yet. All the room that they will need is made here.
    pub fn new(alloc: Global) -> Result<Devices, NoMemory>
        ensures { IfOk result (λ d. StandsFor d []) }
    {
        let keyboard = HeapCircularBuffer::with_capacity(alloc, QUEUE_ROOM)?;
        let cells = vec![in alloc; BLANK; CELLS]?;
        Ok(Devices {
            requests: 0,
            service: 0,
            mask: 0,
            count_set: false,
            awaited: 0,
            keyboard,
            cells,
        })
    }

    /// An event enters: a tick requests line 0 once a count was set, and a code that finds room requests line 1. What
    /// is not accepted is dropped.
    pub fn due(&mut self, event: Event)
        ensures { (h : History) → StandsFor self.old h → StandsFor self.new (item_of event.kind ∷ h) }
    {
        match event.kind {
            EventKind::Tick => {
                if self.count_set {
                    self.requests |= TIMER_BIT;
                }
            }
            EventKind::Key(code) => {
                if self.keyboard.try_push_back(code).is_ok() {
                    self.requests |= KEYBOARD_BIT;
                }
            }
        }
    }

    /// Grants the line that can be granted. `None` exactly where there is none; then nothing changes.
    pub fn grant(&mut self) -> Option<Line>
        ensures line { (h : History) → StandsFor self.old h → IsGrant result h }
        ensures after { (h : History) → StandsFor self.old h → StandsFor self.new (after_grant result h) }
        ensures none { IfNone result (self.new ≡ self.old) }
    {
        let line = next_of(self.requests, self.service, self.mask)?;
        self.requests &= !(1 << line.0);
        self.service |= 1 << line.0;
        Some(line)
    }

    /// Reads a port: the mask at `0x21`, the oldest waiting code at `0x60`, which takes it out, and at `0x64` whether a
    /// code waits. `None` exactly at any other port; then nothing changes.
    pub fn port_in(&mut self, port: u16) -> Option<u8>
        ensures within { is_some result ≡ has_in port }
        ensures byte { (h : History) → StandsFor self.old h → result ≡ port_gives port h }
        ensures after { (h : History) → StandsFor self.old h → StandsFor self.new (after_in port h) }
        ensures none { IfNone result (self.new ≡ self.old) }
    {
        match port {
            CONTROLLER_MASK => Some(self.mask),
            KEYBOARD_CODE => Some(self.keyboard.pop_front().unwrap_or(0)),
            KEYBOARD_STATUS => Some(if self.keyboard.is_empty() { 0 } else { 1 }),
            _ => None,
        }
    }

    /// Writes a byte to a port: `0x20` ends a service, `0x21` sets the mask, `0x43` begins a count of the timer, and
    /// `0x40` takes its bytes. False exactly at any other port; then nothing changes.
    pub fn port_out(&mut self, port: u16, byte: u8) -> bool
        ensures out { result ≡ has_out port }
        ensures after { (h : History) → StandsFor self.old h → IsTrue result → StandsFor self.new (Wrote port byte ∷ h) }
        ensures none { IsFalse result → self.new ≡ self.old }
    {
        match port {
            CONTROLLER_COMMAND => {
                if byte == END_OF_INTERRUPT {
                    self.service = without_lowest(self.service);
                }
            }
            CONTROLLER_MASK => self.mask = byte,
            TIMER_COUNT => {
                self.count_set |= self.awaited == 1;
                self.awaited = self.awaited.saturating_sub(1);
            }
            TIMER_COMMAND => {
                if byte == SET_COUNT {
                    self.awaited = 2;
                }
            }
            _ => return false,
        }
        true
    }

    /// The in-service bits: bit n is line n.
    pub fn in_service(&self) -> u8
        ensures bits { (h : History) → StandsFor self.now h
            → (line : ℕ) → line < 8 → IsTrue (is_set result line) ↔ InService line h }
        ensures none { (h : History) → StandsFor self.now h → result ≡ 0 → NoneInService h }
        ensures some { (h : History) → StandsFor self.now h → result ≢ 0 → SomeInService h }
    {
        self.service
    }

    /// A cell of the screen, `character + 256 * attribute`, at `80 * row + column`. `None` exactly from `CELLS` on.
    pub fn cell(&self, position: u32) -> Option<u16>
        ensures within { is_some result ≡ nat_lt position CELLS }
        ensures value { (h : History) → StandsFor self.now h
            → result ≡ (if nat_lt position CELLS then Some (cell position h) else None) }
    {
        self.cells.get(position as usize).copied()
    }

    /// Writes a cell of the screen. False exactly from `CELLS` on; then nothing changes.
    pub fn set_cell(&mut self, position: u32, cell: u16) -> bool
        ensures within { result ≡ nat_lt position CELLS }
        ensures after { (h : History) → StandsFor self.old h → IsTrue result → StandsFor self.new (Drew position cell ∷ h) }
        ensures none { IsFalse result → self.new ≡ self.old }
    {
        let at = position as usize;
        if at >= CELLS {
            return false;
        }
        self.cells[at] = cell;
        true
    }
}

/// Devices that stand for one history are alike, whatever calls led to it.
pub fn one_state(first: &Devices, second: &Devices)
    ensures { (h : History) → StandsFor first.now h → StandsFor second.now h → first.now ≡ second.now }
{
    // A look at each set of lines brings that it is a byte.
    let _requests = first.requests;
    let _service = first.service;
    let _other_requests = second.requests;
    let _other_service = second.service;
}
