// The devices of the machine: screen, interrupt controller, timer and keyboard, and the files that record events.
//
// `Devices` holds bytes of bits, a ring and the cells, and keeps no history. Its contracts speak of every `History`, a
// list of what happened, that the devices stand for (`specs/History.antt`, `specs/Devices.antt`): each call answers by
// it, and adds its own item. `read_events` reads an event file by `EventsOf` (`specs/EventFile.antt`). `laws` says what
// the definitions give, item by item.
#![tactic(auto)]

mod devices;
mod event_file;
mod events;
mod interrupt_lines;
pub mod laws;
mod line_form;
mod screen;

pub use devices::Devices;
pub use event_file::read_events;
pub use events::{Event, EventFault, EventKind, LAST_TURN, MOST_EVENTS};
pub use interrupt_lines::Line;
pub use screen::{BLANK, CELLS};
