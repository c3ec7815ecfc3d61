// The events of a turn.
ghost use Rattle.std.specs.Prelude.{◌+◌};
ghost use Rattle.typed_machine.specs.Turns.{events_of};
ghost use Rattle.kernel_machine.specs.Machine.{ComesNext};
ghost use Rattle.kernel_machine.specs.Stepping.{HasCome};

use device_model::Event;
use nucleus_calls::Nucleus;

/// The events of this turn, which stand from the index on, enter the devices in their order. Answers the index of the event
/// after them.
pub(crate) fn enter_events(
    nucleus: &mut Nucleus,
    events: &[Event],
    index: usize,
    turn: u32,
) -> usize
    requires { ComesNext events.now index turn }
    ensures come { HasCome (events_of turn events.now) nucleus.old nucleus.new }
    ensures next { ComesNext events.now result (turn + 1) }
{
    let mut next = index;
    while let Some(event) = events.get(next) {
        if event.turn != turn {
            return next;
        }
        nucleus.due(*event);
        next += 1;
    }
    next
}
