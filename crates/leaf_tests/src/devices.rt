// Event files, and devices under events.
ghost use Rattle.std.specs.Prelude.{◌≤◌, length};

use device_model::{Devices, Event, EventFault, EventKind, Line, read_events};
use std::test::Fail;

// The last event of a file, or the file's fault.
fn last(rt: &HostRuntime, file: &[u8]) -> Result<Option<Event>, EventFault>
    requires { length file.now ≤ 4294967294 }
{
    Ok(read_events(rt.alloc(), file)?.last().copied())
}

const fn tick(turn: u32) -> Event {
    Event {
        turn,
        kind: EventKind::Tick,
    }
}

const fn key(turn: u32, code: u8) -> Event {
    Event {
        turn,
        kind: EventKind::Key(code),
    }
}

#[test]
fn event_files_and_their_faults(rt: HostRuntime) {
    let files: [(&[u8], Result<Option<Event>, EventFault>); 10] = [
        (b"", Ok(None)),
        (b"7 tick", Ok(Some(tick(7)))),
        (b"\n3 tick\n#\n3 key 255\n", Ok(Some(key(3, 255)))),
        (b"007 key 030\n", Ok(Some(key(7, 30)))),
        (b"7  tick", Err(EventFault::Syntax { line: 1 })),
        (b"1 tick\n2 keys 3\n", Err(EventFault::Syntax { line: 2 })),
        (b"5 tick\r\n", Err(EventFault::Syntax { line: 1 })),
        (b"50000001 tick", Err(EventFault::Range { line: 1 })),
        (b"7 key 256", Err(EventFault::Range { line: 1 })),
        (
            b"5 tick\n# back\n\n4 tick\n7 tack\n",
            Err(EventFault::Range { line: 4 }),
        ),
    ];
    for (file, wanted) in files {
        assert!(rt; file.len() <= 100);
        assert!(rt; last(&rt, file) == wanted, "{file:?}");
    }
}

// The count of the timer is 0x34 to port 0x43 and two bytes to port 0x40; port 0x20 has the end of an interrupt.
#[test]
fn lines_of_one_turn_are_granted_one_after_another(rt: HostRuntime) -> Result<(), Fail> {
    let mut devices = Devices::new(rt.alloc())?;
    devices.due(tick(1));
    assert!(rt; devices.grant() == None);
    for (port, byte) in [(0x43, 0x34), (0x40, 0), (0x40, 0)] {
        assert!(rt; devices.port_out(port, byte));
    }
    devices.due(key(1, 30));
    devices.due(tick(1));
    assert!(rt; devices.grant() == Some(Line(0)));
    assert!(rt; devices.grant() == None);
    assert!(rt; devices.port_out(0x20, 0x20));
    assert!(rt; devices.grant() == Some(Line(1)));
    assert!(rt; devices.in_service() == 0b10);
    Ok(())
}

#[test]
fn sixteen_codes_wait(rt: HostRuntime) -> Result<(), Fail> {
    let mut devices = Devices::new(rt.alloc())?;
    for code in 1..18u8 {
        devices.due(key(1, code));
    }
    for code in 1..17u8 {
        assert!(rt; devices.port_in(0x60) == Some(code));
    }
    assert!(rt; devices.port_in(0x64) == Some(0));
    Ok(())
}

#[test]
fn cells_of_the_screen(rt: HostRuntime) -> Result<(), Fail> {
    let mut devices = Devices::new(rt.alloc())?;
    assert!(rt; devices.cell(1999) == Some(0x0720));
    assert!(rt; devices.set_cell(1999, 0x0741));
    assert!(rt; devices.cell(1999) == Some(0x0741));
    assert!(rt; !devices.set_cell(2000, 0x0741));
    Ok(())
}
