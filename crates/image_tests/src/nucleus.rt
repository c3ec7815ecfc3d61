// What the Nucleus does over the test image, which has two stacks that start at the first instruction: a table of deeds, and
// what each leaves in the processor.
use crate::test_image::file;
use device_model::{Event, EventKind};
use ia32_step::Cpu;
use no_memory::NoMemory;
use nucleus_calls::{Journal, Leaving, Nucleus};
use stack_states::FlagBits;
use std::alloc::Global;
use std::test::*;
use tal_image::Image;

/// What is done.
#[derive(Clone, Copy, Drop)]
enum Deed {
    /// The running stack calls an entry, with EAX and ECX.
    Call(u32, u32, u32),
    Tick,
    Key(u8),
    /// An interrupt is taken, where one is due.
    Accept,
    /// The running application leaves.
    Leave(Leaving),
}

// The deeds in their order, with EAX, ECX, ESP and CF after each. A call comes with ECX as an argument and CF set, and leaves
// both clear; an interrupted stack has them again.
const DEEDS: [(Deed, (u32, u32, u32, bool)); 42] = [
    // On stack 0, where no other stack has started.
    (Deed::Call(10, 9, 9), (0, 0, 0x403FFC, false)),
    (Deed::Call(3, 0, 9), (1, 0, 0x403FFC, false)),
    (Deed::Call(3, 2, 9), (1, 0, 0x403FFC, false)),
    (Deed::Call(4, 0, 9), (1, 0, 0x403FFC, false)),
    (Deed::Call(4, 1, 9), (0, 0, 0x403FFC, false)),
    (Deed::Call(4, 2, 9), (4, 0, 0x403FFC, false)),
    (Deed::Call(5, 0, 9), (1, 0, 0x403FFC, false)),
    (Deed::Call(5, 1, 9), (0, 0, 0x403FFC, false)),
    (Deed::Call(5, 2, 9), (1, 0, 0x403FFC, false)),
    (Deed::Call(6, 1999, 0x10741), (0, 0, 0x403FFC, false)),
    (Deed::Call(6, 2000, 0x10741), (1, 0, 0x403FFC, false)),
    (Deed::Call(7, 9, 9), (256, 0, 0x403FFC, false)),
    (Deed::Key(30), (256, 0, 0x403FFC, false)),
    (Deed::Call(7, 9, 9), (30, 0, 0x403FFC, false)),
    (Deed::Call(8, 1, 9), (1, 0, 0x403FFC, false)),
    (Deed::Call(8, 2, 9), (0, 0, 0x403FFC, false)),
    (Deed::Call(8, 65536, 9), (0, 0, 0x403FFC, false)),
    (Deed::Call(8, 65537, 9), (1, 0, 0x403FFC, false)),
    (Deed::Call(9, 9, 9), (1, 0, 0x403FFC, false)),
    (Deed::Accept, (1, 0, 0x403FFC, false)),
    // Stack 1 starts, and stack 0 waits. The key's line interrupts it before it has a word more.
    (Deed::Call(3, 1, 9), (0, 0, 0x407FFC, false)),
    (Deed::Accept, (131073, 0, 0x403FFC, false)),
    (Deed::Call(4, 1, 9), (3, 0, 0x403FFC, false)),
    (Deed::Call(9, 9, 9), (0, 0, 0x403FFC, false)),
    (Deed::Call(3, 1, 9), (0, 0, 0x407FFC, false)),
    (Deed::Call(3, 1, 9), (1, 0, 0x407FFC, false)),
    (Deed::Call(4, 0, 9), (2, 0, 0x407FFC, false)),
    (Deed::Call(5, 0, 9), (2, 0, 0x407FFC, false)),
    (Deed::Call(10, 9, 9), (1, 0, 0x407FFC, false)),
    // It yields, is told by whom it goes on, and is interrupted by a tick.
    (Deed::Call(3, 0, 9), (65537, 0, 0x403FFC, false)),
    (Deed::Call(4, 1, 9), (2, 0, 0x403FFC, false)),
    (Deed::Call(3, 1, 9), (65536, 0, 0x407FFC, false)),
    (Deed::Tick, (65536, 0, 0x407FFC, false)),
    (Deed::Accept, (131072, 0, 0x403FFC, false)),
    (Deed::Tick, (131072, 0, 0x403FFC, false)),
    (Deed::Call(3, 1, 9), (65536, 0, 0x407FFC, false)),
    // The second tick waits while its line is in service. It faults, starts anew, and ends.
    (Deed::Accept, (65536, 0, 0x407FFC, false)),
    (
        Deed::Leave(Leaving::Fault(12)),
        (196620, 0, 0x403FFC, false),
    ),
    (Deed::Call(4, 1, 9), (0, 0, 0x403FFC, false)),
    (Deed::Call(3, 1, 9), (0, 0, 0x407FFC, false)),
    (Deed::Leave(Leaving::Ended), (262145, 0, 0x403FFC, false)),
    (Deed::Call(10, 9, 9), (0, 0, 0x403FFC, false)),
];

/// The Nucleus of the test image.
fn nucleus(alloc: Global) -> Result<Nucleus, Fail> {
    let image = Image::read(alloc, &file(alloc)?)?;
    Ok(Nucleus::new(alloc, &image)?)
}

/// An event of the first turn enters.
fn enter(nucleus: &mut Nucleus, kind: EventKind) {
    nucleus.due(Event { turn: 1, kind });
}

/// Does what is to be done, in turn 6.
fn perform(
    nucleus: &mut Nucleus,
    journal: &mut Journal,
    cpu: &mut Cpu,
    deed: Deed,
) -> Result<(), NoMemory> {
    journal.reserve(1)?;
    match deed {
        Deed::Call(number, eax, ecx) => {
            cpu.regs[0] = eax;
            cpu.regs[1] = ecx;
            cpu.flags.carry = true;
            if 3 <= number && number <= 10 {
                nucleus.call(number, 6, cpu, journal);
            }
        }
        Deed::Tick => enter(nucleus, EventKind::Tick),
        Deed::Key(code) => enter(nucleus, EventKind::Key(code)),
        Deed::Accept => {
            nucleus.accept(6, cpu, journal);
        }
        Deed::Leave(why) => {
            if nucleus.running() != 0 {
                nucleus.leave(6, cpu, why, journal);
            }
        }
    }
    Ok(())
}

/// The number of the first deed that does not leave what the table says.
fn first_wrong(nucleus: &mut Nucleus, journal: &mut Journal) -> Result<Option<usize>, NoMemory> {
    let flags = FlagBits {
        carry: false,
        zero: false,
        sign: false,
        overflow: false,
    };
    let mut cpu = Cpu {
        regs: [0, 0, 0, 0, 0x403FFC, 0, 0, 0],
        flags,
        pc: 0x100005,
    };
    for (number, (deed, seen)) in DEEDS.iter().enumerate() {
        perform(nucleus, journal, &mut cpu, *deed)?;
        if (cpu.regs[0], cpu.regs[1], cpu.regs[4], cpu.flags.carry) != *seen {
            return Ok(Some(number));
        }
    }
    Ok(None)
}

#[test]
fn the_nucleus_does_as_its_calls_say(rt: HostRuntime) -> Result<(), Fail> {
    let mut nucleus = nucleus(rt.alloc())?;
    let mut journal = Journal::new(rt.alloc());
    assert_eq!(rt; first_wrong(&mut nucleus, &mut journal)?, None);
    assert_eq!(rt; nucleus.devices().cell(1999), Some(0x0741));
    assert_eq!(rt; journal.entries().len(), 37);
    Ok(())
}
