// Rows of frames by address, and the walk over a stack.
ghost use Rattle.std.specs.Prelude.{◌≡◌, ◌∷◌, [], IfOk};

use frame_tables::{FrameTable, Walk};
use no_memory::NoMemory;
use std::alloc::Global;
use std::test::Fail;
use tal_types::FrameRow;

#[test]
fn rows_are_found_at_their_addresses(rt: HostRuntime) -> Result<(), Fail> {
    let mut table = FrameTable::new(rt.alloc());
    assert_eq!(rt; table.row(0x100000), None);
    let one = FrameRow {
        regs: 0,
        slots: 0,
        refs: 0,
    };
    let other = FrameRow {
        regs: 1,
        slots: 3,
        refs: 5,
    };
    table.push(0x100000, one)?;
    assert_eq!(rt; table.row(0x100001), None);
    table.push(0x100005, other)?;
    table.push(0x100006, one)?;
    let rows = [
        (0x100000, Some(one)),
        (0x100004, None),
        (0x100005, Some(other)),
        (0x100006, Some(one)),
        (0x100007, None),
    ];
    for (pc, want) in rows {
        assert_eq!(rt; table.row(pc), want, "at {pc:X}");
    }
    assert_eq!(rt; table.distinct(), 2);
    Ok(())
}

// Three places with slots of both kinds.
fn three_rows(alloc: Global) -> Result<FrameTable, NoMemory>
    ensures { IfOk result (λ t. t ≡
        record { pc = 16; row = record { regs = 0; slots = 3; refs = 5 } } ∷
        record { pc = 32; row = record { regs = 0; slots = 0; refs = 0 } } ∷
        record { pc = 48; row = record { regs = 0; slots = 2; refs = 2 } } ∷ []) }
{
    let mut table = FrameTable::new(alloc);
    table.push(
        16,
        FrameRow {
            regs: 0,
            slots: 3,
            refs: 5,
        },
    )?;
    table.push(
        32,
        FrameRow {
            regs: 0,
            slots: 0,
            refs: 0,
        },
    )?;
    table.push(
        48,
        FrameRow {
            regs: 0,
            slots: 2,
            refs: 2,
        },
    )?;
    Ok(table)
}

#[test]
fn three_frames_list_their_reference_slots(rt: HostRuntime) -> Result<(), Fail> {
    let table = three_rows(rt.alloc())?;
    let words = [1, 2, 3, 32, 48, 4, 5, 0];
    let mut walk = Walk::new(&table, &words, 16);
    for want in [Some(1), Some(3), Some(5), None, None] {
        assert_eq!(rt; walk.next(), want);
    }
    Ok(())
}
