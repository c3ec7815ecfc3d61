// The memory of the test image before its first turn, and what a store changes.
ghost use Rattle.std.specs.Prelude.{◌≡◌, ℕ, ◌%◌, ◌<◌, ◌≤◌, true, IfOk};
ghost use Rattle.word_machine.specs.Memory.{is_mapped};

use crate::test_image::file;
use ia32_step::Bus;
use std::alloc::Global;
use std::test::*;
use tal_image::Image;
use word_machine::Memory;

// Words before the first turn, by their addresses. Class 0 has a field, and function 1 as its method; class 1 below it has two
// fields, and the functions 1 and 0. The kind is one of numbers. A static has the array of 7 and 8 behind it. There are two stacks.
const FIRST: [(u32, Option<u32>); 29] = [
    (0x1FFFFC, None),
    (0x200000, Some(2)),
    (0x200004, Some(0)),
    (0x20000C, Some(0x200000)),
    (0x200010, Some(0)),
    (0x20002C, Some(0x100006)),
    (0x200030, Some(0)),
    (0x2000FC, Some(0)),
    (0x200100, Some(3)),
    (0x200104, Some(1)),
    (0x20010C, Some(0x200000)),
    (0x200110, Some(0x200100)),
    (0x200114, Some(0)),
    (0x20012C, Some(0x100006)),
    (0x200130, Some(0x100000)),
    (0x200200, None),
    (0x280000, Some(0)),
    (0x28000C, Some(0)),
    (0x280010, None),
    (0x300000, Some(0)),
    (0x300004, Some(0x280000)),
    (0x300008, Some(2)),
    (0x30000C, Some(7)),
    (0x300010, Some(8)),
    (0x300011, None),
    (0x300014, None),
    (0x403FFC, Some(0)),
    (0x407FFC, Some(0)),
    (0x408000, None),
];

// Words that are stored, one in each area and at the ends of the stacks.
const STORED: [(u32, u32); 5] = [
    (0x200104, 9),
    (0x280004, 8),
    (0x30000C, 7),
    (0x400000, 6),
    (0x407FFC, 5),
];

// Words beside them.
const OTHERS: [(u32, u32); 7] = [
    (0x200100, 3),
    (0x200108, 0),
    (0x280000, 0),
    (0x300008, 2),
    (0x300010, 8),
    (0x400004, 0),
    (0x407FF8, 0),
];

/// The memory of the test image, with all words of its two stacks.
fn memory(alloc: Global) -> Result<Memory, Fail>
    ensures { IfOk result (λ m. (a : ℕ) → 0x400000 ≤ a → a < 0x408000 → a % 4 ≡ 0 → is_mapped m a ≡ true) }
{
    let image = Image::read(alloc, &file(alloc)?)?;
    image.formed();
    Ok(Memory::new(alloc, &image)?)
}

/// The word at an address; none where none stands there.
fn loaded(memory: &Memory, address: u32) -> Option<u32> {
    if memory.mapped(address) {
        Some(memory.load(address))
    } else {
        None
    }
}

#[test]
fn a_memory_has_tables_descriptors_and_data(rt: HostRuntime) -> Result<(), Fail> {
    let memory = memory(rt.alloc())?;
    for (address, word) in FIRST {
        assert_eq!(rt; loaded(&memory, address), word, "{address}");
    }
    Ok(())
}

#[test]
fn a_store_changes_one_word(rt: HostRuntime) -> Result<(), Fail> {
    let mut memory = memory(rt.alloc())?;
    for (address, word) in STORED {
        if memory.mapped(address) {
            memory.store(address, word);
        }
    }
    for (address, word) in STORED {
        assert_eq!(rt; loaded(&memory, address), Some(word), "{address}");
    }
    for (address, word) in OTHERS {
        assert_eq!(rt; loaded(&memory, address), Some(word), "{address}");
    }
    Ok(())
}

#[test]
fn a_memory_lends_stacks(rt: HostRuntime) -> Result<(), Fail> {
    let mut memory = memory(rt.alloc())?;
    memory.store(0x407FFC, 5);
    assert_eq!(rt; memory.stack_words(0, 0x403FFC), [0].as_slice());
    assert_eq!(rt; memory.stack_words(1, 0x407FF8), [0, 5].as_slice());
    assert_eq!(rt; memory.stack_words(1, 0x408000).len(), 0);
    Ok(())
}

#[test]
fn a_memory_lends_statics(rt: HostRuntime) -> Result<(), Fail> {
    let mut memory = memory(rt.alloc())?;
    if memory.mapped(0x300000) {
        memory.store(0x300000, 7);
        assert_eq!(rt; memory.statics(1), [7].as_slice());
    }
    assert_eq!(rt; loaded(&memory, 0x300000), Some(7));
    Ok(())
}
