// A heap, its index, and the words of objects.
ghost use Rattle.std.specs.Prelude.{[]};

use free_index::FreeIndex;
use heap_words::Heap;
use mark_sweep::{Roots, collect, object_address, shape_named};
use object_layout::areas::{descriptor_address, table_address};
use object_layout::{Shape, Shapes};
use std::test::*;

// A list of no words.
#[derive(Drop)]
struct NoRoots;

impl Roots for NoRoots {
    ghost remaining = { λ _. [] };

    fn next(&mut self) -> Option<u32> {
        None
    }
}

// Sixty-four words: a front of 16 is cut off, and the rest is used and marked.
#[test]
fn a_heap_is_cut_in_two(rt: HostRuntime) {
    let mut heap = Heap::new(rt.alloc(), 64).ok().expect(&rt, "a heap");
    assert!(rt; heap.word(0) == 64);
    assert!(rt; heap.block_size(0) == 64 && heap.size() == 64);
    assert!(rt; heap.link(0) == 0 && !heap.used(0) && !heap.marked(0));
    heap.split(0, 16);
    assert!(rt; heap.next_block(0) == Some(16));
    heap.set_used(16, true);
    heap.set_marked(16, true);
    assert!(rt; heap.word(16) == 51);
}

// A new heap of 64 words is one block of class 15; a taken block of 4 leaves one of 60, of class 14.
#[test]
fn heads_follow_the_blocks(rt: HostRuntime) {
    let mut heap = Heap::new(rt.alloc(), 64).ok().expect(&rt, "a heap");
    let mut index = FreeIndex::rebuild(&mut heap);
    assert!(rt; index.head(15) == Some(0));
    let first = index.take(&mut heap, 4).expect(&rt, "a block");
    assert!(rt; first == 0);
    assert!(rt; index.head(14) == Some(4));
    index.give(&mut heap, first);
    assert!(rt; index.head(0) == Some(0));
}

// What nothing reaches is freed, and the heap is one block again.
#[test]
fn without_roots_all_is_freed(rt: HostRuntime) {
    let shapes = Shapes::of(rt.alloc(), &[], &[], &[], 0)
        .ok()
        .expect(&rt, "no shapes");
    let mut heap = Heap::new(rt.alloc(), 64).ok().expect(&rt, "a heap");
    let mut index = FreeIndex::rebuild(&mut heap);
    assert!(rt; index.take(&mut heap, 8) == Some(0));
    assert!(rt; index.take(&mut heap, 60) == None);
    let freed = collect(&mut heap, &mut index, &shapes, &mut NoRoots);
    assert!(rt; freed.free == 64 && freed.largest == 64);
    assert!(rt; index.take(&mut heap, 60) == Some(0));
}

#[test]
fn words_name_shapes_and_addresses_name_blocks(rt: HostRuntime) {
    assert!(rt; shape_named(table_address(3)) == Shape::Class(3));
    assert!(rt; shape_named(descriptor_address(2)) == Shape::Kind(2));
    assert!(rt; object_address(0) == 0x800008);
}
