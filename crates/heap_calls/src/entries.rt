// A collection, and an allocation, with the roots of a call.
ghost use Rattle.std.specs.Prelude.{◌≡◌, ℕ, Bool};
ghost use Rattle.object_layout.specs.Classes.{IsShape};
ghost use Rattle.free_index.specs.Lists.{FreeLists};
ghost use Rattle.tal_types.specs.declared.types.Ty.{Ty};
ghost use Rattle.tal_image.specs.Image.{ImageParts};
ghost use Rattle.typed_machine.specs.Values.{ObjectShape};
ghost use Rattle.typed_machine.specs.Stores.{shape_in, elements_in};
ghost use Rattle.typed_machine.specs.States.{State};
ghost use Rattle.heap_changes.specs.Laws.{with_heap};
ghost use Rattle.heap_calls.specs.Finding.{CallFinds, MayCall};
ghost use Rattle.heap_calls.specs.Telling.{CollectionTold, AllocationTold};

use frame_tables::FrameTable;
use free_index::FreeIndex;
use heap_allocation::{allocate, collect_and_count};
use heap_changes::laws::heap_is_replaced;
use object_layout::{Shape, Shapes};
use reached_objects::laws::reach_is_least;
use root_words::laws::roots_are_exact;
use root_words::{DataMarks, MachineRoots};
use stack_states::Stacks;
use typed_heap::laws::{
    allocations_stand, collections_stand, free_words_are_counted, typed_roots_refer, words_agree,
};
use word_machine::Memory;

/// GarbageCollect, called by the running stack with this ESP, which goes on at `next`: a collection with the roots of the call.
/// Answers how many of the heap's words are outside the blocks of reached objects. It takes no memory.
pub fn collect_at_call(
    memory: &mut Memory,
    index: &mut FreeIndex,
    marks: &DataMarks,
    frames: &FrameTable,
    shapes: &Shapes,
    stacks: &Stacks,
    esp: u32,
    next: u32,
) -> u32
    requires lists { FreeLists index.old memory.old.heap }
    requires called { MayCall next esp memory.old marks.now frames.now shapes.now stacks.now }
    ensures lists { FreeLists index.new memory.new.heap }
    ensures stays { memory.new ≡ with_heap memory.new.heap memory.old }
    ensures told { (image : ImageParts) (live : ℕ → Bool) (s : State) (t : Ty)
        → CallFinds image live s t next esp memory.old marks.now frames.now shapes.now stacks.now → CollectionTold image next s result memory.new }
{
    roots_are_exact();
    typed_roots_refer();
    words_agree();
    collections_stand();
    free_words_are_counted();
    heap_is_replaced();
    let mut roots = MachineRoots::new(
        marks,
        &memory.statics,
        frames,
        &memory.stacks,
        stacks,
        esp,
        next,
    );
    collect_and_count(&mut memory.heap, index, shapes, &mut roots)
}

/// AllocObject or AllocArray, called by the running stack with this ESP, which goes on at `next`: the address of a fresh object of
/// the shape, and none exactly where no gap between the blocks of reached objects has its need. `length` is the number of
/// elements, and counts for an array alone. It takes no memory.
pub fn allocate_at_call(
    memory: &mut Memory,
    index: &mut FreeIndex,
    marks: &DataMarks,
    frames: &FrameTable,
    shapes: &Shapes,
    stacks: &Stacks,
    esp: u32,
    next: u32,
    shape: Shape,
    length: u32,
) -> Option<u32>
    requires lists { FreeLists index.old memory.old.heap }
    requires called { MayCall next esp memory.old marks.now frames.now shapes.now stacks.now }
    requires there { IsShape shapes.now shape }
    ensures lists { FreeLists index.new memory.new.heap }
    ensures stays { memory.new ≡ with_heap memory.new.heap memory.old }
    ensures told { (image : ImageParts) (live : ℕ → Bool) (s : State) (t : Ty) (asked : ObjectShape)
        → CallFinds image live s t next esp memory.old marks.now frames.now shapes.now stacks.now → shape_in asked ≡ shape → elements_in asked ≡ length
        → AllocationTold image next s asked result memory.new }
{
    roots_are_exact();
    typed_roots_refer();
    words_agree();
    allocations_stand();
    heap_is_replaced();
    reach_is_least();
    let mut roots = MachineRoots::new(
        marks,
        &memory.statics,
        frames,
        &memory.stacks,
        stacks,
        esp,
        next,
    );
    allocate(&mut memory.heap, index, shapes, &mut roots, shape, length)
}
