// The two steps of an allocation: a block is found, and the object laid out in it.
ghost use Rattle.std.specs.Prelude.{◌≡◌, ◌<◌, ◌%◌, MatchOption};
ghost use Rattle.heap_words.specs.Blocks.{FormedHeap};
ghost use Rattle.object_layout.specs.Classes.{IsShape, Need};
ghost use Rattle.free_index.specs.Lists.{FreeLists};
ghost use Rattle.mark_sweep.specs.Reached.{AllGood};
ghost use Rattle.heap_allocation.specs.Allocations.{Allocated, KeepsReached, NoGap};
ghost use Rattle.heap_allocation.specs.Steps.{IsFound};

use crate::laying::lay_out;
use free_index::FreeIndex;
use heap_words::Heap;
use heap_words::laws::block_laws;
use mark_sweep::{Roots, collect, object_address};
use object_layout::{Shape, Shapes};

/// The address of a fresh object of the shape; `length` is the number of elements, and counts for an array alone. None
/// exactly where no gap between the blocks that the listed words reach has the object's need. Reached blocks stay where
/// they are, with the object words that they had. It takes no memory.
pub fn allocate<R: Roots>(
    heap: &mut Heap,
    index: &mut FreeIndex,
    shapes: &Shapes,
    roots: &mut R,
    shape: Shape,
    length: u32,
) -> Option<u32>
    requires there { IsShape shapes.now shape }
    requires good { AllGood shapes.now heap.old (R.remaining roots.old) }
    requires lists { FreeLists index.old heap.old }
    ensures placed { MatchOption result
        (NoGap shapes.now heap.old (R.remaining roots.old) (Need shapes.now shape length))
        (λ at. Allocated shapes.now heap.old (R.remaining roots.old) heap.new shape length at) }
    ensures kept { KeepsReached shapes.now heap.old (R.remaining roots.old) heap.new }
    ensures lists { FreeLists index.new heap.new }
    ensures formed { FormedHeap heap.new }
{
    block_laws();
    let need = shapes.need_words(shape, length);
    match find(heap, index, shapes, roots, need) {
        None => None,
        Some(i) => {
            lay_out(heap, shapes, i, shape, length);
            Some(object_address(i))
        }
    }
}

// Makes a used block of `need` words in a gap, after a collection where no free block has them. None exactly where no
// gap has them.
fn find<R: Roots>(
    heap: &mut Heap,
    index: &mut FreeIndex,
    shapes: &Shapes,
    roots: &mut R,
    need: u64,
) -> Option<u32>
    requires rows { need % 4 ≡ 0 }
    requires some { 0 < need }
    requires good { AllGood shapes.now heap.old (R.remaining roots.old) }
    requires lists { FreeLists index.old heap.old }
    ensures found { MatchOption result (NoGap shapes.now heap.old (R.remaining roots.old) need)
        (λ i. IsFound shapes.now heap.old (R.remaining roots.old) heap.new need i) }
    ensures kept { KeepsReached shapes.now heap.old (R.remaining roots.old) heap.new }
    ensures lists { FreeLists index.new heap.new }
    ensures formed_before { FormedHeap heap.old }
    ensures formed { FormedHeap heap.new }
{
    block_laws();
    // The heap's words are formed, which the proofs of both takes need.
    let _size = heap.size();
    if let Some(i) = index.take(heap, need) {
        return Some(i);
    }
    collect(heap, index, shapes, roots);
    index.take(heap, need)
}
