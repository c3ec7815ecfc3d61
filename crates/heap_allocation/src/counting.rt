// A collection that is asked for.
ghost use Rattle.std.specs.Prelude.{List, ℕ, ◌≡◌, ◌+◌, length, map, sum};
ghost use Rattle.heap_words.specs.Blocks.{FormedHeap};
ghost use Rattle.heap_words.specs.Headers.{size_at};
ghost use Rattle.free_index.specs.Lists.{FreeLists};
ghost use Rattle.mark_sweep.specs.Collections.{Collects};
ghost use Rattle.mark_sweep.specs.Reached.{AllGood};
ghost use Rattle.mark_sweep.specs.Swept.{free_block_words};
ghost use Rattle.heap_allocation.specs.Counts.{ListsReached};

use free_index::FreeIndex;
use heap_words::Heap;
use heap_words::laws::{blocks_listed, blocks_tile};
use mark_sweep::laws::free_and_used_words;
use mark_sweep::{Roots, collect};
use object_layout::Shapes;

/// Collects, and answers the number of heap words outside the blocks that the listed words reach: it and the sizes of
/// the reached blocks together are the heap's words. It takes no memory.
pub fn collect_and_count<R: Roots>(
    heap: &mut Heap,
    index: &mut FreeIndex,
    shapes: &Shapes,
    roots: &mut R,
) -> u32
    requires good { AllGood shapes.now heap.old (R.remaining roots.old) }
    requires lists { FreeLists index.old heap.old }
    ensures counted { (reached : List ℕ) → ListsReached shapes.now heap.old (R.remaining roots.old) reached
        → result + sum (map (size_at heap.old) reached) ≡ length heap.old }
    ensures free { result ≡ free_block_words heap.new }
    ensures collected { Collects shapes.now heap.old (R.remaining roots.old) heap.new }
    ensures lists { FreeLists index.new heap.new }
    ensures formed { FormedHeap heap.new }
{
    blocks_tile();
    blocks_listed();
    free_and_used_words();
    let counted = collect(heap, index, shapes, roots);
    counted.free as u32
}
