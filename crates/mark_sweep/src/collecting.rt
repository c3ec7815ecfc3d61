ghost use Rattle.std.specs.Prelude.{◌≡◌, ◌<◌, ◌≤◌, ◌+◌, ◌↔◌, ℕ, length, slice_index};
ghost use Rattle.heap_words.specs.Headers.{size_at};
ghost use Rattle.heap_words.specs.Blocks.{FormedHeap, IsUsed};
ghost use Rattle.free_index.specs.Lists.{FreeLists};
ghost use Rattle.mark_sweep.specs.Collections.{Collects};
ghost use Rattle.mark_sweep.specs.Reached.{AllGood, Reached};
ghost use Rattle.mark_sweep.specs.Swept.{NoNeighbours, free_block_words, largest_free};

use crate::marking::mark;
use crate::passes::{Collected, clear_marks, merge, sweep, totals};
use crate::roots::Roots;
use free_index::FreeIndex;
use free_index::laws::link_laws;
use heap_words::Heap;
use heap_words::laws::block_laws;
use object_layout::Shapes;

/// Frees each used block that the listed words do not reach, and joins free neighbours. Used blocks afterwards
/// are exactly those reached, with the sizes and the object words that they had. It takes no memory.
pub fn collect<R: Roots>(
    heap: &mut Heap,
    index: &mut FreeIndex,
    shapes: &Shapes,
    roots: &mut R,
) -> Collected
    requires good { AllGood shapes.now heap.old (R.remaining roots.old) }
    requires lists { FreeLists index.old heap.old }
    ensures collected { Collects shapes.now heap.old (R.remaining roots.old) heap.new }
    ensures used { (i : ℕ) → IsUsed heap.new i ↔ Reached shapes.now heap.old (R.remaining roots.old) i }
    ensures sizes { (i : ℕ) → IsUsed heap.new i → size_at heap.new i ≡ size_at heap.old i }
    ensures words { (i k : ℕ) → IsUsed heap.new i → i + 2 ≤ k → k < i + size_at heap.old i
        → slice_index heap.new k ≡ slice_index heap.old k }
    ensures size { length heap.new ≡ length heap.old }
    ensures apart { NoNeighbours heap.new }
    ensures free { result.free ≡ free_block_words heap.new }
    ensures largest { result.largest ≡ largest_free heap.new }
    ensures lists { FreeLists index.new heap.new }
    ensures formed { FormedHeap heap.new }
{
    block_laws();
    link_laws();
    clear_marks(heap);
    mark(heap, shapes, roots);
    sweep(heap);
    merge(heap);
    *index = FreeIndex::rebuild(heap);
    totals(heap)
}
