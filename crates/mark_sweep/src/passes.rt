// The passes of a collection over the blocks in order.
ghost use Rattle.std.specs.Prelude.{◌≡◌, ◌&&◌, not};
ghost use Rattle.heap_words.specs.Headers.{used_at};
ghost use Rattle.heap_words.specs.Blocks.{Begins, FormedHeap};
ghost use Rattle.mark_sweep.specs.Swept.{Kept, KeepsUsed, NoMarks, Swept, NoNeighbours, free_block_words, largest_free};

use heap_words::Heap;
use heap_words::laws::block_laws;

/// What a collection leaves free, in words.
#[derive(Clone, Copy, Debug, PartialEq, Eq)]
pub struct Collected {
    /// The words of all free blocks together.
    pub free: u64,
    /// The words of the largest free block, 0 where there is none.
    pub largest: u64,
}

/// Takes the mark of each block away.
pub fn clear_marks(heap: &mut Heap)
    ensures kept { Kept heap.old heap.new }
    ensures white { NoMarks heap.new }
    ensures formed { FormedHeap heap.new }
{
    block_laws();
    let size = heap.size();
    let mut at = 0;
    while at < size {
        heap.set_marked(at, false);
        at += heap.block_size(at);
    }
}

/// Makes the marked blocks used, and all others free.
pub fn sweep(heap: &mut Heap)
    ensures swept { Swept heap.old heap.new }
    ensures formed { FormedHeap heap.new }
{
    block_laws();
    let size = heap.size();
    let mut at = 0;
    while at < size {
        let marked = heap.marked(at);
        heap.set_used(at, marked);
        at += heap.block_size(at);
    }
}

// Whether both blocks are free.
fn are_free(heap: &Heap, at: u32, next: u32) -> bool
    requires at { Begins heap.now at }
    requires next { Begins heap.now next }
    ensures { result ≡ (not (used_at heap.now at) && not (used_at heap.now next)) }
{
    !heap.used(at) && !heap.used(next)
}

/// Joins free blocks that are neighbours.
pub fn merge(heap: &mut Heap)
    ensures kept { KeepsUsed heap.old heap.new }
    ensures apart { NoNeighbours heap.new }
    ensures formed { FormedHeap heap.new }
{
    block_laws();
    let size = heap.size();
    let mut at = 0;
    while let Some(next) = heap.next_block(at) {
        if are_free(heap, at, next) {
            heap.join(at);
        } else {
            at = next;
        }
    }
}

/// Counts the free words, and those of the largest free block.
pub fn totals(heap: &Heap) -> Collected
    ensures free { result.free ≡ free_block_words heap.now }
    ensures largest { result.largest ≡ largest_free heap.now }
{
    block_laws();
    let size = heap.size();
    let mut at = 0;
    let mut free: u64 = 0;
    let mut largest: u64 = 0;
    while at < size {
        let room = heap.block_size(at);
        if !heap.used(at) {
            free += u64::from(room);
            largest = largest.max(u64::from(room));
        }
        at += room;
    }
    Collected { free, largest }
}
