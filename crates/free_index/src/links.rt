// Writing the links of a list of free blocks. A link is one more than a block's place, or 0 for none.
ghost use Rattle.std.specs.Prelude.{◌≡◌, ◌≢◌, ◌+◌, ℕ, slice_index};
ghost use Rattle.heap_words.specs.Blocks.{FormedHeap, IsFree, SameBlocks};
ghost use Rattle.free_index.specs.Steps.{Inserted, NamesFree, Removed};

use heap_words::Heap;
use heap_words::laws::block_laws;

// Writes the link of the block that `back` names.
fn link_from(heap: &mut Heap, back: u32, next: u32)
    requires named { NamesFree heap.old back }
    requires formed { FormedHeap heap.old }
    ensures same { SameBlocks heap.old heap.new }
    ensures formed { FormedHeap heap.new }
    ensures written { (p : ℕ) → back ≡ p + 1 → slice_index heap.new (p + 1) ≡ next }
    ensures others { (k : ℕ) → ((p : ℕ) → back ≡ p + 1 → k ≢ p + 1)
        → slice_index heap.new k ≡ slice_index heap.old k }
{
    block_laws();
    if back > 0 {
        heap.set_link(back - 1, next);
    }
}

// Writes the back link of the block that `next` names.
fn back_from(heap: &mut Heap, next: u32, back: u32)
    requires named { NamesFree heap.old next }
    requires formed { FormedHeap heap.old }
    ensures same { SameBlocks heap.old heap.new }
    ensures formed { FormedHeap heap.new }
    ensures written { (p : ℕ) → next ≡ p + 1 → slice_index heap.new (p + 2) ≡ back }
    ensures others { (k : ℕ) → ((p : ℕ) → next ≡ p + 1 → k ≢ p + 2)
        → slice_index heap.new k ≡ slice_index heap.old k }
{
    block_laws();
    if next > 0 {
        heap.set_back(next - 1, back);
    }
}

// Puts a free block in front of a list.
pub fn insert(heap: &mut Heap, i: u32, head: u32)
    requires formed { FormedHeap heap.old }
    requires free { IsFree heap.old i }
    requires head { NamesFree heap.old head }
    requires other { head ≢ i + 1 }
    ensures inserted { Inserted heap.old heap.new i head }
    ensures formed { FormedHeap heap.new }
{
    block_laws();
    heap.set_link(i, head);
    heap.set_back(i, 0);
    back_from(heap, head, i + 1);
}

// Takes a free block out of its list.
pub fn remove(heap: &mut Heap, i: u32)
    requires formed { FormedHeap heap.old }
    requires free { IsFree heap.old i }
    requires next { NamesFree heap.old (slice_index heap.old (i + 1)) }
    requires back { NamesFree heap.old (slice_index heap.old (i + 2)) }
    ensures removed { Removed heap.old heap.new i }
    ensures formed { FormedHeap heap.new }
{
    block_laws();
    let next = heap.link(i);
    let back = heap.word(i + 2);
    link_from(heap, back, next);
    back_from(heap, next, back);
}
