// Places in a heap: in which block a word lies, and what it is there.
ghost use Rattle.std.specs.Prelude.{◌<◌, ◌≤◌, ◌+◌, IsTrue, IfSome, length};
ghost use Rattle.heap_words.specs.Headers.{size_at};
ghost use Rattle.heap_words.specs.Blocks.{Begins, IsObjectWord};

use heap_words::Heap;
use heap_words::laws::block_laws;

// The place of the block that word `i` lies in. None where the heap has no such word.
fn find_block(heap: &Heap, i: u32) -> Option<u32>
    ensures begins { IfSome result (λ at. Begins heap.now at) }
    ensures behind { IfSome result (λ at. at ≤ i) }
    ensures before { IfSome result (λ at. i < at + size_at heap.now at) }
{
    block_laws();
    let size = heap.size();
    let mut at = 0;
    while let Some(next) = heap.next_block(at) {
        if i < next {
            return Some(at);
        }
        at = next;
    }
    if i < size { Some(at) } else { None }
}

/// Whether a block begins at `i`.
pub fn begins(heap: &Heap, i: u32) -> bool
    ensures { IsTrue result → Begins heap.now i }
{
    match find_block(heap, i) {
        Some(at) => at == i,
        None => false,
    }
}

/// Whether word `i` is one of an object: it lies in a used block, behind the header and the link.
pub fn is_object_word(heap: &Heap, i: u32) -> bool
    ensures inside { IsTrue result → i < length heap.now }
    ensures object { IsTrue result → IsObjectWord heap.now i }
{
    block_laws();
    let _size = heap.size();
    let Some(at) = find_block(heap, i) else {
        return false;
    };
    if !heap.used(at) || i - at < 2 {
        return false;
    }
    true
}
