// Marking. A link is one more than a block's place, or 0 for none.
ghost use Rattle.std.specs.Prelude.{◌≡◌, ◌<◌, ◌≤◌, ◌+◌, ℕ, List, slice_index};
ghost use Rattle.heap_words.specs.Blocks.{Begins, FormedHeap};
ghost use Rattle.object_layout.specs.Classes.{ShapesView};
ghost use Rattle.free_index.specs.Lists.{In};
ghost use Rattle.mark_sweep.specs.Objects.{IsReference};
ghost use Rattle.mark_sweep.specs.Reached.{AllGood, Reached};
ghost use Rattle.mark_sweep.specs.Swept.{NoMarks};
ghost use Rattle.mark_sweep.specs.Marking.{IsPlaced, Marks, MarksReached, Scanned, Waits, left};

use crate::objects::holds_reference;
use crate::roots::Roots;
use heap_words::Heap;
use heap_words::laws::block_laws;
use object_layout::Shapes;
use object_layout::areas::HEAP_START;

// Marks the block of the object that a word names and puts it in front of the list of waiting blocks, unless
// it has a mark. Answers the list's first link.
fn mark_word(heap: &mut Heap, first: u32, word: u32) -> u32
    requires formed { FormedHeap heap.old }
    requires placed { IsPlaced heap.old word }
    ensures marks { Marks heap.old heap.new word first result }
    ensures formed { FormedHeap heap.new }
{
    block_laws();
    if word < HEAP_START {
        return first;
    }
    let at = (word - HEAP_START) / 4 - 2;
    if heap.marked(at) {
        return first;
    }
    heap.set_marked(at, true);
    heap.set_link(at, first);
    at + 1
}

// Marks the blocks that the listed words name. Answers the first link of the list of these blocks.
fn mark_listed<R: Roots>(heap: &mut Heap, roots: &mut R) -> u32
    requires formed { FormedHeap heap.old }
    requires white { NoMarks heap.old }
    requires placed { (w : ℕ) → In w (R.remaining roots.old) → IsPlaced heap.old w }
    ensures waits { (s : ShapesView) → AllGood s heap.old (R.remaining roots.old)
        → Waits s heap.old (R.remaining roots.old) heap.new result }
    ensures formed { FormedHeap heap.new }
{
    let mut first = 0;
    'roots: while let Some(word) = roots.next() {
        first = mark_word(heap, first, word);
    }
    first
}

// Marks the blocks that the object in the block at `at` refers to. Answers the list's first link.
fn scan(heap: &mut Heap, shapes: &Shapes, at: u32, next: u32) -> u32
    requires formed { FormedHeap heap.old }
    requires begins { Begins heap.old at }
    requires placed { (k : ℕ) → IsReference shapes.now heap.old at k
        → IsPlaced heap.old (slice_index heap.old (at + 2 + k)) }
    ensures scanned { (u list : List ℕ) → AllGood shapes.now u list → FormedHeap u
        → Reached shapes.now u list at → Scanned shapes.now u list at 1 heap.old next
        → Waits shapes.now u list heap.new result × (left heap.new result ≤ left heap.old next) }
    ensures formed { FormedHeap heap.new }
{
    block_laws();
    let table = heap.word(at + 2);
    let length = heap.word(at + 3);
    let end = heap.block_size(at) - 2;
    let mut first = next;
    'words: for k in 1..end {
        if holds_reference(shapes, table, length, k) {
            let word = heap.word(at + 2 + k);
            first = mark_word(heap, first, word);
        }
    }
    first
}

// Marks the blocks that the listed words reach.
pub fn mark<R: Roots>(heap: &mut Heap, shapes: &Shapes, roots: &mut R)
    requires formed { FormedHeap heap.old }
    requires white { NoMarks heap.old }
    requires good { AllGood shapes.now heap.old (R.remaining roots.old) }
    ensures marks { MarksReached shapes.now heap.old (R.remaining roots.old) heap.new }
    ensures formed { FormedHeap heap.new }
{
    let mut first = mark_listed(heap, roots);
    'waiting: while first != 0 {
        let at = first - 1;
        let next = heap.link(at);
        first = scan(heap, shapes, at, next);
    }
}
