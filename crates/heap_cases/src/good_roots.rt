// Roots that are good, which is found by looking at the heap.
ghost use Rattle.std.specs.Prelude.{ℕ, drop, IsTrue};
ghost use Rattle.heap_words.specs.Blocks.{Begins};
ghost use Rattle.free_index.specs.Lists.{In};
ghost use Rattle.mark_sweep.specs.Objects.{IsObject};
ghost use Rattle.mark_sweep.specs.Reached.{IsGood};
ghost use Rattle.heap_cases.specs.Plain.{IsPlain};

use crate::places::begins;
use heap_words::Heap;
use heap_words::laws::block_laws;
use mark_sweep::laws::shapes_come_back;
use mark_sweep::{Roots, object_address};
use object_layout::areas::{HEAP_START, table_address};
use object_layout::{Shape, Shapes};

/// Words that are given one after another.
#[derive(Drop)]
pub struct Listed<'a> {
    pub words: &'a [u32],
    pub at: usize,
}

impl<'a> Roots for Listed<'a> {
    ghost remaining = { λ s. drop s.at s.words.now };

    fn next(&mut self) -> Option<u32> {
        if self.at < self.words.len() {
            let word = self.words[self.at];
            self.at += 1;
            Some(word)
        } else {
            None
        }
    }
}

// Whether an object stands in the block at `at`.
fn is_object(heap: &Heap, shapes: &Shapes, at: u32) -> bool
    requires begins { Begins heap.now at }
    requires plain { IsPlain shapes.now }
    ensures { IsTrue result → IsObject shapes.now heap.now at }
{
    block_laws();
    shapes_come_back();
    let size = u64::from(heap.block_size(at));
    let table = heap.word(at + 2);
    let length = heap.word(at + 3);
    heap.used(at) && table == table_address(0) && shapes.need_words(Shape::Class(0), length) == size
}

// Whether a word is null, an address below the heap, or the address of an object.
fn is_good(heap: &Heap, shapes: &Shapes, word: u32) -> bool
    requires { IsPlain shapes.now }
    ensures { IsTrue result → IsGood shapes.now heap.now word }
{
    if word < HEAP_START {
        return true;
    }
    let at = word.saturating_sub(HEAP_START + 8) / 4;
    at < heap.size()
        && object_address(at) == word
        && begins(heap, at)
        && is_object(heap, shapes, at)
}

/// Whether all these words are good roots.
pub fn are_good(heap: &Heap, shapes: &Shapes, words: &[u32]) -> bool
    requires { IsPlain shapes.now }
    ensures { IsTrue result → (w : ℕ) → In w words.now → IsGood shapes.now heap.now w }
{
    for word in words {
        if !is_good(heap, shapes, *word) {
            return false;
        }
    }
    true
}
