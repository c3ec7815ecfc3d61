// A heap that lines of a case are played on.

use crate::good_roots::{Listed, are_good};
use crate::number_class::number_table;
use crate::places::{begins, is_object_word};
use free_index::FreeIndex;
use free_index::laws::object_write_keeps_lists;
use heap_words::Heap;
use heap_words::laws::block_laws;
use mark_sweep::{Collected, collect};
use no_memory::NoMemory;
use object_layout::Shapes;
use object_layout::areas::table_address;
use std::alloc::Global;
use std::marker::Model;

/// A heap with the index of its free blocks, and the table of its objects' class. Each call tests what it asks of
/// the heap.
#[derive(Drop)]
pub struct CaseHeap {
    heap: Heap,
    index: FreeIndex,
    shapes: Shapes,
}

impl Model for CaseHeap {
    ghost use Rattle.std.specs.Prelude.{List, ℕ};
    ghost use Rattle.heap_cases.specs.Plain.{IsPlayable};

    ghost Value = { List ℕ };

    ghost view = { λ h. h.heap };

    ghost invariant = { λ h. IsPlayable h.heap h.index h.shapes };
}

impl CaseHeap {
    /// A heap of 64 words.
    pub fn new(alloc: Global) -> Result<CaseHeap, NoMemory> {
        let Ok(shapes) = number_table(alloc) else {
            return Err(NoMemory);
        };
        let mut heap = Heap::new(alloc, 64)?;
        let index = FreeIndex::rebuild(&mut heap);
        Ok(CaseHeap {
            heap,
            index,
            shapes,
        })
    }

    /// Takes a block, and answers its place.
    pub fn take(&mut self, need: u32) -> Option<u32> {
        if need == 0 || need % 4 != 0 {
            return None;
        }
        self.index.take(&mut self.heap, u64::from(need))
    }

    /// Gives a used block back, and answers its size. None where there is no such block.
    pub fn give(&mut self, at: u32) -> Option<u32> {
        if !begins(&self.heap, at) || !self.heap.used(at) {
            return None;
        }
        self.index.give(&mut self.heap, at);
        Some(self.heap.block_size(at))
    }

    /// Writes a word of an object, and answers what then stands there. None where word `i` is none.
    pub fn write(&mut self, i: u32, word: u32) -> Option<u32> {
        object_write_keeps_lists();
        if !is_object_word(&self.heap, i) {
            return None;
        }
        self.heap.set_word(i, word);
        Some(self.heap.word(i))
    }

    /// Writes the word of the class into the used block at a place, which it answers. None where there is no such
    /// block.
    pub fn put_object(&mut self, at: u32) -> Option<u32> {
        self.write(at.checked_add(2)?, table_address(0))?;
        Some(at)
    }

    /// Collects with these roots. None where one is not good.
    pub fn collect(&mut self, words: &[u32]) -> Option<Collected> {
        if !are_good(&self.heap, &self.shapes, words) {
            return None;
        }
        let mut roots = Listed { words, at: 0 };
        Some(collect(&mut self.heap, &mut self.index, &self.shapes, &mut roots))
    }

    /// Joins a free block with the free one behind it, and answers the size of the one that they make. The index is
    /// then built anew.
    pub fn join(&mut self, at: u32) -> Option<u32> {
        if !begins(&self.heap, at) || self.heap.used(at) {
            return None;
        }
        let next = self.heap.next_block(at)?;
        if self.heap.used(next) {
            return None;
        }
        self.heap.join(at);
        let size = self.heap.block_size(at);
        self.index = FreeIndex::rebuild(&mut self.heap);
        Some(size)
    }

    /// Writes the link of a block, and answers what then stands there. The index is then built anew.
    pub fn link(&mut self, at: u32, word: u32) -> Option<u32> {
        if !begins(&self.heap, at) {
            return None;
        }
        self.heap.set_link(at, word);
        let link = self.heap.link(at);
        self.index = FreeIndex::rebuild(&mut self.heap);
        Some(link)
    }

    /// Writes the back link of a free block, and answers what then stands there. The index is then built anew.
    pub fn link_back(&mut self, at: u32, word: u32) -> Option<u32> {
        block_laws();
        if !begins(&self.heap, at) || self.heap.used(at) {
            return None;
        }
        self.heap.set_back(at, word);
        let back = self.heap.word(at + 2);
        self.index = FreeIndex::rebuild(&mut self.heap);
        Some(back)
    }
}
