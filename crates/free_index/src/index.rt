ghost use Rattle.std.specs.Prelude.{false, ◌≡◌, ◌≢◌, ◌<◌, ◌≤◌, ◌+◌, ◌%◌, ℕ, MatchOption, IfNone, IfSome, length, slice_index, slice_set, [], ◌∷◌};
ghost use Rattle.heap_words.specs.Headers.{marked_at, size_at};
ghost use Rattle.heap_words.specs.Blocks.{FormedHeap, IsFree, IsUsed, Replaces, Blocks, free_block, used_block};
ghost use Rattle.free_index.specs.Classes.{class_of_size};
ghost use Rattle.free_index.specs.Free.{Suffices, Given, NoneSuffices, OnlyLinks, Taken, taken_blocks};
ghost use Rattle.free_index.specs.Lists.{FreeLists, IsEmptyClass, IsFirstOfClass};
ghost use Rattle.free_index.specs.Steps.{Inserted, NamesFree, NoneOfClass, Removed, Unheaded};

use crate::links::{insert, remove};
use crate::size_class::class_of_size;
use heap_words::Heap;
use heap_words::laws::block_laws;
use std::marker::Model;

/// The index of a heap's free blocks: the heads of the lists of 32 size classes. Contracts see it as the
/// list of its heads, each one more than the place of the class's first block, or 0 for none.
#[derive(Debug, Drop)]
pub struct FreeIndex {
    heads: [u32; 32],
}

impl Model for FreeIndex {
    ghost use Rattle.std.specs.Prelude.{List, ℕ};

    ghost Value = { List ℕ };

    ghost view = { λ index. index.heads };
}

impl FreeIndex {
    /// The index of a heap's free blocks. Only links and back links of free blocks change.
    pub fn rebuild(heap: &mut Heap) -> FreeIndex
        ensures lists { FreeLists result heap.new }
        ensures only { OnlyLinks heap.old heap.new }
        ensures blocks { Blocks heap.new ≡ Blocks heap.old }
        ensures formed { FormedHeap heap.new }
    {
        block_laws();
        let mut index = FreeIndex { heads: [0; 32] };
        let size = heap.size();
        let mut at = 0;
        while at < size {
            let room = heap.block_size(at);
            if !heap.used(at) {
                index.put(heap, at);
            }
            at += room;
        }
        index
    }

    /// Makes a free block of at least `need` words, a positive multiple of 4, a used one of `need` words, and
    /// answers its first word's place. What is left of the old block is a free block behind it. A block without
    /// a mark gets none. None exactly where no free block has `need` words; then nothing changes.
    pub fn take(&mut self, heap: &mut Heap, need: u64) -> Option<u32>
        requires rows { need % 4 ≡ 0 }
        requires some { 0 < need }
        requires lists { FreeLists self.old heap.old }
        ensures found { MatchOption result (NoneSuffices heap.old need) (λ i. Suffices heap.old need i) }
        ensures taken { IfSome result (λ i. Taken heap.old heap.new need i) }
        ensures blocks { IfSome result (λ i. Replaces (Blocks heap.old) (Blocks heap.new)
            (free_block i (size_at heap.old i) ∷ []) (taken_blocks i need (size_at heap.old i))) }
        ensures mark { IfSome result (λ i. marked_at heap.old i ≡ false → marked_at heap.new i ≡ false) }
        ensures unchanged { IfNone result ((heap.new ≡ heap.old) × (self.new ≡ self.old)) }
        ensures lists { FreeLists self.new heap.new }
        ensures formed { FormedHeap heap.new }
    {
        block_laws();
        if u64::from(heap.size()) < need {
            return None;
        }
        match self.find(heap, need as u32) {
            None => None,
            Some(i) => {
                self.occupy(heap, i, need as u32);
                Some(i)
            }
        }
    }

    /// Makes the used block that begins at `i` free, and leaves its mark.
    pub fn give(&mut self, heap: &mut Heap, i: u32)
        requires used { IsUsed heap.old i }
        requires lists { FreeLists self.old heap.old }
        ensures given { Given heap.old heap.new i }
        ensures blocks { Replaces (Blocks heap.old) (Blocks heap.new)
            (used_block i (size_at heap.old i) ∷ []) (free_block i (size_at heap.old i) ∷ []) }
        ensures mark { marked_at heap.new i ≡ marked_at heap.old i }
        ensures lists { FreeLists self.new heap.new }
        ensures formed { FormedHeap heap.new }
    {
        block_laws();
        heap.set_used(i, false);
        self.put(heap, i);
    }

    /// The place of the first block in the list of a class, 0 to 31. None exactly where no free block has
    /// the class.
    pub fn head(&self, class: u32) -> Option<u32>
        requires { class < 32 }
        ensures head { MatchOption result (slice_index self.now class ≡ 0) (λ i. slice_index self.now class ≡ i + 1) }
        ensures first { MatchOption result (IsEmptyClass self.now class) (λ i. IsFirstOfClass self.now class i) }
    {
        let link = self.heads[class as usize];
        if link == 0 { None } else { Some(link - 1) }
    }

    // Puts a free block into the list of its class.
    fn put(&mut self, heap: &mut Heap, i: u32)
        requires free { IsFree heap.old i }
        requires head { NamesFree heap.old (slice_index self.old (class_of_size (size_at heap.old i))) }
        requires other { slice_index self.old (class_of_size (size_at heap.old i)) ≢ i + 1 }
        ensures inserted { Inserted heap.old heap.new i (slice_index self.old (class_of_size (size_at heap.old i))) }
        ensures heads { self.new ≡ slice_set self.old (class_of_size (size_at heap.old i)) (i + 1) }
        ensures formed { FormedHeap heap.old }
        ensures formed_after { FormedHeap heap.new }
    {
        let class = class_of_size(heap.block_size(i));
        insert(heap, i, self.heads[class]);
        self.heads[class] = i + 1;
    }

    // Takes a free block out of the list of its class.
    fn cut(&mut self, heap: &mut Heap, i: u32)
        requires free { IsFree heap.old i }
        requires next { NamesFree heap.old (slice_index heap.old (i + 1)) }
        requires back { NamesFree heap.old (slice_index heap.old (i + 2)) }
        ensures removed { Removed heap.old heap.new i }
        ensures heads { Unheaded heap.old self.old self.new i (class_of_size (size_at heap.old i)) }
        ensures formed { FormedHeap heap.old }
        ensures formed_after { FormedHeap heap.new }
    {
        block_laws();
        let class = class_of_size(heap.block_size(i));
        if heap.word(i + 2) == 0 {
            self.heads[class] = heap.link(i);
        }
        remove(heap, i);
    }

    // The first block in the list of a class that has `need` words.
    fn search(&self, heap: &Heap, class: usize, need: u32) -> Option<u32>
        requires class { class < 32 }
        requires lists { FreeLists self.now heap.now }
        ensures { MatchOption result (NoneOfClass heap.now class need) (λ i. Suffices heap.now need i) }
    {
        let mut link = self.heads[class];
        while link != 0 {
            let at = link - 1;
            if need <= heap.block_size(at) {
                return Some(at);
            }
            link = heap.link(at);
        }
        None
    }

    // A free block that has `need` words, in the lowest class that has one.
    fn find(&self, heap: &Heap, need: u32) -> Option<u32>
        requires rows { need % 4 ≡ 0 }
        requires some { 0 < need }
        requires small { need ≤ 4194304 }
        requires lists { FreeLists self.now heap.now }
        ensures { MatchOption result (NoneSuffices heap.now need) (λ i. Suffices heap.now need i) }
    {
        let first = class_of_size(need);
        'classes: for class in first..32 {
            if let Some(at) = self.search(heap, class, need) {
                return Some(at);
            }
        }
        None
    }

    // Makes the free block that begins at `i` a used one of `need` words.
    fn occupy(&mut self, heap: &mut Heap, i: u32, need: u32)
        requires fits { Suffices heap.old need i }
        requires rows { need % 4 ≡ 0 }
        requires some { 0 < need }
        requires lists { FreeLists self.old heap.old }
        ensures taken { Taken heap.old heap.new need i }
        ensures mark { marked_at heap.old i ≡ false → marked_at heap.new i ≡ false }
        ensures lists { FreeLists self.new heap.new }
        ensures formed_before { FormedHeap heap.old }
        ensures formed { FormedHeap heap.new }
    {
        block_laws();
        self.cut(heap, i);
        let size = heap.block_size(i);
        use_front(heap, i, need);
        if need < size {
            self.put(heap, i + need);
        }
    }
}

// Makes the free block that begins at `i` a used one of `need` words; what is left of it is a free block
// behind it. No words but these two headers change.
fn use_front(heap: &mut Heap, i: u32, need: u32)
    requires fits { Suffices heap.old need i }
    requires rows { need % 4 ≡ 0 }
    requires some { 0 < need }
    ensures taken { Taken heap.old heap.new need i }
    ensures mark { marked_at heap.old i ≡ false → marked_at heap.new i ≡ false }
    ensures others { (k : ℕ) → k ≢ i → k ≢ i + need → slice_index heap.new k ≡ slice_index heap.old k }
    ensures formed { FormedHeap heap.new }
{
    block_laws();
    if need < heap.block_size(i) {
        heap.split(i, need);
    }
    heap.set_used(i, true);
}
