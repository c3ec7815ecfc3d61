// The heap and its calls.
ghost use Rattle.std.specs.Prelude.{◌≡◌, ◌<◌, ◌≤◌, ◌+◌, ◌-◌, ◌%◌, ℕ, length, IfOk, slice_index, slice_set, MatchOption, replicate, [], ◌∷◌};
ghost use Rattle.heap_words.specs.Headers.{header_word, size_of, size_at, used_at, marked_at};
ghost use Rattle.heap_words.specs.Blocks.{Begins, IsFree, FormedHeap, IsObjectWord, Splits, SameBlocks, Replaces, Blocks, block_at, free_block};

use crate::header::{header, marked_in, size_in, used_in};
use no_memory::NoMemory;
use std::alloc::Global;
use std::marker::Model;

/// The words of a heap, which are a list of blocks up to the heap's end exactly. Places and sizes are
/// counted in words.
#[derive(Debug, Drop)]
pub struct Heap {
    words: Vec<u32>,
}

impl Model for Heap {
    ghost use Rattle.std.specs.Prelude.{List, ℕ};
    ghost use Rattle.heap_words.specs.Blocks.{FormedHeap};

    ghost Value = { List ℕ };

    ghost view = { λ h. h.words.items };

    ghost invariant = { λ h. FormedHeap h.words.items };
}

impl Heap {
    /// A heap of `words` words, a multiple of 4 from 64 to 4194304. It is one free block, and all its words
    /// but the first are 0. Answers `NoMemory` where there is no memory for the words.
    pub fn new(alloc: Global, words: u32) -> Result<Heap, NoMemory>
        requires least { 64 ≤ words }
        requires most { words ≤ 4194304 }
        requires rows { words % 4 ≡ 0 }
        ensures words { IfOk result (λ h. h ≡ slice_set (replicate words 0) 0 words) }
        ensures blocks { IfOk result (λ h. Blocks h ≡ free_block 0 words ∷ []) }
        ensures formed { IfOk result (λ h. FormedHeap h) }
        ensures free { IfOk result (λ h. IsFree h 0) }
    {
        let mut all = vec![in alloc; 0u32; words as usize]?;
        all[0] = words;
        Ok(Heap { words: all })
    }

    /// The number of words.
    pub fn size(&self) -> u32
        ensures size { result ≡ length self.now }
        ensures formed { FormedHeap self.now }
    {
        self.words.len() as u32
    }

    /// Word `i`, which is there.
    pub fn word(&self, i: u32) -> u32
        requires { i < length self.now }
        ensures { result ≡ slice_index self.now i }
    {
        self.words[i as usize]
    }

    /// The size of the block that begins at `i`, a multiple of 4.
    pub fn block_size(&self, i: u32) -> u32
        requires { Begins self.now i }
        ensures size { result ≡ size_at self.now i }
        ensures rows { result % 4 ≡ 0 }
        ensures formed { FormedHeap self.now }
    {
        size_in(self.words[i as usize])
    }

    /// Whether the block that begins at `i` is used.
    pub fn used(&self, i: u32) -> bool
        requires { Begins self.now i }
        ensures { result ≡ used_at self.now i }
    {
        used_in(self.words[i as usize])
    }

    /// Whether the block that begins at `i` is marked.
    pub fn marked(&self, i: u32) -> bool
        requires { Begins self.now i }
        ensures { result ≡ marked_at self.now i }
    {
        marked_in(self.words[i as usize])
    }

    /// The place of the block behind the one that begins at `i`. None exactly where that is the last.
    pub fn next_block(&self, i: u32) -> Option<u32>
        requires { Begins self.now i }
        ensures next { MatchOption result (i + size_at self.now i ≡ length self.now)
            (λ j. (j ≡ i + size_at self.now i) × Begins self.now j) }
        ensures formed { FormedHeap self.now }
    {
        let next = i + self.block_size(i);
        if next < self.size() { Some(next) } else { None }
    }

    /// Writes a word of an object: no header and no link of a block, and no back link of a free block.
    pub fn set_word(&mut self, i: u32, w: u32)
        requires inside { i < length self.old }
        requires object { IsObjectWord self.old i }
        ensures words { self.new ≡ slice_set self.old i w }
        ensures blocks { Blocks self.new ≡ Blocks self.old }
        ensures same { SameBlocks self.old self.new }
        ensures formed { FormedHeap self.new }
    {
        self.put(i, w);
    }

    /// Says whether the block that begins at `i` is used. Only that bit changes.
    pub fn set_used(&mut self, i: u32, used: bool)
        requires { Begins self.old i }
        ensures words { self.new ≡ slice_set self.old i (header_word (size_at self.old i) used (marked_at self.old i)) }
        ensures blocks { Replaces (Blocks self.old) (Blocks self.new) (block_at self.old i ∷ [])
            (record { place = i; size = size_at self.old i; used = used } ∷ []) }
        ensures same { SameBlocks self.old self.new }
        ensures formed { FormedHeap self.new }
        ensures used { used_at self.new i ≡ used }
        ensures marked { marked_at self.new i ≡ marked_at self.old i }
    {
        let size = self.block_size(i);
        let marked = self.marked(i);
        self.put(i, header(size, used, marked));
    }

    /// Marks the block that begins at `i`, or takes its mark away. Only that bit changes.
    pub fn set_marked(&mut self, i: u32, marked: bool)
        requires { Begins self.old i }
        ensures words { self.new ≡ slice_set self.old i (header_word (size_at self.old i) (used_at self.old i) marked) }
        ensures blocks { Blocks self.new ≡ Blocks self.old }
        ensures same { SameBlocks self.old self.new }
        ensures formed { FormedHeap self.new }
        ensures used { used_at self.new i ≡ used_at self.old i }
        ensures marked { marked_at self.new i ≡ marked }
    {
        let size = self.block_size(i);
        let used = self.used(i);
        self.put(i, header(size, used, marked));
    }

    /// The link of the block that begins at `i`: its second word.
    pub fn link(&self, i: u32) -> u32
        requires { Begins self.now i }
        ensures link { result ≡ slice_index self.now (i + 1) }
        ensures formed { FormedHeap self.now }
    {
        // The heap's words are formed, which the place's proof needs.
        let _words = &self.words;
        self.word(i + 1)
    }

    /// Writes the link of the block that begins at `i`.
    pub fn set_link(&mut self, i: u32, w: u32)
        requires { Begins self.old i }
        ensures words { self.new ≡ slice_set self.old (i + 1) w }
        ensures blocks { Blocks self.new ≡ Blocks self.old }
        ensures same { SameBlocks self.old self.new }
        ensures formed { FormedHeap self.new }
    {
        // The heap's words are formed, which the place's proof needs.
        let _words = &self.words;
        self.put(i + 1, w);
    }

    /// Writes the back link of the free block that begins at `i`: its third word.
    pub fn set_back(&mut self, i: u32, w: u32)
        requires { IsFree self.old i }
        ensures words { self.new ≡ slice_set self.old (i + 2) w }
        ensures blocks { Blocks self.new ≡ Blocks self.old }
        ensures same { SameBlocks self.old self.new }
        ensures formed { FormedHeap self.new }
    {
        // The heap's words are formed, which the place's proof needs.
        let _words = &self.words;
        self.put(i + 2, w);
    }

    /// Cuts the free block that begins at `i` into one of `need` words, a positive multiple of 4 below its
    /// size, and a free rest. Only the first words of these two change.
    pub fn split(&mut self, i: u32, need: u32)
        requires free { IsFree self.old i }
        requires rows { need % 4 ≡ 0 }
        requires some { 0 < need }
        requires less { need < size_at self.old i }
        ensures words { self.new ≡ slice_set (slice_set self.old (i + need) (size_at self.old i - need)) i need }
        ensures blocks { Replaces (Blocks self.old) (Blocks self.new) (free_block i (size_at self.old i) ∷ [])
            (free_block i need ∷ free_block (i + need) (size_at self.old i - need) ∷ []) }
        ensures begins { Splits self.old self.new (i + need) }
        ensures formed { FormedHeap self.new }
    {
        let size = self.block_size(i);
        self.words[(i + need) as usize] = size - need;
        self.words[i as usize] = need;
    }

    /// Makes one block of the free block that begins at `i` and the free one behind it. Only word `i`
    /// changes.
    pub fn join(&mut self, i: u32)
        requires free { IsFree self.old i }
        requires next { IsFree self.old (i + size_at self.old i) }
        ensures words { self.new ≡ slice_set self.old i (size_at self.old i + size_at self.old (i + size_at self.old i)) }
        ensures blocks { let next = i + size_at self.old i in
            Replaces (Blocks self.old) (Blocks self.new)
            (free_block i (size_at self.old i) ∷ free_block next (size_at self.old next) ∷ [])
            (free_block i (size_at self.old i + size_at self.old next) ∷ []) }
        ensures begins { Splits self.new self.old (i + size_at self.old i) }
        ensures formed { FormedHeap self.new }
    {
        let size = self.block_size(i);
        let more = self.block_size(i + size);
        self.words[i as usize] = size + more;
    }

    // Writes a word; where it is a header, the size stays.
    fn put(&mut self, i: u32, w: u32)
        requires inside { i < length self.old }
        requires size { Begins self.old i → size_of w ≡ size_at self.old i }
        ensures words { self.new ≡ slice_set self.old i w }
        ensures same { SameBlocks self.old self.new }
        ensures formed_before { FormedHeap self.old }
        ensures formed { FormedHeap self.new }
    {
        self.words[i as usize] = w;
    }
}
