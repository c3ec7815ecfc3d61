ghost use Rattle.std.specs.Prelude.{◌≡◌, ℕ, ◌≤◌, ◌<◌, ◌+◌, ◌*◌, ◌%◌, ◌==◌, ◌&&◌, Bool, true, false, ◌++◌, length, replicate, slice_get, is_some, Some, IfOk, if◌then◌else◌};
ghost use Rattle.std.specs.Option.{option_map_or};
ghost use Rattle.stack_states.specs.declared.table.TheConstants.{MOST_STACKS};
ghost use Rattle.heap_words.specs.Blocks.{Begins, FormedHeap};
ghost use Rattle.heap_words.specs.Headers.{size_at};
ghost use Rattle.object_layout.specs.Areas.{statics_start, stacks_start, heap_start, word_index};
ghost use Rattle.object_layout.specs.Classes.{table_word, descriptor_word};
ghost use Rattle.tal_image.specs.Shown.{shapes_of, data_words};
ghost use Rattle.typed_machine.specs.States.{first_state, stack_bytes};
ghost use Rattle.typed_machine.specs.Words.{upper_end};
ghost use Rattle.word_machine.specs.Laws.{WriteLeaves};
ghost use Rattle.word_machine.specs.Memory.{word_in, word_of, is_object_word, is_mapped};
ghost use Rattle.word_machine.specs.Standing.{MemoryStands};
ghost use Rattle.word_machine.specs.Stepping.{HeapLaws};

use heap_words::Heap;
use heap_words::laws::{block_laws, blocks_listed};
use ia32_step::Bus;
use no_memory::NoMemory;
use object_layout::areas::{
    DESCRIPTORS_START, HEAP_START, STACKS_START, STATICS_START, TABLES_START, word_index,
};
use std::alloc::Global;
use std::marker::Model;
use tal_image::Image;
use tal_types::ImageView;

/// How many words a stack has at most.
pub const STACK_WORDS: usize = 4096;

/// How many words a class table has.
const TABLE_WORDS: u32 = 64;

/// How many words a descriptor has.
const DESCRIPTOR_WORDS: u32 = 4;

/// The memory of a machine, without its code: class tables, descriptors, statics with the data arrays behind them, stacks, and
/// the heap.
///
/// Each area lies where [`object_layout::areas`] says. In the heap an instruction reads and writes the words of objects alone.
#[derive(Drop)]
pub struct Memory {
    tables: Vec<u32>,
    descriptors: Vec<u32>,
    /// The statics, with the data arrays behind them.
    pub statics: Vec<u32>,
    /// The words of the stacks, one stack behind another.
    pub stacks: Vec<u32>,
    /// The heap.
    pub heap: Heap,
}

impl Model for Memory {
    ghost use Rattle.word_machine.specs.Memory.{MemoryView};

    ghost Value = { MemoryView };

    ghost view = { λ m. record { tables = m.tables.items; descriptors = m.descriptors.items; statics = m.statics.items; stacks = m.stacks.items; heap = m.heap } };
}

impl Memory {
    /// The memory of an image before its first turn: its heap is one free block.
    pub fn new(alloc: Global, image: &Image) -> Result<Memory, NoMemory>
        ensures { IfOk result (λ m. (live : ℕ → Bool) → MemoryStands image.now live (first_state image.now) m) }
    {
        image.formed();
        tal_image::laws::formed_shapes();
        Ok(Memory {
            tables: table_words(alloc, image)?,
            descriptors: descriptor_words(alloc, image)?,
            statics: static_words(alloc, image)?,
            stacks: zeros(alloc, STACK_WORDS * image.stacks() as usize)?,
            heap: Heap::new(alloc, image.heap_words())?,
        })
    }

    /// The heap's words are whole blocks: a fact for the proof.
    pub fn formed(&self)
        ensures { FormedHeap self.now.heap }
    {
        let _size = self.heap.size();
    }

    /// The words of a stack from its top, which ESP tells, to its bottom.
    pub fn stack_words(&self, stack: u32, esp: u32) -> &[u32]
        requires few { stack < MOST_STACKS }
        requires low { stacks_start + stack_bytes * stack ≤ esp }
        requires high { esp ≤ upper_end stack }
        requires aligned { esp % 4 ≡ 0 }
        requires mapped { (a : ℕ) → esp ≤ a → a < upper_end stack → a % 4 ≡ 0 → is_mapped self.now a ≡ true }
        ensures count { 4 * length result.now + esp ≡ upper_end stack }
        ensures each { (k : ℕ) → k < length result.now → slice_get result.now k ≡ word_of self.now (esp + 4 * k) }
    {
        let top = ((esp - STACKS_START) / 4) as usize;
        let end = STACK_WORDS * (stack as usize + 1);
        words_between(&self.stacks, top, end)
    }

    /// The words of the first so many statics.
    pub fn statics(&self, count: u32) -> &[u32]
        requires few { count ≤ 65536 }
        requires mapped { (k : ℕ) → k < count → is_mapped self.now (statics_start + 4 * k) ≡ true }
        ensures count { length result.now ≡ count }
        ensures each { (k : ℕ) → k < count → slice_get result.now k ≡ word_of self.now (statics_start + 4 * k) }
    {
        words_between(&self.statics, 0, count as usize)
    }

    /// The word at an address, if one stands there.
    #[tactic(auto, unfolding(crate::specs::Memory::word_of))]
    fn word(&self, address: u32) -> Option<u32>
        ensures { result ≡ word_of self.now address }
    {
        if address >= HEAP_START {
            heap_word(&self.heap, address)
        } else if address >= STACKS_START {
            word_in(&self.stacks, STACKS_START, address)
        } else if address >= STATICS_START {
            word_in(&self.statics, STATICS_START, address)
        } else if address >= DESCRIPTORS_START {
            word_in(&self.descriptors, DESCRIPTORS_START, address)
        } else {
            word_in(&self.tables, TABLES_START, address)
        }
    }

    /// Puts a word at an address that is mapped. No other word changes, and what is mapped stays so.
    pub fn put(&mut self, address: u32, word: u32)
        requires { is_mapped self.old address ≡ true }
        ensures { WriteLeaves self.old self.new address word }
    {
        heap_lawful();
        let _size = self.heap.size();
        if address >= HEAP_START {
            self.heap.set_word((address - HEAP_START) / 4, word);
        } else if address >= STACKS_START {
            put_in(&mut self.stacks, STACKS_START, address, word);
        } else if address >= STATICS_START {
            put_in(&mut self.statics, STATICS_START, address, word);
        } else if address >= DESCRIPTORS_START {
            put_in(&mut self.descriptors, DESCRIPTORS_START, address, word);
        } else {
            put_in(&mut self.tables, TABLES_START, address, word);
        }
    }
}

impl Bus for Memory {
    ghost use Rattle.word_machine.specs.Memory.{is_mapped, memory_word};

    ghost is_mapped = { is_mapped };

    ghost word_at = { memory_word };

    fn mapped(&self, address: u32) -> bool {
        if address >= HEAP_START {
            return is_object_address(&self.heap, address);
        }
        self.word(address).is_some()
    }

    #[tactic(auto, unfolding(crate::specs::Memory::memory_word))]
    fn load(&self, address: u32) -> u32 {
        self.word(address).unwrap_or(0)
    }

    fn store(&mut self, address: u32, word: u32) {
        self.put(address, word);
    }
}

/// The word at an address, among those of an area that begins at `start`.
fn word_in(words: &[u32], start: u32, address: u32) -> Option<u32>
    ensures { result ≡ word_in start words.now address }
{
    let index = word_index(start, address)?;
    words.get(index as usize).copied()
}

/// The word at an address of the heap.
fn heap_word(heap: &Heap, address: u32) -> Option<u32>
    ensures { result ≡ word_in heap_start heap.now address }
{
    let index = word_index(HEAP_START, address)?;
    if index >= heap.size() {
        return None;
    }
    Some(heap.word(index))
}

/// Whether an object's word stands at an address of the heap. It walks the blocks up to there: no turn asks for it.
fn is_object_address(heap: &Heap, address: u32) -> bool
    ensures { result ≡ (is_some (word_in heap_start heap.now address) && option_map_or (is_object_word heap.now) (word_index heap_start address) false) }
{
    let Some(index) = word_index(HEAP_START, address) else {
        return false;
    };
    index < heap.size() && is_object_word(heap, index)
}

/// Whether a word of the heap is an object's.
fn is_object_word(heap: &Heap, index: u32) -> bool
    requires { index < length heap.now }
    ensures { result ≡ is_object_word heap.now index }
{
    heap_lawful();
    let at = block_with(heap, index);
    heap.used(at) && at + 2 <= index
}

/// The block in which a word of the heap lies.
fn block_with(heap: &Heap, index: u32) -> u32
    requires { index < length heap.now }
    ensures begins { Begins heap.now result }
    ensures behind { result ≤ index }
    ensures before { index < result + size_at heap.now result }
    ensures formed { FormedHeap heap.now }
{
    block_laws();
    let _size = heap.size();
    let mut at = 0;
    while at + heap.block_size(at) <= index {
        at += heap.block_size(at);
    }
    at
}

/// The laws of the heap's blocks: facts for the proof.
pub(crate) fn heap_lawful()
    ensures { HeapLaws }
{
    block_laws();
    blocks_listed();
}

/// Puts a word at an address, where one stands among those of an area that begins at `start`.
fn put_in(words: &mut Vec<u32>, start: u32, address: u32, word: u32)
    requires { is_some (word_in start words.old.items address) ≡ true }
    ensures { (a : ℕ) → word_in start words.new.items a ≡ (if a == address then Some word else word_in start words.old.items a) }
{
    words[((address - start) / 4) as usize] = word;
}

/// The words from number `first` up to number `end`.
fn words_between(words: &[u32], first: usize, end: usize) -> &[u32]
    requires order { first ≤ end }
    requires there { (k : ℕ) → first ≤ k → k < end → k < length words.now }
    ensures count { first + length result.now ≡ end }
    ensures each { (k : ℕ) → k < length result.now → slice_get result.now k ≡ slice_get words.now (first + k) }
{
    if first == end {
        return &[];
    }
    &words[first..end]
}

/// So many words that are 0.
fn zeros(alloc: Global, count: usize) -> Result<Vec<u32>, NoMemory>
    ensures { IfOk result (λ words. words.items ≡ replicate count 0) }
{
    Ok(vec![in alloc; 0u32; count]?)
}

/// The words of the class tables, one table behind another.
fn table_words(alloc: Global, image: &Image) -> Result<Vec<u32>, NoMemory>
    ensures { IfOk result (λ words. (c k : ℕ) → c < length image.now.classes → k < 64
        → slice_get words.items (64 * c + k) ≡ table_word (shapes_of image.now) c k) }
{
    let shapes = image.shapes();
    let mut words = Vec::new(alloc);
    for i in 0..TABLE_WORDS * image.classes() {
        let word = shapes.table_word(i / TABLE_WORDS, i % TABLE_WORDS);
        words.push(word.unwrap())?;
    }
    Ok(words)
}

/// The words of the descriptors, one descriptor behind another.
fn descriptor_words(alloc: Global, image: &Image) -> Result<Vec<u32>, NoMemory>
    ensures { IfOk result (λ words. (d k : ℕ) → d < length image.now.kinds → k < 4
        → slice_get words.items (4 * d + k) ≡ descriptor_word (shapes_of image.now) d k) }
{
    let shapes = image.shapes();
    let mut words = Vec::new(alloc);
    for i in 0..DESCRIPTOR_WORDS * image.kinds() {
        let word = shapes.descriptor_word(i / DESCRIPTOR_WORDS, i % DESCRIPTOR_WORDS);
        words.push(word.unwrap())?;
    }
    Ok(words)
}

/// The words of the statics, which are 0, with the data arrays behind them.
fn static_words(alloc: Global, image: &Image) -> Result<Vec<u32>, NoMemory>
    ensures { IfOk result (λ words. words.items ≡ replicate (length image.now.statics) 0 ++ data_words image.now) }
{
    image.formed();
    let mut words = zeros(alloc, image.statics().len())?;
    let mut i = 0;
    while let Some(word) = image.data_word(i) {
        words.push(word)?;
        i += 1;
    }
    Ok(words)
}
