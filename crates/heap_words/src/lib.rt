// A heap of 32-bit words that are divided into blocks. A block's first word has its size in words, bit 0
// for used and bit 1 for marked; its second word is a link; in a free block the third word is the back link.
//
// `Heap` keeps its words a list of blocks up to their end exactly (`specs/Blocks.antt`: `Blocks`,
// `FormedHeap`), and contracts see a heap as its list of words. Each call says what becomes of the list of blocks
// and of every other word. `laws` ties that list to the places at which blocks begin.
#![tactic(auto)]

mod header;
mod heap;
pub mod laws;

pub use heap::Heap;
