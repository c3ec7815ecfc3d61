// What holds of blocks, over definitions alone.
ghost use Rattle.std.specs.Prelude.{List, ℕ, length, Contains, ◌↔◌};
ghost use Rattle.heap_words.specs.Blocks.{Block, Blocks, FormedHeap, IsBlock, Tiles};
ghost use Rattle.heap_words.specs.Laws.{BlockLaws};

/// The blocks of a heap's list follow each other from the first word up to the heap's end exactly.
pub fn blocks_tile()
    ensures { (words : List ℕ) → FormedHeap words → Tiles 0 (Blocks words) (length words) }
{}

/// The list has exactly the blocks that begin somewhere in the heap, with their sizes and uses.
pub fn blocks_listed()
    ensures { (words : List ℕ) → FormedHeap words → (block : Block) → Contains (Blocks words) block ↔ IsBlock words block }
{}

/// Where blocks lie, what headers say of them, and how the list of blocks follows the headers.
pub fn block_laws()
    ensures { BlockLaws }
{}
