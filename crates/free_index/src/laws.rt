// What the classes and the lists say, over definitions alone.
ghost use Rattle.std.specs.Prelude.{List, ℕ, ◌≡◌, ◌<◌, ◌≤◌, ◌+◌, ◌-◌, ◌*◌, ◌/◌, ◌%◌, ◌^◌, slice_set};
ghost use Rattle.heap_words.specs.Blocks.{IsObjectWord};
ghost use Rattle.free_index.specs.Classes.{class_of_size};
ghost use Rattle.free_index.specs.Laws.{LinkLaws};
ghost use Rattle.free_index.specs.Lists.{FreeLists};

use heap_words::laws::block_laws;

/// The class of a size: `size / 4 - 1` up to 64 words; above, `16 + j` from `64 * 2^j` to `128 * 2^j`.
pub fn class_rule()
    ensures small { (size : ℕ) → size % 4 ≡ 0 → 0 < size → size ≤ 64 → class_of_size size ≡ size / 4 - 1 }
    ensures large { (size j : ℕ) → j < 16 → 64 * 2 ^ j < size → size ≤ 128 * 2 ^ j
        → class_of_size size ≡ 16 + j }
{}

/// A write of an object's word keeps the lists: heads that stood for the free blocks still do.
pub fn object_write_keeps_lists()
    ensures { (heads words : List ℕ) (i w : ℕ) → FreeLists heads words → IsObjectWord words i
        → FreeLists heads (slice_set words i w) }
{
    block_laws();
}

/// What stays where only links and back links of free blocks change.
pub fn link_laws()
    ensures { LinkLaws }
{
    block_laws();
}
