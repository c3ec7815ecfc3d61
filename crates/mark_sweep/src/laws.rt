// What objects' words say and what a collection leaves, over definitions alone.
ghost use Rattle.std.specs.Prelude.{List, ℕ, ◌≡◌, ◌≤◌, ◌+◌, ◌↔◌, IsTrue, length, slice_index};
ghost use Rattle.heap_words.specs.Headers.{size_at};
ghost use Rattle.heap_words.specs.Blocks.{FormedHeap, IsFree};
ghost use Rattle.object_layout.specs.Areas.{heap_start};
ghost use Rattle.object_layout.specs.Classes.{ShapesView, IsShape};
ghost use Rattle.object_layout.specs.declared.rows.Shape.{Shape};
ghost use Rattle.mark_sweep.specs.Collections.{Collects, IsGap, used_words};
ghost use Rattle.mark_sweep.specs.Objects.{IsObject, IsReference, address, holds_reference, shape_named, shape_word};
ghost use Rattle.mark_sweep.specs.Swept.{free_block_words};

use heap_words::laws::{block_laws, blocks_tile};

/// A reference field or element of an object lies in the object's block, behind its first word.
pub fn references_lie_within()
    ensures { (s : ShapesView) (words : List ℕ) (i k : ℕ) → IsObject s words i
        → IsTrue (holds_reference s (shape_named (slice_index words (i + 2))) (slice_index words (i + 3)) k)
        → IsReference s words i k }
{}

/// The word that names a class or a kind of a table names no other.
pub fn shapes_come_back()
    ensures { (s : ShapesView) (shape : Shape) → length s.classes ≤ 1024 → IsShape s shape
        → shape_named (shape_word shape) ≡ shape }
{}

/// The address of a block's object tells the block, and is not below the heap.
pub fn addresses_tell_blocks()
    ensures apart { (i j : ℕ) → address i ≡ address j → i ≡ j }
    ensures in_heap { (i : ℕ) → heap_start ≤ address i }
{}

/// After a collection the gaps between the blocks that it keeps are the free blocks.
pub fn gaps_are_free()
    ensures { (s : ShapesView) (before list after : List ℕ) → FormedHeap after → Collects s before list after
        → (i n : ℕ) → (IsFree after i × (size_at after i ≡ n)) ↔ IsGap s before list i n }
{
    block_laws();
}

/// The words of the free blocks are the heap's words less those of the used blocks.
pub fn free_and_used_words()
    ensures { (words : List ℕ) → FormedHeap words → free_block_words words + used_words words ≡ length words }
{
    blocks_tile();
}
