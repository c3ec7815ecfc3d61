// The words of a fresh object.
ghost use Rattle.std.specs.Prelude.{List, ℕ, ◌≡◌, ◌-◌};
ghost use Rattle.heap_words.specs.Blocks.{FormedHeap, IsUsed};
ghost use Rattle.heap_words.specs.Headers.{size_at};
ghost use Rattle.object_layout.specs.Classes.{IsShape};
ghost use Rattle.free_index.specs.Lists.{FreeLists};
ghost use Rattle.mark_sweep.specs.Objects.{shape_word};
ghost use Rattle.heap_allocation.specs.Allocations.{fresh_word};
ghost use Rattle.heap_allocation.specs.Steps.{Laid};

use free_index::laws::object_write_keeps_lists;
use heap_words::Heap;
use heap_words::laws::block_laws;
use object_layout::areas::{descriptor_address, table_address};
use object_layout::{Shape, Shapes};

// The word that names a shape.
fn shape_word(shapes: &Shapes, shape: Shape) -> u32
    requires { IsShape shapes.now shape }
    ensures { result ≡ shape_word shape }
{
    shapes.meets_laws();
    match shape {
        Shape::Class(c) => table_address(c),
        Shape::Kind(k) => descriptor_address(k),
    }
}

// Word `k` of a fresh object, whose first word is given.
#[tactic(auto, unfolding(crate::specs::Allocations::fresh_word))]
fn fresh_word(shape: Shape, length: u32, first: u32, k: u32) -> u32
    requires { first ≡ shape_word shape }
    ensures { result ≡ fresh_word shape length k }
{
    match (shape, k) {
        (_, 0) => first,
        (Shape::Kind(_), 1) => length,
        _ => 0,
    }
}

// Lays a fresh object out in the used block that begins at `i`: its words to the block's end are written.
pub fn lay_out(heap: &mut Heap, shapes: &Shapes, i: u32, shape: Shape, length: u32)
    requires there { IsShape shapes.now shape }
    requires used { IsUsed heap.old i }
    ensures laid { Laid heap.old heap.new shape length i (size_at heap.old i - 2) }
    ensures lists { (heads : List ℕ) → FreeLists heads heap.old → FreeLists heads heap.new }
    ensures formed { FormedHeap heap.new }
{
    block_laws();
    object_write_keeps_lists();
    let first = shape_word(shapes, shape);
    let words = heap.block_size(i) - 2;
    for k in 0..words {
        heap.set_word(i + 2 + k, fresh_word(shape, length, first, k));
    }
}
