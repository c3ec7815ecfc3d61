// Clear words and gaps, over definitions alone.
ghost use Rattle.std.specs.Prelude.{List, ℕ, ◌≡◌, ◌<◌, ◌≤◌, ◌⊎◌, ◌↔◌, ◌∷◌};
ghost use Rattle.heap_words.specs.Blocks.{FormedHeap};
ghost use Rattle.object_layout.specs.Classes.{ShapesView, IsShape};
ghost use Rattle.object_layout.specs.Laws.{ClassLaws};
ghost use Rattle.object_layout.specs.declared.rows.Shape.{Shape};
ghost use Rattle.mark_sweep.specs.Collections.{Collects, IsGap};
ghost use Rattle.mark_sweep.specs.Objects.{address};
ghost use Rattle.mark_sweep.specs.Reached.{AllGood, Reached};
ghost use Rattle.heap_allocation.specs.Allocations.{Allocated, IsClear, KeepsReached, LieInGap};

use heap_words::laws::block_laws;
use mark_sweep::laws::{gaps_are_free, shapes_come_back};

/// So many words of a gap are clear.
pub fn gaps_are_clear()
    ensures { (s : ShapesView) (words list : List ℕ) (i n need : ℕ) → IsGap s words list i n → need ≤ n
        → IsClear s words list i need }
{}

/// Clear words lie in one gap of the heap: what a collection leaves tells which.
pub fn clear_words_lie_in_gaps()
    ensures { (s : ShapesView) (before list after : List ℕ) → FormedHeap after → Collects s before list after
        → (i n : ℕ) → 0 < n → IsClear s before list i n → LieInGap s before list i n }
{
    block_laws();
    gaps_are_free();
}

/// After an allocation all is good with the fresh object's address before the listed words, so that they may be given
/// to the next call. They reach exactly what the listed words reached, and the fresh object.
pub fn allocations_stay_good()
    ensures { (s : ShapesView) (before list after : List ℕ) (shape : Shape) (elements at : ℕ) → ClassLaws s
        → IsShape s shape → FormedHeap before → AllGood s before list → KeepsReached s before list after
        → Allocated s before list after shape elements at
        → AllGood s after (at ∷ list)
        × ((i : ℕ) → Reached s after (at ∷ list) i ↔ (Reached s before list i ⊎ (at ≡ address i))) }
{
    block_laws();
    shapes_come_back();
}
