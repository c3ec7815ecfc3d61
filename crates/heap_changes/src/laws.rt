// What holds of the definitions alone: each law is a function with nothing to do, whose clause is the law.
ghost use Rattle.heap_changes.specs.Laws.{HeapIsReplaced, StatesKeepWords, FirstHeapIsFree};

/// A memory whose heap is replaced stands for the state with more objects, where those of the heap stand in the new words.
pub fn heap_is_replaced()
    ensures { HeapIsReplaced }
{
    heap_words::laws::block_laws();
    tal_image::laws::formed_shapes();
}

/// The words that are kept of stacks are the same over the places of more objects.
pub fn states_keep_words()
    ensures { StatesKeepWords }
{}

/// Before the first turn the memory stands with a heap of any blocks.
pub fn first_heap_is_free()
    ensures { FirstHeapIsFree }
{
    tal_image::laws::formed_shapes();
}
