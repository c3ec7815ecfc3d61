// What holds of the definitions alone: each law is a function with nothing to do, whose clause is the law.
ghost use Rattle.typed_heap.specs.Laws.{WordsAgree, AllocationsStand, CollectionsStand, ValuesKeepWords, FreeWordsAreCounted, TypedRootsRefer};

/// The words are good for a collection, and reach the blocks of the objects that the roots reach.
pub fn words_agree()
    ensures { WordsAgree }
{
    mark_sweep::laws::references_lie_within();
    mark_sweep::laws::shapes_come_back();
    tal_image::laws::formed_shapes();
    reached_objects::laws::reach_is_least();
}

/// An allocation is answered as the typed machine allows: the place lies in a gap, or no gap has the need. Afterwards the
/// words stand for what the roots and the reply reach.
pub fn allocations_stand()
    ensures { AllocationsStand }
{
    mark_sweep::laws::references_lie_within();
    mark_sweep::laws::shapes_come_back();
    tal_image::laws::formed_shapes();
    reached_objects::laws::reach_is_least();
}

/// After a collection the words stand for what the roots reach.
pub fn collections_stand()
    ensures { CollectionsStand }
{
    mark_sweep::laws::references_lie_within();
    mark_sweep::laws::shapes_come_back();
    tal_image::laws::formed_shapes();
    reached_objects::laws::reach_is_least();
}

/// An allocation changes no word of a value that was there.
pub fn values_keep_words()
    ensures { ValuesKeepWords }
{}

/// What is left of the heap's words beside the reached blocks is what the typed machine replies to a collection.
pub fn free_words_are_counted()
    ensures { FreeWordsAreCounted }
{
    mark_sweep::laws::references_lie_within();
    mark_sweep::laws::shapes_come_back();
    tal_image::laws::formed_shapes();
    reached_objects::laws::reach_is_least();
}

/// The roots of a typed state at a call are null or objects, and have what data arrays refer to.
pub fn typed_roots_refer()
    ensures { TypedRootsRefer }
{}
