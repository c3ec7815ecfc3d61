// What holds of words that stand for a typed state: each law is a function with nothing to do, whose clause is the law.
ghost use Rattle.word_machine.specs.Laws.{SpotsAreRead, SpotsAreWritten, ValuesArePushed, ValuesAreDropped, EmptyStacksAreFree, StandingFalls};

use heap_words::laws::{block_laws, blocks_listed};

/// The word at a spot of the state stands at the address of the operand that points there, whose index is not ESP. It is mapped.
pub fn spots_are_read()
    ensures { SpotsAreRead }
{
    block_laws();
    blocks_listed();
    typed_safety::laws::formed_images_tell();
}

/// Where that word becomes the word of a value, the memory stands for the state with this value at the spot.
pub fn spots_are_written()
    ensures { SpotsAreWritten }
{
    block_laws();
    blocks_listed();
    typed_safety::laws::formed_images_tell();
}

/// A stack that is not full has a word below its top, and a value is pushed by writing its word there.
pub fn values_are_pushed()
    ensures { ValuesArePushed }
{
    typed_safety::laws::formed_images_tell();
}

/// The word on top of the running stack is that of the value on top; values are dropped without a change of any word.
pub fn values_are_dropped()
    ensures { ValuesAreDropped }
{}

/// The last word of an empty stack is no value's: whatever it becomes, the memory stands for the state.
pub fn empty_stacks_are_free()
    ensures { EmptyStacksAreFree }
{
    typed_safety::laws::formed_images_tell();
}

/// Where the memory stands for a state among objects, it stands for it among fewer.
pub fn standing_falls()
    ensures { StandingFalls }
{}
