// What holds of linking: what comes out is an image. The laws behind it compute the definition on small units. Each law is a
// function with few calls or none, whose clause is the law.
ghost use Rattle.image_linker.specs.Examples.{HeapIsGivenTwice, HeapIsMissing, TwoUnitsLink};
ghost use Rattle.image_linker.specs.Laws.{LinkedIsImage};

/// What units link to is an image: each of its conditions follows from those of the units and from no fault having come.
pub fn linked_is_image()
    ensures { LinkedIsImage }
{
    ia32_code::laws::any_word_fits();
    ia32_code::laws::spellings_are_read();
    ia32_code::laws::spelling_length();
    object_layout::laws::lineage_laws();
}

/// Units that both give the heap's words give them twice.
pub fn heap_is_given_twice()
    ensures { HeapIsGivenTwice }
{}

/// A unit that gives no heap lacks it.
pub fn heap_is_missing()
    ensures { HeapIsMissing }
{}

/// A unit whose function calls that of another links with it, and the call's distance is filled in.
pub fn two_units_link()
    ensures { TwoUnitsLink }
{}
