// What holds of the definitions alone: the law is a function with nothing to do, whose clause is the law.
ghost use Rattle.root_words.specs.Laws.{RootsAreExact};

/// The roots are exact: at a call of a typed state, the words that are listed are those of the state's roots, as lists.
pub fn roots_are_exact()
    ensures { RootsAreExact }
{
    tal_checker::laws::rows_by_address();
}
