// Laws over the definitions.
ghost use Rattle.text_tokens.specs.Laws.{EachWordIsFound};

/// The table of words has each word once: its letters lead to it, and to no other.
pub fn words_are_found()
    ensures { EachWordIsFound }
{}
