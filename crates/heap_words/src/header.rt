// The first word of a block: its size, bit 0 for used and bit 1 for marked.
ghost use Rattle.std.specs.Prelude.{◌≡◌, ◌%◌};
ghost use Rattle.heap_words.specs.Headers.{header_word, size_of, used_of, marked_of};

// The header word of a block.
#[tactic(auto, unfolding(crate::specs::Headers::header_word))]
pub fn header(size: u32, used: bool, marked: bool) -> u32
    requires { size % 4 ≡ 0 }
    ensures { result ≡ header_word size used marked }
{
    size + (u32::from(used) + 2 * u32::from(marked))
}

// The size that a header word has.
#[tactic(auto, unfolding(crate::specs::Headers::size_of))]
pub fn size_in(word: u32) -> u32
    ensures size { result ≡ size_of word }
    ensures rows { result % 4 ≡ 0 }
{
    word / 4 * 4
}

#[tactic(auto, unfolding(crate::specs::Headers::used_of))]
pub fn used_in(word: u32) -> bool
    ensures { result ≡ used_of word }
{
    word % 2 == 1
}

#[tactic(auto, unfolding(crate::specs::Headers::marked_of))]
pub fn marked_in(word: u32) -> bool
    ensures { result ≡ marked_of word }
{
    word / 2 % 2 == 1
}
