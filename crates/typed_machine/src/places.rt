// Whether blocks lie in a heap as legal answers place them.
ghost use Rattle.std.specs.Prelude.{◌↔◌, IsTrue};
ghost use Rattle.std.specs.List.{All, AllPairs};
ghost use Rattle.typed_machine.specs.Placing.{WordsLie, WordsApart, PlacesLie};

/// Whether blocks, each told as its first word and how many words it needs, all lie in a heap of so many words at multiples of 4, and
/// no two overlap. Every two are compared, since it takes no memory.
pub fn places_ok(words: u32, blocks: &[(u32, u64)]) -> bool
    ensures { IsTrue result ↔ PlacesLie words blocks.now }
{
    blocks.iter().all(|block| lies(words, *block)) && are_apart(blocks)
}

// Whether a block lies in the heap at a multiple of 4.
fn lies(words: u32, block: (u32, u64)) -> bool
    ensures { IsTrue result ↔ WordsLie words block }
{
    let (first, count) = block;
    first % 4 == 0 && first <= words && count <= (words - first) as u64
}

// Whether no two overlap.
fn are_apart(blocks: &[(u32, u64)]) -> bool
    ensures { IsTrue result ↔ AllPairs WordsApart blocks.now }
{
    for at in 0..blocks.len() {
        let (_, later) = blocks.split_at(at + 1);
        if !is_apart_from(blocks[at], later) {
            return false;
        }
    }
    true
}

// Whether a block overlaps none of these.
fn is_apart_from(block: (u32, u64), others: &[(u32, u64)]) -> bool
    ensures { IsTrue result ↔ All (WordsApart block) others.now }
{
    others.iter().all(|other| is_apart(block, *other))
}

// Whether no word is in both blocks. A block may have no words.
fn is_apart(block: (u32, u64), other: (u32, u64)) -> bool
    ensures { IsTrue result ↔ WordsApart block other }
{
    let (first, count) = block;
    let (second, others) = other;
    if first <= second {
        count <= (second - first) as u64 || others == 0
    } else {
        others <= (first - second) as u64 || count == 0
    }
}
