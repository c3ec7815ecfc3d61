// An instruction's bytes, and where the words lie in them that are left to the linker.
ghost use Rattle.std.specs.Prelude.{◌≡◌, ℕ, ◌+◌, ◌≤◌, List, length, IfSome};
ghost use Rattle.std.specs.Option.{option_map, option_or};
ghost use Rattle.code_words.specs.Meaning.{meant_by};
ghost use Rattle.tal_code.specs.Holes.{spelling_for, spelled_as, hole_place, with_places, holed_code, WordsWithin, IsWithin, PlacesWithin};
ghost use Rattle.tal_code.specs.Labels.{words_length};

use code_words::{Words, meant};
use ia32_code::{CodeBuf, Inst, WholeWords, encode, len_of, whole_words};
use tal_operands::{Hole, Instruction};

/// The canonical spelling of an instruction, and where its whole words lie.
#[derive(Drop)]
pub struct SpelledWords {
    pub bytes: CodeBuf,
    pub places: WholeWords,
}

/// A word that is left to the linker, `at` bytes into an instruction.
#[derive(Clone, Copy, Drop)]
pub struct HolePlace {
    pub at: u8,
    pub hole: Hole,
}

/// The canonical spelling of an instruction, in which some word stands for each of its holes, and where these lie: `near` in its
/// address, `far` at its end.
#[derive(Drop)]
pub struct HoledCode {
    pub bytes: CodeBuf,
    pub near: Option<HolePlace>,
    pub far: Option<HolePlace>,
}

// The instruction that words mean.
fn inst_of(words: Words) -> Option<Inst>
    ensures { result ≡ meant_by words }
{
    meant(words)
}

// The canonical spelling of what words mean.
fn spelled(words: Words) -> Option<SpelledWords>
    ensures spelling { result ≡ option_map spelled_as (spelling_for words) }
    ensures within { IfSome result WordsWithin }
{
    ia32_code::laws::spelling_length();
    ia32_code::laws::canonical_is_first();
    ia32_code::laws::any_word_fits();
    let inst = inst_of(words)?;
    let mut bytes = CodeBuf::new();
    if encode(&inst, &mut bytes).is_err() {
        return None;
    }
    let places = whole_words(bytes.bytes())?;
    Some(SpelledWords { bytes, places })
}

// A hole in a whole word. None where there is a hole and no word for it.
#[tactic(auto, unfolding(crate::specs::Holes::hole_place))]
fn hole_place(hole: Option<Hole>, place: Option<u8>) -> Option<Option<HolePlace>>
    ensures place { result ≡ hole_place hole place }
    ensures within { (bytes : List ℕ) → IfSome place (λ k. k + 4 ≤ length bytes) → IfSome result (IsWithin bytes) }
{
    match hole {
        None => Some(None),
        Some(hole) => match place {
            None => None,
            Some(at) => Some(Some(HolePlace { at, hole })),
        },
    }
}

// The first, where there is one, else the second.
fn first_of(first: Option<u8>, second: Option<u8>) -> Option<u8>
    ensures value { result ≡ option_or first second }
    ensures within { (bytes : List ℕ) → IfSome first (λ k. k + 4 ≤ length bytes) → IfSome second (λ k. k + 4 ≤ length bytes)
        → IfSome result (λ k. k + 4 ≤ length bytes) }
{
    match first {
        Some(place) => Some(place),
        None => second,
    }
}

// The bytes with the places of an instruction's holes.
#[tactic(auto, unfolding(crate::specs::Holes::with_places))]
fn with_places(instruction: &Instruction, spelled: SpelledWords) -> Option<HoledCode>
    requires { WordsWithin spelled }
    ensures code { result ≡ with_places instruction.now spelled }
    ensures within { IfSome result PlacesWithin }
{
    let SpelledWords { bytes, places } = spelled;
    let near = hole_place(instruction.near, first_of(places.within, places.at_end))?;
    let far = hole_place(instruction.far, places.at_end)?;
    Some(HoledCode { bytes, near, far })
}

/// The bytes of an instruction with the places of its holes. None where it has no spelling.
#[tactic(auto, unfolding(crate::specs::Holes::holed_code))]
pub fn holed_code(instruction: &Instruction) -> Option<HoledCode>
    ensures code { result ≡ holed_code instruction.now }
    ensures within { IfSome result PlacesWithin }
{
    with_places(instruction, spelled(instruction.words)?)
}

/// How long the canonical spelling of what words mean is, in bytes; 0 where there is none.
#[tactic(auto, unfolding(crate::specs::Labels::words_length))]
pub fn words_length(words: Words) -> u8
    ensures { result ≡ words_length words }
{
    match inst_of(words) {
        Some(inst) => len_of(&inst),
        None => 0,
    }
}
