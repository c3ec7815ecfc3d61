// What holds of the definitions alone. Each law is a function with nothing to do, whose clause is the law.
ghost use Rattle.std.specs.Prelude.{◌≡◌, ◌≤◌, ◌<◌, List, ℕ, Some, None, length, IfSome};
ghost use Rattle.ia32_code.specs.declared.instruction.Inst.{Inst};
ghost use Rattle.ia32_code.specs.declared.spelling.Spelling.{Spelling};
ghost use Rattle.ia32_code.specs.Spells.{Spells, Filled};
ghost use Rattle.ia32_code.specs.Decoding.{PrefixLaw, DecodedLaw, FrontLaw, ReadBack};
ghost use Rattle.ia32_code.specs.Canonical.{Canonical, HasNone};
ghost use Rattle.ia32_code.specs.Ranges.{InstInRange};
ghost use Rattle.ia32_code.specs.Order.{IsNotShorter, IsFirst};
ghost use Rattle.ia32_code.specs.WholeWords.{WordPlace, Within, AtEnd, Filling, whole_word, Fillable, EndStays};

/// The prefix law: no spelling is a proper prefix of another, and no bytes spell two instructions.
pub fn prefix_law()
    ensures { PrefixLaw }
{}

/// Bytes that begin with a spelling are decoded as its instruction, whatever follows.
pub fn front_law()
    ensures { FrontLaw }
{}

/// Bytes that begin with a spelling are read as it, whatever follows: each spelling is read back.
pub fn spellings_are_read()
    ensures { ReadBack }
{}

/// The answer to bytes, as `decode` gives it, tells what they begin with. By the prefix law no other answer does.
pub fn decoded_law()
    ensures { DecodedLaw }
{}

/// A spelling has one to eleven bytes.
pub fn spelling_length()
    ensures { (text : List ℕ) (inst : Inst) → Spells text inst → (0 < length text) × (length text ≤ 11) }
{}

/// The canonical spelling of an instruction is one of its spellings.
pub fn canonical_spells()
    ensures { (inst : Inst) → InstInRange inst → IfSome (Canonical inst) (λ text. Spells text inst) }
{}

/// An instruction without a canonical spelling has no spelling.
pub fn canonical_is_none()
    ensures { (inst : Inst) → Canonical inst ≡ None → HasNone inst }
{}

/// An instruction that is spelled has a canonical spelling, and no spelling is shorter, but for the short forms of branches.
pub fn canonical_is_shortest()
    ensures { (text : List ℕ) (inst : Inst) → Spells text inst → IsNotShorter text inst }
{}

/// Among spellings that are equally long the canonical one is the first in the table, with scale bits 0 where there is no
/// index. This law contains the one before.
pub fn canonical_is_first()
    ensures { (spelling : Spelling) → Filled spelling → IsFirst spelling }
{}

/// Any word may stand where a whole word stands in a spelling: the bytes are a spelling again, the same but for this word.
pub fn any_word_fits()
    ensures { (place : WordPlace) (spelling : Spelling) (filling : Filling) → Filled spelling
        → whole_word place spelling ≡ Some filling → Fillable spelling filling }
{}

/// Another word within leaves the word at the end where it was, and as it was.
pub fn end_word_stays()
    ensures { (spelling : Spelling) (inner outer : Filling) (word : ℕ) → Filled spelling
        → whole_word Within spelling ≡ Some inner → whole_word AtEnd spelling ≡ Some outer
        → EndStays spelling inner outer word }
{}
