// What holds of the definitions alone: each law is a function with nothing to do, whose clause is the law.
ghost use Rattle.tal_checker.specs.Frames.{RowsByAddress};
ghost use Rattle.std.specs.Prelude.{◌≡◌, ℕ};
ghost use Rattle.tal_types.specs.Contexts.{LiveContext, Live};
ghost use Rattle.tal_flow.specs.Strongest.{HasOneHead};
ghost use Rattle.tal_image.specs.Formed.{Formed};
ghost use Rattle.tal_image.specs.Image.{ImageParts};
ghost use Rattle.tal_checker.specs.Laws.{CodeLaws};
ghost use Rattle.tal_checker.specs.WellTyped.{WellTyped, StrongestDecides, OneRefusal, strongest_at};
ghost use Rattle.tal_checker.specs.Running.{AcceptedRuns};

use ia32_code::Reg;
use tal_types::Ty;

/// The law of the strongest context: an image is well typed exactly where no rule fails in the strongest contexts.
pub fn strongest_decides()
    ensures { StrongestDecides }
{
    tal_image::laws::formed_shapes();
    tal_flow::laws::strongest_contexts();
}

/// A formed image is refused at one address by one rule, or it is well typed, and not both.
pub fn one_refusal()
    ensures { OneRefusal }
{
    strongest_decides();
    tal_flow::laws::strongest_contexts();
    tal_flow::laws::least_rule();
}

/// The contexts of an image: no table register of a strongest one has two heads, since its blocks know of no heads.
pub fn one_head()
    ensures { (image : ImageParts) (pc : ℕ) → HasOneHead (strongest_at image pc) }
{
    tal_flow::laws::one_head();
}

/// Nothing is known of what ESP holds in a live strongest context of a well typed image: its type is Junk.
pub fn esp_is_junk()
    ensures { (image : ImageParts) (pc : ℕ) (c : LiveContext) → WellTyped image → strongest_at image pc ≡ Live c → c.regs Reg.Esp ≡ Ty.Junk }
{
    strongest_decides();
    tal_flow::laws::esp_is_junk();
}

/// The rows of an image's frames by their addresses: one exactly where an instruction begins, by the strongest context there.
pub fn rows_by_address()
    ensures { RowsByAddress }
{}

/// What a formed image tells of its code: its functions begin where their bytes do, instructions begin at its blocks, and what
/// begins at an offset is the instruction at its address.
pub fn code_laws()
    ensures { (image : ImageParts) (formed : Formed image) → CodeLaws image formed }
{
    ia32_code::laws::front_law();
    ia32_code::laws::spelling_length();
}

/// What a run of an accepted image rests on: its instructions are spelled by the code, no rule fails at one, and wherever a
/// run falls, branches or calls, it arrives at an instruction whose strongest context is above what it knows.
pub fn accepted_runs()
    ensures { AcceptedRuns }
{
    strongest_decides();
    tal_flow::laws::strongest_contexts();
    tal_flow::laws::least_rule();
    tal_types::laws::type_laws();
    ia32_code::laws::front_law();
    ia32_code::laws::spelling_length();
}
