// What holds of the definitions alone. Each law is a function with nothing to do, whose clause is the law.
ghost use Rattle.std.specs.Prelude.{◌≡◌, ℕ, List, [], Some};
ghost use Rattle.ia32_code.specs.declared.instruction.Inst.{Inst};
ghost use Rattle.ia32_code.specs.Ranges.{InstInRange};
ghost use Rattle.code_words.specs.Meaning.{meant_by};
ghost use Rattle.tal_image.specs.declared.parts.FunctionPart.{FunctionPart};
ghost use Rattle.tal_syntax.specs.declared.module.TextLine.{TextLine};
ghost use Rattle.tal_names.specs.Declarations.{Names};
ghost use Rattle.tal_operands.specs.declared.instructions.Instruction.{Instruction};
ghost use Rattle.tal_code.specs.declared.holes.HoledCode.{HoledCode};
ghost use Rattle.tal_code.specs.Holes.{holed_code, IsOpen};
ghost use Rattle.tal_code.specs.Functions.{UnitCodeView, no_code};
ghost use Rattle.tal_code.specs.Formed.{CodeFormed, LeadsOn, Grows};

/// The bytes of an instruction with 0 in its holes spell an instruction.
pub fn open_bytes_are_spelled()
    ensures { (i : Instruction) (inst : Inst) (code : HoledCode) → meant_by i.words ≡ Some inst → InstInRange inst
        → holed_code i ≡ Some code → IsOpen code }
{
    ia32_code::laws::canonical_spells();
    ia32_code::laws::canonical_is_first();
    ia32_code::laws::any_word_fits();
    ia32_code::laws::end_word_stays();
}

/// Before the first function there is no code.
pub fn no_code_leads()
    ensures { (m : Names) → CodeFormed m [] no_code }
{}

/// A function more adds code to which the conditions of unit files apply, and keeps what stands before it.
pub fn functions_lead_on()
    ensures { (m : Names) (own : List FunctionPart) (sig : ℕ) (u d : UnitCodeView) (lines : List TextLine) → LeadsOn m own sig u lines d }
{
    ia32_code::laws::spellings_are_read();
    ia32_code::laws::spelling_length();
    ia32_code::laws::canonical_spells();
    ia32_code::laws::canonical_is_first();
    ia32_code::laws::any_word_fits();
    ia32_code::laws::end_word_stays();
}

/// A function takes nothing from the code before it, and adds to it where it has an instruction.
pub fn functions_grow()
    ensures { (m : Names) (u d : UnitCodeView) (lines : List TextLine) → Grows m u lines d }
{
    ia32_code::laws::spelling_length();
    ia32_code::laws::canonical_spells();
    ia32_code::laws::canonical_is_first();
    ia32_code::laws::any_word_fits();
}
