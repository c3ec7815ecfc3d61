// What holds of the definitions alone. Each law is a function with nothing to do, whose clause is the law.
ghost use Rattle.std.specs.Prelude.{◌≡◌, Some};
ghost use Rattle.ia32_code.specs.declared.instruction.Inst.{Inst};
ghost use Rattle.code_words.specs.declared.words.Words.{Words};
ghost use Rattle.code_words.specs.Saying.{said_of, HasByteCount};

/// No two instructions have the same words.
pub fn words_say_one_instruction()
    ensures { (i j : Inst) (words : Words) → HasByteCount i → HasByteCount j → said_of i ≡ Some words → said_of j ≡ Some words
        → i ≡ j }
{}
