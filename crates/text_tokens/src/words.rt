// The words that are no names, each with its letters.
ghost use Rattle.std.specs.Prelude.{◌≡◌, drop};
ghost use Rattle.text_tokens.specs.Words.{keyword_text, word_letters, first_written, word_written};

use crate::token::Keyword;
use code_words::{Mnemonic, register_text};
use ia32_code::{Alu, Cond, Reg, Shift};

/// A word with a meaning of its own.
#[derive(Clone, Copy, Debug, PartialEq, Eq, Drop)]
pub enum Word {
    Key(Keyword),
    Register(Reg),
    Mnemonic(Mnemonic),
}

/// All words.
pub const WORDS: [Word; 77] = [
    Word::Key(Keyword::Heap),
    Word::Key(Keyword::Stacks),
    Word::Key(Keyword::Entry),
    Word::Key(Keyword::Sig),
    Word::Key(Keyword::Kind),
    Word::Key(Keyword::Static),
    Word::Key(Keyword::Data),
    Word::Key(Keyword::Class),
    Word::Key(Keyword::Below),
    Word::Key(Keyword::Field),
    Word::Key(Keyword::Method),
    Word::Key(Keyword::Func),
    Word::Key(Keyword::End),
    Word::Key(Keyword::Extern),
    Word::Key(Keyword::Num),
    Word::Key(Keyword::Ref),
    Word::Key(Keyword::Obj),
    Word::Key(Keyword::ArrRef),
    Word::Key(Keyword::Arr),
    Word::Key(Keyword::Fun),
    Word::Key(Keyword::Code),
    Word::Key(Keyword::Tab),
    Word::Key(Keyword::Desc),
    Word::Key(Keyword::Junk),
    Word::Key(Keyword::Null),
    Word::Key(Keyword::Display),
    Word::Key(Keyword::Nucleus),
    Word::Key(Keyword::Cl),
    Word::Register(Reg::Eax),
    Word::Register(Reg::Ecx),
    Word::Register(Reg::Edx),
    Word::Register(Reg::Ebx),
    Word::Register(Reg::Esp),
    Word::Register(Reg::Ebp),
    Word::Register(Reg::Esi),
    Word::Register(Reg::Edi),
    Word::Mnemonic(Mnemonic::Alu(Alu::Add)),
    Word::Mnemonic(Mnemonic::Alu(Alu::Or)),
    Word::Mnemonic(Mnemonic::Alu(Alu::And)),
    Word::Mnemonic(Mnemonic::Alu(Alu::Sub)),
    Word::Mnemonic(Mnemonic::Alu(Alu::Xor)),
    Word::Mnemonic(Mnemonic::Alu(Alu::Cmp)),
    Word::Mnemonic(Mnemonic::Mov),
    Word::Mnemonic(Mnemonic::Lea),
    Word::Mnemonic(Mnemonic::Test),
    Word::Mnemonic(Mnemonic::Inc),
    Word::Mnemonic(Mnemonic::Dec),
    Word::Mnemonic(Mnemonic::Not),
    Word::Mnemonic(Mnemonic::Neg),
    Word::Mnemonic(Mnemonic::Mul),
    Word::Mnemonic(Mnemonic::Imul),
    Word::Mnemonic(Mnemonic::Div),
    Word::Mnemonic(Mnemonic::Idiv),
    Word::Mnemonic(Mnemonic::Shift(Shift::Shl)),
    Word::Mnemonic(Mnemonic::Shift(Shift::Shr)),
    Word::Mnemonic(Mnemonic::Shift(Shift::Sar)),
    Word::Mnemonic(Mnemonic::Cdq),
    Word::Mnemonic(Mnemonic::Nop),
    Word::Mnemonic(Mnemonic::Push),
    Word::Mnemonic(Mnemonic::Pop),
    Word::Mnemonic(Mnemonic::Call),
    Word::Mnemonic(Mnemonic::Ret),
    Word::Mnemonic(Mnemonic::Jmp),
    Word::Mnemonic(Mnemonic::Jcc(Cond::O)),
    Word::Mnemonic(Mnemonic::Jcc(Cond::No)),
    Word::Mnemonic(Mnemonic::Jcc(Cond::B)),
    Word::Mnemonic(Mnemonic::Jcc(Cond::Ae)),
    Word::Mnemonic(Mnemonic::Jcc(Cond::E)),
    Word::Mnemonic(Mnemonic::Jcc(Cond::Ne)),
    Word::Mnemonic(Mnemonic::Jcc(Cond::Be)),
    Word::Mnemonic(Mnemonic::Jcc(Cond::A)),
    Word::Mnemonic(Mnemonic::Jcc(Cond::S)),
    Word::Mnemonic(Mnemonic::Jcc(Cond::Ns)),
    Word::Mnemonic(Mnemonic::Jcc(Cond::L)),
    Word::Mnemonic(Mnemonic::Jcc(Cond::Ge)),
    Word::Mnemonic(Mnemonic::Jcc(Cond::Le)),
    Word::Mnemonic(Mnemonic::Jcc(Cond::G)),
];

// The letters of a keyword.
fn keyword_text(keyword: Keyword) -> &'static str
    ensures { result.now ≡ keyword_text keyword }
{
    match keyword {
        Keyword::Heap => "heap",
        Keyword::Stacks => "stacks",
        Keyword::Entry => "entry",
        Keyword::Sig => "sig",
        Keyword::Kind => "kind",
        Keyword::Static => "static",
        Keyword::Data => "data",
        Keyword::Class => "class",
        Keyword::Below => "below",
        Keyword::Field => "field",
        Keyword::Method => "method",
        Keyword::Func => "func",
        Keyword::End => "end",
        Keyword::Extern => "extern",
        Keyword::Num => "num",
        Keyword::Ref => "ref",
        Keyword::Obj => "obj",
        Keyword::ArrRef => "arrref",
        Keyword::Arr => "arr",
        Keyword::Fun => "fun",
        Keyword::Code => "code",
        Keyword::Tab => "tab",
        Keyword::Desc => "desc",
        Keyword::Junk => "junk",
        Keyword::Null => "null",
        Keyword::Display => "display",
        Keyword::Nucleus => "nucleus",
        Keyword::Cl => "cl",
    }
}

// The letters of a word.
fn word_text(word: Word) -> &'static str
    ensures { result.now ≡ word_letters word }
{
    match word {
        Word::Key(keyword) => keyword_text(keyword),
        Word::Register(reg) => register_text(reg),
        Word::Mnemonic(mnemonic) => mnemonic.text(),
    }
}

// The first of some words that is written so.
#[tactic(auto, unfolding(crate::specs::Words::first_written))]
fn find_word(words: &[Word], letters: &[u8]) -> Option<Word>
    ensures { result ≡ first_written words.now letters.now }
{
    for word in words {
        if word_text(*word).as_bytes() == letters {
            return Some(*word);
        }
    }
    None
}

/// The word that has these letters. There is none where they are a name.
#[tactic(auto, unfolding(crate::specs::Words::word_written))]
pub fn word_at(letters: &[u8]) -> Option<Word>
    ensures { result ≡ word_written letters.now }
{
    find_word(&WORDS, letters)
}
