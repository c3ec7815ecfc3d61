// Tokens of a line.
use code_words::Mnemonic;
use ia32_code::Reg;

/// A word of a line form, of a type or of an operand. It is no name.
#[derive(Clone, Copy, Debug, PartialEq, Eq, Drop)]
pub enum Keyword {
    Heap,
    Stacks,
    Entry,
    Sig,
    Kind,
    Static,
    Data,
    Class,
    Below,
    Field,
    Method,
    Func,
    End,
    Extern,
    Num,
    Ref,
    Obj,
    ArrRef,
    Arr,
    Fun,
    Code,
    Tab,
    Desc,
    Junk,
    Null,
    Display,
    Nucleus,
    Cl,
}

/// A token, or what stands in the place of one.
#[derive(Clone, Copy, Debug, Drop)]
pub enum Token<'a> {
    Key(Keyword),
    Register(Reg),
    Mnemonic(Mnemonic),
    /// Letters that are no word. A name that is too long is a token too: `Tokens::long_name` tells of it.
    Name(&'a [u8]),
    /// From -2^31 to 2^32 - 1.
    Number(i64),
    /// One of `: , [ ] ( ) { } + - *`.
    Mark(u8),
    /// What is no token, with the code of the fault: 1 a byte that is not allowed, 2 a number out of range, 3 an allowed
    /// byte that begins no token.
    Bad(u8),
    /// Each line has one, behind its last byte.
    EndOfLine,
}
