// The forms of lines, as the text has them: names are not looked up, and numbers have no limits yet.
use crate::lists::{ArgList, NumberList, RegTypeList, TermList, TypeTextList};
use crate::name::Name;
use code_words::Mnemonic;
use ia32_code::Reg;

/// A type: a number, a value that is not used, or what a class, a kind, a signature or a function names.
#[derive(Drop)]
pub enum TypeText {
    Num,
    Junk,
    Ref(Name),
    Obj(Name),
    ArrRef(Name),
    Arr(Name),
    Fun(Name),
    Code(Name),
    Tab(Name),
    Desc(Name),
}

/// A register with its type. ESP has none.
#[derive(Drop)]
pub struct RegType {
    pub reg: Reg,
    pub ty: TypeText,
}

/// A term of a memory operand.
#[derive(Drop)]
pub enum Term {
    Register(Reg),
    /// A register times 1, 2, 4 or 8.
    Scaled(Reg, u8),
    /// A number, negated where it follows `-`.
    Number(i64),
    /// Where the field of the class lies, in bytes from the object's place.
    FieldByte(Name, Name),
    /// Where the method's slot lies in the class's table.
    MethodByte(Name, Name),
    /// Where the class's slot of the display lies.
    DisplayByte(Name),
    /// The address of a static.
    StaticAt(Name),
}

/// An operand.
#[derive(Drop)]
pub enum Arg {
    Register(Reg),
    /// CL as the count of a shift.
    Cl,
    Number(i64),
    Null(TypeText),
    Tab(Name),
    Desc(Name),
    Code(Name),
    DataOf(Name),
    Memory(TermList),
    /// A call of the Nucleus, by its number.
    Nucleus(i64),
    /// A function or a label.
    Target(Name),
}

/// A line that is not empty. `ext` is true behind `extern`.
#[derive(Drop)]
pub enum Form {
    Heap(i64),
    Stacks(i64),
    Entry {
        stack: i64,
        func: Name,
    },
    Sig {
        ext: bool,
        name: Name,
        params: RegTypeList,
        result: TypeText,
    },
    Kind {
        ext: bool,
        name: Name,
        element: TypeText,
    },
    Static {
        ext: bool,
        name: Name,
        ty: TypeText,
    },
    DataArray {
        ext: bool,
        name: Name,
        kind: Name,
        length: i64,
        numbers: Option<NumberList>,
    },
    Class {
        ext: bool,
        name: Name,
        parent: Option<Name>,
    },
    Field {
        name: Name,
        ty: TypeText,
    },
    Method {
        name: Name,
        sig: Name,
        func: Name,
    },
    Func {
        ext: bool,
        name: Name,
        sig: Name,
    },
    End,
    Label {
        name: Name,
        regs: RegTypeList,
        slots: Option<TypeTextList>,
    },
    Inst {
        mnemonic: Mnemonic,
        args: ArgList,
    },
}

/// What the lines so far have begun and not ended.
#[derive(Clone, Copy, PartialEq, Eq, Drop)]
pub enum Scope {
    Outside,
    InClass,
    InFunc,
}
