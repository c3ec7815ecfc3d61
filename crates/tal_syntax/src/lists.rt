// The small list types of a module's rows. Contracts see each as a list.
ghost use Rattle.std.specs.Prelude.{◌≡◌, ◌∷◌, ◌++◌, [], OnOk, OnErr};

use crate::form::{Arg, RegType, Term, TypeText};
use no_memory::NoMemory;
use std::alloc::Global;
use std::marker::Model;

/// Registers with their types, in order.
#[derive(Drop)]
pub struct RegTypeList {
    rows: Vec<RegType>,
}

impl Model for RegTypeList {
    ghost use Rattle.std.specs.Prelude.{List};
    ghost use Rattle.tal_syntax.specs.declared.form.RegType.{RegType};

    ghost Value = { List RegType };

    ghost view = { λ list. list.rows.items };
}

impl RegTypeList {
    /// The list of these rows.
    pub(crate) fn of(rows: Vec<RegType>) -> RegTypeList
        ensures { result ≡ rows.items }
    {
        RegTypeList { rows }
    }

    /// An empty list. It takes no memory.
    pub fn new(alloc: Global) -> RegTypeList
        ensures { result ≡ [] }
    {
        RegTypeList {
            rows: Vec::new(alloc),
        }
    }

    /// Puts a row last. After `NoMemory` the list is as before.
    pub fn push(&mut self, row: RegType) -> Result<(), NoMemory>
        ensures ok { OnOk result (self.new ≡ self.old ++ row ∷ []) }
        ensures err { OnErr result (self.new ≡ self.old) }
    {
        self.rows.push(row)?;
        Ok(())
    }

    /// The rows, the first first.
    pub fn items(&self) -> &[RegType]
        ensures { result.now ≡ self.now }
    {
        &self.rows
    }
}

/// Types, in order.
#[derive(Drop)]
pub struct TypeTextList {
    rows: Vec<TypeText>,
}

impl Model for TypeTextList {
    ghost use Rattle.std.specs.Prelude.{List};
    ghost use Rattle.tal_syntax.specs.declared.form.TypeText.{TypeText};

    ghost Value = { List TypeText };

    ghost view = { λ list. list.rows.items };
}

impl TypeTextList {
    /// The list of these rows.
    pub(crate) fn of(rows: Vec<TypeText>) -> TypeTextList
        ensures { result ≡ rows.items }
    {
        TypeTextList { rows }
    }

    /// An empty list. It takes no memory.
    pub fn new(alloc: Global) -> TypeTextList
        ensures { result ≡ [] }
    {
        TypeTextList {
            rows: Vec::new(alloc),
        }
    }

    /// Puts a row last. After `NoMemory` the list is as before.
    pub fn push(&mut self, row: TypeText) -> Result<(), NoMemory>
        ensures ok { OnOk result (self.new ≡ self.old ++ row ∷ []) }
        ensures err { OnErr result (self.new ≡ self.old) }
    {
        self.rows.push(row)?;
        Ok(())
    }

    /// The rows, the first first.
    pub fn items(&self) -> &[TypeText]
        ensures { result.now ≡ self.now }
    {
        &self.rows
    }
}

/// Numbers, in order.
#[derive(Drop)]
pub struct NumberList {
    rows: Vec<i64>,
}

impl Model for NumberList {
    ghost use Rattle.std.specs.Prelude.{ℤ, List};

    ghost Value = { List ℤ };

    ghost view = { λ list. list.rows.items };
}

impl NumberList {
    /// The list of these rows.
    pub(crate) fn of(rows: Vec<i64>) -> NumberList
        ensures { result ≡ rows.items }
    {
        NumberList { rows }
    }

    /// An empty list. It takes no memory.
    pub fn new(alloc: Global) -> NumberList
        ensures { result ≡ [] }
    {
        NumberList {
            rows: Vec::new(alloc),
        }
    }

    /// Puts a row last. After `NoMemory` the list is as before.
    pub fn push(&mut self, row: i64) -> Result<(), NoMemory>
        ensures ok { OnOk result (self.new ≡ self.old ++ row ∷ []) }
        ensures err { OnErr result (self.new ≡ self.old) }
    {
        self.rows.push(row)?;
        Ok(())
    }

    /// The rows, the first first.
    pub fn items(&self) -> &[i64]
        ensures { result.now ≡ self.now }
    {
        &self.rows
    }
}

/// Terms of a memory operand, in order.
#[derive(Drop)]
pub struct TermList {
    rows: Vec<Term>,
}

impl Model for TermList {
    ghost use Rattle.std.specs.Prelude.{List};
    ghost use Rattle.tal_syntax.specs.declared.form.Term.{Term};

    ghost Value = { List Term };

    ghost view = { λ list. list.rows.items };
}

impl TermList {
    /// The list of these rows.
    pub(crate) fn of(rows: Vec<Term>) -> TermList
        ensures { result ≡ rows.items }
    {
        TermList { rows }
    }

    /// An empty list. It takes no memory.
    pub fn new(alloc: Global) -> TermList
        ensures { result ≡ [] }
    {
        TermList {
            rows: Vec::new(alloc),
        }
    }

    /// Puts a row last. After `NoMemory` the list is as before.
    pub fn push(&mut self, row: Term) -> Result<(), NoMemory>
        ensures ok { OnOk result (self.new ≡ self.old ++ row ∷ []) }
        ensures err { OnErr result (self.new ≡ self.old) }
    {
        self.rows.push(row)?;
        Ok(())
    }

    /// The rows, the first first.
    pub fn items(&self) -> &[Term]
        ensures { result.now ≡ self.now }
    {
        &self.rows
    }
}

/// Operands, in order.
#[derive(Drop)]
pub struct ArgList {
    rows: Vec<Arg>,
}

impl Model for ArgList {
    ghost use Rattle.std.specs.Prelude.{List};
    ghost use Rattle.tal_syntax.specs.declared.form.Arg.{Arg};

    ghost Value = { List Arg };

    ghost view = { λ list. list.rows.items };
}

impl ArgList {
    /// The list of these rows.
    pub(crate) fn of(rows: Vec<Arg>) -> ArgList
        ensures { result ≡ rows.items }
    {
        ArgList { rows }
    }

    /// An empty list. It takes no memory.
    pub fn new(alloc: Global) -> ArgList
        ensures { result ≡ [] }
    {
        ArgList {
            rows: Vec::new(alloc),
        }
    }

    /// Puts a row last. After `NoMemory` the list is as before.
    pub fn push(&mut self, row: Arg) -> Result<(), NoMemory>
        ensures ok { OnOk result (self.new ≡ self.old ++ row ∷ []) }
        ensures err { OnErr result (self.new ≡ self.old) }
    {
        self.rows.push(row)?;
        Ok(())
    }

    /// The rows, the first first.
    pub fn items(&self) -> &[Arg]
        ensures { result.now ≡ self.now }
    {
        &self.rows
    }
}
