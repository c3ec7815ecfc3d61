ghost use Rattle.std.specs.Prelude.{◌≡◌, [], ◌∷◌, ◌++◌, IfOk, OnOk, OnErr};

use no_memory::NoMemory;
use std::alloc::Global;
use std::marker::Model;

/// What a field, a static or an array's element holds. A reference names its class, its array kind or
/// its signature by the row's number.
#[derive(Clone, Copy, Debug, PartialEq, Eq)]
pub enum FieldTy {
    /// A number of 32 bits.
    Num,
    /// Null, or an object of the class or of one below it.
    Ref(u32),
    /// Null, or an array of the kind.
    ArrRef(u32),
    /// Null, or a function of the signature.
    Fun(u32),
}

impl FieldTy {
    ghost use Rattle.object_layout.specs.Classes.{is_reference};

    /// Whether values of the type refer to objects or arrays.
    #[tactic(auto, unfolding(crate::specs::Classes::is_reference))]
    pub fn is_reference(self) -> bool
        ensures { result ≡ is_reference self }
    {
        match self {
            FieldTy::Ref(_) | FieldTy::ArrRef(_) => true,
            FieldTy::Num | FieldTy::Fun(_) => false,
        }
    }
}

/// The types of a class's own fields, in their order. Contracts see it as a list.
#[derive(Drop)]
pub struct FieldList {
    types: Vec<FieldTy>,
}

impl Model for FieldList {
    ghost use Rattle.std.specs.Prelude.{List};
    ghost use Rattle.object_layout.specs.declared.rows.FieldTy.{FieldTy};

    ghost Value = { List FieldTy };

    ghost view = { λ fields. fields.types.items };
}

impl FieldList {
    /// No fields. It takes no memory.
    pub fn new(alloc: Global) -> FieldList
        ensures { result ≡ [] }
    {
        FieldList {
            types: Vec::new(alloc),
        }
    }

    /// Puts a field's type last. After `NoMemory` the list is as before.
    pub fn push(&mut self, item: FieldTy) -> Result<(), NoMemory>
        ensures ok { OnOk result (self.new ≡ self.old ++ item ∷ []) }
        ensures err { OnErr result (self.new ≡ self.old) }
    {
        self.types.push(item)?;
        Ok(())
    }

    /// The types of two lists, one after the other.
    pub(crate) fn joined(
        alloc: Global,
        first: &[FieldTy],
        second: &[FieldTy],
    ) -> Result<FieldList, NoMemory>
        ensures { IfOk result (λ fields. fields ≡ first.now ++ second.now) }
    {
        let mut types = Vec::from_slice(alloc, first)?;
        types.extend_from_slice(second)?;
        Ok(FieldList { types })
    }

    /// The types, first field first.
    pub fn items(&self) -> &[FieldTy]
        ensures { result.now ≡ self.now }
    {
        &self.types
    }
}

/// The functions in a class's method slots, in their order. Contracts see it as a list of the
/// functions' numbers.
#[derive(Drop)]
pub struct MethodList {
    functions: Vec<u32>,
}

impl Model for MethodList {
    ghost use Rattle.std.specs.Prelude.{List, ℕ};

    ghost Value = { List ℕ };

    ghost view = { λ methods. methods.functions.items };
}

impl MethodList {
    /// No methods. It takes no memory.
    pub fn new(alloc: Global) -> MethodList
        ensures { result ≡ [] }
    {
        MethodList {
            functions: Vec::new(alloc),
        }
    }

    /// Puts a function's number last. After `NoMemory` the list is as before.
    pub fn push(&mut self, item: u32) -> Result<(), NoMemory>
        ensures ok { OnOk result (self.new ≡ self.old ++ item ∷ []) }
        ensures err { OnErr result (self.new ≡ self.old) }
    {
        self.functions.push(item)?;
        Ok(())
    }

    /// The functions' numbers of a list.
    pub(crate) fn copied(alloc: Global, functions: &[u32]) -> Result<MethodList, NoMemory>
        ensures { IfOk result (λ methods. methods ≡ functions.now) }
    {
        Ok(MethodList {
            functions: Vec::from_slice(alloc, functions)?,
        })
    }

    /// The functions' numbers, first slot first.
    pub fn items(&self) -> &[u32]
        ensures { result.now ≡ self.now }
    {
        &self.functions
    }
}

/// A class: its parent's number, its own fields (the parent's come before them in an object) and a
/// function for each method slot, the parent's slots first.
#[derive(Drop)]
pub struct ClassRow {
    pub parent: Option<u32>,
    pub fields: FieldList,
    pub methods: MethodList,
}

impl ClassRow {
    /// The same row again.
    pub(crate) fn copied(&self, alloc: Global) -> Result<ClassRow, NoMemory>
        ensures { IfOk result (λ row. row ≡ self.now) }
    {
        Ok(ClassRow {
            parent: self.parent,
            fields: FieldList::joined(alloc, &[], self.fields.items())?,
            methods: MethodList::copied(alloc, self.methods.items())?,
        })
    }
}

/// An array kind: what its elements are.
#[derive(Clone, Copy, Debug, PartialEq, Eq)]
pub struct KindRow {
    pub element: FieldTy,
}

/// A function: its signature's number, and the address of its first instruction.
#[derive(Clone, Copy, Debug, PartialEq, Eq)]
pub struct FunRow {
    pub sig: u32,
    pub address: u32,
}

/// Whose objects are meant: a class's, or the arrays of a kind.
#[derive(Clone, Copy, Debug, PartialEq, Eq)]
pub enum Shape {
    Class(u32),
    Kind(u32),
}
