// A class whose lines are being taken. The codes are those of the assembler's faults: 11 a name that is not declared, 12 a
// member that is declared twice, 14 a class that breaks the rules of classes.
ghost use Rattle.std.specs.Prelude.{◌≡◌, ◌≤◌, ◌*◌, ◌^◌, [], IfOk, OnOk, map};
ghost use Rattle.std.specs.Option.{option_and_then, option_copied};
ghost use Rattle.std.specs.Prelude.{slice_get};
ghost use Rattle.tal_names.specs.Declarations.{names_shown};
ghost use Rattle.tal_classes.specs.Members.{so_far, field_count, methods_of, class_begins, inherits_field, inherited_slot, field_line, has_sig, slot_takes, method_line, with_field, with_slot, with_method, row_of};

use no_memory::NoMemory;
use object_layout::{ClassRow, FieldList, FieldTy, MethodList};
use std::alloc::Global;
use tal_names::{ModuleNames, NameSet};
use tal_rows::field_type;
use tal_syntax::{Name, TypeText};
use unit_files::UnitClass;

/// A class whose lines are being taken.
#[derive(Drop)]
pub struct OpenClass {
    /// The class above it.
    pub parent: Option<u32>,
    /// Its own fields so far.
    pub fields: FieldList,
    /// The functions in its method slots so far, those of the class above first.
    pub methods: Vec<u32>,
    /// How many fields the classes above it have.
    pub inherited: u64,
    /// The names that its own lines have given.
    pub field_names: NameSet,
    pub method_names: NameSet,
}

/// A method: the slot that the classes above have for it, and the number of its function.
#[derive(Clone, Copy, Debug, PartialEq, Eq, Drop)]
pub struct MethodLine {
    pub slot: Option<u64>,
    pub function: u32,
}

// The class with a number, if there is one.
fn class_at(rows: &[UnitClass], class: Option<u32>) -> Option<&UnitClass>
    ensures { option_copied result ≡ option_and_then (slice_get rows.now) class }
{
    match class {
        Some(number) => rows.get(number as usize),
        None => None,
    }
}

// How many fields a class and those above it have, in at most so many levels.
#[tactic(auto, using(crate::proofs::Levels::count_none, crate::proofs::Levels::count_nowhere, crate::proofs::Levels::count_behind))]
fn field_count(rows: &[UnitClass], class: Option<u32>, levels: u32) -> u64
    requires { levels ≤ 8 }
    ensures count { result ≡ field_count levels rows.now class }
    ensures few { result ≤ levels * 2 ^ 60 }
{
    if levels == 0 {
        return 0;
    }
    match class_at(rows, class) {
        Some(found) => {
            let own = found.row.fields.items().len() as u64;
            own + field_count(rows, found.row.parent, levels - 1)
        }
        None => 0,
    }
}

// The method slots of the class above.
#[tactic(auto, unfolding(crate::specs::Members::methods_of))]
fn methods_of(alloc: Global, rows: &[UnitClass], class: Option<u32>) -> Result<Vec<u32>, NoMemory>
    ensures { IfOk result (λ methods. methods.items ≡ methods_of rows.now class) }
{
    match class_at(rows, class) {
        Some(found) => Ok(found.row.methods.items().to_vec(alloc)?),
        None => Ok(Vec::new(alloc)),
    }
}

// The functions of method slots.
fn method_list(alloc: Global, functions: &[u32]) -> Result<MethodList, NoMemory>
    ensures { IfOk result (λ methods. methods ≡ functions.now) }
{
    let mut methods = MethodList::new(alloc);
    for function in functions {
        methods.push(*function)?;
    }
    Ok(methods)
}

// Whether the classes above have a field.
#[tactic(auto, unfolding(crate::specs::Members::inherits_field))]
fn inherits_field(names: &ModuleNames, parent: Option<u32>, name: &Name) -> bool
    ensures { result ≡ inherits_field (names_shown names.now) parent name.now }
{
    match parent {
        Some(class) => names.field_byte(class, name.bytes()).is_some(),
        None => false,
    }
}

// The slot of a method that the classes above have.
#[tactic(auto, unfolding(crate::specs::Members::inherited_slot))]
fn inherited_slot(names: &ModuleNames, parent: Option<u32>, name: &Name) -> Option<u64>
    ensures { result ≡ inherited_slot (names_shown names.now) parent name.now }
{
    let byte = names.method_byte(parent?, name.bytes())?;
    Some(byte.saturating_sub(44) / 4)
}

// Whether the function is of the signature with this name.
#[tactic(auto, unfolding(crate::specs::Members::has_sig))]
fn has_sig(names: &ModuleNames, function: u32, sig: &Name) -> bool
    ensures { result ≡ has_sig (names_shown names.now) function sig.now }
{
    let written: &[u8] = match names.function_sigs.get(function as usize) {
        Some(found) => found.bytes(),
        None => &[],
    };
    written == sig.bytes()
}

impl OpenClass {
    /// A class below another one, before its own lines, where these rows stand before it.
    pub(crate) fn begin(
        alloc: Global,
        rows: &[UnitClass],
        parent: Option<u32>,
    ) -> Result<OpenClass, NoMemory>
        ensures { IfOk result (λ class. so_far class ≡ class_begins rows.now parent) }
    {
        Ok(OpenClass {
            parent,
            fields: FieldList::new(alloc),
            methods: methods_of(alloc, rows, parent)?,
            inherited: field_count(rows, parent, 8),
            field_names: NameSet::new(alloc),
            method_names: NameSet::new(alloc),
        })
    }

    /// What a field holds, or code 11, 12 or 14: 256 fields are the most, with those of the classes above.
    #[tactic(auto, unfolding(crate::specs::Members::field_line))]
    pub(crate) fn field_line(
        &self,
        names: &ModuleNames,
        name: &Name,
        ty: &TypeText,
    ) -> Result<FieldTy, u8>
        ensures { result ≡ field_line (names_shown names.now) (so_far self.now) name.now ty.now }
    {
        let Some(found) = names.type_of(ty) else {
            return Err(11);
        };
        if inherits_field(names, self.parent, name) || self.field_names.contains(name.bytes()) {
            return Err(12);
        }
        if self.inherited >= 256 || self.inherited + self.fields.items().len() as u64 >= 256 {
            return Err(14);
        }
        let Some(held) = field_type(found) else {
            return Err(14);
        };
        Ok(held)
    }

    // Whether a method of the signature fits its slot.
    #[tactic(auto, unfolding(crate::specs::Members::slot_takes))]
    fn slot_fits(&self, names: &ModuleNames, slot: Option<u64>, sig: &Name) -> bool
        ensures { result ≡ slot_takes (names_shown names.now) self.now.methods.items slot sig.now }
    {
        match slot {
            Some(place) => {
                let held = match self.methods.get(place as usize) {
                    Some(found) => *found,
                    None => 0,
                };
                has_sig(names, held, sig)
            }
            None => self.methods.len() < 53,
        }
    }

    /// The slot and the function of a method, or code 11, 12 or 14: 53 slots are the most.
    #[tactic(auto, unfolding(crate::specs::Members::method_line))]
    pub(crate) fn method_line(
        &self,
        names: &ModuleNames,
        name: &Name,
        sig: &Name,
        function: &Name,
    ) -> Result<MethodLine, u8>
        ensures { result ≡ method_line (names_shown names.now) (so_far self.now) name.now sig.now function.now }
    {
        if names.sigs.number(sig.bytes()).is_none() {
            return Err(11);
        }
        let Some(function) = names.functions.number(function.bytes()) else {
            return Err(11);
        };
        if self.method_names.contains(name.bytes()) {
            return Err(12);
        }
        let slot = inherited_slot(names, self.parent, name);
        if !(has_sig(names, function, sig) && self.slot_fits(names, slot, sig)) {
            return Err(14);
        }
        Ok(MethodLine { slot, function })
    }

    /// Adds a field.
    pub(crate) fn add_field(
        &mut self,
        alloc: Global,
        name: &Name,
        held: FieldTy,
    ) -> Result<(), NoMemory>
        ensures { OnOk result (so_far self.new ≡ with_field (so_far self.old) name.now held) }
    {
        self.fields.push(held)?;
        self.field_names.add(alloc, name.bytes())?;
        Ok(())
    }

    /// Puts a method into its slot, or into one more.
    #[tactic(auto, unfolding(crate::specs::Members::with_slot))]
    pub(crate) fn add_method(
        &mut self,
        alloc: Global,
        name: &Name,
        line: MethodLine,
    ) -> Result<(), NoMemory>
        ensures { OnOk result (so_far self.new ≡ with_method (so_far self.old) name.now line) }
    {
        match line.slot {
            Some(slot) => {
                if slot < self.methods.len() as u64 {
                    self.methods[slot as usize] = line.function;
                }
            }
            None => self.methods.push(line.function)?,
        }
        self.method_names.add(alloc, name.bytes())?;
        Ok(())
    }

    /// The row of the class.
    pub(crate) fn into_row(self, alloc: Global) -> Result<ClassRow, NoMemory>
        ensures { IfOk result (λ row. row ≡ row_of (so_far self)) }
    {
        let methods = method_list(alloc, &self.methods)?;
        Ok(ClassRow {
            parent: self.parent,
            fields: self.fields,
            methods,
        })
    }
}
