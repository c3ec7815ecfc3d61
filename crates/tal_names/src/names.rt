// What the lines of a module declare.
ghost use Rattle.std.specs.Prelude.{◌≡◌, ◌≤◌, ◌*◌, ◌^◌, [], IfOk, OnOk, IfSome, length, Some, is_some, slice_get};
ghost use Rattle.std.specs.Option.{option_and_then, option_copied, unwrap_or};
ghost use Rattle.tal_names.specs.Declarations.{names_shown, no_names, is_number_type, own, ancestry, ancestry_within, member_count, member_number, with_member, class_of, named_parent, with_named_kind, with_named_class, with_named_function, declare, names_of};

use crate::name_set::NameSet;
use no_memory::NoMemory;
use std::alloc::Global;
use tal_syntax::{Form, Name, TextLine, TypeText};

/// What the lines of a class add: its fields, and the methods that the classes above it do not have. `parent` is the number of
/// the class below which it is, where that is declared before it.
#[derive(Drop)]
pub struct ClassNames {
    pub parent: Option<u32>,
    pub fields: NameSet,
    pub methods: NameSet,
}

/// The names that a module declares, table by table. Of each function there is also the name of its signature, of each kind
/// whether its elements are numbers, and of each class what its own lines add.
#[derive(Drop)]
pub struct ModuleNames {
    pub sigs: NameSet,
    pub classes: NameSet,
    pub kinds: NameSet,
    pub statics: NameSet,
    pub arrays: NameSet,
    pub functions: NameSet,
    pub function_sigs: Vec<Name>,
    pub number_kinds: Vec<bool>,
    pub members: Vec<ClassNames>,
}

/// The two sorts of a class's members.
#[derive(Clone, Copy, Debug, PartialEq, Eq, Drop)]
pub enum MemberSort {
    Field,
    Method,
}

impl ClassNames {
    // The members of a sort that the class's own lines add.
    #[tactic(auto, unfolding(crate::specs::Declarations::own))]
    fn own(&self, sort: MemberSort) -> &NameSet
        ensures { result.now ≡ own sort self.now }
    {
        match sort {
            MemberSort::Field => &self.fields,
            MemberSort::Method => &self.methods,
        }
    }
}

// The class with a number, if there is one.
fn class_at(classes: &[ClassNames], class: Option<u32>) -> Option<&ClassNames>
    ensures { option_copied result ≡ option_and_then (slice_get classes.now) class }
{
    match class {
        Some(number) => classes.get(number as usize),
        None => None,
    }
}

/// How many classes a class and those above it are, in at most so many levels.
#[tactic(auto, using(crate::proofs::Lineages::lineage_none, crate::proofs::Lineages::lineage_nowhere, crate::proofs::Lineages::lineage_behind))]
pub(crate) fn lineage_length(classes: &[ClassNames], class: Option<u32>, levels: u32) -> u32
    ensures count { result ≡ length (ancestry_within levels classes.now class) }
    ensures few { result ≤ levels }
{
    if levels == 0 {
        return 0;
    }
    match class_at(classes, class) {
        Some(names) => 1 + lineage_length(classes, names.parent, levels - 1),
        None => 0,
    }
}

/// How many members of a sort a class and those above it have, in at most so many levels.
#[tactic(auto, using(crate::proofs::Lineages::lineage_none, crate::proofs::Lineages::lineage_nowhere, crate::proofs::Lineages::lineage_behind), unfolding(crate::specs::Declarations::member_count))]
fn member_count(classes: &[ClassNames], sort: MemberSort, class: Option<u32>, levels: u32) -> u64
    requires { levels ≤ 8 }
    ensures count { result ≡ member_count sort (ancestry_within levels classes.now class) }
    ensures few { result ≤ levels * 2 ^ 32 }
{
    if levels == 0 {
        return 0;
    }
    match class_at(classes, class) {
        Some(names) => {
            let above = member_count(classes, sort, names.parent, levels - 1);
            u64::from(names.own(sort).len()) + above
        }
        None => 0,
    }
}

/// The number of a member of a class, in at most so many levels.
#[tactic(auto, using(crate::proofs::Lineages::lineage_none, crate::proofs::Lineages::lineage_nowhere, crate::proofs::Lineages::lineage_behind), unfolding(crate::specs::Declarations::member_number))]
fn member_within(
    classes: &[ClassNames],
    sort: MemberSort,
    class: Option<u32>,
    name: &[u8],
    levels: u32,
) -> Option<u64>
    requires { levels ≤ 8 }
    ensures number { result ≡ member_number sort (ancestry_within levels classes.now class) name.now }
    ensures few { IfSome result (λ i. i ≤ levels * 2 ^ 32) }
{
    if levels == 0 {
        return None;
    }
    let names = class_at(classes, class)?;
    match names.own(sort).number(name) {
        Some(number) => {
            let above = member_count(classes, sort, names.parent, levels - 1);
            Some(above + u64::from(number))
        }
        None => member_within(classes, sort, names.parent, name, levels - 1),
    }
}

/// The number of a member of a class among its own and the inherited ones, which come first.
pub(crate) fn member_number(
    classes: &[ClassNames],
    sort: MemberSort,
    class: Option<u32>,
    name: &[u8],
) -> Option<u64>
    ensures number { result ≡ member_number sort (ancestry classes.now class) name.now }
    ensures few { IfSome result (λ i. i ≤ 8 * 2 ^ 32) }
{
    member_within(classes, sort, class, name, 8)
}

// Whether elements of the type are numbers.
#[tactic(auto, unfolding(crate::specs::Declarations::is_number_type))]
fn is_number(element: &TypeText) -> bool
    ensures { result ≡ is_number_type element.now }
{
    match element {
        TypeText::Num => true,
        _ => false,
    }
}

impl ClassNames {
    // Takes a line, behind which the class stands below `parent`, and answers whether it is a line of a class.
    #[tactic(auto, unfolding(crate::specs::Declarations::with_member))]
    fn add_member(
        &mut self,
        alloc: Global,
        classes: &[ClassNames],
        parent: Option<u32>,
        form: &Form,
    ) -> Result<bool, NoMemory>
        ensures is_member { IfOk result (λ is_member. is_member ≡ is_some (with_member (ancestry classes.now parent) self.old form.now)) }
        ensures added { OnOk result (self.new ≡ unwrap_or (with_member (ancestry classes.now parent) self.old form.now) self.old) }
    {
        match form {
            Form::Field { name, .. } => {
                self.fields.add(alloc, name.bytes())?;
                Ok(true)
            }
            Form::Method { name, .. } => {
                if member_number(classes, MemberSort::Method, parent, name.bytes()).is_none() {
                    self.methods.add(alloc, name.bytes())?;
                }
                Ok(true)
            }
            _ => Ok(false),
        }
    }
}

// The class that the lines up to its end make, below another one.
fn class_of(
    alloc: Global,
    classes: &[ClassNames],
    parent: Option<u32>,
    behind: &[TextLine],
) -> Result<ClassNames, NoMemory>
    ensures { IfOk result (λ class. class ≡ class_of classes.now parent behind.now) }
{
    let mut class = ClassNames {
        parent,
        fields: NameSet::new(alloc),
        methods: NameSet::new(alloc),
    };
    for line in behind {
        if !class.add_member(alloc, classes, parent, &line.form)? {
            return Ok(class);
        }
    }
    Ok(class)
}

impl ModuleNames {
    // No names.
    fn new(alloc: Global) -> ModuleNames
        ensures { names_shown result ≡ no_names }
    {
        ModuleNames {
            sigs: NameSet::new(alloc),
            classes: NameSet::new(alloc),
            kinds: NameSet::new(alloc),
            statics: NameSet::new(alloc),
            arrays: NameSet::new(alloc),
            functions: NameSet::new(alloc),
            function_sigs: Vec::new(alloc),
            number_kinds: Vec::new(alloc),
            members: Vec::new(alloc),
        }
    }

    // The number of the class below which a class is, where it is declared already.
    #[tactic(auto, unfolding(crate::specs::Declarations::named_parent))]
    fn parent_number(&self, parent: &Option<Name>) -> Option<u32>
        ensures { result ≡ named_parent (names_shown self.now) parent.now }
    {
        match parent {
            Some(name) => self.classes.number(name.bytes()),
            None => None,
        }
    }

    // Declares a kind.
    #[tactic(auto, unfolding(crate::specs::Declarations::with_named_kind))]
    fn add_kind(&mut self, alloc: Global, name: &Name, element: &TypeText) -> Result<(), NoMemory>
        ensures { OnOk result (names_shown self.new ≡ with_named_kind (names_shown self.old) name.now element.now) }
    {
        if self.kinds.add(alloc, name.bytes())? {
            self.number_kinds.push(is_number(element))?;
        }
        Ok(())
    }

    // Declares a class, to which the lines behind belong up to its end.
    #[tactic(auto, unfolding(crate::specs::Declarations::with_named_class))]
    fn add_class(
        &mut self,
        alloc: Global,
        name: &Name,
        parent: &Option<Name>,
        behind: &[TextLine],
    ) -> Result<(), NoMemory>
        ensures { OnOk result (names_shown self.new ≡ with_named_class (names_shown self.old) name.now parent.now behind.now) }
    {
        let parent = self.parent_number(parent);
        if self.classes.add(alloc, name.bytes())? {
            let class = class_of(alloc, &self.members, parent, behind)?;
            self.members.push(class)?;
        }
        Ok(())
    }

    // Declares a function.
    #[tactic(auto, unfolding(crate::specs::Declarations::with_named_function))]
    fn add_function(&mut self, alloc: Global, name: &Name, sig: &Name) -> Result<(), NoMemory>
        ensures { OnOk result (names_shown self.new ≡ with_named_function (names_shown self.old) name.now sig.now) }
    {
        if self.functions.add(alloc, name.bytes())? {
            self.function_sigs.push(Name::of(alloc, sig.bytes())?)?;
        }
        Ok(())
    }

    // Declares what a line declares.
    #[tactic(auto, unfolding(crate::specs::Declarations::declare))]
    fn declare(&mut self, alloc: Global, form: &Form, behind: &[TextLine]) -> Result<(), NoMemory>
        ensures { OnOk result (names_shown self.new ≡ declare (names_shown self.old) form.now behind.now) }
    {
        match form {
            Form::Sig { name, .. } => {
                self.sigs.add(alloc, name.bytes())?;
            }
            Form::Kind { name, element, .. } => self.add_kind(alloc, name, element)?,
            Form::Static { name, .. } => {
                self.statics.add(alloc, name.bytes())?;
            }
            Form::DataArray { name, .. } => {
                self.arrays.add(alloc, name.bytes())?;
            }
            Form::Class { name, parent, .. } => self.add_class(alloc, name, parent, behind)?,
            Form::Func { name, sig, .. } => self.add_function(alloc, name, sig)?,
            _ => {}
        }
        Ok(())
    }

    /// What the lines of a module declare. It goes over them once, and once more over those of each class.
    #[tactic(auto, unfolding(crate::specs::Declarations::declared_with))]
    pub fn of(alloc: Global, lines: &[TextLine]) -> Result<ModuleNames, NoMemory>
        ensures { IfOk result (λ names. names_shown names ≡ names_of lines.now) }
    {
        let mut names = ModuleNames::new(alloc);
        let mut left = lines;
        'lines: while let [line, behind @ ..] = left {
            names.declare(alloc, &line.form, behind)?;
            left = behind;
        }
        Ok(names)
    }
}
