// The names of a module's rows, in the order of their first mention.
ghost use Rattle.std.specs.Prelude.{◌≡◌, List, ℕ, IfOk, OnOk};
ghost use Rattle.std.specs.List.{flat_map};
ghost use Rattle.tal_names.specs.Declarations.{names_shown, names_of};
ghost use Rattle.tal_names.specs.Mentions.{names_row, type_names, reg_type_names, term_names, arg_names, slot_names, form_names, line_names, with_mention, with_mentions, mentioned_names};

use crate::name_set::NameSet;
use crate::names::ModuleNames;
use no_memory::NoMemory;
use std::alloc::Global;
use tal_syntax::{Arg, Form, Name, RegType, Term, TextLine, TypeText, TypeTextList};

impl ModuleNames {
    // Whether a row has the name.
    #[tactic(auto, unfolding(crate::specs::Mentions::names_row))]
    fn names_row(&self, name: &[u8]) -> bool
        ensures { result ≡ names_row (names_shown self.now) name.now }
    {
        self.sigs.contains(name)
            || self.classes.contains(name)
            || self.kinds.contains(name)
            || self.statics.contains(name)
            || self.arrays.contains(name)
            || self.functions.contains(name)
    }

    // Adds a name that is mentioned, where a row has it and it is new.
    #[tactic(auto, unfolding(crate::specs::Mentions::with_mention))]
    fn mention(&self, alloc: Global, found: &mut NameSet, name: &Name) -> Result<(), NoMemory>
        ensures { OnOk result (found.new ≡ with_mention (names_shown self.now) found.old name.now) }
    {
        if self.names_row(name.bytes()) {
            found.add(alloc, name.bytes())?;
        }
        Ok(())
    }

    /// The names of the unit of these lines: those that rows have, each once, in the order of their first mention in whatever
    /// role. The names of the module are those that the same lines declare.
    #[tactic(auto, unfolding(crate::specs::Mentions::mentioned_names))]
    pub fn unit_names(&self, alloc: Global, lines: &[TextLine]) -> Result<NameSet, NoMemory>
        requires { names_shown self.now ≡ names_of lines.now }
        ensures { IfOk result (λ names. names ≡ mentioned_names lines.now) }
    {
        let mut found = NameSet::new(alloc);
        mention_each(alloc, self, &mut found, lines)?;
        Ok(found)
    }
}

// What mentions names.
trait Mentions {
    ghost mentioned: { Self → List (List ℕ) };

    // Adds its names from left to right, those that rows have.
    fn mention(
        &self,
        alloc: Global,
        names: &ModuleNames,
        found: &mut NameSet,
    ) -> Result<(), NoMemory>
        ensures { OnOk result (found.new ≡ with_mentions (names_shown names.now) found.old (mentioned self.now)) };
}

// Adds the names of each item.
fn mention_each<T: Mentions>(
    alloc: Global,
    names: &ModuleNames,
    found: &mut NameSet,
    items: &[T],
) -> Result<(), NoMemory>
    ensures { OnOk result (found.new ≡ with_mentions (names_shown names.now) found.old (flat_map T.mentioned items.now)) }
{
    for item in items {
        item.mention(alloc, names, found)?;
    }
    Ok(())
}

impl Mentions for TypeText {
    ghost mentioned = { type_names };

    #[tactic(auto, unfolding(crate::specs::Mentions::type_names, crate::specs::Mentions::with_mentions))]
    fn mention(
        &self,
        alloc: Global,
        names: &ModuleNames,
        found: &mut NameSet,
    ) -> Result<(), NoMemory> {
        match self {
            TypeText::Num | TypeText::Junk => Ok(()),
            TypeText::Ref(name)
            | TypeText::Obj(name)
            | TypeText::ArrRef(name)
            | TypeText::Arr(name)
            | TypeText::Fun(name)
            | TypeText::Code(name)
            | TypeText::Tab(name)
            | TypeText::Desc(name) => names.mention(alloc, found, name),
        }
    }
}

impl Mentions for RegType {
    ghost mentioned = { reg_type_names };

    fn mention(
        &self,
        alloc: Global,
        names: &ModuleNames,
        found: &mut NameSet,
    ) -> Result<(), NoMemory> {
        self.ty.mention(alloc, names, found)
    }
}

impl Mentions for Term {
    ghost mentioned = { term_names };

    #[tactic(auto, unfolding(crate::specs::Mentions::term_names, crate::specs::Mentions::with_mentions))]
    fn mention(
        &self,
        alloc: Global,
        names: &ModuleNames,
        found: &mut NameSet,
    ) -> Result<(), NoMemory> {
        match self {
            Term::Register(_) | Term::Scaled(_, _) | Term::Number(_) => Ok(()),
            Term::FieldByte(class, member) | Term::MethodByte(class, member) => {
                names.mention(alloc, found, class)?;
                names.mention(alloc, found, member)
            }
            Term::DisplayByte(name) | Term::StaticAt(name) => names.mention(alloc, found, name),
        }
    }
}

impl Mentions for Arg {
    ghost mentioned = { arg_names };

    #[tactic(auto, unfolding(crate::specs::Mentions::arg_names, crate::specs::Mentions::with_mentions))]
    fn mention(
        &self,
        alloc: Global,
        names: &ModuleNames,
        found: &mut NameSet,
    ) -> Result<(), NoMemory> {
        match self {
            Arg::Register(_) | Arg::Cl | Arg::Number(_) | Arg::Nucleus(_) => Ok(()),
            Arg::Null(ty) => ty.mention(alloc, names, found),
            Arg::Memory(terms) => mention_each(alloc, names, found, terms.items()),
            Arg::Tab(name)
            | Arg::Desc(name)
            | Arg::Code(name)
            | Arg::DataOf(name)
            | Arg::Target(name) => names.mention(alloc, found, name),
        }
    }
}

// Adds the names of a label's slots.
#[tactic(auto, unfolding(crate::specs::Mentions::slot_names, crate::specs::Mentions::with_mentions))]
fn mention_slots(
    alloc: Global,
    names: &ModuleNames,
    found: &mut NameSet,
    slots: &Option<TypeTextList>,
) -> Result<(), NoMemory>
    ensures { OnOk result (found.new ≡ with_mentions (names_shown names.now) found.old (slot_names slots.now)) }
{
    match slots {
        Some(types) => mention_each(alloc, names, found, types.items()),
        None => Ok(()),
    }
}

impl Mentions for Form {
    ghost mentioned = { form_names };

    #[tactic(auto, unfolding(crate::specs::Mentions::form_names, crate::specs::Mentions::with_mentions), using(crate::proofs::Appends::mentions_append))]
    fn mention(
        &self,
        alloc: Global,
        names: &ModuleNames,
        found: &mut NameSet,
    ) -> Result<(), NoMemory> {
        match self {
            Form::Heap(_) | Form::Stacks(_) | Form::End => Ok(()),
            Form::Entry { func, .. } => names.mention(alloc, found, func),
            Form::Sig {
                name,
                params,
                result,
                ..
            } => {
                names.mention(alloc, found, name)?;
                mention_each(alloc, names, found, params.items())?;
                result.mention(alloc, names, found)
            }
            Form::Kind { name, element, .. } => {
                names.mention(alloc, found, name)?;
                element.mention(alloc, names, found)
            }
            Form::Static { name, ty, .. } | Form::Field { name, ty } => {
                names.mention(alloc, found, name)?;
                ty.mention(alloc, names, found)
            }
            Form::DataArray { name, kind, .. } => {
                names.mention(alloc, found, name)?;
                names.mention(alloc, found, kind)
            }
            Form::Class { name, parent, .. } => {
                names.mention(alloc, found, name)?;
                match parent {
                    Some(parent) => names.mention(alloc, found, parent),
                    None => Ok(()),
                }
            }
            Form::Method { name, sig, func } => {
                names.mention(alloc, found, name)?;
                names.mention(alloc, found, sig)?;
                names.mention(alloc, found, func)
            }
            Form::Func { name, sig, .. } => {
                names.mention(alloc, found, name)?;
                names.mention(alloc, found, sig)
            }
            Form::Label { name, regs, slots } => {
                names.mention(alloc, found, name)?;
                mention_each(alloc, names, found, regs.items())?;
                mention_slots(alloc, names, found, slots)
            }
            Form::Inst { args, .. } => mention_each(alloc, names, found, args.items()),
        }
    }
}

impl Mentions for TextLine {
    ghost mentioned = { line_names };

    fn mention(
        &self,
        alloc: Global,
        names: &ModuleNames,
        found: &mut NameSet,
    ) -> Result<(), NoMemory> {
        self.form.mention(alloc, names, found)
    }
}
