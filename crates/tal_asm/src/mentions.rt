// Whether a line mentions a name.
ghost use Rattle.std.specs.Prelude.{◌≡◌, ◌∷◌, [], List, ℕ};
ghost use Rattle.std.specs.List.{flat_map};
ghost use Rattle.std.specs.Option.{option_to_list};
ghost use Rattle.tal_names.specs.NameSets.{is_named};
ghost use Rattle.tal_names.specs.Mentions.{type_names, reg_type_names, term_names, arg_names, slot_names, form_names};
ghost use Rattle.tal_asm.specs.UnitFor.{first_mention};

use tal_syntax::{Arg, Form, Name, RegType, Term, TextLine, TypeText, TypeTextList};

// What mentions names.
trait Mentions {
    ghost mentioned: { Self → List (List ℕ) };

    // Whether it mentions a name.
    fn mentions(&self, name: &[u8]) -> bool
        ensures { result ≡ is_named (mentioned self.now) name.now };
}

// Whether one of the items mentions a name.
#[tactic(auto, using(crate::proofs::Mentioned::next_mentions))]
fn any_mentions<T: Mentions>(items: &[T], name: &[u8]) -> bool
    ensures { result ≡ is_named (flat_map T.mentioned items.now) name.now }
{
    for item in items {
        if item.mentions(name) {
            return true;
        }
    }
    false
}

// Whether it is this name.
fn is_name(found: &Name, name: &[u8]) -> bool
    ensures { result ≡ is_named (found.now ∷ []) name.now }
{
    name == found.bytes()
}

impl Mentions for TypeText {
    ghost mentioned = { type_names };

    #[tactic(auto, unfolding(tal_names::specs::Mentions::type_names))]
    fn mentions(&self, name: &[u8]) -> bool {
        match self {
            TypeText::Num | TypeText::Junk => false,
            TypeText::Ref(found)
            | TypeText::Obj(found)
            | TypeText::ArrRef(found)
            | TypeText::Arr(found)
            | TypeText::Fun(found)
            | TypeText::Code(found)
            | TypeText::Tab(found)
            | TypeText::Desc(found) => is_name(found, name),
        }
    }
}

impl Mentions for RegType {
    ghost mentioned = { reg_type_names };

    fn mentions(&self, name: &[u8]) -> bool {
        self.ty.mentions(name)
    }
}

impl Mentions for Term {
    ghost mentioned = { term_names };

    #[tactic(auto, unfolding(tal_names::specs::Mentions::term_names))]
    fn mentions(&self, name: &[u8]) -> bool {
        match self {
            Term::Register(_) | Term::Scaled(_, _) | Term::Number(_) => false,
            Term::FieldByte(class, member) | Term::MethodByte(class, member) => {
                is_name(class, name) || is_name(member, name)
            }
            Term::DisplayByte(found) | Term::StaticAt(found) => is_name(found, name),
        }
    }
}

impl Mentions for Arg {
    ghost mentioned = { arg_names };

    #[tactic(auto, unfolding(tal_names::specs::Mentions::arg_names))]
    fn mentions(&self, name: &[u8]) -> bool {
        match self {
            Arg::Register(_) | Arg::Cl | Arg::Number(_) | Arg::Nucleus(_) => false,
            Arg::Null(ty) => ty.mentions(name),
            Arg::Memory(terms) => any_mentions(terms.items(), name),
            Arg::Tab(found)
            | Arg::Desc(found)
            | Arg::Code(found)
            | Arg::DataOf(found)
            | Arg::Target(found) => is_name(found, name),
        }
    }
}

// Whether the slots of a label mention a name.
#[tactic(auto, unfolding(tal_names::specs::Mentions::slot_names))]
fn slots_mention(slots: &Option<TypeTextList>, name: &[u8]) -> bool
    ensures { result ≡ is_named (slot_names slots.now) name.now }
{
    match slots {
        Some(types) => any_mentions(types.items(), name),
        None => false,
    }
}

// Whether it is the name of the class above another one.
fn is_parent(parent: &Option<Name>, name: &[u8]) -> bool
    ensures { result ≡ is_named (option_to_list parent.now) name.now }
{
    match parent {
        Some(found) => is_name(found, name),
        None => false,
    }
}

impl Mentions for Form {
    ghost mentioned = { form_names };

    #[tactic(auto, unfolding(tal_names::specs::Mentions::form_names), using(crate::proofs::Mentioned::joined_mention))]
    fn mentions(&self, name: &[u8]) -> bool {
        match self {
            Form::Heap(_) | Form::Stacks(_) | Form::End => false,
            Form::Entry { func, .. } => is_name(func, name),
            Form::Sig {
                name: found,
                params,
                result,
                ..
            } => {
                is_name(found, name) || any_mentions(params.items(), name) || result.mentions(name)
            }
            Form::Kind {
                name: found,
                element,
                ..
            } => is_name(found, name) || element.mentions(name),
            Form::Static {
                name: found,
                ty,
                ..
            }
            | Form::Field { name: found, ty } => is_name(found, name) || ty.mentions(name),
            Form::DataArray {
                name: found,
                kind,
                ..
            } => is_name(found, name) || is_name(kind, name),
            Form::Class {
                name: found,
                parent,
                ..
            } => is_name(found, name) || is_parent(parent, name),
            Form::Method {
                name: found,
                sig,
                func,
            } => is_name(found, name) || is_name(sig, name) || is_name(func, name),
            Form::Func {
                name: found,
                sig,
                ..
            } => is_name(found, name) || is_name(sig, name),
            Form::Label {
                name: found,
                regs,
                slots,
            } => {
                is_name(found, name)
                    || any_mentions(regs.items(), name)
                    || slots_mention(slots, name)
            }
            Form::Inst { args, .. } => any_mentions(args.items(), name),
        }
    }
}

/// The number of the first line that mentions a name; 0 where none does.
#[tactic(auto, unfolding(crate::specs::UnitFor::first_mention))]
pub(crate) fn first_mention(name: &[u8], lines: &[TextLine]) -> u32
    ensures { result ≡ first_mention name.now lines.now }
{
    for line in lines {
        if line.form.mentions(name) {
            return line.number;
        }
    }
    0
}
