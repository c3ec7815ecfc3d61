// What a name of a module stands for.
ghost use Rattle.std.specs.Prelude.{◌≡◌, ◌<◌, ◌*◌, ◌^◌, IfSome};
ghost use Rattle.tal_names.specs.Declarations.{names_shown};
ghost use Rattle.tal_names.specs.LookUps.{type_of, field_byte, method_byte, depth, display_byte};

use crate::names::{MemberSort, ModuleNames, lineage_length, member_number};
use tal_syntax::TypeText;
use tal_types::Ty;

impl ModuleNames {
    /// The type that is written so. None where a name of it is not declared.
    #[tactic(auto, unfolding(crate::specs::LookUps::type_of))]
    pub fn type_of(&self, text: &TypeText) -> Option<Ty>
        ensures { result ≡ type_of (names_shown self.now) text.now }
    {
        match text {
            TypeText::Num => Some(Ty::Num),
            TypeText::Junk => Some(Ty::Junk),
            TypeText::Ref(name) => Some(Ty::Ref(self.classes.number(name.bytes())?)),
            TypeText::Obj(name) => Some(Ty::Obj(self.classes.number(name.bytes())?)),
            TypeText::ArrRef(name) => Some(Ty::ArrRef(self.kinds.number(name.bytes())?)),
            TypeText::Arr(name) => Some(Ty::Arr(self.kinds.number(name.bytes())?)),
            TypeText::Fun(name) => Some(Ty::Fun(self.sigs.number(name.bytes())?)),
            TypeText::Code(name) => Some(Ty::Code(self.sigs.number(name.bytes())?)),
            TypeText::Tab(name) => Some(Ty::Tab(self.classes.number(name.bytes())?)),
            TypeText::Desc(name) => Some(Ty::Desc(self.kinds.number(name.bytes())?)),
        }
    }

    /// At which byte of an object of class `class` a field lies. None where neither the class nor those above it have it.
    #[tactic(auto, unfolding(crate::specs::LookUps::field_byte))]
    pub fn field_byte(&self, class: u32, field: &[u8]) -> Option<u64>
        ensures byte { result ≡ field_byte (names_shown self.now) class field.now }
        ensures few { IfSome result (λ byte. byte < 2 ^ 38) }
    {
        let number = member_number(&self.members, MemberSort::Field, Some(class), field)?;
        Some(4 + 4 * number)
    }

    /// At which byte of the table of class `class` a method's slot lies. None where neither the class nor those above it have
    /// the method.
    #[tactic(auto, unfolding(crate::specs::LookUps::method_byte))]
    pub fn method_byte(&self, class: u32, method: &[u8]) -> Option<u64>
        ensures byte { result ≡ method_byte (names_shown self.now) class method.now }
        ensures few { IfSome result (λ byte. byte < 2 ^ 38) }
    {
        let number = member_number(&self.members, MemberSort::Method, Some(class), method)?;
        Some(44 + 4 * number)
    }

    /// How many ancestors class `class` has: 0 to 7, and 7 where it has more. 0 where there is no such class.
    #[tactic(auto, unfolding(crate::specs::LookUps::depth))]
    pub fn depth(&self, class: u32) -> u32
        ensures depth { result ≡ depth (names_shown self.now) class }
        ensures few { result < 8 }
    {
        let classes = lineage_length(&self.members, Some(class), 8);
        if classes == 0 { 0 } else { classes - 1 }
    }

    /// At which byte of its table class `class` has its own slot of the display.
    #[tactic(auto, unfolding(crate::specs::LookUps::display_byte))]
    pub fn display_byte(&self, class: u32) -> u32
        ensures byte { result ≡ display_byte (names_shown self.now) class }
        ensures few { result < 64 }
    {
        12 + 4 * self.depth(class)
    }
}
