// The codes of types in image files, both ways: a tag and an index.
ghost use Rattle.std.specs.Prelude.{◌≡◌};
ghost use Rattle.tal_image.specs.Fields.{type_with, field_type_with};
ghost use Rattle.tal_image.specs.Image.{type_tag, type_index};

use object_layout::FieldTy;
use tal_types::Ty;

/// The type with a tag and an index.
#[tactic(auto, unfolding(crate::specs::Fields::type_with))]
pub(crate) fn type_with(tag: u32, index: u32) -> Ty
    ensures { result ≡ type_with tag index }
{
    match tag {
        0 => Ty::Num,
        1 => Ty::Ref(index),
        2 => Ty::Obj(index),
        3 => Ty::ArrRef(index),
        4 => Ty::Arr(index),
        5 => Ty::Fun(index),
        6 => Ty::Code(index),
        7 => Ty::Tab(index),
        8 => Ty::Desc(index),
        _ => Ty::Junk,
    }
}

/// The type of a field, a static or an element with a tag and an index.
#[tactic(auto, unfolding(crate::specs::Fields::field_type_with))]
pub(crate) fn field_type_with(tag: u32, index: u32) -> FieldTy
    ensures { result ≡ field_type_with tag index }
{
    match tag {
        1 => FieldTy::Ref(index),
        3 => FieldTy::ArrRef(index),
        5 => FieldTy::Fun(index),
        _ => FieldTy::Num,
    }
}

/// The tag of a type, and its index, which is 0 where it has none.
#[tactic(auto, unfolding(crate::specs::Image::type_tag, crate::specs::Image::type_index))]
pub(crate) fn tag_and_index(ty: Ty) -> (u32, u32)
    ensures { result ≡ (type_tag ty, type_index ty) }
{
    match ty {
        Ty::Num => (0, 0),
        Ty::Ref(class) => (1, class),
        Ty::Obj(class) => (2, class),
        Ty::ArrRef(kind) => (3, kind),
        Ty::Arr(kind) => (4, kind),
        Ty::Fun(sig) => (5, sig),
        Ty::Code(sig) => (6, sig),
        Ty::Tab(class) => (7, class),
        Ty::Desc(kind) => (8, kind),
        Ty::Junk => (9, 0),
    }
}
