// What an object's words say, and where it stands.
ghost use Rattle.std.specs.Prelude.{◌≡◌, ◌<◌, false};
ghost use Rattle.std.specs.Option.{option_map_or};
ghost use Rattle.object_layout.specs.Classes.{is_reference};
ghost use Rattle.mark_sweep.specs.Objects.{address, holds_reference, shape_named};

use object_layout::areas::{DESCRIPTORS_START, HEAP_START, TABLES_START};
use object_layout::{FieldTy, Shape, Shapes};

/// The address of the object in the block at `i`.
#[tactic(auto, unfolding(crate::specs::Objects::address))]
pub fn object_address(i: u32) -> u32
    requires { i < 4194304 }
    ensures { result ≡ address i }
{
    HEAP_START + 4 * (i + 2)
}

/// The shape that an object's first word names.
#[tactic(auto, unfolding(crate::specs::Objects::shape_named))]
pub fn shape_named(word: u32) -> Shape
    ensures { result ≡ shape_named word }
{
    if word < DESCRIPTORS_START {
        Shape::Class(word.saturating_sub(TABLES_START) / 256)
    } else {
        Shape::Kind((word - DESCRIPTORS_START) / 16)
    }
}

// Whether there is a type, and it is one of references.
fn is_of_references(ty: Option<FieldTy>) -> bool
    ensures { result ≡ option_map_or is_reference ty false }
{
    match ty {
        Some(found) => found.is_reference(),
        None => false,
    }
}

// Whether word `k` of the object with these first two words is a reference field or element.
#[tactic(auto, unfolding(crate::specs::Objects::holds_reference))]
pub fn holds_reference(shapes: &Shapes, table: u32, length: u32, k: u32) -> bool
    requires { k < 4194304 }
    ensures { result ≡ holds_reference shapes.now (shape_named table) length k }
{
    match shape_named(table) {
        Shape::Class(class) => is_of_references(shapes.field_at(class, 4 * k)),
        Shape::Kind(kind) => {
            1 < k
                && u64::from(k) < 2 + u64::from(length)
                && is_of_references(shapes.element_of(kind))
        }
    }
}
