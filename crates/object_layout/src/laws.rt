// What holds of classes and of the areas, over definitions and constants alone.
ghost use Rattle.std.specs.Prelude.{◌≡◌, None};
ghost use Rattle.object_layout.specs.Areas.{code_start, tables_start, descriptors_start, statics_start, stacks_start, heap_start};
ghost use Rattle.object_layout.specs.Classes.{ShapesView};
ghost use Rattle.object_layout.specs.Faults.{first_fault};
ghost use Rattle.object_layout.specs.Laws.{ClassLaws, LineageLaws};

use crate::areas::{
    CODE_START, DESCRIPTORS_START, HEAP_START, STACKS_START, STATICS_START, TABLES_START,
};

/// What holds of classes wherever no row has a fault: they are trees of depth 7 at most, a class keeps
/// the fields and methods that stand above it, and the tables tell which class is below which.
pub fn class_laws()
    ensures { (s : ShapesView) → first_fault s ≡ None → ClassLaws s }
{}

/// The lineage and the fields of a class by those of its parent.
pub fn lineage_laws()
    ensures { (s : ShapesView) → LineageLaws s }
{}

/// The areas begin where the definitions say.
pub fn area_starts()
    ensures code { CODE_START ≡ code_start }
    ensures tables { TABLES_START ≡ tables_start }
    ensures descriptors { DESCRIPTORS_START ≡ descriptors_start }
    ensures statics { STATICS_START ≡ statics_start }
    ensures stacks { STACKS_START ≡ stacks_start }
    ensures heap { HEAP_START ≡ heap_start }
{}
