// The table of one class, which has one number field.
ghost use Rattle.std.specs.Prelude.{◌≡◌, [], ◌∷◌, IfOk};
ghost use Rattle.heap_cases.specs.Plain.{IsPlain, number_class};

use no_memory::NoMemory;
use object_layout::{ClassRow, FieldList, FieldTy, MethodList, ShapeFault, Shapes};
use std::alloc::Global;

// The rows of the table.
fn class_rows(alloc: Global) -> Result<Vec<ClassRow>, NoMemory>
    ensures { IfOk result (λ rows. rows.items ≡ number_class ∷ []) }
{
    let mut fields = FieldList::new(alloc);
    fields.push(FieldTy::Num)?;
    let row = ClassRow {
        parent: None,
        fields,
        methods: MethodList::new(alloc),
    };
    Ok(vec![in alloc; row]?)
}

/// The table.
pub fn number_table(alloc: Global) -> Result<Shapes, ShapeFault>
    ensures { IfOk result IsPlain }
{
    let rows = class_rows(alloc)?;
    Shapes::of(alloc, &rows, &[], &[], 0)
}
