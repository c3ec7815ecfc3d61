// What holds of the definitions alone. Each law is a function with nothing to do, whose clause is the law.
ghost use Rattle.std.specs.Prelude.{◌≡◌, ◌<◌, ◌++◌, ◌∷◌, [], List, ℕ, Bool, Option, Ok, length};
ghost use Rattle.object_layout.specs.declared.rows.ClassRow.{ClassRow};
ghost use Rattle.tal_image.specs.declared.parts.FunctionPart.{FunctionPart};
ghost use Rattle.tal_image.specs.declared.parts.Tables.{Tables};
ghost use Rattle.tal_names.specs.Declarations.{Names};
ghost use Rattle.tal_syntax.specs.declared.module.TextLine.{TextLine};
ghost use Rattle.unit_files.specs.Formed.{IsMention};
ghost use Rattle.unit_files.specs.declared.parts.UnitClass.{UnitClass};
ghost use Rattle.tal_classes.specs.Members.{class_row};
ghost use Rattle.tal_classes.specs.Formed.{TypesKnown, AreDeclared, AreFirst, FitsBelow, AreClasses};

/// The row that the lines of a class make keeps the conditions of classes, after those before it.
pub fn row_is_class()
    ensures { (m : Names) (t : Tables) (functions : List FunctionPart) (names : ℕ) (rows : List UnitClass) (parent : Option ℕ) (behind : List TextLine)
        (name : ℕ) (ext : Bool) (row : ClassRow)
        → TypesKnown m t → AreDeclared m functions → AreFirst m rows → AreClasses names t functions rows → length rows < 1024 → FitsBelow m rows parent → IsMention names name
        → class_row m rows parent behind ≡ Ok row
        → (row.parent ≡ parent) × AreClasses names t functions (rows ++ record { name = name; ext = ext; row = row } ∷ []) }
{
    object_layout::laws::lineage_laws();
}
