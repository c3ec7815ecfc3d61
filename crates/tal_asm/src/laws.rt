// What holds of the definitions alone. Each law is a function with nothing to do, whose clause is the law.
ghost use Rattle.std.specs.Prelude.{◌≡◌, List, Ok};
ghost use Rattle.file_fields.specs.Parts.{Each};
ghost use Rattle.tal_syntax.specs.Modules.{IsModule};
ghost use Rattle.tal_syntax.specs.declared.module.TextLine.{TextLine};
ghost use Rattle.tal_names.specs.Mentions.{mentioned_names};
ghost use Rattle.unit_files.specs.Unit.{UnitParts};
ghost use Rattle.unit_files.specs.Formed.{UnitFormed, IsName};
ghost use Rattle.tal_asm.specs.UnitFor.{UnitFor};

/// The names that a module mentions are names of units.
pub fn names_are_names()
    ensures { (lines : List TextLine) → IsModule lines → Each IsName (mentioned_names lines) }
{}

/// The unit of lines keeps each condition of unit files, where the names of its rows are names.
pub fn lines_make_units()
    ensures { (lines : List TextLine) (u : UnitParts) → Each IsName (mentioned_names lines) → UnitFor lines ≡ Ok u → UnitFormed u }
{
    tal_tables::laws::lines_declare_behind();
    tal_tables::laws::empty_tables_keep();
    tal_tables::laws::rows_keep();
    tal_tables::laws::function_keeps();
    tal_code::laws::no_code_leads();
    tal_code::laws::functions_lead_on();
    tal_code::laws::functions_grow();
}
