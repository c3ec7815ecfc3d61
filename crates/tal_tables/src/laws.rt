// What holds of the definitions alone. Each law is a function with nothing to do, whose clause is the law.
ghost use Rattle.std.specs.Prelude.{◌≡◌, ◌≤◌, List, ℕ, Bool, false, Ok, length};
ghost use Rattle.tal_syntax.specs.declared.form.Form.{Form};
ghost use Rattle.tal_syntax.specs.declared.form.Form.TheVariants.{Func};
ghost use Rattle.tal_syntax.specs.declared.module.TextLine.{TextLine};
ghost use Rattle.tal_names.specs.Declarations.{Names, declare, declared_with, no_names};
ghost use Rattle.tal_rows.specs.Lines.{function_line};
ghost use Rattle.tal_tables.specs.Formed.{DeclaredBefore, AreMentioned, MakesRow, TablesKeep};
ghost use Rattle.tal_tables.specs.Rows.{ModuleTablesView, no_tables, name_number, and_function, take_row};

/// What lines declare begins with what was declared before them.
pub fn lines_declare_behind()
    ensures { (first m : Names) (lines : List TextLine) → declared_with first lines ≡ m → DeclaredBefore first m }
{}

/// Empty tables keep what tables keep.
pub fn empty_tables_keep()
    ensures { (m : Names) (names : ℕ) → TablesKeep m no_names names no_tables }
{}

/// The tables keep it with the row of a line.
pub fn rows_keep()
    ensures { (m first : Names) (names : List (List ℕ)) (u v : ModuleTablesView) (line : ℕ) (f : Form) (behind : List TextLine)
        → MakesRow f → DeclaredBefore (declare first f behind) m → AreMentioned m names f → TablesKeep m first (length names) u
        → take_row m names u line f behind ≡ Ok v → TablesKeep m (declare first f behind) (length names) v }
{
    tal_classes::laws::row_is_class();
}

/// They keep it with the row of a function that has code.
pub fn function_keeps()
    ensures { (m first : Names) (names : List (List ℕ)) (u : ModuleTablesView) (n s : List ℕ) (behind : List TextLine) (has_code : Bool) (size sig : ℕ)
        → DeclaredBefore (declare first (Func false n s) behind) m → AreMentioned m names (Func false n s) → TablesKeep m first (length names) u
        → function_line m n s has_code (length u.functions) ≡ Ok sig → 1 ≤ size
        → TablesKeep m (declare first (Func false n s) behind) (length names) (and_function u (name_number names n) false size sig) }
{}
