// Laws over the definitions.
ghost use Rattle.std.specs.Prelude.{◌≡◌, ◌↔◌, ℕ, List, Ok, Err};
ghost use Rattle.text_tokens.specs.Token.{PlacedLexeme};
ghost use Rattle.tal_syntax.specs.Faults.{FirstTokenFault};
ghost use Rattle.tal_syntax.specs.Grammar.{code_says, member_says, outside_says};
ghost use Rattle.tal_syntax.specs.Modules.{TextOf};
ghost use Rattle.tal_syntax.specs.Text.{At, line_at, text_at};
ghost use Rattle.tal_syntax.specs.declared.module.TextLine.{TextLine};
ghost use Rattle.tal_syntax.specs.declared.form.Scope.TheVariants.{InClass, InFunc, Outside};

/// A line of a class that is refused has its first fault, by the sentences of such lines, there.
pub fn first_fault_in_class()
    ensures { (line : List PlacedLexeme) (column code : ℕ) → line_at InClass line ≡ Err (At column code) → FirstTokenFault member_says line column code }
{}

/// A line outside classes and functions that is refused has its first fault, by the sentences of such lines, there.
pub fn first_fault_outside()
    ensures { (line : List PlacedLexeme) (column code : ℕ) → line_at Outside line ≡ Err (At column code) → FirstTokenFault outside_says line column code }
{}

/// A line of a function that is refused has its first fault, by the sentences of such lines, there.
pub fn first_fault_in_function()
    ensures { (line : List PlacedLexeme) (column code : ℕ) → line_at InFunc line ≡ Err (At column code) → FirstTokenFault code_says line column code }
{}

/// What is read of a text is a module exactly where its lines say one.
pub fn module_by_sentences()
    ensures { (bytes : List ℕ) (found : List TextLine) → (text_at bytes ≡ Ok found) ↔ TextOf bytes found }
{}
