// What holds of the definitions alone: the law is a function with nothing to do, whose clause is the law.
ghost use Rattle.std.specs.Prelude.{List, ℕ, true, ◌≡◌, ◌↔◌};
ghost use Rattle.object_layout.specs.Classes.{ShapesView};
ghost use Rattle.typed_machine.specs.Values.{Value};
ghost use Rattle.typed_machine.specs.Stores.{Store};
ghost use Rattle.typed_machine.specs.Reaching.{Reach};
ghost use Rattle.reached_objects.specs.ReachedFrom.{ReachedFrom};

/// As many rounds of marks as there are objects mark exactly the least set that has what the values refer to, and what the
/// references of a member refer to.
pub fn reach_is_least()
    ensures { (s : ShapesView) (store : Store) (values : List Value) (i : ℕ)
        → (Reach s store values i ≡ true) ↔ ReachedFrom s store values i }
{}
