ghost use Rattle.std.specs.Prelude.{◌≡◌, ℕ, List, [], ◌∷◌, MatchOption};

/// A finite list of words, which are given one after another.
pub trait Roots {
    /// The words that are still to come.
    ghost remaining: { Self → List ℕ };

    /// The next word. None exactly after the last one.
    fn next(&mut self) -> Option<u32>
        ensures { MatchOption result (remaining self.old ≡ []) (λ w. remaining self.old ≡ w ∷ remaining self.new) };
}
