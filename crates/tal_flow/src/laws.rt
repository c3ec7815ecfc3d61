ghost use Rattle.std.specs.Prelude.{◌≡◌, ℕ, List, None, Some, ◌↔◌};
ghost use Rattle.ia32_code.specs.declared.instruction.Inst.{Inst};
ghost use Rattle.object_layout.specs.Classes.{ShapesView};
ghost use Rattle.object_layout.specs.Laws.{ClassLaws};
ghost use Rattle.tal_types.specs.Contexts.{LiveContext, ContextView, ContextBelow, Dead, Live};
ghost use Rattle.tal_types.specs.Shown.{ShownImage};
ghost use Rattle.tal_flow.specs.Rules.{rule_of, LeastRule, NoRuleFails, next_address, Falls, Branches};
ghost use Rattle.tal_flow.specs.Strongest.{PlacedInst, NoRuleAt, falls_from, start, placed_at, Chained, contexts, At, NoneFails, JoinedContexts, OneHead, HasOneHead, BlocksHaveOneHead, HasJunkEsp, BlocksHaveJunkEsp};

use tal_types::laws::type_laws;

/// The rule of an instruction, the first that fails of those that are tried, is the least rule that fails; where there is
/// none, none fails.
pub fn least_rule()
    ensures least { (v : ShownImage) (c : ContextView) (pc : ℕ) (inst : Inst) (len n : ℕ) → (rule_of v c pc inst len ≡ Some n) ↔ LeastRule v c pc inst len n }
    ensures none { (v : ShownImage) (c : ContextView) (pc : ℕ) (inst : Inst) (len : ℕ) → (rule_of v c pc inst len ≡ None) ↔ NoRuleFails v c pc inst len }
{}

/// The monotone law, for two contexts of which no table register of the lower has two heads: where no rule fails in the
/// higher context, none fails in the lower, and what falls through there is below; and what branches is always below.
pub fn monotone()
    ensures rules { (v : ShownImage) → ClassLaws v.shapes → (a b : ContextView) (pc : ℕ) (inst : Inst) (len : ℕ) → ContextBelow v.shapes a b → HasOneHead a →
        NoRuleFails v b pc inst len → NoRuleFails v a pc inst len }
    ensures falls { (v : ShownImage) → ClassLaws v.shapes → (a b : ContextView) (pc : ℕ) (inst : Inst) (len : ℕ) → ContextBelow v.shapes a b → HasOneHead a →
        NoRuleFails v b pc inst len → ContextBelow v.shapes (Falls v a pc inst len) (Falls v b pc inst len) }
    ensures branches { (v : ShownImage) → ClassLaws v.shapes → (a b : ContextView) (pc : ℕ) (inst : Inst) (len : ℕ) → ContextBelow v.shapes a b →
        ContextBelow v.shapes (Branches v a pc inst len) (Branches v b pc inst len) }
{
    type_laws();
}

/// No table register has two heads in the strongest contexts, nor in what is above such a live context.
pub fn one_head()
    ensures strongest { (v : ShownImage) → BlocksHaveOneHead v → (xs : List PlacedInst) (pc : ℕ) → HasOneHead (At v xs pc) }
    ensures above { (s : ShapesView) (a : LiveContext) (b : ContextView) → ContextBelow s (Live a) b → OneHead a → HasOneHead b }
{
    type_laws();
}

/// Where no rule fails in the strongest contexts, these know nothing of what ESP holds.
pub fn esp_is_junk()
    ensures { (v : ShownImage) → BlocksHaveJunkEsp v → (xs : List PlacedInst) (pc : ℕ) → NoneFails v xs (contexts v xs Dead) → HasJunkEsp (At v xs pc) }
{
    type_laws();
}

/// There are contexts, one for each instruction, in which no rule fails, each above what falls to it, exactly where no rule fails
/// in the strongest contexts. These are `At` at each instruction, and `At` at the next one is what that
/// has by itself or what falls to it.
pub fn strongest_contexts()
    ensures exactly { (v : ShownImage) → ClassLaws v.shapes → BlocksHaveOneHead v → (xs : List PlacedInst) →
        ((cs : List ContextView) × NoneFails v xs cs × JoinedContexts v xs cs Dead) ↔ NoneFails v xs (contexts v xs Dead) }
    ensures rows { (v : ShownImage) (xs : List PlacedInst) (pc : ℕ) (x : PlacedInst) → NoneFails v xs (contexts v xs Dead) → placed_at xs pc ≡ Some x →
        NoRuleAt v (At v xs pc) x }
    ensures next { (v : ShownImage) (xs : List PlacedInst) (n pc : ℕ) (x y : PlacedInst) → Chained n xs → placed_at xs pc ≡ Some x →
        placed_at xs (next_address x.pc x.len) ≡ Some y → At v xs (next_address x.pc x.len) ≡ start v (next_address x.pc x.len) (falls_from v (At v xs pc) x) }
{
    type_laws();
}
