ghost use Rattle.std.specs.Prelude.{◌≡◌};
ghost use Rattle.tal_flow.specs.Trials.{ask, rule_number, first_failing};

/// A rule of typing, by what it is about. The program prints its number.
#[derive(Clone, Copy, Debug, PartialEq, Eq)]
pub enum RuleName {
    /// 1: typing knows the instruction
    Instruction,
    /// 2: ESP is named in one of its two roles
    EspRole,
    /// 3: a memory operand is a place
    Place,
    /// 4: a place is read or written as it may be
    Access,
    /// 5: an operand is a number
    Number,
    /// 6: a stored type is below the place's
    Stored,
    /// 7: there is room for a slot more
    SlotRoom,
    /// 8: the slots that go are there
    SlotsThere,
    /// 9: the operands of CMP or TEST have a row
    Comparison,
    /// 10: what is called is a function or a Nucleus entry
    Callee,
    /// 11: the arguments fit
    Arguments,
    /// 12: no slots are left at RET
    SlotsLeft,
    /// 13: EAX fits the function's result
    Returned,
    /// 14: the target is a block of the function
    Target,
    /// 15: the flag kind allows the condition
    Condition,
    /// 16: what is known on an edge is below the annotation there
    Annotation,
    /// 17: no run falls out of the function
    FunctionEnd,
}

/// The number of a rule, 1 to 17.
#[tactic(auto, unfolding(crate::specs::Trials::rule_number))]
pub(crate) fn rule_number(rule: RuleName) -> u8
    ensures { result ≡ rule_number rule }
{
    match rule {
        RuleName::Instruction => 1,
        RuleName::EspRole => 2,
        RuleName::Place => 3,
        RuleName::Access => 4,
        RuleName::Number => 5,
        RuleName::Stored => 6,
        RuleName::SlotRoom => 7,
        RuleName::SlotsThere => 8,
        RuleName::Comparison => 9,
        RuleName::Callee => 10,
        RuleName::Arguments => 11,
        RuleName::SlotsLeft => 12,
        RuleName::Returned => 13,
        RuleName::Target => 14,
        RuleName::Condition => 15,
        RuleName::Annotation => 16,
        RuleName::FunctionEnd => 17,
    }
}

/// A rule that is tried, and whether it holds.
#[derive(Clone, Copy, Debug, PartialEq, Eq)]
pub struct Trial {
    pub rule: RuleName,
    pub holds: bool,
}

/// A rule asks this.
pub(crate) fn ask(rule: RuleName, holds: bool) -> Trial
    ensures { result ≡ ask rule holds }
{
    Trial { rule, holds }
}

/// The first that fails of the rules that are tried.
pub(crate) fn first_failing(trials: &[Trial]) -> Option<RuleName>
    ensures { result ≡ first_failing trials.now }
{
    for trial in trials {
        if !trial.holds {
            return Some(trial.rule);
        }
    }
    None
}
