ghost use Rattle.std.specs.Prelude.{◌≡◌};
ghost use Rattle.tal_checker.specs.declared.answer.CheckAnswer.TheVariants.{NoMemory as no_memory};

use no_memory::NoMemory;

/// Why an image is not accepted.
#[derive(Clone, Copy, Debug, PartialEq, Eq, Drop)]
pub enum CheckAnswer {
    /// A rule of typing fails: `address` is the least where one does, `rule` the least rule that fails there, 1 to 17.
    Refused { address: u32, rule: u8 },
    /// There was no memory for checking.
    NoMemory,
}

impl From<NoMemory> for CheckAnswer {
    ghost from_gives = { λ _ answer. answer ≡ no_memory };

    fn from(_failure: NoMemory) -> CheckAnswer {
        CheckAnswer::NoMemory
    }
}
