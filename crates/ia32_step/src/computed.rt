ghost use Rattle.std.specs.Prelude.{◌≡◌};
ghost use Rattle.ia32_step.specs.Flags.{is_negative, flagged};

use stack_states::FlagBits;

/// What an operation computes: a word and the flags afterwards.
#[derive(Clone, Copy)]
pub(crate) struct Computed {
    pub(crate) value: u32,
    pub(crate) flags: FlagBits,
}

/// The highest bit of a word.
pub(crate) fn is_negative(word: u32) -> bool
    ensures { result ≡ is_negative word }
{
    word >= 0x8000_0000
}

/// A result with its flags, ZF and SF by the result.
pub(crate) fn flagged(value: u32, carry: bool, overflow: bool) -> Computed
    ensures { result ≡ flagged value carry overflow }
{
    Computed {
        value,
        flags: FlagBits {
            carry,
            zero: value == 0,
            sign: is_negative(value),
            overflow,
        },
    }
}
