ghost use Rattle.std.specs.Prelude.{◌≡◌};
ghost use Rattle.ia32_step.specs.Conditions.{holds};

use ia32_code::Cond;
use stack_states::FlagBits;

/// Whether a branch on the condition is taken.
pub(crate) fn holds(cond: Cond, flags: FlagBits) -> bool
    ensures { result ≡ holds cond flags }
{
    let less = flags.sign != flags.overflow;
    match cond {
        Cond::O => flags.overflow,
        Cond::No => !flags.overflow,
        Cond::B => flags.carry,
        Cond::Ae => !flags.carry,
        Cond::E => flags.zero,
        Cond::Ne => !flags.zero,
        Cond::Be => flags.carry || flags.zero,
        Cond::A => !(flags.carry || flags.zero),
        Cond::S => flags.sign,
        Cond::Ns => !flags.sign,
        Cond::L => less,
        Cond::Ge => !less,
        Cond::Le => flags.zero || less,
        Cond::G => !(flags.zero || less),
    }
}
