ghost use Rattle.std.specs.Prelude.{◌≡◌};
ghost use Rattle.tal_types.specs.Contexts.{entry};
ghost use Rattle.tal_types.specs.Kept.{context_of};

use crate::contexts::Context;
use crate::types::Ty;

/// A function's signature: the types of its parameters in EAX, ECX, EDX, EBX, EBP, ESI and EDI, and of
/// its result in EAX.
#[derive(Clone, Copy, Debug, PartialEq, Eq)]
pub struct Sig {
    pub params: [Ty; 7],
    pub result: Ty,
}

/// Where the references of a frame are, at one instruction: bit i of `regs` and bit j of `refs` say that
/// register i and slot j hold references to objects or arrays. The frame has `slots` slots, 0 to 64.
#[derive(Clone, Copy, Debug, PartialEq, Eq)]
pub struct FrameRow {
    pub regs: u8,
    pub slots: u8,
    pub refs: u64,
}

/// What a signature lets its functions know at their first instruction: the types of the parameters, and
/// no slots.
#[tactic(auto, unfolding(crate::specs::Contexts::entry))]
pub fn entry_context(sig: &Sig) -> Context
    ensures { context_of result ≡ entry sig.now }
{
    Context::plain(&sig.params, &[])
}
