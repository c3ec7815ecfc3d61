ghost use Rattle.std.specs.Prelude.{◌≡◌, Bool, true, Option};
ghost use Rattle.std.specs.Option.{option_map_or};
ghost use Rattle.tal_types.specs.Contexts.{LiveContext};
ghost use Rattle.tal_types.specs.Kept.{live_of};
ghost use Rattle.tal_types.specs.declared.types.FlagKind.{FlagKind};
ghost use Rattle.tal_flow.specs.Places.{is_num};
ghost use Rattle.tal_flow.specs.Trials.{first_failing};
ghost use Rattle.tal_flow.specs.Rules.{address_spares_esp, address_is_num, operand_trials};

use crate::afterwards::may_drop;
use crate::calls::{Called, is_callable, is_fit};
use crate::edges::allows;
use crate::known::register;
use crate::operands::{Reads, Resolved, found, is_esp, is_num, readable, writable};
use crate::seen::Seen;
use crate::trials::{RuleName, ask, first_failing};
use ia32_code::{Cond, Mem, Reg};
use tal_types::{Context, FlagKind, Ty, same};

/// Whether a register of an address, if there is one, holds a number.
fn holds_number(context: &Context, r: Option<Reg>) -> bool
    ensures { result ≡ option_map_or (λ q. is_num ((live_of context.now).regs q)) r true }
{
    match r {
        Some(q) => is_num(register(context, q)),
        None => true,
    }
}

/// The first rule of a computation that fails.
fn compute_rule(reads: &Reads, d: &Resolved) -> Option<RuleName>
    ensures { (c : LiveContext) (wide : Bool) (kind : Option FlagKind) → result ≡ first_failing (operand_trials c (Seen.Compute reads.now d.now wide kind)) }
{
    first_failing(&[
        ask(RuleName::EspRole, reads.spares_esp && d.spares_esp),
        ask(RuleName::Place, reads.found && found(d)),
        ask(RuleName::Access, reads.readable && writable(d)),
        ask(RuleName::Number, reads.numbers),
    ])
}

/// The first rule of a MOV that fails.
fn move_rule(d: &Resolved, x: &Resolved, fits: bool) -> Option<RuleName>
    ensures { (c : LiveContext) → result ≡ first_failing (operand_trials c (Seen.Move d.now x.now fits)) }
{
    first_failing(&[
        ask(RuleName::EspRole, d.spares_esp && x.spares_esp),
        ask(RuleName::Place, found(d) && found(x)),
        ask(RuleName::Access, writable(d) && readable(x)),
        ask(RuleName::Stored, fits),
    ])
}

/// The first rule of a LEA that fails.
fn address_rule(context: &Context, r: Reg, m: &Mem) -> Option<RuleName>
    ensures { result ≡ first_failing (operand_trials (live_of context.now) (Seen.Address r m.now)) }
{
    first_failing(&[
        ask(
            RuleName::EspRole,
            !same(r, Reg::Esp) && (!is_esp(m.base) && !is_esp(m.index)),
        ),
        ask(
            RuleName::Number,
            holds_number(context, m.base) && holds_number(context, m.index),
        ),
    ])
}

/// The first rule of a CMP that fails.
fn compare_rule(d: &Resolved, x: &Resolved, kind: Option<FlagKind>) -> Option<RuleName>
    ensures { (c : LiveContext) → result ≡ first_failing (operand_trials c (Seen.Compare d.now x.now kind)) }
{
    first_failing(&[
        ask(RuleName::EspRole, d.spares_esp && x.spares_esp),
        ask(RuleName::Place, found(d) && found(x)),
        ask(RuleName::Comparison, kind.is_some()),
    ])
}

/// The first rule of a TEST that fails.
fn test_rule(d: &Resolved, x: &Resolved, kind: Option<FlagKind>) -> Option<RuleName>
    ensures { (c : LiveContext) → result ≡ first_failing (operand_trials c (Seen.TestBits d.now x.now kind)) }
{
    first_failing(&[
        ask(RuleName::EspRole, d.spares_esp && x.spares_esp),
        ask(RuleName::Place, found(d) && found(x)),
        ask(RuleName::Access, readable(d) && readable(x)),
        ask(RuleName::Comparison, kind.is_some()),
    ])
}

/// The first rule of a PUSH that fails.
fn push_rule(context: &Context, x: &Resolved) -> Option<RuleName>
    ensures { result ≡ first_failing (operand_trials (live_of context.now) (Seen.PushOf x.now)) }
{
    first_failing(&[
        ask(RuleName::EspRole, x.spares_esp),
        ask(RuleName::Place, found(x)),
        ask(RuleName::Access, readable(x)),
        ask(RuleName::SlotRoom, context.slots().len() < 64),
    ])
}

/// The first rule of a POP that fails.
fn pop_rule(context: &Context, r: Reg) -> Option<RuleName>
    ensures { result ≡ first_failing (operand_trials (live_of context.now) (Seen.PopTo r)) }
{
    first_failing(&[
        ask(RuleName::EspRole, !same(r, Reg::Esp)),
        ask(RuleName::SlotsThere, 1 <= context.slots().len()),
    ])
}

/// The first rule of ADD to ESP that fails.
fn drop_rule(context: &Context, bytes: u32, t: Ty) -> Option<RuleName>
    ensures { result ≡ first_failing (operand_trials (live_of context.now) (Seen.DropSlots bytes t)) }
{
    first_failing(&[
        ask(RuleName::Number, is_num(t)),
        ask(RuleName::SlotsThere, may_drop(context, bytes)),
    ])
}

/// The first rule of a CALL of an address that fails.
fn call_to_rule(called: Called) -> Option<RuleName>
    ensures { (c : LiveContext) → result ≡ first_failing (operand_trials c (Seen.CallTo called)) }
{
    first_failing(&[
        ask(RuleName::Callee, is_callable(called)),
        ask(RuleName::Arguments, is_fit(called)),
    ])
}

/// The first rule of a CALL of an operand that fails.
fn call_by_rule(x: &Resolved, called: Called) -> Option<RuleName>
    ensures { (c : LiveContext) → result ≡ first_failing (operand_trials c (Seen.CallBy x.now called)) }
{
    first_failing(&[
        ask(RuleName::EspRole, x.spares_esp),
        ask(RuleName::Place, found(x)),
        ask(RuleName::Access, readable(x)),
        ask(RuleName::Callee, is_callable(called)),
        ask(RuleName::Arguments, is_fit(called)),
    ])
}

/// The first rule of RET that fails.
fn return_rule(context: &Context, fits: bool) -> Option<RuleName>
    ensures { result ≡ first_failing (operand_trials (live_of context.now) (Seen.Return fits)) }
{
    first_failing(&[
        ask(RuleName::SlotsLeft, context.slots().len() == 0),
        ask(RuleName::Returned, fits),
    ])
}

/// The first rule of a branch that fails.
fn branch_rule(context: &Context, condition: Cond, is_block: bool) -> Option<RuleName>
    ensures { result ≡ first_failing (operand_trials (live_of context.now) (Seen.Branch condition is_block)) }
{
    first_failing(&[
        ask(RuleName::Target, is_block),
        ask(RuleName::Condition, allows(context.kind, condition)),
    ])
}

/// The first of the rules 1 to 15 that fails, in a context that is not dead.
pub(crate) fn operand_rule(context: &Context, seen: &Seen) -> Option<RuleName>
    ensures { result ≡ first_failing (operand_trials (live_of context.now) seen.now) }
{
    match seen {
        Seen::Refused => Some(RuleName::Instruction),
        Seen::Compute {
            reads,
            destination,
            ..
        } => compute_rule(reads, destination),
        Seen::Move(d, x, fits) => move_rule(d, x, *fits),
        Seen::Address(r, m) => address_rule(context, *r, m),
        Seen::Compare(d, x, kind) => compare_rule(d, x, *kind),
        Seen::TestBits(d, x, kind) => test_rule(d, x, *kind),
        Seen::PushOf(x) => push_rule(context, x),
        Seen::PopTo(r) => pop_rule(context, *r),
        Seen::DropSlots(bytes, t) => drop_rule(context, *bytes, *t),
        Seen::CallTo(called) => call_to_rule(*called),
        Seen::CallBy(x, called) => call_by_rule(x, *called),
        Seen::Return(fits) => return_rule(context, *fits),
        Seen::Jump(is_block) => first_failing(&[ask(RuleName::Target, *is_block)]),
        Seen::Branch(condition, is_block) => branch_rule(context, *condition, *is_block),
        Seen::Nothing => None,
    }
}
