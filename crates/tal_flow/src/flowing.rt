#![tactic(auto, unfolding(crate::specs::Rules::edge_fits, crate::specs::Rules::is_dead, crate::specs::Rules::next_address, tal_types::specs::Kept::context_of))]

ghost use Rattle.std.specs.Prelude.{◌≡◌, ◌&&◌, ◌||◌, [], ◌∷◌, None, false, Bool, IfOk, IfErr, IfSome, IfNone, MatchOption};
ghost use Rattle.std.specs.Option.{option_and_then};
ghost use Rattle.tal_types.specs.Contexts.{Live, Dead};
ghost use Rattle.tal_types.specs.Kept.{live_of, context_of};
ghost use Rattle.tal_flow.specs.Afterwards.{StoresResolved};
ghost use Rattle.tal_flow.specs.Edges.{branching, branches_to, falling, falls_to, refine, target_of, told_by_branch, is_refused};
ghost use Rattle.tal_flow.specs.Flows.{Flows};
ghost use Rattle.tal_flow.specs.Seen.{see};
ghost use Rattle.tal_flow.specs.Functions.{in_function};
ghost use Rattle.tal_flow.specs.Trials.{ask, first_failing};
ghost use Rattle.tal_flow.specs.Rules.{operand_rule, edge_fits, is_dead, rule_of_form, next_address, Falls, LeastRule, NoRuleFails};

use crate::afterwards::step;
use crate::edges::{Edges, Rule, refine, told_by_branch, told_by_fall};
use crate::forms::{Form, form_of};
use crate::functions::in_function;
use crate::rules::operand_rule;
use crate::seen::{Seen, see};
use crate::trials::{RuleName, ask, first_failing, rule_number};
use ia32_code::{Cond, Inst};
use tal_types::{Context, ImageView, below_annotation};

/// Whether what is known on an edge to an address is below the annotation of the block there, where
/// there is one.
fn fits<V: ImageView>(image: &V, context: &Context, address: u32) -> bool
    ensures { result ≡ edge_fits (V.shown image.now).shapes (context_of context.now) ((V.shown image.now).block_at address) }
{
    match image.annotation_at(address) {
        Some(block) => below_annotation(image.shapes(), context, &block),
        None => true,
    }
}

/// What is known where a branch goes.
fn taken<V: ImageView>(image: &V, context: &Context, condition: Cond) -> Context
    requires { context.now.dead ≡ false }
    ensures { context_of result ≡ refine (V.shown image.now).shapes (live_of context.now) context.now.kind (told_by_branch condition) }
{
    let mut taken = *context;
    refine(image.shapes(), &mut taken, told_by_branch(condition));
    taken
}

/// Whether what is known where a jump or a branch goes, if the form is one, is below the annotation there.
fn branch_fits<V: ImageView>(image: &V, context: &Context, form: &Form) -> bool
    requires { context.now.dead ≡ false }
    ensures { result ≡ edge_fits (V.shown image.now).shapes (branching (V.shown image.now) (live_of context.now) form.now) (option_and_then (V.shown image.now).block_at (target_of form.now)) }
{
    match form {
        Form::Jump(target) => fits(image, context, *target),
        Form::Branch(condition, target) => {
            fits(image, &taken(image, context, *condition), *target)
        }
        _ => true,
    }
}

/// Turns what is known before an instruction, none of whose rules 1 to 15 fails, into what falls through it.
fn go_on<V: ImageView>(image: &V, context: &mut Context, pc: u32, form: &Form, seen: &Seen)
    requires alive { context.old.dead ≡ false }
    requires seen { seen.now ≡ see (V.shown image.now) (live_of context.old) pc form.now }
    requires rules { operand_rule (V.shown image.now) (live_of context.old) pc form.now ≡ None }
    ensures { context_of context.new ≡ falling (V.shown image.now) (live_of context.old) pc form.now }
{
    match form {
        Form::Return | Form::Jump(_) => context.dead = true,
        Form::Branch(condition, _) => refine(image.shapes(), context, told_by_fall(*condition)),
        _ => step(context, seen),
    }
}

/// The first of the rules 16 and 17 that fails, where this falls through, and it is known whether what branches fits.
fn edge_rule<V: ImageView>(
    image: &V,
    fallen: &Context,
    pc: u32,
    next: u32,
    branch_fits: bool,
) -> Option<RuleName>
    ensures { result ≡ first_failing
        (ask RuleName.Annotation (branch_fits && edge_fits (V.shown image.now).shapes (context_of fallen.now) ((V.shown image.now).block_at next))
        ∷ ask RuleName.FunctionEnd (is_dead (context_of fallen.now) || in_function (V.shown image.now) pc next)
        ∷ []) }
{
    first_failing(&[
        ask(
            RuleName::Annotation,
            branch_fits && fits(image, fallen, next),
        ),
        ask(
            RuleName::FunctionEnd,
            fallen.dead || in_function(image, pc, next),
        ),
    ])
}

/// The first rule of an instruction that fails in a context that is not dead, which becomes what falls through.
fn pass_live<V: ImageView>(
    image: &V,
    context: &mut Context,
    pc: u32,
    next: u32,
    form: &Form,
) -> Option<RuleName>
    requires { context.old.dead ≡ false }
    ensures rule { result ≡ rule_of_form (V.shown image.now) (Live (live_of context.old)) pc next form.now }
    ensures falls { result ≡ None → context_of context.new ≡ falling (V.shown image.now) (live_of context.old) pc form.now }
{
    let seen = see(image, context, pc, form);
    if let Some(rule) = operand_rule(context, &seen) {
        return Some(rule);
    }
    let branch_fits = branch_fits(image, context, form);
    go_on(image, context, pc, form, &seen);
    edge_rule(image, context, pc, next, branch_fits)
}

/// The address behind an instruction.
fn next_address(pc: u32, len: u8) -> u32
    ensures { result ≡ next_address pc len }
{
    pc.wrapping_add(u32::from(len))
}

/// Whether rule 1 fails at the form in every context.
fn is_refused(form: &Form) -> bool
    ensures { result ≡ is_refused form.now }
{
    match form {
        Form::Refused => true,
        _ => false,
    }
}

/// The first rule of an instruction that fails, by its form; the context becomes what falls through. In the dead
/// context rule 1 alone is tried.
fn pass_form<V: ImageView>(
    image: &V,
    context: &mut Context,
    pc: u32,
    next: u32,
    form: &Form,
) -> Option<RuleName>
    ensures rule { result ≡ rule_of_form (V.shown image.now) (context_of context.old) pc next form.now }
    ensures falls { result ≡ None → context_of context.new ≡ falls_to (V.shown image.now) (context_of context.old) pc form.now }
{
    if !context.dead {
        return pass_live(image, context, pc, next, form);
    }
    if is_refused(form) {
        return Some(RuleName::Instruction);
    }
    None
}

/// Tries the rules of typing at the instruction at `pc`, whose spelling has `len` bytes, where `context` is known:
/// the least rule that fails, or none. Where none fails, the context becomes what is known where the instruction falls
/// through, dead where it does not; else nothing is said of what it is then.
pub fn pass<V: ImageView>(
    image: &V,
    context: &mut Context,
    pc: u32,
    inst: &Inst,
    len: u8,
) -> Option<Rule>
    ensures none { IfNone result (NoRuleFails (V.shown image.now) (context_of context.old) pc inst.now len) }
    ensures falls { IfNone result (context_of context.new ≡ Falls (V.shown image.now) (context_of context.old) pc inst.now len) }
    ensures rule { IfSome result (λ rule. LeastRule (V.shown image.now) (context_of context.old) pc inst.now len rule.0) }
{
    let next = next_address(pc, len);
    let form = form_of(next, inst);
    match pass_form(image, context, pc, next, &form) {
        None => None,
        Some(rule) => Some(Rule(rule_number(rule))),
    }
}

/// Where a jump or a branch goes and what is known there, where a run may go there.
fn edge<V: ImageView>(image: &V, context: &Context, form: &Form) -> Option<(u32, Context)>
    ensures { MatchOption result (branches_to (V.shown image.now) (context_of context.now) form.now ≡ Dead)
        (λ b. (target_of form.now ≡ Some b.0) × (context_of b.1 ≡ branches_to (V.shown image.now) (context_of context.now) form.now) × (b.1.dead ≡ false)) }
{
    if context.dead {
        return None;
    }
    match form {
        Form::Jump(target) => Some((*target, *context)),
        Form::Branch(condition, target) => {
            let taken = taken(image, context, *condition);
            if taken.dead {
                None
            } else {
                Some((*target, taken))
            }
        }
        _ => None,
    }
}

/// Tries the rules of typing at the instruction at `pc`, whose spelling has `len` bytes, where `context`
/// is known. Where none fails, the context becomes what is known where the instruction falls through,
/// dead where it does not, and the edges say where runs go. Else the answer is the least rule that fails,
/// and the context is as before.
pub fn flow<V: ImageView>(
    image: &V,
    context: &mut Context,
    pc: u32,
    inst: &Inst,
    len: u8,
) -> Result<Edges, Rule>
    ensures ok { IfOk result (λ edges. Flows (V.shown image.now) (context_of context.old) pc inst.now len (context_of context.new) edges) }
    ensures rule { IfErr result (λ rule. LeastRule (V.shown image.now) (context_of context.old) pc inst.now len rule.0) }
    ensures same { IfErr result (λ rule. context.new ≡ context.old) }
{
    let before = *context;
    if let Some(rule) = pass(image, context, pc, inst, len) {
        *context = before;
        return Err(rule);
    }
    let form = form_of(next_address(pc, len), inst);
    Ok(Edges {
        branch: edge(image, &before, &form),
        falls: !context.dead,
    })
}
