// The step of an instruction that is at hand in its quick form.
ghost use Rattle.std.specs.Prelude.{◌≡◌, ◌≢◌, ℕ, ◌<◌, Bool, None};
ghost use Rattle.ia32_code.specs.Canonical.{Canonical};
ghost use Rattle.quick_step.specs.QuickForms.{inst_of};
ghost use Rattle.stack_states.specs.declared.table.TheConstants.{MOST_STACKS};
ghost use Rattle.tal_flow.specs.Rules.{next_address};
ghost use Rattle.tal_image.specs.Image.{ImageParts};
ghost use Rattle.typed_machine.specs.States.{State};
ghost use Rattle.typed_machine.specs.Effects.{Effect};
ghost use Rattle.word_machine.specs.Laws.{HeapWritten};
ghost use Rattle.word_machine.specs.Following.{StandsAt, Runs, Came};
ghost use Rattle.word_machine.specs.Stepping.{is_push, overflows, Left, IsLeft};

use crate::memory::Memory;
use crate::step::{STACK_FAULT, Step, enter, is_at_limit, lawful, leave};
use ia32_step::{Cpu, Effect as StepEffect};
use quick_step::{Quick, exec_quick};
use tal_flow::{entry_number, is_entry};

/// Does what [`crate::advance`] does with the instruction that the quick form stands for.
#[inline(always)]
pub fn advance_quick(
    cpu: &mut Cpu,
    memory: &mut Memory,
    current: u32,
    quick: &Quick,
    len: u8,
) -> Step
    requires spelled { Canonical (inst_of quick.now) ≢ None }
    requires runs { Runs current (inst_of quick.now) len cpu.old memory.old }
    ensures step { (image : ImageParts) (live : ℕ → Bool) (s : State) → StandsAt image live s cpu.old memory.old (inst_of quick.now) len → s.current ≡ current
        → Came result cpu.new memory.new image live s (Effect image s (inst_of quick.now) len) }
    ensures heap { HeapWritten memory.old.heap memory.new.heap }
{
    lawful();
    let next = cpu.pc.wrapping_add(len as u32);
    match execute_quick(cpu, memory, current, quick, len) {
        StepEffect::Next => Step::Moves,
        StepEffect::Fault(vector) => Step::Faults(vector),
        StepEffect::Call(target) => {
            if is_entry(target) {
                return Step::Calls(entry_number(target));
            }
            if is_at_limit(cpu, current) {
                return Step::Faults(STACK_FAULT);
            }
            enter(cpu, memory, target, next);
            Step::Moves
        }
        StepEffect::Return => leave(cpu, memory),
    }
}

// Runs an instruction; what it leaves is the caller's. PUSH on a full stack is the stack fault.
#[inline(always)]
fn execute_quick(
    cpu: &mut Cpu,
    memory: &mut Memory,
    current: u32,
    quick: &Quick,
    len: u8,
) -> StepEffect
    requires spelled { Canonical (inst_of quick.now) ≢ None }
    requires runs { Runs current (inst_of quick.now) len cpu.old memory.old }
    ensures left { (image : ImageParts) (live : ℕ → Bool) (s : State) → StandsAt image live s cpu.old memory.old (inst_of quick.now) len → s.current ≡ current
        → Left image live s (next_address s.thread.place len) result (Effect image s (inst_of quick.now) len) cpu.new memory.new }
    ensures heap { HeapWritten memory.old.heap memory.new.heap }
    ensures stays { IsLeft result → memory.new.heap ≡ memory.old.heap }
{
    lawful();
    if quick_overflows(quick, cpu, current) {
        return StepEffect::Fault(STACK_FAULT);
    }
    // The heap is blocks before and after.
    memory.formed();
    let effect = exec_quick(cpu, memory, quick, len);
    memory.formed();
    effect
}

#[inline(always)]
fn pushes(quick: &Quick) -> bool
    ensures { result ≡ is_push (inst_of quick.now) }
{
    matches!(quick, Quick::PushR(_) | Quick::PushI(_))
}

// Whether the instruction pushes a word for which there is no room.
#[inline(always)]
fn quick_overflows(quick: &Quick, cpu: &Cpu, stack: u32) -> bool
    requires { stack < MOST_STACKS }
    ensures { result ≡ overflows (inst_of quick.now) cpu.now stack }
{
    pushes(quick) && is_at_limit(cpu, stack)
}
