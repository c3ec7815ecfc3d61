ghost use Rattle.std.specs.Prelude.{◌≡◌, ◌≢◌, ℕ, ◌+◌, ◌<◌, ◌%◌, ◌^◌, ◌==◌, Bool, if◌then◌else◌, None, true, slice_index, slice_set};
ghost use Rattle.ia32_code.specs.Canonical.{Canonical};
ghost use Rattle.ia32_step.specs.Operands.{state_of};
ghost use Rattle.ia32_step.specs.Effects.{below_top, pushed};
ghost use Rattle.stack_states.specs.declared.table.TheConstants.{MOST_STACKS};
ghost use Rattle.tal_flow.specs.Rules.{next_address};
ghost use Rattle.tal_image.specs.Image.{ImageParts};
ghost use Rattle.typed_machine.specs.States.{State};
ghost use Rattle.typed_machine.specs.Effects.{Effect};
ghost use Rattle.word_machine.specs.Memory.{is_mapped, memory_word};
ghost use Rattle.word_machine.specs.Laws.{WriteLeaves, HeapWritten};
ghost use Rattle.word_machine.specs.Following.{StandsAt, Runs, Came};
ghost use Rattle.word_machine.specs.Stepping.{StepLaws, is_push, is_at_limit, overflows, Left, IsLeft, return_leads, went_back};

use crate::laws;
use crate::memory::{Memory, STACK_WORDS, heap_lawful};
use ia32_code::Inst;
use ia32_step::{Bus, Cpu, Effect as StepEffect, exec};
use object_layout::areas::STACKS_START;
use tal_flow::{entry_number, is_entry};

const ESP: usize = 4;

/// The vector of the stack fault.
pub(crate) const STACK_FAULT: u8 = 12;

/// What an instruction came to.
#[derive(Clone, Copy, Debug, PartialEq, Eq, Drop)]
pub enum Step {
    /// It was done, and the words are those after it.
    Moves,
    /// It faulted with this vector, and nothing changed.
    Faults(u8),
    /// It calls this entry of the Nucleus, and nothing changed.
    Calls(u32),
    /// It returns to the end word of the running stack, and nothing changed.
    Ends,
}

/// Runs the instruction at the processor's place, which is spelled with `len` bytes, on the stack `current`.
///
/// From every typed state that the words stand for they come to where the instruction's effect leads. In the heap one word of an
/// object changes at most.
pub fn advance(cpu: &mut Cpu, memory: &mut Memory, current: u32, inst: &Inst, len: u8) -> Step
    requires spelled { Canonical inst.now ≢ None }
    requires runs { Runs current inst.now len cpu.old memory.old }
    ensures step { (image : ImageParts) (live : ℕ → Bool) (s : State) → StandsAt image live s cpu.old memory.old inst.now len → s.current ≡ current
        → Came result cpu.new memory.new image live s (Effect image s inst.now len) }
    ensures heap { HeapWritten memory.old.heap memory.new.heap }
{
    lawful();
    let next = cpu.pc.wrapping_add(len as u32);
    match execute(cpu, memory, current, inst, len) {
        StepEffect::Next => Step::Moves,
        StepEffect::Fault(vector) => Step::Faults(vector),
        StepEffect::Call(target) => {
            if is_entry(target) {
                return Step::Calls(entry_number(target));
            }
            if is_at_limit(cpu, current) {
                return Step::Faults(STACK_FAULT);
            }
            enter(cpu, memory, target, next);
            Step::Moves
        }
        StepEffect::Return => leave(cpu, memory),
    }
}

// Runs an instruction; what it leaves is the caller's. PUSH on a full stack is the stack fault.
fn execute(cpu: &mut Cpu, memory: &mut Memory, current: u32, inst: &Inst, len: u8) -> StepEffect
    requires spelled { Canonical inst.now ≢ None }
    requires runs { Runs current inst.now len cpu.old memory.old }
    ensures left { (image : ImageParts) (live : ℕ → Bool) (s : State) → StandsAt image live s cpu.old memory.old inst.now len → s.current ≡ current
        → Left image live s (next_address s.thread.place len) result (Effect image s inst.now len) cpu.new memory.new }
    ensures heap { HeapWritten memory.old.heap memory.new.heap }
    ensures stays { IsLeft result → memory.new.heap ≡ memory.old.heap }
{
    lawful();
    if overflows(inst, cpu, current) {
        return StepEffect::Fault(STACK_FAULT);
    }
    // The heap is blocks before and after.
    memory.formed();
    let effect = exec(cpu, memory, inst, len);
    memory.formed();
    effect
}

// The laws that a step rests on: facts for the proof.
pub(crate) fn lawful()
    ensures { StepLaws }
{
    laws::spots_are_read();
    laws::spots_are_written();
    laws::values_are_pushed();
    laws::values_are_dropped();
    typed_safety::laws::formed_images_tell();
    typed_safety::laws::well_typed_images_keep_typing();
    typed_safety::laws::displays_are_there();
    typed_safety::laws::instructions_use_living();
    heap_lawful();
}

fn is_push(inst: &Inst) -> bool
    ensures { result ≡ is_push inst.now }
{
    matches!(inst, Inst::Push(_))
}

// Whether ESP is at the lower end of the stack, which then is full.
pub(crate) fn is_at_limit(cpu: &Cpu, stack: u32) -> bool
    requires { stack < MOST_STACKS }
    ensures { result ≡ is_at_limit cpu.now stack }
{
    cpu.regs[ESP] == STACKS_START + 4 * STACK_WORDS as u32 * stack
}

// Whether the instruction pushes a word for which there is no room.
fn overflows(inst: &Inst, cpu: &Cpu, stack: u32) -> bool
    requires { stack < MOST_STACKS }
    ensures { result ≡ overflows inst.now cpu.now stack }
{
    is_push(inst) && is_at_limit(cpu, stack)
}

// Pushes the place after a call, and goes to the function.
pub(crate) fn enter(cpu: &mut Cpu, memory: &mut Memory, target: u32, next: u32)
    requires { is_mapped memory.old (below_top (state_of cpu.old (memory_word memory.old))) ≡ true }
    ensures regs { cpu.new.regs ≡ (pushed next (state_of cpu.old (memory_word memory.old))).regs }
    ensures flags { cpu.new.flags ≡ cpu.old.flags }
    ensures place { cpu.new.pc ≡ target }
    ensures put { WriteLeaves memory.old memory.new (below_top (state_of cpu.old (memory_word memory.old))) next }
{
    let top = cpu.regs[ESP].wrapping_sub(4);
    memory.put(top, next);
    cpu.regs[ESP] = top;
    cpu.pc = target;
}

// Goes back to the place on top of the stack, and drops it. At the end word nothing changes.
pub(crate) fn leave(cpu: &mut Cpu, memory: &Memory) -> Step
    requires { is_mapped memory.now (slice_index cpu.old.regs 4) ≡ true }
    ensures step { result ≡ return_leads (memory_word memory.now (slice_index cpu.old.regs 4)) }
    ensures cpu { cpu.new ≡ went_back (memory_word memory.now (slice_index cpu.old.regs 4)) cpu.old }
{
    let top = cpu.regs[ESP];
    let place = memory.load(top);
    if place == 0 {
        return Step::Ends;
    }
    cpu.regs[ESP] = top.wrapping_add(4);
    cpu.pc = place;
    Step::Moves
}
