// What the instruction of a turn comes to, over the processor and the Nucleus.
ghost use Rattle.std.specs.Prelude.{◌≡◌, ◌≢◌, ℕ, ◌≤◌, ◌+◌, Bool, List, None, Some, IsSome, length};
ghost use Rattle.ia32_code.specs.Canonical.{Canonical};
ghost use Rattle.ia32_code.specs.declared.instruction.Inst.{Inst};
ghost use Rattle.object_layout.specs.Areas.{code_start};
ghost use Rattle.quick_step.specs.QuickForms.{inst_of};
ghost use Rattle.tal_checker.specs.Frames.{frames_of};
ghost use Rattle.tal_image.specs.Image.{ImageParts};
ghost use Rattle.tal_image.specs.Shown.{shown};
ghost use Rattle.typed_machine.specs.Code.{inst_at};
ghost use Rattle.typed_machine.specs.States.{State};
ghost use Rattle.typed_machine.specs.Placing.{Answer};
ghost use Rattle.typed_machine.specs.Turns.{after_effect, instruction};
ghost use Rattle.typed_machine.specs.Reaching.{live_in};
ghost use Rattle.ia32_step.specs.declared.cpu.Cpu.{Cpu};
ghost use Rattle.nucleus_calls.specs.Nucleus.{NucleusView};
ghost use Rattle.nucleus_calls.specs.Turning.{StandsBefore, leaving_effect};
ghost use Rattle.kernel_machine.specs.Stepping.{TurnLeads, InTurn, MayLeave, ActsAt, MayAct, CameTo, ActedHere, ending_by};

use crate::machine::inst_in;
use crate::prepared::{Prepared, Ready};
use frame_tables::FrameTable;
use ia32_code::Inst;
use ia32_step::Cpu;
use nucleus_calls::{Journal, Leaving, Nucleus};
use object_layout::Shapes;
use quick_step::{Quick, quick_of};
use tal_types::ImageView;
use typed_machine::Ending;
use typed_safety::laws::{calls_reply, well_typed_images_keep_typing};
use word_machine::Step;

const EAX: usize = 0;

/// The stack of the kernel.
const KERNEL: u32 = 0;

/// The entries below this number touch the heap.
const HEAP_ENTRIES: u32 = 3;

/// The instruction at the processor's place has its effect, by its quick form where that is ready. Answers the end that it
/// brings.
#[inline(always)]
pub(crate) fn act_here(
    prepared: &mut Prepared,
    nucleus: &mut Nucleus,
    cpu: &mut Cpu,
    turn: u32,
    journal: &mut Journal,
) -> Option<Ending>
    requires low { code_start ≤ cpu.old.pc }
    requires inside { cpu.old.pc ≤ code_start + length prepared.old.image.code }
    requires whole { IsSome (inst_at prepared.old.image cpu.old.pc) }
    requires acts { (i : Inst) (len : ℕ) → inst_at prepared.old.image cpu.old.pc ≡ Some (i, len)
        → MayAct i len (shown prepared.old.image).shapes (frames_of prepared.old.image) cpu.old nucleus.old }
    requires room { 1 ≤ journal.old.spare }
    ensures prepared { prepared.new ≡ prepared.old }
    ensures acted { ActedHere prepared.old.image turn journal.old.entries journal.new.entries cpu.old nucleus.old cpu.new nucleus.new result }
    ensures spare { journal.old.spare ≤ journal.new.spare + 1 }
{
    let ready = prepared.ready(cpu.pc);
    match ready.quick {
        Quick::Full => act_first(prepared, nucleus, cpu, turn, journal),
        _ => act_quick(
            nucleus,
            cpu,
            turn,
            &ready.quick,
            ready.len,
            prepared.image().shapes(),
            prepared.checked().frames(),
            journal,
        ),
    }
}

// The same by the instruction's bytes. Its quick form is ready from now on.
#[inline(never)]
fn act_first(
    prepared: &mut Prepared,
    nucleus: &mut Nucleus,
    cpu: &mut Cpu,
    turn: u32,
    journal: &mut Journal,
) -> Option<Ending>
    requires low { code_start ≤ cpu.old.pc }
    requires inside { cpu.old.pc ≤ code_start + length prepared.old.image.code }
    requires whole { IsSome (inst_at prepared.old.image cpu.old.pc) }
    requires acts { (i : Inst) (len : ℕ) → inst_at prepared.old.image cpu.old.pc ≡ Some (i, len)
        → MayAct i len (shown prepared.old.image).shapes (frames_of prepared.old.image) cpu.old nucleus.old }
    requires room { 1 ≤ journal.old.spare }
    ensures prepared { prepared.new ≡ prepared.old }
    ensures acted { ActedHere prepared.old.image turn journal.old.entries journal.new.entries cpu.old nucleus.old cpu.new nucleus.new result }
    ensures spare { journal.old.spare ≤ journal.new.spare + 1 }
{
    let pc = cpu.pc;
    let (inst, len) = inst_in(prepared.image(), pc);
    let quick = quick_of(&inst);
    prepared.keep(pc, Ready { quick, len });
    act(
        nucleus,
        cpu,
        turn,
        &inst,
        len,
        prepared.image().shapes(),
        prepared.checked().frames(),
        journal,
    )
}

// The instruction at the processor's place, which is spelled with `len` bytes, has its effect. Answers the end that it brings.
fn act(
    nucleus: &mut Nucleus,
    cpu: &mut Cpu,
    turn: u32,
    inst: &Inst,
    len: u8,
    shapes: &Shapes,
    frames: &FrameTable,
    journal: &mut Journal,
) -> Option<Ending>
    requires spelled { Canonical inst.now ≢ None }
    requires acts { MayAct inst.now len shapes.now frames.now cpu.old nucleus.old }
    requires room { 1 ≤ journal.old.spare }
    ensures turn { (image : ImageParts) (s : State) → ActsAt image s inst.now len shapes.now frames.now cpu.old nucleus.old → InTurn turn s → (left : List Answer)
        → TurnLeads image (live_in image s) turn left journal.old.entries journal.new.entries cpu.new nucleus.new result (λ answers. instruction image answers s) }
    ensures spare { journal.old.spare ≤ journal.new.spare + 1 }
{
    let step = nucleus.step(cpu, inst, len);
    follow(step, nucleus, cpu, turn, len, shapes, frames, journal)
}

// Does what `act` does with the instruction that the quick form stands for.
#[inline(always)]
fn act_quick(
    nucleus: &mut Nucleus,
    cpu: &mut Cpu,
    turn: u32,
    quick: &Quick,
    len: u8,
    shapes: &Shapes,
    frames: &FrameTable,
    journal: &mut Journal,
) -> Option<Ending>
    requires spelled { Canonical (inst_of quick.now) ≢ None }
    requires acts { MayAct (inst_of quick.now) len shapes.now frames.now cpu.old nucleus.old }
    requires room { 1 ≤ journal.old.spare }
    ensures turn { (image : ImageParts) (s : State) → ActsAt image s (inst_of quick.now) len shapes.now frames.now cpu.old nucleus.old → InTurn turn s → (left : List Answer)
        → TurnLeads image (live_in image s) turn left journal.old.entries journal.new.entries cpu.new nucleus.new result (λ answers. instruction image answers s) }
    ensures spare { journal.old.spare ≤ journal.new.spare + 1 }
{
    let step = nucleus.step_quick(cpu, quick, len);
    follow(step, nucleus, cpu, turn, len, shapes, frames, journal)
}

// What an instruction came to is done: a fault, a call of the Nucleus, or a return to the end word. Answers the end that it brings.
#[inline(always)]
fn follow(
    step: Step,
    nucleus: &mut Nucleus,
    cpu: &mut Cpu,
    turn: u32,
    len: u8,
    shapes: &Shapes,
    frames: &FrameTable,
    journal: &mut Journal,
) -> Option<Ending>
    requires came { (i : Inst) × (before : Cpu) × (v : NucleusView) × CameTo step i len shapes.now frames.now before v cpu.old nucleus.old }
    requires room { 1 ≤ journal.old.spare }
    ensures turn { (i : Inst) (before : Cpu) (v : NucleusView) → CameTo step i len shapes.now frames.now before v cpu.old nucleus.old
        → (image : ImageParts) (s : State) → ActsAt image s i len shapes.now frames.now before v → InTurn turn s → (left : List Answer)
        → TurnLeads image (live_in image s) turn left journal.old.entries journal.new.entries cpu.new nucleus.new result (λ answers. instruction image answers s) }
    ensures spare { journal.old.spare ≤ journal.new.spare + 1 }
{
    // A call has its arguments, and its entry has a reply.
    well_typed_images_keep_typing();
    calls_reply();
    match step {
        Step::Moves => None,
        Step::Faults(vector) => finish(nucleus, cpu, turn, Leaving::Fault(vector), journal),
        Step::Calls(number) => {
            cpu.pc = cpu.pc.wrapping_add(len as u32);
            if number < HEAP_ENTRIES {
                nucleus.call_heap(number, turn, shapes, frames, cpu, journal);
            } else {
                nucleus.call(number, turn, cpu, journal);
            }
            None
        }
        Step::Ends => finish(nucleus, cpu, turn, Leaving::Ended, journal),
    }
}

// The running stack faults or returns to its end word. Of the kernel that is the end of the run; an application leaves, and the
// kernel goes on.
fn finish(
    nucleus: &mut Nucleus,
    cpu: &mut Cpu,
    turn: u32,
    why: Leaving,
    journal: &mut Journal,
) -> Option<Ending>
    requires leaves { MayLeave cpu.old nucleus.old }
    requires room { 1 ≤ journal.old.spare }
    ensures turn { (image : ImageParts) (live : ℕ → Bool) (s : State) → StandsBefore image live s s.thread.place cpu.old nucleus.old → InTurn turn s
        → (left : List Answer) (next : ℕ)
        → TurnLeads image live turn left journal.old.entries journal.new.entries cpu.new nucleus.new result
        (λ answers. after_effect image answers next s (leaving_effect why)) }
    ensures spare { journal.old.spare ≤ journal.new.spare + 1 }
{
    if nucleus.running() == KERNEL {
        return Some(ending_by(why, cpu.regs[EAX]));
    }
    nucleus.leave(turn, cpu, why, journal);
    None
}

// The end of the kernel, with this number in EAX.
fn ending_by(why: Leaving, eax: u32) -> Ending
    ensures { result ≡ ending_by why eax }
{
    match why {
        Leaving::Fault(vector) => Ending::KernelFault(vector),
        Leaving::Ended => Ending::Halted(eax),
    }
}
