// The entries of the Nucleus that touch the heap: AllocObject, AllocArray and GarbageCollect.
ghost use Rattle.std.specs.Prelude.{◌≡◌, ◌≤◌, ◌<◌, ◌+◌, ◌==◌, ℕ, List, if◌then◌else◌};
ghost use Rattle.tal_image.specs.Image.{ImageParts};
ghost use Rattle.typed_machine.specs.States.{State};
ghost use Rattle.typed_machine.specs.Placing.{Answer};
ghost use Rattle.nucleus_calls.specs.HeapEntries.{AtHeapCall, MayCallHeap, LeadsAnswered, HeapReplied};

use crate::journal::Journal;
use crate::nucleus::Nucleus;
use crate::switching::fresh_cpu;
use frame_tables::FrameTable;
use heap_calls::{allocate_at_call, collect_at_call};
use heap_changes::laws::states_keep_words;
use ia32_step::Cpu;
use mark_sweep::laws::shapes_come_back;
use mark_sweep::shape_named;
use object_layout::Shapes;
use stack_states::{Entry, EntryKind};
use typed_safety::laws::{
    formed_images_tell, heap_calls_are_typed, replies_hold, rooted_objects_live,
};

const EAX: usize = 0;

const ECX: usize = 1;

const ESP: usize = 4;

const ALLOC_OBJECT: u32 = 0;

const GARBAGE_COLLECT: u32 = 2;

// How many elements are asked for, where ECX is this: an object of a class has none.
fn length_asked(number: u32, ecx: u32) -> u32
    ensures { result ≡ (if number == 0 then 0 else ecx) }
{
    if number == ALLOC_OBJECT { 0 } else { ecx }
}

impl Nucleus {
    /// The running stack calls entry `number`, 0 to 2, in a turn; the processor's place is the instruction after the call, where
    /// the caller goes on.
    ///
    /// An allocation is answered by the place of a fresh object, or refused; the words go where the turn with that answer leads
    /// the state. It takes no memory.
    pub fn call_heap(
        &mut self,
        number: u32,
        turn: u32,
        shapes: &Shapes,
        frames: &FrameTable,
        cpu: &mut Cpu,
        journal: &mut Journal,
    )
        requires few { number < 3 }
        requires room { 1 ≤ journal.old.spare }
        requires called { MayCallHeap number shapes.now frames.now cpu.old self.old }
        ensures turn { (image : ImageParts) (s : State) (next : ℕ) → AtHeapCall image s next number shapes.now frames.now cpu.old self.old → s.turns ≡ turn
            → (left : List Answer) → LeadsAnswered image s next number left journal.old.entries journal.new.entries cpu.new self.new }
        ensures stacks { self.new.stacks ≡ self.old.stacks }
        ensures back { cpu.new.pc ≡ cpu.old.pc }
        ensures spare { journal.new.spare + 1 ≡ journal.old.spare }
    {
        let stack = self.running();
        let reply = self.heap_reply(number, shapes, frames, cpu);
        *cpu = fresh_cpu(reply, cpu.regs[ESP], cpu.pc);
        journal.add(Entry {
            turn,
            stack: stack as u16,
            kind: EntryKind::Call(number as u8),
            value: reply,
        });
    }

    // What such a call replies, with what it changes.
    fn heap_reply(&mut self, number: u32, shapes: &Shapes, frames: &FrameTable, cpu: &Cpu) -> u32
        requires few { number < 3 }
        requires called { MayCallHeap number shapes.now frames.now cpu.now self.old }
        ensures reply { (image : ImageParts) (s : State) (next : ℕ) → (h : AtHeapCall image s next number shapes.now frames.now cpu.now self.old)
            → HeapReplied image s next number result h.reply self.new }
        ensures stacks { self.new.stacks ≡ self.old.stacks }
    {
        formed_images_tell();
        heap_calls_are_typed();
        rooted_objects_live();
        replies_hold();
        states_keep_words();
        shapes_come_back();
        if number == GARBAGE_COLLECT {
            return collect_at_call(
                &mut self.memory,
                &mut self.index,
                &self.marks,
                frames,
                shapes,
                &self.stacks,
                cpu.regs[ESP],
                cpu.pc,
            );
        }
        let length = length_asked(number, cpu.regs[ECX]);
        let placed = allocate_at_call(
            &mut self.memory,
            &mut self.index,
            &self.marks,
            frames,
            shapes,
            &self.stacks,
            cpu.regs[ESP],
            cpu.pc,
            shape_named(cpu.regs[EAX]),
            length,
        );
        placed.unwrap_or(0)
    }
}
