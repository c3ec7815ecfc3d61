// The words that a Nucleus owns: instructions run on them, and they are shown.
ghost use Rattle.std.specs.Prelude.{◌≡◌, ◌≢◌, ℕ, ◌≤◌, ◌<◌, ◌+◌, ◌*◌, ◌%◌, Bool, None, true, length, slice_get};
ghost use Rattle.ia32_code.specs.Canonical.{Canonical};
ghost use Rattle.object_layout.specs.Areas.{statics_start, stacks_start};
ghost use Rattle.quick_step.specs.QuickForms.{inst_of};
ghost use Rattle.stack_states.specs.StackTable.{current_of};
ghost use Rattle.tal_image.specs.Image.{ImageParts};
ghost use Rattle.typed_machine.specs.States.{State, stack_bytes};
ghost use Rattle.typed_machine.specs.Effects.{Effect};
ghost use Rattle.typed_machine.specs.Words.{upper_end};
ghost use Rattle.word_machine.specs.Memory.{word_of, is_mapped};
ghost use Rattle.nucleus_calls.specs.Turning.{AtInstruction, MayStep, Stepped};

use crate::nucleus::Nucleus;
use free_index::laws::object_write_keeps_lists;
use ia32_code::Inst;
use ia32_step::Cpu;
use quick_step::Quick;
use word_machine::{Step, advance, advance_quick};

impl Nucleus {
    /// The running stack runs the instruction at the processor's place, which is spelled with `len` bytes.
    ///
    /// From every typed state that they stand for, processor and Nucleus come to where the instruction's effect leads.
    pub fn step(&mut self, cpu: &mut Cpu, inst: &Inst, len: u8) -> Step
        requires spelled { Canonical inst.now ≢ None }
        requires runs { MayStep inst.now len cpu.old self.old }
        ensures step { (image : ImageParts) (live : ℕ → Bool) (s : State) → AtInstruction image live s inst.now len cpu.old self.old
            → Stepped result cpu.new self.new image live s (Effect image s inst.now len) }
        ensures stacks { self.new.stacks ≡ self.old.stacks }
    {
        object_write_keeps_lists();
        let stack = self.running();
        advance(cpu, &mut self.memory, stack, inst, len)
    }

    /// Does what [`Nucleus::step`] does with the instruction that the quick form stands for.
    #[inline(always)]
    pub fn step_quick(&mut self, cpu: &mut Cpu, quick: &Quick, len: u8) -> Step
        requires spelled { Canonical (inst_of quick.now) ≢ None }
        requires runs { MayStep (inst_of quick.now) len cpu.old self.old }
        ensures step { (image : ImageParts) (live : ℕ → Bool) (s : State) → AtInstruction image live s (inst_of quick.now) len cpu.old self.old
            → Stepped result cpu.new self.new image live s (Effect image s (inst_of quick.now) len) }
        ensures stacks { self.new.stacks ≡ self.old.stacks }
    {
        object_write_keeps_lists();
        let stack = self.running();
        advance_quick(cpu, &mut self.memory, stack, quick, len)
    }

    /// The words of a stack from its top, which ESP tells, to its bottom.
    pub fn stack_words(&self, stack: u32, esp: u32) -> &[u32]
        requires there { stack < length self.now.stacks }
        requires low { stacks_start + stack_bytes * stack ≤ esp }
        requires high { esp ≤ upper_end stack }
        requires aligned { esp % 4 ≡ 0 }
        ensures count { 4 * length result.now + esp ≡ upper_end stack }
        ensures each { (k : ℕ) → k < length result.now → slice_get result.now k ≡ word_of self.now.memory (esp + 4 * k) }
    {
        // There are no more than MOST_STACKS.
        let _count = self.stacks.count();
        self.memory.stack_words(stack, esp)
    }

    /// The words of the first so many statics.
    pub fn statics(&self, count: u32) -> &[u32]
        requires few { count ≤ 65536 }
        requires mapped { (k : ℕ) → k < count → is_mapped self.now.memory (statics_start + 4 * k) ≡ true }
        ensures count { length result.now ≡ count }
        ensures each { (k : ℕ) → k < count → slice_get result.now k ≡ word_of self.now.memory (statics_start + 4 * k) }
    {
        self.memory.statics(count)
    }
}
