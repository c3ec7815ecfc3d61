// The entries of the Nucleus that touch no heap: what each replies, and what it changes.
ghost use Rattle.std.specs.Prelude.{◌≡◌, ◌≢◌, ◌≤◌, ◌<◌, ◌+◌, ◌==◌, ◌&&◌, not, ℕ, Bool, List, Option, Some, IsSome, IfNone, IsTrue, is_some, length, if◌then◌else◌};
ghost use Rattle.stack_states.specs.declared.table.TheConstants.{MOST_STACKS};
ghost use Rattle.stack_states.specs.StackTable.{OneRuns, current_of};
ghost use Rattle.tal_image.specs.Image.{ImageParts};
ghost use Rattle.typed_machine.specs.States.{State};
ghost use Rattle.typed_machine.specs.Effects.{Calls};
ghost use Rattle.typed_machine.specs.Replies.{yield_to, get_stack_state, reset_stack, vga_text_write, try_read_keyboard, start_timer, send_eoi, Reply};
ghost use Rattle.typed_machine.specs.Placing.{Answer};
ghost use Rattle.typed_machine.specs.Turns.{after_effect};
ghost use Rattle.typed_machine.specs.Typing.{TypedAmong, scope_of};
ghost use Rattle.typed_safety.specs.Laws.{CallTyped};
ghost use Rattle.nucleus_calls.specs.Nucleus.{NucleusStands};
ghost use Rattle.nucleus_calls.specs.Turning.{StandsBefore, Leads};
ghost use Rattle.nucleus_calls.specs.Calling.{number_of, yield_refusal, RepliesWith, RepliesAt, AsksOf};

use crate::journal::Journal;
use crate::nucleus::Nucleus;
use crate::outcome::Done;
use crate::switching::{fresh_cpu, go_on};
use free_index::laws::object_write_keeps_lists;
use ia32_step::Cpu;
use stack_states::{Entry, EntryKind, StackState};
use word_machine::laws::empty_stacks_are_free;

const EAX: usize = 0;

const ECX: usize = 1;

const ESP: usize = 4;

const YIELD_TO: u32 = 3;

const GET_STACK_STATE: u32 = 4;

const RESET_STACK: u32 = 5;

const VGA_TEXT_WRITE: u32 = 6;

const TRY_READ_KEYBOARD: u32 = 7;

const START_TIMER: u32 = 8;

const SEND_EOI: u32 = 9;

const CONTROLLER_COMMAND: u16 = 0x20;

const TIMER_COUNT: u16 = 0x40;

const TIMER_COMMAND: u16 = 0x43;

const KEYBOARD_CODE: u16 = 0x60;

const KEYBOARD_STATUS: u16 = 0x64;

const END_OF_INTERRUPT: u8 = 0x20;

const SET_COUNT: u8 = 0x34;

/// The reply of YieldTo, at resumption, is this and the number of the stack that resumed it.
const RESUMED: u32 = 65536;

/// The reply of TryReadKeyboard where no code waits.
const NO_CODE: u32 = 256;

// The number that tells what a stack does.
fn number_of(state: Option<StackState>) -> u32
    ensures { result ≡ number_of state }
{
    match state {
        Some(StackState::Empty) => 0,
        Some(StackState::Running) => 1,
        Some(StackState::Yielded { .. }) => 2,
        Some(StackState::Interrupted { .. }) => 3,
        None => 4,
    }
}

impl Nucleus {
    /// The running stack calls entry `number`, 3 to 10, in a turn; the processor's place is the instruction after the call.
    ///
    /// The words go where the turn leads the state. `Switched` comes where YieldTo switched; else the caller goes on.
    pub fn call(&mut self, number: u32, turn: u32, cpu: &mut Cpu, journal: &mut Journal) -> Done
        requires least { 3 ≤ number }
        requires most { number ≤ 10 }
        requires room { 1 ≤ journal.old.spare }
        ensures turn { (image : ImageParts) (live : ℕ → Bool) (s : State) (next : ℕ) → StandsBefore image live s next cpu.old self.old
            → CallTyped (scope_of image live s) s next number → s.turns ≡ turn → (answers : List Answer)
            → Leads image live s answers journal.old.entries journal.new.entries cpu.new self.new (after_effect image answers next s (Calls number)) }
        ensures done { result ≡ (if current_of self.new.stacks == current_of self.old.stacks then Done.Back else Done.Switched) }
        ensures back { result ≡ Done.Back → cpu.new.pc ≡ cpu.old.pc }
        ensures spare { journal.new.spare + 1 ≡ journal.old.spare }
    {
        empty_stacks_are_free();
        object_write_keeps_lists();
        let stack = self.running();
        let eax = cpu.regs[EAX];
        if self.yields(number, eax) {
            let start = self.start_of(eax);
            let was = self.stacks.switch(eax, cpu.regs[ESP], cpu.pc);
            go_on(cpu, &mut self.memory, start, eax, was, RESUMED + stack);
            journal.add(Entry {
                turn,
                stack: stack as u16,
                kind: EntryKind::Yield,
                value: eax,
            });
            return Done::Switched;
        }
        let reply = self.reply(number, eax, cpu.regs[ECX]);
        *cpu = fresh_cpu(reply, cpu.regs[ESP], cpu.pc);
        journal.add(Entry {
            turn,
            stack: stack as u16,
            kind: EntryKind::Call(number as u8),
            value: reply,
        });
        Done::Back
    }

    // What a call replies that does not switch, with what it changes.
    fn reply(&mut self, number: u32, eax: u32, ecx: u32) -> u32
        requires least { 3 ≤ number }
        requires most { number ≤ 10 }
        requires refused { number ≡ 3 → IsSome (yield_refusal self.old.stacks eax) }
        ensures reply { (image : ImageParts) (live : ℕ → Bool) (s : State) → TypedAmong image live s → NucleusStands image live s self.old
            → AsksOf number eax ecx s → RepliesAt image live s result (Reply number s) self.new }
        ensures current { current_of self.new.stacks ≡ current_of self.old.stacks }
    {
        match number {
            YIELD_TO => self.yield_refusal(eax).unwrap(),
            GET_STACK_STATE => number_of(self.stacks.state(eax)),
            RESET_STACK => self.reset_stack(eax),
            VGA_TEXT_WRITE => self.vga_text_write(eax, ecx),
            TRY_READ_KEYBOARD => self.try_read_keyboard(),
            START_TIMER => self.start_timer(eax),
            SEND_EOI => self.send_eoi(),
            _ => self.running(),
        }
    }

    // Whether the call is one that yields to a stack.
    fn yields(&self, number: u32, to: u32) -> bool
        ensures yields { result ≡ (number == 3 && not (is_some (yield_refusal self.now.stacks to))) }
        ensures there { IsTrue result → to < length self.now.starts }
        ensures other { IsTrue result → to ≢ current_of self.now.stacks }
        ensures few { IsTrue result → to < MOST_STACKS }
    {
        number == YIELD_TO && self.yield_refusal(to).is_none()
    }

    // Why the running stack does not yield to another, if it does not.
    fn yield_refusal(&self, to: u32) -> Option<u32>
        ensures refusal { result ≡ yield_refusal self.now.stacks to }
        ensures one { OneRuns self.now.stacks }
        ensures there { IfNone result (to < length self.now.starts) }
        ensures other { IfNone result (to ≢ current_of self.now.stacks) }
        ensures few { IfNone result (to < MOST_STACKS) }
    {
        // There are no more than MOST_STACKS.
        let _count = self.stacks.count();
        let current = self.running();
        if self.stacks.state(to).is_none() || to == current {
            return Some(1);
        }
        if 0 < current && 0 < to {
            return Some(2);
        }
        None
    }

    // Entry 5, of the kernel alone: the stack becomes empty, unless it runs.
    fn reset_stack(&mut self, stack: u32) -> u32
        ensures reply { RepliesWith (λ s. Some (reset_stack stack s)) result self.old self.new }
        ensures current { current_of self.new.stacks ≡ current_of self.old.stacks }
    {
        let current = self.running();
        if 0 < current {
            return 2;
        }
        let count = self.stacks.count();
        if stack >= count {
            return 1;
        }
        if stack == current {
            return 1;
        }
        self.stacks.reset(stack);
        0
    }

    // Entry 6: a cell of the screen gets a value.
    fn vga_text_write(&mut self, position: u32, value: u32) -> u32
        ensures reply { RepliesWith (λ s. Some (vga_text_write position value s)) result self.old self.new }
        ensures stacks { self.new.stacks ≡ self.old.stacks }
    {
        let cell = (value % 65536) as u16;
        if self.devices.set_cell(position, cell) {
            return 0;
        }
        1
    }

    // Entry 7: the oldest waiting code is taken.
    fn try_read_keyboard(&mut self) -> u32
        ensures reply { RepliesWith (λ s. Some (try_read_keyboard s)) result self.old self.new }
        ensures stacks { self.new.stacks ≡ self.old.stacks }
    {
        let waits = self.devices.port_in(KEYBOARD_STATUS).unwrap();
        if waits == 0 {
            return NO_CODE;
        }
        let code = self.devices.port_in(KEYBOARD_CODE).unwrap();
        code as u32
    }

    // Entry 8: the timer gets a count, by the command and two bytes.
    fn start_timer(&mut self, count: u32) -> u32
        ensures reply { RepliesWith (λ s. Some (start_timer count s)) result self.old self.new }
        ensures stacks { self.new.stacks ≡ self.old.stacks }
    {
        if count < 2 || 65536 < count {
            return 1;
        }
        self.devices.port_out(TIMER_COMMAND, SET_COUNT);
        self.devices.port_out(TIMER_COUNT, (count % 256) as u8);
        self.devices
            .port_out(TIMER_COUNT, (count / 256 % 256) as u8);
        0
    }

    // Entry 9: the line in service of lowest number is so no more.
    fn send_eoi(&mut self) -> u32
        ensures reply { RepliesWith (λ s. Some (send_eoi s)) result self.old self.new }
        ensures stacks { self.new.stacks ≡ self.old.stacks }
    {
        device_model::laws::in_service();
        if self.devices.in_service() == 0 {
            return 1;
        }
        self.devices.port_out(CONTROLLER_COMMAND, END_OF_INTERRUPT);
        0
    }
}
