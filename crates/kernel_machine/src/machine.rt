ghost use Rattle.std.specs.Prelude.{◌≡◌, ◌≢◌, ◌≤◌, ◌<◌, ◌+◌, ◌++◌, [], Some, None, IsSome, IfOk, is_some, length, slice_get, Option};
ghost use Rattle.std.specs.Option.{option_to_list};
ghost use Rattle.ia32_code.specs.Canonical.{Canonical};
ghost use Rattle.stack_states.specs.declared.table.TheConstants.{MOST_STACKS};
ghost use Rattle.device_model.specs.EventFile.{InOrder};
ghost use Rattle.object_layout.specs.Areas.{code_start};
ghost use Rattle.stack_states.specs.declared.journal_entry.Entry.{Entry};
ghost use Rattle.stack_states.specs.declared.stack_state.StackState.{StackState};
ghost use Rattle.tal_checker.specs.WellTyped.{WellTyped};
ghost use Rattle.typed_machine.specs.States.{entry_place};
ghost use Rattle.typed_machine.specs.Code.{inst_at};
ghost use Rattle.kernel_machine.specs.Shown.{esp_by};
ghost use Rattle.kernel_machine.specs.Machine.{Follows, turn_of, run_answer};
ghost use Rattle.kernel_machine.specs.Stepping.{TakesTurn, TurnLaws};

use crate::acting::act_here;
use crate::events::enter_events;
use crate::prepared::Prepared;
use crate::running::MOST_TURNS;
use device_model::Event;
use ia32_code::laws::canonical_is_none;
use ia32_code::{Decoded, Inst, decode};
use ia32_step::Cpu;
use no_memory::NoMemory;
use nucleus_calls::{Journal, Nucleus};
use object_layout::areas::{CODE_START, STACKS_START};
use run_report::{RunEnd, Shown, Turn};
use stack_states::{FlagBits, StackState};
use std::alloc::Global;
use std::marker::Model;
use tal_checker::Checked;
use tal_checker::laws::accepted_runs;
use tal_image::Image;
use tal_types::ImageView;
use typed_machine::Ending;
use typed_safety::laws::{
    live_objects_are_least, reach_shrinks, runs_are_typed, turns_keep_typing,
    well_typed_images_keep_typing,
};
use word_machine::STACK_WORDS;
use word_machine::laws::standing_falls;

const ESP: usize = 4;

/// ESP of stack 0 with its end word alone.
const FIRST_ESP: u32 = STACKS_START + 4 * (STACK_WORDS as u32 - 1);

/// A machine over a checked image and recorded events.
///
/// It stands for a state of the typed machine that typing allows, so no turn tests for an ill typed step.
#[derive(Drop)]
pub struct Machine {
    prepared: Prepared,
    events: Vec<Event>,
    /// The index of the first event that has not come.
    next_event: usize,
    cpu: Cpu,
    nucleus: Nucleus,
    turns: u32,
    ending: Option<Ending>,
}

impl Model for Machine {
    ghost use Rattle.kernel_machine.specs.Machine.{MachineView, Lawful};
    ghost use Rattle.kernel_machine.specs.Stepping.{viewed};

    ghost Value = { MachineView };

    ghost view = { λ m. viewed m.prepared.image m.events.items m.cpu m.nucleus m.turns m.ending };

    ghost invariant = { λ m. Lawful (viewed m.prepared.image m.events.items m.cpu m.nucleus m.turns m.ending) m.next_event };
}

// Where stack 0 begins.
#[tactic(auto, unfolding(typed_machine::specs::States::entry_place))]
fn entry_place(image: &Image) -> u32
    requires { WellTyped image.now }
    ensures { result ≡ entry_place image.now 0 }
{
    // Every stack begins at a function.
    accepted_runs();
    let function = image.entry(0).unwrap();
    image.function(function).unwrap().start
}

// The instruction at an address, and the length of its spelling.
pub(crate) fn inst_in(image: &Image, pc: u32) -> (Inst, u8)
    requires low { code_start ≤ pc }
    requires inside { pc ≤ code_start + length image.now.code }
    requires whole { IsSome (inst_at image.now pc) }
    ensures here { inst_at image.now pc ≡ Some result }
    ensures spelled { Canonical result.0 ≢ None }
{
    // What is spelled has a canonical spelling.
    canonical_is_none();
    let (_, rest) = image.code().split_at((pc - CODE_START) as usize);
    match decode(rest) {
        Decoded::One { inst, len } => (inst, len),
        Decoded::Short | Decoded::Unknown => unreachable!(),
    }
}

// What a turn answers after which there is this end.
fn turn_of(ending: Option<Ending>) -> Turn
    ensures { result ≡ turn_of ending }
{
    match ending {
        None => Turn::On,
        Some(Ending::Halted(number)) => Turn::Halted(number),
        Some(Ending::KernelFault(vector)) => Turn::KernelFault(vector),
    }
}

// The laws of turns: facts for the proofs.
fn turns_lawful()
    ensures { TurnLaws }
{
    turns_keep_typing();
    live_objects_are_least();
    reach_shrinks();
    standing_falls();
}

impl Machine {
    /// A machine before its first turn: stack 0 runs at its function, with all registers 0 and all flags clear.
    ///
    /// The events' turns are 1 to [`crate::MOST_TURNS`] and do not fall. It makes all that turns need, so that they take no memory.
    /// After `NoMemory` the image and the events are given up.
    pub fn new(alloc: Global, checked: Checked, events: Vec<Event>) -> Result<Machine, NoMemory>
        requires ordered { InOrder events.items }
        ensures follows { IfOk result (λ m. Follows m []) }
        ensures image { IfOk result (λ m. m.image ≡ checked.image) }
        ensures events { IfOk result (λ m. m.events ≡ events.items) }
        ensures turns { IfOk result (λ m. m.turns ≡ 0) }
        ensures ending { IfOk result (λ m. m.ending ≡ None) }
    {
        runs_are_typed();
        let image = checked.image();
        let pc = entry_place(image);
        let nucleus = Nucleus::new(alloc, image)?;
        let prepared = Prepared::new(alloc, checked)?;
        let flags = FlagBits {
            carry: false,
            zero: false,
            sign: false,
            overflow: false,
        };
        let cpu = Cpu {
            regs: [0, 0, 0, 0, FIRST_ESP, 0, 0, 0],
            flags,
            pc,
        };
        Ok(Machine {
            prepared,
            events,
            next_event: 0,
            cpu,
            nucleus,
            turns: 0,
            ending: None,
        })
    }

    /// One turn: its events enter the devices; then an interrupt of the running application is accepted, or the instruction at
    /// the running place has its effect. On a machine that has ended it changes nothing and answers the end again.
    ///
    /// It takes no memory, and always succeeds. The journal gains the turn's entry, if it has one.
    pub fn turn(&mut self, journal: &mut Journal) -> Turn
        requires room { 1 ≤ journal.old.spare }
        requires turns { self.old.turns < MOST_TURNS }
        ensures follows { Follows self.old journal.old.entries → Follows self.new journal.new.entries }
        ensures image { self.new.image ≡ self.old.image }
        ensures events { self.new.events ≡ self.old.events }
        ensures more { self.old.ending ≡ None → self.new.turns ≡ self.old.turns + 1 }
        ensures ended { IsSome self.old.ending → self.new ≡ self.old }
        ensures entries { (entry : Option Entry) × (journal.new.entries ≡ journal.old.entries ++ option_to_list entry) }
        ensures spare { journal.old.spare ≤ journal.new.spare + 1 }
        ensures idle { IsSome self.old.ending → journal.new ≡ journal.old }
        ensures answer { result ≡ turn_of self.new.ending }
    {
        runs_are_typed();
        turns_lawful();
        if !self.has_ended() {
            self.step(journal);
        }
        turn_of(self.ending)
    }

    /// How many turns were taken.
    pub fn turns_taken(&self) -> u32
        ensures { result ≡ self.now.turns }
    {
        self.turns
    }

    /// The image that the machine was made over.
    pub fn checked(&self) -> &Checked
        ensures { result.now.image ≡ self.now.image }
    {
        self.prepared.checked()
    }

    /// The end, or `Turns` where there is none yet. It is never `NoMemory`.
    pub fn end(&self) -> RunEnd
        ensures value { result ≡ run_answer self.now.ending }
        ensures real { result ≢ RunEnd.NoMemory }
    {
        match self.ending {
            None => RunEnd::Turns,
            Some(Ending::Halted(number)) => RunEnd::Halted(number),
            Some(Ending::KernelFault(vector)) => RunEnd::KernelFault(vector),
        }
    }

    // A turn of a machine that has not ended.
    fn step(&mut self, journal: &mut Journal)
        requires on { self.old.ending ≡ None }
        requires turns { self.old.turns < MOST_TURNS }
        requires room { 1 ≤ journal.old.spare }
        ensures takes { TakesTurn self.old self.new journal.old.entries journal.new.entries }
        ensures spare { journal.old.spare ≤ journal.new.spare + 1 }
    {
        // In an accepted image an instruction stands at the place, and it is well typed.
        accepted_runs();
        well_typed_images_keep_typing();
        turns_lawful();
        let turn = self.turns + 1;
        self.turns = turn;
        self.next_event = enter_events(&mut self.nucleus, &self.events, self.next_event, turn);
        if self.nucleus.accept(turn, &mut self.cpu, journal) {
            return;
        }
        self.ending = act_here(
            &mut self.prepared,
            &mut self.nucleus,
            &mut self.cpu,
            turn,
            journal,
        );
    }

    // Whether there is an end.
    pub(crate) fn has_ended(&self) -> bool
        ensures { result ≡ is_some self.now.ending }
    {
        self.ending.is_some()
    }
}

// ESP of a stack that does this.
fn esp_of(cpu: &Cpu, stack: u32, state: StackState) -> u32
    requires { stack < MOST_STACKS }
    ensures { result ≡ esp_by cpu.now stack state }
{
    match state {
        StackState::Empty => STACKS_START + 4 * STACK_WORDS as u32 * (stack + 1),
        StackState::Running => cpu.regs[ESP],
        StackState::Yielded { sp, .. } => sp,
        StackState::Interrupted { regs, .. } => regs[ESP],
    }
}

impl Shown for Machine {
    ghost use Rattle.kernel_machine.specs.Machine.{shown_by};

    ghost shown = { shown_by };

    fn regs(&self) -> [u32; 8] {
        self.cpu.regs
    }

    fn flags(&self) -> FlagBits {
        self.cpu.flags
    }

    fn pc(&self) -> u32 {
        self.cpu.pc
    }

    fn stacks(&self) -> u32 {
        self.nucleus.stacks().count()
    }

    fn state(&self, stack: u32) -> StackState {
        self.nucleus.stacks().state(stack).unwrap()
    }

    fn stack_words(&self, stack: u32) -> &[u32] {
        // There are no more than MOST_STACKS.
        let _count = self.nucleus.stacks().count();
        let state = self.nucleus.stacks().state(stack).unwrap();
        self.nucleus
            .stack_words(stack, esp_of(&self.cpu, stack, state))
    }

    fn statics(&self) -> &[u32] {
        let image = self.prepared.image();
        image.formed();
        self.nucleus.statics(image.statics().len() as u32)
    }

    fn cell(&self, position: u32) -> u16 {
        self.nucleus.devices().cell(position).unwrap()
    }
}
