ghost use Rattle.std.specs.Prelude.{◌≡◌, ◌≢◌, ℕ, ◌+◌, ◌≤◌, ◌<◌, ◌∷◌, Bool, List, Option, IfOk, IsTrue, IsFalse, is_some, length, slice_get, Some};
ghost use Rattle.stack_states.specs.declared.table.TheConstants.{MOST_STACKS};
ghost use Rattle.stack_states.specs.StackTable.{OneRuns, current_of};
ghost use Rattle.device_model.specs.Devices.{item_of};
ghost use Rattle.tal_image.specs.Image.{ImageParts};
ghost use Rattle.typed_machine.specs.States.{State, first_state, entry_place};
ghost use Rattle.typed_machine.specs.Placing.{Answer};
ghost use Rattle.typed_machine.specs.Turns.{after_effect, interrupted, line_granted};
ghost use Rattle.typed_machine.specs.Typing.{TypedAmong};
ghost use Rattle.nucleus_calls.specs.Nucleus.{NucleusStands};
ghost use Rattle.nucleus_calls.specs.Turning.{StandsBefore, Leads, leaving_effect};
ghost use Rattle.nucleus_calls.specs.Calling.{kind_of, value_of, reply_of};

use crate::journal::Journal;
use crate::outcome::Leaving;
use crate::switching::go_on;
use device_model::laws::{granted_line, one_grant};
use device_model::{Devices, Event};
use free_index::FreeIndex;
use free_index::laws::object_write_keeps_lists;
use heap_changes::laws::first_heap_is_free;
use ia32_step::Cpu;
use no_memory::NoMemory;
use root_words::DataMarks;
use stack_states::{Entry, EntryKind, Stacks};
use std::alloc::Global;
use std::marker::Model;
use tal_image::Image;
use word_machine::Memory;
use word_machine::laws::empty_stacks_are_free;

/// The stack of the kernel.
const KERNEL: u32 = 0;

/// Stack 0 is told of an interrupt by this and the line.
const INTERRUPTED: u32 = 131072;

/// The memory, the stacks and the devices of a machine.
#[derive(Drop)]
pub struct Nucleus {
    pub(crate) memory: Memory,
    pub(crate) stacks: Stacks,
    /// Where each stack starts.
    pub(crate) starts: Vec<u32>,
    pub(crate) devices: Devices,
    /// The lists of the heap's free blocks.
    pub(crate) index: FreeIndex,
    /// Which words of the data area are references.
    pub(crate) marks: DataMarks,
}

impl Model for Nucleus {
    ghost use Rattle.nucleus_calls.specs.Nucleus.{NucleusView, IsNucleus};

    ghost Value = { NucleusView };

    ghost view = { λ n. record { memory = n.memory; stacks = n.stacks; starts = n.starts.items; devices = n.devices; index = n.index; marks = n.marks } };

    ghost invariant = { λ n. IsNucleus (record { memory = n.memory; stacks = n.stacks; starts = n.starts.items; devices = n.devices; index = n.index; marks = n.marks }) };
}

// Where each stack of the image starts.
fn starts_of(alloc: Global, image: &Image) -> Result<Vec<u32>, NoMemory>
    ensures count { IfOk result (λ starts. length starts.items ≡ image.now.stacks) }
    ensures each { IfOk result (λ starts. (n : ℕ) → n < image.now.stacks → slice_get starts.items n ≡ Some (entry_place image.now n)) }
{
    let mut starts = Vec::new(alloc);
    for stack in 0..image.stacks() {
        let start = entry_place(image, stack);
        starts.push(start)?;
    }
    Ok(starts)
}

// Where a stack of the image starts.
#[tactic(auto, unfolding(typed_machine::specs::States::entry_place))]
fn entry_place(image: &Image, stack: u32) -> u32
    requires { stack < image.now.stacks }
    ensures { result ≡ entry_place image.now stack }
{
    image.formed();
    let function = image.entry(stack).unwrap();
    match image.function(function) {
        Some(span) => span.start,
        None => 0,
    }
}

// The kind of the entry of an application that leaves.
fn kind_of(why: Leaving) -> EntryKind
    ensures { result ≡ kind_of why }
{
    match why {
        Leaving::Fault(_) => EntryKind::Fault,
        Leaving::Ended => EntryKind::Ended,
    }
}

// The value of that entry.
fn value_of(why: Leaving) -> u32
    ensures { result ≡ value_of why }
{
    match why {
        Leaving::Fault(vector) => vector as u32,
        Leaving::Ended => 0,
    }
}

// What stack 0 is told of this application.
fn reply_of(why: Leaving, stack: u32) -> u32
    requires { stack < MOST_STACKS }
    ensures { result ≡ reply_of why stack }
{
    match why {
        Leaving::Fault(vector) => 196608 + vector as u32,
        Leaving::Ended => 262144 + stack,
    }
}

impl Nucleus {
    /// The Nucleus of an image before its first turn: its memory is the image's first one, stack 0 runs, the other stacks are
    /// empty, and nothing happened to the devices.
    pub fn new(alloc: Global, image: &Image) -> Result<Nucleus, NoMemory>
        ensures { IfOk result (λ n. (live : ℕ → Bool) → NucleusStands image.now live (first_state image.now) n) }
    {
        first_heap_is_free();
        image.formed();
        let mut memory = Memory::new(alloc, image)?;
        let index = FreeIndex::rebuild(&mut memory.heap);
        Ok(Nucleus {
            memory,
            stacks: Stacks::new(alloc, image.stacks())?,
            starts: starts_of(alloc, image)?,
            devices: Devices::new(alloc)?,
            index,
            marks: DataMarks::new(alloc, image)?,
        })
    }

    /// The states of the stacks.
    pub fn stacks(&self) -> &Stacks
        ensures { result.now ≡ self.now.stacks }
    {
        &self.stacks
    }

    /// The devices.
    pub fn devices(&self) -> &Devices
        ensures { result.now ≡ self.now.devices }
    {
        &self.devices
    }

    /// An event enters the devices.
    pub fn due(&mut self, event: Event)
        ensures { (image : ImageParts) (live : ℕ → Bool) (s : State) → NucleusStands image live s self.old
            → NucleusStands image live (record s { devices = item_of event.kind ∷ s.devices }) self.new }
    {
        self.devices.due(event);
    }

    /// An interrupt of the running application, where a line can be granted: stack 0 goes on. The words go where the turn leads
    /// the state. False exactly where stack 0 runs or no line can be granted; then nothing changes.
    pub fn accept(&mut self, turn: u32, cpu: &mut Cpu, journal: &mut Journal) -> bool
        requires room { 1 ≤ journal.old.spare }
        ensures grants { (image : ImageParts) (live : ℕ → Bool) (s : State) → TypedAmong image live s → NucleusStands image live s self.old
            → result ≡ is_some (line_granted s) }
        ensures turn { (image : ImageParts) (live : ℕ → Bool) (s : State) → StandsBefore image live s s.thread.place cpu.old self.old → s.turns ≡ turn
            → (line : ℕ) → line_granted s ≡ Some line → (answers : List Answer)
            → Leads image live s answers journal.old.entries journal.new.entries cpu.new self.new (interrupted image answers line s) }
        ensures spare { IsTrue result → journal.new.spare + 1 ≡ journal.old.spare }
        ensures none { IsFalse result → (self.new ≡ self.old) × (cpu.new ≡ cpu.old) × (journal.new ≡ journal.old) }
    {
        empty_stacks_are_free();
        object_write_keeps_lists();
        granted_line();
        one_grant();
        let stack = self.running();
        if stack == KERNEL {
            return false;
        }
        let start = self.start_of(KERNEL);
        let Some(line) = self.devices.grant() else {
            return false;
        };
        let was = self.stacks.interrupt(cpu.regs, cpu.flags, cpu.pc);
        go_on(
            cpu,
            &mut self.memory,
            start,
            KERNEL,
            was,
            INTERRUPTED + line.0 as u32,
        );
        journal.add(Entry {
            turn,
            stack: stack as u16,
            kind: EntryKind::Interrupt,
            value: line.0 as u32,
        });
        true
    }

    /// The running application leaves, and becomes empty; stack 0 goes on. The words go where the turn leads the state.
    pub fn leave(&mut self, turn: u32, cpu: &mut Cpu, why: Leaving, journal: &mut Journal)
        requires application { current_of self.old.stacks ≢ 0 }
        requires room { 1 ≤ journal.old.spare }
        ensures turn { (image : ImageParts) (live : ℕ → Bool) (s : State) (next : ℕ) → StandsBefore image live s next cpu.old self.old → s.turns ≡ turn
            → (answers : List Answer)
            → Leads image live s answers journal.old.entries journal.new.entries cpu.new self.new (after_effect image answers next s (leaving_effect why)) }
        ensures spare { journal.new.spare + 1 ≡ journal.old.spare }
    {
        empty_stacks_are_free();
        object_write_keeps_lists();
        let stack = self.running();
        let start = self.start_of(KERNEL);
        let was = self.stacks.drop_running();
        go_on(
            cpu,
            &mut self.memory,
            start,
            KERNEL,
            was,
            reply_of(why, stack),
        );
        journal.add(Entry {
            turn,
            stack: stack as u16,
            kind: kind_of(why),
            value: value_of(why),
        });
    }

    /// The stack that runs.
    pub fn running(&self) -> u32
        ensures state { (image : ImageParts) (live : ℕ → Bool) (s : State) → TypedAmong image live s → NucleusStands image live s self.now
            → result ≡ s.current }
        ensures current { result ≡ current_of self.now.stacks }
        ensures one { OneRuns self.now.stacks }
        ensures few { result < MOST_STACKS }
        ensures there { result < length self.now.starts }
    {
        // There are no more than MOST_STACKS.
        let _count = self.stacks.count();
        self.stacks.current()
    }

    // Where a stack starts.
    pub(crate) fn start_of(&self, stack: u32) -> u32
        requires { stack < length self.now.starts }
        ensures { slice_get self.now.starts stack ≡ Some result }
    {
        self.starts[stack as usize]
    }
}
