// The table of the stacks' states.
ghost use Rattle.std.specs.Prelude.{◌≡◌, ◌≢◌, ◌≤◌, ◌<◌, ◌-◌, ◌∷◌, ◌↔◌, Some, IsSome, IfOk, length, replicate, slice_get, slice_set};
ghost use Rattle.stack_states.specs.StackTable.{OneRuns, current_of, handed_over};

use crate::{FlagBits, StackState};
use no_memory::NoMemory;
use std::alloc::Global;
use std::marker::Model;

/// At most so many stacks.
pub const MOST_STACKS: u32 = 64;

/// The states of the stacks, of which exactly one is Running. Stack 0 is the kernel's.
#[derive(Drop)]
pub struct Stacks {
    states: Vec<StackState>,
    current: u32,
}

impl Model for Stacks {
    ghost use Rattle.std.specs.Prelude.{List};
    ghost use Rattle.stack_states.specs.declared.stack_state.StackState.{StackState};
    ghost use Rattle.stack_states.specs.StackTable.{IsKept};

    ghost Value = { List StackState };

    ghost view = { λ s. s.states.items };

    ghost invariant = { λ s. IsKept s.states.items s.current };
}

impl Stacks {
    /// So many stacks, 2 to 64: stack 0 runs and the others are empty. `NoMemory` where there is none for the table.
    pub fn new(alloc: Global, count: u32) -> Result<Stacks, NoMemory>
        requires some { 2 ≤ count }
        requires most { count ≤ MOST_STACKS }
        ensures { IfOk result (λ s. s ≡ StackState.Running ∷ replicate (count - 1) StackState.Empty) }
    {
        let mut states = vec![in alloc; StackState::Empty; count as usize]?;
        states[0] = StackState::Running;
        Ok(Stacks { states, current: 0 })
    }

    /// How many stacks there are.
    pub fn count(&self) -> u32
        ensures count { result ≡ length self.now }
        ensures few { result ≤ MOST_STACKS }
    {
        self.states.len() as u32
    }

    /// The state of stack `s`. None exactly where there is no such stack.
    pub fn state(&self, s: u32) -> Option<StackState>
        ensures exists { IsSome result ↔ (s < length self.now) }
        ensures state { result ≡ slice_get self.now s }
    {
        self.states.get(s as usize).copied()
    }

    /// The stack that runs.
    pub fn current(&self) -> u32
        ensures current { result ≡ current_of self.now }
        ensures one { OneRuns self.now }
    {
        self.current
    }

    /// The running stack yields, with this ESP and at this address, and `to`, another stack that exists, runs. Answers what
    /// `to` was.
    pub fn switch(&mut self, to: u32, sp: u32, pc: u32) -> StackState
        requires exists { to < length self.old }
        requires other { to ≢ current_of self.old }
        ensures was { slice_get self.old to ≡ Some result }
        ensures table { self.new ≡ handed_over self.old (StackState.Yielded sp pc) to }
        ensures current { current_of self.new ≡ to }
    {
        self.hand_over(StackState::Yielded { sp, pc }, to)
    }

    /// The running stack, which is not the kernel's, is interrupted with these registers, by their numbers, these
    /// flags and at this address. Stack 0 runs. Answers what stack 0 was.
    pub fn interrupt(&mut self, regs: [u32; 8], flags: FlagBits, pc: u32) -> StackState
        requires { current_of self.old ≢ 0 }
        ensures was { slice_get self.old 0 ≡ Some result }
        ensures table { self.new ≡ handed_over self.old (StackState.Interrupted regs flags pc) 0 }
        ensures current { current_of self.new ≡ 0 }
    {
        self.hand_over(StackState::Interrupted { regs, flags, pc }, 0)
    }

    /// The running stack, which is not the kernel's, becomes empty. Stack 0 runs. Answers what stack 0 was.
    pub fn drop_running(&mut self) -> StackState
        requires { current_of self.old ≢ 0 }
        ensures was { slice_get self.old 0 ≡ Some result }
        ensures table { self.new ≡ handed_over self.old StackState.Empty 0 }
        ensures current { current_of self.new ≡ 0 }
    {
        self.hand_over(StackState::Empty, 0)
    }

    /// Stack `s`, which exists and does not run, becomes empty.
    pub fn reset(&mut self, s: u32)
        requires exists { s < length self.old }
        requires other { s ≢ current_of self.old }
        ensures table { self.new ≡ slice_set self.old s StackState.Empty }
        ensures current { current_of self.new ≡ current_of self.old }
    {
        self.states[s as usize] = StackState::Empty;
    }

    // The running stack gets this state, and `to` runs. Answers what `to` was.
    fn hand_over(&mut self, left: StackState, to: u32) -> StackState
        requires exists { to < length self.old }
        requires other { to ≢ current_of self.old }
        requires stops { left ≢ StackState.Running }
        ensures was { slice_get self.old to ≡ Some result }
        ensures table { self.new ≡ handed_over self.old left to }
        ensures current { current_of self.new ≡ to }
    {
        let was = self.states[to as usize];
        self.states[self.current as usize] = left;
        self.states[to as usize] = StackState::Running;
        self.current = to;
        was
    }
}
