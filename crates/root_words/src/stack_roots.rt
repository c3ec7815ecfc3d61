// The root words of one stack.
ghost use Rattle.std.specs.Prelude.{◌≡◌, ◌++◌, [], MatchOption};
ghost use Rattle.frame_tables.specs.FrameWalks.{GivesNext, references};
ghost use Rattle.root_words.specs.Listing.{IsWalked, IsWalkable, stack_words, state_words, register_bits};

use crate::saved_registers::SavedRegisters;
use frame_tables::{FrameTable, Walk};
use object_layout::areas::STACKS_START;
use stack_states::StackState;
use std::marker::Model;

/// How many words a stack has.
const STACK_WORDS: usize = 4096;

/// The number of ESP among saved registers.
const ESP: usize = 4;

/// The root words of a stack that are still to come.
#[derive(Drop)]
pub struct StackRoots<'a> {
    saved: SavedRegisters,
    walk: Walk<'a>,
}

impl<'a> Model for StackRoots<'a> {
    ghost use Rattle.std.specs.Prelude.{ℕ, List, ◌++◌};

    ghost Value = { List ℕ };

    ghost view = { λ s. s.saved ++ s.walk };
}

/// The words of stack `n` from ESP up.
#[tactic(auto, unfolding(crate::specs::Listing::stack_words))]
fn words_of<'a>(frames: &'a FrameTable, words: &'a [u32], n: u32, esp: u32, place: u32) -> &'a [u32]
    requires { IsWalked frames.now words.now n esp place }
    ensures { result.now ≡ stack_words words.now n esp }
{
    let top = ((esp - STACKS_START) / 4) as usize;
    let end = STACK_WORDS * (n as usize + 1);
    let (_, upper) = words.split_at(top);
    let (found, _) = upper.split_at(end - top);
    found
}

/// The bits of the registers that may refer at a place.
fn bits_at(frames: &FrameTable, place: u32) -> u8
    ensures { result ≡ register_bits frames.now place }
{
    match frames.row(place) {
        Some(row) => row.regs,
        None => 0,
    }
}

impl<'a> StackRoots<'a> {
    /// Those of the frames of stack `n`, which has this ESP and whose top frame goes on at `place`.
    pub fn of_frames(
        frames: &'a FrameTable,
        words: &'a [u32],
        n: u32,
        esp: u32,
        place: u32,
    ) -> StackRoots<'a>
        requires { IsWalked frames.now words.now n esp place }
        ensures { result ≡ references frames.now place (stack_words words.now n esp) }
    {
        let found = words_of(frames, words, n, esp, place);
        StackRoots {
            saved: SavedRegisters::none(),
            walk: Walk::new(frames, found, place),
        }
    }

    /// Those of stack `n` by what it does; none where it keeps no words.
    pub fn of_state(
        frames: &'a FrameTable,
        words: &'a [u32],
        n: u32,
        state: StackState,
    ) -> Option<StackRoots<'a>>
        requires { IsWalkable frames.now words.now n state }
        ensures { MatchOption result (state_words frames.now words.now n state ≡ []) (λ r. r ≡ state_words frames.now words.now n state) }
    {
        match state {
            StackState::Empty => None,
            StackState::Running => None,
            StackState::Yielded { sp, pc } => {
                Some(StackRoots::of_frames(frames, words, n, sp, pc))
            }
            StackState::Interrupted { regs, flags: _, pc } => {
                let found = words_of(frames, words, n, regs[ESP], pc);
                let bits = bits_at(frames, pc);
                Some(StackRoots {
                    saved: SavedRegisters::of(regs, bits),
                    walk: Walk::new(frames, found, pc),
                })
            }
        }
    }

    /// The next one. None exactly where all were given.
    pub fn next(&mut self) -> Option<u32>
        ensures { GivesNext result self.old self.new }
    {
        if let Some(word) = self.saved.next() {
            return Some(word);
        }
        self.walk.next()
    }
}
