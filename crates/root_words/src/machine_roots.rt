// The root words of the whole machine.
ghost use Rattle.std.specs.Prelude.{◌≡◌};
ghost use Rattle.stack_states.specs.StackTable.{current_of};
ghost use Rattle.root_words.specs.Listing.{IsWalked, AreWalkable, root_words};

use crate::data_area::{DataMarks, MarkedWords};
use crate::stack_roots::StackRoots;
use frame_tables::FrameTable;
use mark_sweep::Roots;
use stack_states::Stacks;
use std::marker::Model;

/// The root words at a call that are still to come. It takes no memory.
#[derive(Drop)]
pub struct MachineRoots<'a> {
    marked: MarkedWords<'a>,
    stack: StackRoots<'a>,
    frames: &'a FrameTable,
    stacks: &'a Stacks,
    words: &'a [u32],
    next: u32,
}

impl<'a> Model for MachineRoots<'a> {
    ghost use Rattle.std.specs.Prelude.{ℕ, List, ◌++◌, ◌≤◌, length};
    ghost use Rattle.root_words.specs.Rest.{rest_words, WalkableFrom};

    ghost Value = { List ℕ };

    ghost view = { λ r. r.marked ++ r.stack ++ rest_words r.frames.now r.words.now r.next r.stacks.now };

    ghost invariant = { λ r. WalkableFrom r.frames.now r.words.now r.next r.stacks.now × (r.next ≤ length r.stacks.now) };
}

impl<'a> MachineRoots<'a> {
    /// Those at a call of the running stack, which has this ESP and goes on at `place`: of the data area's words, and of the
    /// words of all stacks, one behind another.
    pub fn new(
        marks: &'a DataMarks,
        area: &'a [u32],
        frames: &'a FrameTable,
        words: &'a [u32],
        stacks: &'a Stacks,
        esp: u32,
        place: u32,
    ) -> MachineRoots<'a>
        requires walked { IsWalked frames.now words.now (current_of stacks.now) esp place }
        requires walkable { AreWalkable frames.now words.now 0 stacks.now }
        ensures { result ≡ root_words marks.now area.now frames.now words.now stacks.now esp place }
    {
        MachineRoots {
            marked: MarkedWords::new(marks, area),
            stack: StackRoots::of_frames(frames, words, stacks.current(), esp, place),
            frames,
            stacks,
            words,
            next: 0,
        }
    }
}

impl<'a> Roots for MachineRoots<'a> {
    ghost remaining = { λ r. r };

    fn next(&mut self) -> Option<u32> {
        if let Some(word) = self.marked.next() {
            return Some(word);
        }
        if let Some(word) = self.stack.next() {
            return Some(word);
        }
        'stacks: while self.next < self.stacks.count() {
            let n = self.next;
            self.next += 1;
            let state = self.stacks.state(n).unwrap();
            if let Some(stack) = StackRoots::of_state(self.frames, self.words, n, state) {
                self.stack = stack;
                if let Some(word) = self.stack.next() {
                    return Some(word);
                }
            }
        }
        None
    }
}
