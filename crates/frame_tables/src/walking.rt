// The walk over the frames of a stack. It takes no memory, and goes over each word once.
ghost use Rattle.std.specs.Prelude.{◌≡◌, ◌↔◌, ◌∷◌, [], IfOk, IsTrue};
ghost use Rattle.std.specs.Int.{bit_at};
ghost use Rattle.frame_tables.specs.FrameWalks.{IsStack, references, GivesNext};

use crate::FrameTable;
use std::marker::Model;
use tal_types::FrameRow;

/// The reference words of a stack's frames that are still to come.
#[derive(Drop)]
pub struct Walk<'a> {
    frames: &'a FrameTable,
    words: &'a [u32],
    row: FrameRow,
    slot: u8,
}

impl<'a> Model for Walk<'a> {
    ghost use Rattle.std.specs.Prelude.{ℕ, ◌≡◌, ◌⊎◌, List, []};
    ghost use Rattle.frame_tables.specs.FrameWalks.{frame_references_from, IsStackFrom};

    ghost Value = { List ℕ };

    ghost view = { λ w. frame_references_from w.frames.now w.row w.slot w.words.now };

    ghost invariant = { λ w. IsStackFrom w.frames.now w.row w.slot w.words.now ⊎ (w.words.now ≡ []) };
}

// Whether the bit of this slot is set.
fn is_set(refs: u64, slot: u8) -> bool
    ensures { IsTrue result ↔ (bit_at refs slot ≡ 1) }
{
    slot < 64 && (refs >> slot) & 1 == 1
}

impl<'a> Walk<'a> {
    /// A walk over the words of a stack, from its top. Its top frame goes on at `place`.
    pub fn new(frames: &'a FrameTable, words: &'a [u32], place: u32) -> Walk<'a>
        requires { IsStack frames.now place words.now }
        ensures { result ≡ references frames.now place words.now }
    {
        let row = frames.row(place).unwrap();
        Walk {
            frames,
            words,
            row,
            slot: 0,
        }
    }

    /// The next reference word. None exactly where all were given.
    pub fn next(&mut self) -> Option<u32>
        ensures { GivesNext result self.old self.new }
    {
        while let Some((word, rest)) = self.words.split_first() {
            self.words = rest;
            if self.slot < self.row.slots {
                let found = is_set(self.row.refs, self.slot);
                self.slot += 1;
                if found {
                    return Some(*word);
                }
            } else if !rest.is_empty() {
                self.row = self.frames.row(*word).unwrap();
                self.slot = 0;
            }
        }
        None
    }
}
