ghost use Rattle.std.specs.Prelude.{◌≡◌, ◌≤◌, ◌+◌, [], ◌∷◌, ◌++◌, length, OnOk, OnErr, IsOk};

use no_memory::NoMemory;
use stack_states::Entry;
use std::alloc::Global;
use std::marker::Model;

/// The entries of a run in their order, and room for some more.
///
/// Room is taken beforehand by `reserve`, so that a turn needs no memory.
#[derive(Drop)]
pub struct Journal {
    rows: Vec<Entry>,
}

impl Model for Journal {
    ghost use Rattle.std.specs.Prelude.{◌-◌, vec_len};
    ghost use Rattle.std.specs.Vec.{vec_capacity};
    ghost use Rattle.nucleus_calls.specs.Journal.{JournalView};

    ghost Value = { JournalView };

    ghost view = { λ j. record { entries = j.rows.items; spare = vec_capacity j.rows - vec_len j.rows } };
}

impl Journal {
    /// An empty journal. It takes no memory, so its spare is 0.
    pub fn new(alloc: Global) -> Journal
        ensures entries { result.entries ≡ [] }
        ensures spare { result.spare ≡ 0 }
    {
        Journal {
            rows: Vec::new(alloc),
        }
    }

    /// The entries in their order.
    pub fn entries(&self) -> &[Entry]
        ensures { result.now ≡ self.now.entries }
    {
        &self.rows
    }

    /// How many more entries there is room for.
    pub fn spare(&self) -> usize
        ensures { result ≡ self.now.spare }
    {
        self.rows.capacity() - self.rows.len()
    }

    /// Takes room, so that the spare is at least `more`. After `NoMemory` the journal is as before.
    pub fn reserve(&mut self, more: usize) -> Result<(), NoMemory>
        ensures entries { self.new.entries ≡ self.old.entries }
        ensures room { OnOk result (more ≤ self.new.spare) }
        ensures spare { self.old.spare ≤ self.new.spare }
        ensures enough { more ≤ self.old.spare → IsOk result }
        ensures none { OnErr result (self.new ≡ self.old) }
    {
        self.rows.reserve(more)?;
        Ok(())
    }

    /// Puts an entry last.
    pub fn add(&mut self, entry: Entry)
        requires { 1 ≤ self.old.spare }
        ensures entries { self.new.entries ≡ self.old.entries ++ entry ∷ [] }
        ensures spare { self.new.spare + 1 ≡ self.old.spare }
    {
        self.rows.push_reserved(entry);
    }

    /// Takes the entries out. Their room is spare then.
    pub fn clear(&mut self)
        ensures entries { self.new.entries ≡ [] }
        ensures spare { self.new.spare ≡ self.old.spare + length self.old.entries }
    {
        self.rows.clear();
    }
}
