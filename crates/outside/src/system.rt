// Real files. They tell no bytes and count what fails: this is part of the trusted edge, since no clause can say what the
// system holds. What opening, creating, reading and writing answered decides by the clauses of `transfer`.
ghost use Rattle.std.specs.Prelude.{◌≡◌, ◌≤◌, ◌+◌, false, None, IfOk, is_err, vec_len};
ghost use Rattle.std.proofs.Common.{sym};
ghost use mathlib.Core.Bool.{true≢false};
ghost use Rattle.outside.specs.Faults.{Counts};
ghost use Rattle.outside.specs.Answers.{is_read_failure};

use crate::faults::raise;
use crate::transfer::{read_opened, write_created};
use crate::{Files, ReadAnswer, WriteFailed};
use std::alloc::Global;
use std::fs;
use std::marker::Model;

/// The system's files. They tell nothing, and are not steady.
#[derive(Drop)]
pub struct SystemFiles<R: fs::Files + Drop> {
    system: R,
    read_faults: u64,
    write_faults: u64,
}

impl<R: fs::Files + Drop> Model for SystemFiles<R> {
    ghost use Rattle.outside.specs.System.{FileFaults};

    ghost Value = { FileFaults };

    ghost view = { λ f. record { read_faults = f.read_faults; write_faults = f.write_faults } };
}

impl<R: fs::Files + Drop> SystemFiles<R> {
    /// Files by way of this system, with no fault so far.
    pub fn new(system: R) -> Self
        ensures read_faults { result.read_faults ≡ 0 }
        ensures write_faults { result.write_faults ≡ 0 }
    {
        SystemFiles {
            system,
            read_faults: 0,
            write_faults: 0,
        }
    }

    /// How many reads failed so far.
    pub fn read_faults(&self) -> u64
        ensures { result ≡ self.now.read_faults }
    {
        self.read_faults
    }

    /// How many writes failed so far.
    pub fn write_faults(&self) -> u64
        ensures { result ≡ self.now.write_faults }
    {
        self.write_faults
    }
}

impl<R: fs::Files + Drop> Files for SystemFiles<R> {
    ghost told = { λ _. None };

    ghost steady = { λ _. false };

    ghost read_faults = { λ f. f.read_faults };

    ghost write_faults = { λ f. f.write_faults };

    ghost steady_told = { λ _ h. absurd (true≢false (sym h)) };

    fn read(&mut self, alloc: Global, name: &str, most: usize) -> Result<Vec<u8>, ReadAnswer>
        ensures length { IfOk result (λ v. vec_len v ≤ most + 1) }
        ensures read_faults { Counts (is_read_failure result) self.old.read_faults self.new.read_faults }
        ensures write_faults { self.new.write_faults ≡ self.old.write_faults }
    {
        let opened = fs::open(&self.system, name);
        let answer = read_opened(alloc, opened, most.saturating_add(1));
        if let Err(ReadAnswer::Failed) = answer {
            self.read_faults = raise(self.read_faults);
        }
        answer
    }

    fn write(&mut self, name: &str, bytes: &[u8]) -> Result<(), WriteFailed>
        ensures write_faults { Counts (is_err result) self.old.write_faults self.new.write_faults }
        ensures read_faults { self.new.read_faults ≡ self.old.read_faults }
    {
        let mut created = fs::create(&self.system, name);
        if write_created(&mut created, bytes) {
            return Ok(());
        }
        self.write_faults = raise(self.write_faults);
        Err(WriteFailed)
    }
}
