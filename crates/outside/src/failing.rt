// Files and a sink in memory, some of whose calls fail. Each counts its calls, and a list says which of them fail, and
// how many bytes still go through then.
ghost use Rattle.std.specs.Prelude.{◌≡◌, ◌↔◌, ◌⊎◌, ◌+◌, ◌≤◌, List, false, Some, None, option_map, map, length, vec_len, take, unwrap_or, IfOk, IsOk, IsErrOf, IsNone, IsSome, is_err};
ghost use Rattle.std.proofs.Common.{sym};
ghost use mathlib.Core.Bool.{true≢false};
ghost use Rattle.outside.specs.Faults.{Counts};
ghost use Rattle.outside.specs.FileMaps.{Gives};
ghost use Rattle.outside.specs.Answers.{is_read_failure};
ghost use Rattle.outside.specs.Shelf.{vacant_place, files_of, HasRoom, written};
ghost use Rattle.outside.specs.Memory.{HasRoomFor, filled};
ghost use Rattle.outside.specs.Failing.{next_call, through_at, passing};

use crate::faults::raise;
use crate::shelf::FileRoom;
use crate::{Files, MemoryFiles, MemorySink, PutFailed, ReadAnswer, Sink, WriteFailed};
use no_memory::NoMemory;
use std::alloc::Global;
use std::marker::Model;

/// A call that fails.
#[derive(Clone, Copy, Debug, PartialEq, Eq)]
pub struct FailingCall {
    /// Its number. Calls are counted from 1: those of a sink, and the reads and writes of files together.
    pub call: u64,
    /// How many bytes of a write or a put still go through.
    pub through: usize,
}

// How many bytes still go through at this call, where it is one that fails.
fn find_call(failing: &[FailingCall], call: u64) -> Option<usize>
    ensures { result ≡ through_at failing.now call }
{
    for row in failing {
        if row.call == call {
            return Some(row.through);
        }
    }
    None
}

/// Files in memory, some of whose reads and writes fail. They are told, and not steady.
#[derive(Drop)]
pub struct FailingFiles {
    files: MemoryFiles,
    calls: u64,
    failing: Vec<FailingCall>,
}

impl Model for FailingFiles {
    ghost use Rattle.outside.specs.Failing.{FailingFilesView};

    ghost Value = { FailingFilesView };

    ghost view = { λ f. record { files = f.files; calls = f.calls; failing = f.failing.items } };
}

impl FailingFiles {
    /// Room for files of these names and lengths, no file yet, and a list of the calls that fail.
    pub fn new(
        alloc: Global,
        rooms: &[FileRoom<'_>],
        failing: &[FailingCall],
    ) -> Result<Self, NoMemory>
        ensures places { IfOk result (λ f. f.files.places ≡ map (λ r. vacant_place r.name.now r.room) rooms.now) }
        ensures read_faults { IfOk result (λ f. f.files.read_faults ≡ 0) }
        ensures write_faults { IfOk result (λ f. f.files.write_faults ≡ 0) }
        ensures calls { IfOk result (λ f. f.calls ≡ 0) }
        ensures failing { IfOk result (λ f. f.failing ≡ failing.now) }
    {
        Ok(FailingFiles {
            files: MemoryFiles::new(alloc, rooms)?,
            calls: 0,
            failing: Vec::from_slice(alloc, failing)?,
        })
    }

    /// The bytes of a file, where it is there.
    pub fn bytes_of(&self, name: &str) -> Option<&[u8]>
        ensures { option_map (λ b. b.now) result ≡ files_of self.now.files.places name.now }
    {
        self.files.bytes_of(name)
    }

    /// How many reads failed so far.
    pub fn read_faults(&self) -> u64
        ensures { result ≡ self.now.files.read_faults }
    {
        self.files.read_faults()
    }

    /// How many writes failed so far.
    pub fn write_faults(&self) -> u64
        ensures { result ≡ self.now.files.write_faults }
    {
        self.files.write_faults()
    }

    // Counts this call, and says how many bytes still go through, where it fails.
    fn begin_call(&mut self) -> Option<usize>
        ensures through { result ≡ through_at self.old.failing (next_call self.old.calls) }
        ensures counted { self.new ≡ record self.old { calls = next_call self.old.calls } }
    {
        self.calls = self.calls.saturating_add(1);
        find_call(&self.failing, self.calls)
    }
}

impl Files for FailingFiles {
    ghost told = { λ f. Some (files_of f.files.places) };

    ghost steady = { λ _. false };

    ghost read_faults = { λ f. f.files.read_faults };

    ghost write_faults = { λ f. f.files.write_faults };

    ghost steady_told = { λ _ h. absurd (true≢false (sym h)) };

    fn read(&mut self, alloc: Global, name: &str, most: usize) -> Result<Vec<u8>, ReadAnswer>
        ensures bytes { IfOk result (λ v. Gives (Some (files_of self.old.files.places)) name.now most v.items) }
        ensures length { IfOk result (λ v. vec_len v ≤ most + 1) }
        // It fails exactly at a call of the list, and where there is no such file.
        ensures failed { IsErrOf result ReadAnswer.Failed ↔ (IsSome (through_at self.old.failing (next_call self.old.calls)) ⊎ (files_of self.old.files.places name.now ≡ None)) }
        ensures read_faults { Counts (is_read_failure result) self.old.files.read_faults self.new.files.read_faults }
        ensures rest { self.new ≡ record self.old { files = record self.old.files { read_faults = self.new.files.read_faults }; calls = next_call self.old.calls } }
    {
        if self.begin_call().is_some() {
            self.files.count_read_fault();
            return Err(ReadAnswer::Failed);
        }
        self.files.read(alloc, name, most)
    }

    fn write(&mut self, name: &str, bytes: &[u8]) -> Result<(), WriteFailed>
        ensures places { self.new.files.places ≡ written self.old.files.places name.now (passing self.old.failing (next_call self.old.calls) bytes.now) }
        // It succeeds exactly at a call that the list does not have, where there is a place with room.
        ensures ok { IsOk result ↔ (IsNone (through_at self.old.failing (next_call self.old.calls)) × HasRoom self.old.files.places name.now (length bytes.now)) }
        ensures write_faults { Counts (is_err result) self.old.files.write_faults self.new.files.write_faults }
        ensures read_faults { self.new.files.read_faults ≡ self.old.files.read_faults }
        ensures calls { self.new.calls ≡ next_call self.old.calls }
        ensures failing { self.new.failing ≡ self.old.failing }
    {
        let Some(through) = self.begin_call() else {
            return self.files.write(name, bytes);
        };
        let (front, _) = bytes.split_at(through.min(bytes.len()));
        if self.files.write(name, front).is_ok() {
            self.files.count_write_fault();
        }
        Err(WriteFailed)
    }
}

/// A sink in memory, some of whose calls fail. It tells its bytes.
#[derive(Drop)]
pub struct FailingSink {
    sink: MemorySink,
    calls: u64,
    failing: Vec<FailingCall>,
}

impl Model for FailingSink {
    ghost use Rattle.outside.specs.Failing.{FailingSinkView};

    ghost Value = { FailingSinkView };

    ghost view = { λ s. record { sink = s.sink; calls = s.calls; failing = s.failing.items } };
}

impl FailingSink {
    ghost use Rattle.std.specs.Prelude.{[]};

    /// Room for so many bytes, none yet, and a list of the calls that fail.
    pub fn new(alloc: Global, room: usize, failing: &[FailingCall]) -> Result<Self, NoMemory>
        ensures sink { IfOk result (λ s. s.sink ≡ record { bytes = []; room = room; faults = 0 }) }
        ensures calls { IfOk result (λ s. s.calls ≡ 0) }
        ensures failing { IfOk result (λ s. s.failing ≡ failing.now) }
    {
        Ok(FailingSink {
            sink: MemorySink::new(alloc, room)?,
            calls: 0,
            failing: Vec::from_slice(alloc, failing)?,
        })
    }

    /// The bytes that it has taken.
    pub fn bytes(&self) -> &[u8]
        ensures { result.now ≡ self.now.sink.bytes }
    {
        self.sink.bytes()
    }

    /// How many calls failed so far.
    pub fn faults(&self) -> u64
        ensures { result ≡ self.now.sink.faults }
    {
        self.sink.faults()
    }
}

impl Sink for FailingSink {
    ghost told = { λ s. Some s.sink.bytes };

    ghost faults = { λ s. s.sink.faults };

    fn put(&mut self, bytes: &[u8]) -> Result<(), PutFailed>
        ensures bytes { self.new.sink.bytes ≡ filled self.old.sink (passing self.old.failing (next_call self.old.calls) bytes.now) }
        // It succeeds exactly at a call that the list does not have, where there is room.
        ensures ok { IsOk result ↔ (IsNone (through_at self.old.failing (next_call self.old.calls)) × HasRoomFor self.old.sink (length bytes.now)) }
        ensures faults { Counts (is_err result) self.old.sink.faults self.new.sink.faults }
        ensures room { self.new.sink.room ≡ self.old.sink.room }
        ensures calls { self.new.calls ≡ next_call self.old.calls }
        ensures failing { self.new.failing ≡ self.old.failing }
    {
        self.calls = self.calls.saturating_add(1);
        let Some(through) = find_call(&self.failing, self.calls) else {
            return self.sink.put(bytes);
        };
        let (front, _) = bytes.split_at(through.min(bytes.len()));
        if self.sink.put(front).is_ok() {
            self.sink.count_fault();
        }
        Err(PutFailed)
    }
}
