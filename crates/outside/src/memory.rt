// Files and a sink in memory. Room is taken when they are made: a write or a put fails where what is to be kept does
// not fit it, a read where there is no such file, and nothing else fails.
ghost use Rattle.std.specs.Prelude.{◌≡◌, ◌↔◌, ◌+◌, ◌≤◌, [], true, Some, None, option_map, refl, map, length, vec_len, IfOk, IsOk, IsErrOf, is_err};
ghost use Rattle.outside.specs.Faults.{Counts, RoseByOne};
ghost use Rattle.outside.specs.FileMaps.{Gives};
ghost use Rattle.outside.specs.Answers.{is_read_failure};
ghost use Rattle.outside.specs.Shelf.{vacant_place, files_of, HasRoom, written};
ghost use Rattle.outside.specs.Memory.{HasRoomFor, filled};

use crate::faults::raise;
use crate::shelf::{FileRoom, Place, find_file, keep_front, make_places, read_file, write_file};
use crate::{Files, PutFailed, ReadAnswer, Sink, WriteFailed};
use no_memory::NoMemory;
use std::alloc::Global;
use std::marker::Model;

/// Files in memory, each in its own room. They are told and steady.
#[derive(Drop)]
pub struct MemoryFiles {
    places: Vec<Place>,
    read_faults: u64,
    write_faults: u64,
}

impl Model for MemoryFiles {
    ghost use Rattle.outside.specs.Memory.{FilesInMemory};

    ghost Value = { FilesInMemory };

    ghost view = { λ f. record { places = f.places.items; read_faults = f.read_faults; write_faults = f.write_faults } };
}

impl MemoryFiles {
    /// Room for files of these names and lengths, and no file yet. Of two rows with one name the first counts.
    pub fn new(alloc: Global, rooms: &[FileRoom<'_>]) -> Result<Self, NoMemory>
        ensures places { IfOk result (λ f. f.places ≡ map (λ r. vacant_place r.name.now r.room) rooms.now) }
        ensures read_faults { IfOk result (λ f. f.read_faults ≡ 0) }
        ensures write_faults { IfOk result (λ f. f.write_faults ≡ 0) }
    {
        Ok(MemoryFiles {
            places: make_places(alloc, rooms)?,
            read_faults: 0,
            write_faults: 0,
        })
    }

    /// The bytes of a file, where it is there.
    pub fn bytes_of(&self, name: &str) -> Option<&[u8]>
        ensures { option_map (λ b. b.now) result ≡ files_of self.now.places name.now }
    {
        find_file(&self.places, name)
    }

    /// How many reads failed so far.
    pub fn read_faults(&self) -> u64
        ensures { result ≡ self.now.read_faults }
    {
        self.read_faults
    }

    /// How many writes failed so far.
    pub fn write_faults(&self) -> u64
        ensures { result ≡ self.now.write_faults }
    {
        self.write_faults
    }

    // Counts a failed read and changes nothing else.
    pub(crate) fn count_read_fault(&mut self)
        ensures counted { RoseByOne self.old.read_faults self.new.read_faults }
        ensures rest { self.new ≡ record self.old { read_faults = self.new.read_faults } }
    {
        self.read_faults = raise(self.read_faults);
    }

    // Counts a failed write and changes nothing else.
    pub(crate) fn count_write_fault(&mut self)
        ensures counted { RoseByOne self.old.write_faults self.new.write_faults }
        ensures rest { self.new ≡ record self.old { write_faults = self.new.write_faults } }
    {
        self.write_faults = raise(self.write_faults);
    }
}

impl Files for MemoryFiles {
    ghost told = { λ f. Some (files_of f.places) };

    ghost steady = { λ _. true };

    ghost read_faults = { λ f. f.read_faults };

    ghost write_faults = { λ f. f.write_faults };

    ghost steady_told = { λ _ _. refl };

    fn read(&mut self, alloc: Global, name: &str, most: usize) -> Result<Vec<u8>, ReadAnswer>
        ensures bytes { IfOk result (λ v. Gives (Some (files_of self.old.places)) name.now most v.items) }
        ensures length { IfOk result (λ v. vec_len v ≤ most + 1) }
        // It fails exactly where there is no such file.
        ensures failed { IsErrOf result ReadAnswer.Failed ↔ (files_of self.old.places name.now ≡ None) }
        ensures read_faults { Counts (is_read_failure result) self.old.read_faults self.new.read_faults }
        ensures rest { self.new ≡ record self.old { read_faults = self.new.read_faults } }
    {
        let answer = read_file(&self.places, alloc, name, most);
        if let Err(ReadAnswer::Failed) = answer {
            self.count_read_fault();
        }
        answer
    }

    fn write(&mut self, name: &str, bytes: &[u8]) -> Result<(), WriteFailed>
        ensures places { self.new.places ≡ written self.old.places name.now bytes.now }
        // It succeeds exactly where there is a place of that name, and room for the bytes.
        ensures ok { IsOk result ↔ HasRoom self.old.places name.now (length bytes.now) }
        ensures write_faults { Counts (is_err result) self.old.write_faults self.new.write_faults }
        ensures read_faults { self.new.read_faults ≡ self.old.read_faults }
    {
        if write_file(&mut self.places, name, bytes) {
            return Ok(());
        }
        self.count_write_fault();
        Err(WriteFailed)
    }
}

/// A sink in memory, with room for so many bytes in all. It tells its bytes.
#[derive(Drop)]
pub struct MemorySink {
    bytes: Vec<u8>,
    room: usize,
    faults: u64,
}

impl Model for MemorySink {
    ghost use Rattle.std.specs.Prelude.{◌≤◌, vec_len, vec_capacity};
    ghost use Rattle.outside.specs.Memory.{BytesInMemory};

    ghost Value = { BytesInMemory };

    ghost view = { λ s. record { bytes = s.bytes.items; room = s.room; faults = s.faults } };

    ghost invariant = { λ s. (vec_len s.bytes ≤ s.room) × (s.room ≤ vec_capacity s.bytes) };
}

impl MemorySink {
    /// Room for so many bytes, and none yet.
    pub fn new(alloc: Global, room: usize) -> Result<Self, NoMemory>
        ensures { IfOk result (λ s. s ≡ record { bytes = []; room = room; faults = 0 }) }
    {
        Ok(MemorySink {
            bytes: Vec::with_capacity(alloc, room)?,
            room,
            faults: 0,
        })
    }

    /// The bytes that it has taken.
    pub fn bytes(&self) -> &[u8]
        ensures { result.now ≡ self.now.bytes }
    {
        &self.bytes
    }

    /// How many calls failed so far.
    pub fn faults(&self) -> u64
        ensures { result ≡ self.now.faults }
    {
        self.faults
    }

    // Counts a failed call and changes nothing else.
    pub(crate) fn count_fault(&mut self)
        ensures counted { RoseByOne self.old.faults self.new.faults }
        ensures rest { self.new ≡ record self.old { faults = self.new.faults } }
    {
        self.faults = raise(self.faults);
    }
}

impl Sink for MemorySink {
    ghost told = { λ s. Some s.bytes };

    ghost faults = { λ s. s.faults };

    fn put(&mut self, bytes: &[u8]) -> Result<(), PutFailed>
        ensures bytes { self.new.bytes ≡ filled self.old bytes.now }
        // It succeeds exactly where there is room.
        ensures ok { IsOk result ↔ HasRoomFor self.old (length bytes.now) }
        ensures faults { Counts (is_err result) self.old.faults self.new.faults }
        ensures room { self.new.room ≡ self.old.room }
    {
        if keep_front(&mut self.bytes, self.room, bytes) {
            return Ok(());
        }
        self.count_fault();
        Err(PutFailed)
    }
}
