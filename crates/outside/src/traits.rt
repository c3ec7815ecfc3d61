// What a program reads and writes, as traits whose members say what is told and what is counted.
ghost use Rattle.std.specs.Prelude.{◌≡◌, ◌<◌, ◌≤◌, ◌+◌, ℕ, List, Bool, true, Option, IfOk, OnOk, OnErr, IsErr, IsErrOf, IsSome, vec_len};
ghost use Rattle.outside.specs.Faults.{Faulted};
ghost use Rattle.outside.specs.FileMaps.{FileMap, Gives, Lacks, Writes, LeavesFront};
ghost use Rattle.outside.specs.Sinks.{Gained, GainedFront};

use std::alloc::Global;

/// Why a file was not read.
#[derive(Clone, Copy, Debug, PartialEq, Eq)]
pub enum ReadAnswer {
    /// There is no such file, or the read failed. It was counted.
    Failed,
    /// There was no memory for the bytes. Nothing was counted.
    NoMemory,
}

/// A write of a file failed, and was counted.
#[derive(Clone, Copy, Debug, PartialEq, Eq)]
pub struct WriteFailed;

/// A sink did not take all bytes, and counted that.
#[derive(Clone, Copy, Debug, PartialEq, Eq)]
pub struct PutFailed;

/// Files by their names.
pub trait Files {
    /// The files, where they are told.
    ghost told: { Self → Option FileMap };

    /// A read fails at a missing file alone. Steady files are told.
    ghost steady: { Self → Bool };

    /// How many reads failed so far.
    ghost read_faults: { Self → ℕ };

    /// How many writes failed so far.
    ghost write_faults: { Self → ℕ };

    /// The file's first `most + 1` bytes, or all where it has fewer: so a file has more than `most` bytes exactly
    /// where the answer has. `NoMemory` may come at a file that is there.
    fn read(&mut self, alloc: Global, name: &str, most: usize) -> Result<Vec<u8>, ReadAnswer>
        ensures bytes { IfOk result (λ v. Gives (told self.old) name.now most v.items) }
        ensures length { IfOk result (λ v. vec_len v ≤ most + 1) }
        ensures missing { Lacks (told self.old) name.now → IsErrOf result ReadAnswer.Failed }

        // No file changes.
        ensures told { told self.new ≡ told self.old }
        ensures steady { steady self.new ≡ steady self.old }

        // A failure is counted, and nothing else is.
        ensures failed { IsErrOf result ReadAnswer.Failed → Faulted (read_faults self.old) (read_faults self.new) }
        ensures failed_alone { read_faults self.old < read_faults self.new → IsErrOf result ReadAnswer.Failed }
        ensures never_falls { read_faults self.old ≤ read_faults self.new }
        ensures write_faults { write_faults self.new ≡ write_faults self.old }
        ensures steady_failure { IsErrOf result ReadAnswer.Failed → steady self.old ≡ true → Lacks (told self.old) name.now };

    /// Gives the file these bytes and no others, and makes it where there is none.
    fn write(&mut self, name: &str, bytes: &[u8]) -> Result<(), WriteFailed>
        ensures done { OnOk result (Writes (told self.old) (told self.new) name.now bytes.now) }
        ensures part { OnErr result (LeavesFront (told self.old) (told self.new) name.now bytes.now) }
        ensures steady { steady self.new ≡ steady self.old }

        // A failure is counted, and nothing else is.
        ensures failed { IsErr result → Faulted (write_faults self.old) (write_faults self.new) }
        ensures failed_alone { write_faults self.old < write_faults self.new → IsErr result }
        ensures never_falls { write_faults self.old ≤ write_faults self.new }
        ensures read_faults { read_faults self.new ≡ read_faults self.old };

    /// Steady files are told.
    ghost steady_told: { (files : Self) → steady files ≡ true → IsSome (told files) };
}

/// Something that takes bytes at its end.
pub trait Sink {
    /// The bytes that it has taken, where they are told.
    ghost told: { Self → Option (List ℕ) };

    /// How many calls failed so far.
    ghost faults: { Self → ℕ };

    /// Takes all these bytes, or fails and takes a front of them.
    fn put(&mut self, bytes: &[u8]) -> Result<(), PutFailed>
        ensures done { OnOk result (Gained (told self.old) (told self.new) bytes.now) }
        ensures part { OnErr result (GainedFront (told self.old) (told self.new) bytes.now) }

        // A failure is counted, and nothing else is.
        ensures failed { IsErr result → Faulted (faults self.old) (faults self.new) }
        ensures failed_alone { faults self.old < faults self.new → IsErr result }
        ensures never_falls { faults self.old ≤ faults self.new };
}
