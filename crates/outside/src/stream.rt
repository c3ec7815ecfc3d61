// The standard streams as sinks. A stream tells no bytes and counts what fails: it is part of the trusted edge. Over a
// writer whose bytes are known, a call is proved to give it all its bytes, or a front of them.
ghost use Rattle.std.specs.Prelude.{◌≡◌, None, OnOk, OnErr, is_err};
ghost use Rattle.std.specs.Io.KnownBytes.{Appends};
ghost use Rattle.outside.specs.Faults.{Counts};
ghost use Rattle.outside.specs.Transfer.{AppendsFront};

use crate::faults::raise;
use crate::transfer::write_whole;
use crate::{PutFailed, Sink};
use std::io::Write;
use std::marker::Model;

/// A stream of bytes, as standard output or standard error. It tells nothing.
#[derive(Drop)]
pub struct StreamSink<W: Write + Drop> {
    to: W,
    faults: u64,
}

impl<W: Write + Drop> Model for StreamSink<W> {
    ghost use Rattle.outside.specs.System.{StreamBytes};

    ghost Value = { StreamBytes };

    ghost view = { λ s. record { contents = W.contents s.to; faults = s.faults } };
}

impl<W: Write + Drop> StreamSink<W> {
    /// A sink over this stream, with no fault so far.
    pub fn new(to: W) -> Self
        ensures contents { result.contents ≡ W.contents to }
        ensures faults { result.faults ≡ 0 }
    {
        StreamSink { to, faults: 0 }
    }

    /// How many calls failed so far.
    pub fn faults(&self) -> u64
        ensures { result ≡ self.now.faults }
    {
        self.faults
    }
}

impl<W: Write + Drop> Sink for StreamSink<W> {
    ghost told = { λ _. None };

    ghost faults = { λ s. s.faults };

    fn put(&mut self, bytes: &[u8]) -> Result<(), PutFailed>
        // The writer has all bytes, or a front of them.
        ensures done { OnOk result (Appends self.old.contents self.new.contents bytes.now) }
        ensures part { OnErr result (AppendsFront self.old.contents self.new.contents bytes.now) }
        ensures faults { Counts (is_err result) self.old.faults self.new.faults }
    {
        if write_whole(&mut self.to, bytes) {
            return Ok(());
        }
        self.faults = raise(self.faults);
        Err(PutFailed)
    }
}
