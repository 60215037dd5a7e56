//! A reader that reports whether a read of it failed.

ghost use Rattle.std.specs.Prelude.{◌≡◌, ◌<◌, ◌≤◌, ◌||◌, false, length, IfOk, is_ok, not};
ghost use Rattle.std.specs.Io.KnownBytes.{ReadConsumes};
ghost use Rattle.scale_core.specs.Stream.{given};

use crate::device::ReadOnce;
use std::io::Read;
use std::marker::Model;

/// The reason for a failed read.
#[derive(Clone, Copy, Debug, PartialEq, Eq)]
pub enum SourceFault {
    /// The reader returned an error; an interrupted read is one.
    Device,
}

/// A reader, and whether a read of it has failed: false at first, and always true after a failure.
#[derive(Drop)]
pub struct Source<R: Read> {
    reader: R,
    failed: bool,
}

impl<R: Read> Model for Source<R> {
    ghost use Rattle.scale_core.specs.Stream.{Watched};

    ghost Value = { Watched R };

    ghost view = { λ s. record { device = s.reader; failed = s.failed } };
}

impl<R: Read> Source<R> {
    /// Creates a source over this reader, in which no read has failed.
    pub fn new(reader: R) -> Source<R>
        ensures { result ≡ record { device = reader; failed = false } }
    {
        Source {
            reader,
            failed: false,
        }
    }

    /// Returns the reader, in the state after the last read.
    pub fn into_inner(self) -> R
        ensures { result ≡ self.device }
    {
        let Source { reader, failed: _ } = self;
        reader
    }

    /// Returns whether a read has failed.
    pub fn failed(&self) -> bool
        ensures { result ≡ self.now.failed }
    {
        self.failed
    }
}

impl<R: ReadOnce> Source<R> {
    /// Reads once into the part, which is not empty, and returns the number of bytes read, 0 at the
    /// end.
    ///
    /// # Errors
    ///
    /// `Device` if the reader returns an error; `failed()` is always true from then on. Nothing
    /// else changes `failed()`.
    pub fn pull(&mut self, part: &mut [u8]) -> Result<usize, SourceFault>
        requires { 0 < length part.old }
        // One read leads to the state afterwards: it gave the count, or returned an error.
        ensures once { R.reads self.old.device part.old (given result) part.new self.new.device }
        ensures count { IfOk result (λ n. n ≤ length part.new) }
        ensures bytes { ReadConsumes (R.remaining self.old.device) (R.remaining self.new.device)
            result part.new }
        ensures failed { self.new.failed ≡ self.old.failed || not (is_ok result) }
    {
        match self.reader.read_once(part) {
            Some(count) => Ok(count),
            None => {
                self.failed = true;
                Err(SourceFault::Device)
            }
        }
    }
}
