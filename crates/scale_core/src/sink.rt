//! A writer that reports whether a write to it failed.

ghost use Rattle.std.specs.Prelude.{◌≡◌, ◌<◌, ◌≤◌, ◌||◌, false, length, IfOk, is_ok, not};
ghost use Rattle.std.specs.Io.KnownBytes.{WriteAppends};
ghost use Rattle.scale_core.specs.Stream.{taken};

use crate::device::WriteOnce;
use std::io::Write;
use std::marker::Model;

/// The reason for a failed write.
#[derive(Clone, Copy, Debug, PartialEq, Eq)]
pub enum SinkFault {
    /// The writer returned an error; an interrupted write is one.
    Device,
    /// The writer took no byte of a part that is not empty.
    WroteNothing,
}

/// A writer, and whether a write to it has failed: false at first, and always true after a failure.
#[derive(Drop)]
pub struct Sink<W: Write> {
    writer: W,
    failed: bool,
}

impl<W: Write> Model for Sink<W> {
    ghost use Rattle.scale_core.specs.Stream.{Watched};

    ghost Value = { Watched W };

    ghost view = { λ s. record { device = s.writer; failed = s.failed } };
}

impl<W: Write> Sink<W> {
    /// Creates a sink over this writer, in which no write has failed.
    pub fn new(writer: W) -> Sink<W>
        ensures { result ≡ record { device = writer; failed = false } }
    {
        Sink {
            writer,
            failed: false,
        }
    }

    /// Returns the writer, in the state after the last write.
    pub fn into_inner(self) -> W
        ensures { result ≡ self.device }
    {
        let Sink { writer, failed: _ } = self;
        writer
    }

    /// Returns whether a write has failed.
    pub fn failed(&self) -> bool
        ensures { result ≡ self.now.failed }
    {
        self.failed
    }
}

impl<W: WriteOnce> Sink<W> {
    /// Writes the part, which is not empty, once, and returns how many of its first bytes were
    /// written, at least one.
    ///
    /// # Errors
    ///
    /// - `Device` if the writer returns an error.
    /// - `WroteNothing` if the writer takes no byte.
    ///
    /// After an error `failed()` is always true. Nothing else changes `failed()`.
    pub fn put(&mut self, part: &[u8]) -> Result<usize, SinkFault>
        requires { 0 < length part.now }
        // One write leads to the state afterwards: it took the count, or none, or returned an
        // error.
        ensures once { W.writes self.old.device part.now (taken result) self.new.device }
        ensures count { IfOk result (λ n. (0 < n) × (n ≤ length part.now)) }
        ensures bytes { WriteAppends (W.contents self.old.device) (W.contents self.new.device)
            result part.now }
        ensures failed { self.new.failed ≡ self.old.failed || not (is_ok result) }
    {
        let written = match self.writer.write_once(part) {
            Some(0) => Err(SinkFault::WroteNothing),
            Some(count) => Ok(count),
            None => Err(SinkFault::Device),
        };
        self.failed |= written.is_err();
        written
    }
}
