//! Readers and writers over memory that move a few bytes a call, and may fail after some.

use std::alloc::Global;
use std::io;
use std::io::{Read, Write};

/// What a device does once its bytes have moved.
#[derive(Clone, Copy, Debug, PartialEq, Eq)]
pub enum Then {
    /// A reader is at its end, and a writer takes more.
    GoesOn,
    Fails,
    /// A writer takes nothing.
    TakesNothing,
}

/// A reader that gives at most `step` bytes a call.
#[derive(Drop)]
pub struct PacedReader<'a> {
    bytes: &'a [u8],
    step: usize,
    then: Then,
}

impl<'a> PacedReader<'a> {
    /// Creates a reader of these bytes, at most `step` a call, which then behaves as `then` says.
    pub fn new(bytes: &'a [u8], step: usize, then: Then) -> PacedReader<'a> {
        PacedReader { bytes, step, then }
    }
}

impl Read for PacedReader<'_> {
    fn read(&mut self, part: &mut [u8]) -> io::Result<usize> {
        if self.bytes.is_empty() && self.then == Then::Fails {
            return Err(io::ErrorKind::Other.into());
        }
        let count = self.step.min(part.len()).min(self.bytes.len());
        let (front, rest) = self.bytes.split_at(count);
        part[..count].copy_from_slice(front);
        self.bytes = rest;
        Ok(count)
    }
}

/// A writer that takes at most `step` bytes a call. After `room` bytes it behaves as `then` says.
#[derive(Drop)]
pub struct PacedWriter {
    pub taken: Vec<u8>,
    /// How many writes were made.
    pub writes: u64,
    room: usize,
    step: usize,
    then: Then,
}

impl PacedWriter {
    /// Creates a writer that takes `room` bytes, at most `step` a call, and then behaves as `then`
    /// says.
    pub fn new(alloc: Global, room: usize, step: usize, then: Then) -> PacedWriter {
        PacedWriter {
            taken: Vec::new(alloc),
            writes: 0,
            room,
            step,
            then,
        }
    }
}

impl Write for PacedWriter {
    fn write(&mut self, part: &[u8]) -> io::Result<usize> {
        self.writes = self.writes.saturating_add(1);
        let room = self.room.saturating_sub(self.taken.len());
        let count = match self.then {
            Then::GoesOn => self.step.min(part.len()),
            _ => self.step.min(part.len()).min(room),
        };
        if count == 0 && self.then == Then::Fails {
            return Err(io::ErrorKind::Other.into());
        }
        self.taken.extend_from_slice(&part[..count])?;
        Ok(count)
    }

    fn flush(&mut self) -> io::Result<()> {
        Ok(())
    }
}

/// A reader that gives `head` and then `letters` letters `a`.
#[derive(Drop)]
pub struct LetterReader {
    head: &'static [u8],
    letters: usize,
}

impl LetterReader {
    /// Creates a reader of these bytes and then of this many letters.
    pub fn new(head: &'static [u8], letters: usize) -> LetterReader {
        LetterReader { head, letters }
    }
}

impl Read for LetterReader {
    fn read(&mut self, part: &mut [u8]) -> io::Result<usize> {
        if self.head.is_empty() {
            let count = self.letters.min(part.len());
            part[..count].fill(b'a');
            self.letters -= count;
            return Ok(count);
        }
        let count = self.head.len().min(part.len());
        let (front, rest) = self.head.split_at(count);
        part[..count].copy_from_slice(front);
        self.head = rest;
        Ok(count)
    }
}
