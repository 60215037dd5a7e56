//! One call of a reader or a writer, in a form that contracts can cite.

ghost use Rattle.std.specs.Prelude.{ℕ, List, Option, ◌≤◌, length, IfSome};
ghost use Rattle.scale_core.specs.Stream.{GivesBytes, TakesBytes};

use std::io::{Read, Write};

/// A reader whose reads are a relation, `reads`. Every reader implements this trait.
///
/// A contract that cites the relation for two states says that one read leads from the first to the
/// second. Nothing else is known of the relation.
pub trait ReadOnce: Read {
    /// Relates the reader and the part before a read to both after it. The `Option` is the number
    /// of bytes read, or `None` after an error.
    ghost reads: { Self → List ℕ → Option ℕ → List ℕ → Self → Type 0 };

    /// Reads once into the part, and returns the number of bytes read, or `None` if the reader
    /// returns an error.
    fn read_once(&mut self, part: &mut [u8]) -> Option<usize>
        ensures once { reads self.old part.old result part.new self.new }
        ensures count { IfSome result (λ n. n ≤ length part.new) }
        ensures bytes { GivesBytes (Self.remaining self.old)
            (Self.remaining self.new) result part.new };
}

impl<R: Read> ReadOnce for R {
    ghost reads = { λ old before count part new.
        GivesBytes (R.remaining old) (R.remaining new) count part };

    fn read_once(&mut self, part: &mut [u8]) -> Option<usize> {
        self.read(part).ok()
    }
}

/// A writer whose writes are a relation, `writes`. Every writer implements this trait.
///
/// A contract that cites the relation for two states says that one write leads from the first to
/// the second. Nothing else is known of the relation.
pub trait WriteOnce: Write {
    /// Relates the writer before a write, and the part, to the writer after it. The `Option` is the
    /// number of bytes written, or `None` after an error.
    ghost writes: { Self → List ℕ → Option ℕ → Self → Type 0 };

    /// Writes the part once, and returns how many of its first bytes were written, or `None` if the
    /// writer returns an error.
    fn write_once(&mut self, part: &[u8]) -> Option<usize>
        ensures once { writes self.old part.now result self.new }
        ensures count { IfSome result (λ n. n ≤ length part.now) }
        ensures bytes { TakesBytes (Self.contents self.old)
            (Self.contents self.new) result part.now };
}

impl<W: Write> WriteOnce for W {
    ghost writes = { λ old part count new.
        TakesBytes (W.contents old) (W.contents new) count part };

    fn write_once(&mut self, part: &[u8]) -> Option<usize> {
        self.write(part).ok()
    }
}
