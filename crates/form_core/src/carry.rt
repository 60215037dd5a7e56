//! The first bytes of a node that a piece cut.

ghost use Rattle.std.specs.Prelude.{◌≡◌, ◌≤◌, ◌-◌, ◌++◌, ◌==◌, [], length, take, min};
ghost use Rattle.form_core.specs.Needs.{IsFirst};

use std::marker::Model;

/// At most 32 bytes: the first ones of an integer, a character, a compact integer or an index.
#[derive(Drop)]
pub struct Carry {
    bytes: [u8; 32],
    len: usize,
}

impl Model for Carry {
    ghost use Rattle.std.specs.Prelude.{List, ℕ, take, ◌≤◌};

    ghost Value = { List ℕ };

    ghost view = { λ c. take c.len c.bytes };

    ghost invariant = { λ c. c.len ≤ 32 };
}

impl Carry {
    /// Creates an empty carry.
    pub fn new() -> Carry
        ensures { result ≡ [] }
    {
        Carry {
            bytes: [0; 32],
            len: 0,
        }
    }

    /// Returns whether there are no bytes.
    pub fn is_empty(&self) -> bool
        ensures { result ≡ (length self.now == 0) }
    {
        self.len == 0
    }

    /// Returns the first of these bytes followed by those of a piece.
    pub fn first_with(&self, piece: &[u8]) -> u8
        requires { 1 ≤ length piece.now }
        ensures { IsFirst result (self.now ++ piece.now) }
    {
        match self.as_slice().first() {
            Some(first) => *first,
            None => piece[0],
        }
    }

    /// Returns the bytes.
    pub fn as_slice(&self) -> &[u8]
        ensures bytes { result.now ≡ self.now }
        ensures bound { length self.now ≤ 32 }
    {
        &self.bytes[..self.len]
    }

    /// Removes all bytes.
    pub fn clear(&mut self)
        ensures { self.new ≡ [] }
    {
        self.len = 0;
    }

    /// Keeps the first `count` bytes.
    pub fn truncate(&mut self, count: usize)
        requires { count ≤ length self.old }
        ensures { self.new ≡ take count self.old }
    {
        self.len = count;
    }

    /// Appends bytes of the piece until there are `want` or the piece ends, and returns how many.
    #[inline(always)]
    pub fn fill(&mut self, want: usize, piece: &[u8]) -> usize
        requires { (length self.old ≤ want) × (want ≤ 32) }
        ensures count { result ≡ min (want - length self.old) (length piece.now) }
        ensures held { self.new ≡ self.old ++ take result piece.now }
    {
        let count = (want - self.len).min(piece.len());
        if count == 1 {
            self.bytes[self.len] = piece[0];
        } else {
            self.bytes[self.len..self.len + count].copy_from_slice(&piece[..count]);
        }
        self.len += count;
        count
    }
}
