//! The turns on a piece: those of the fast tier, and the general turn where there is none.

ghost use Rattle.std.specs.Prelude.{Err};
ghost use Rattle.machine_core.specs.Turned.{FeedTells};

use crate::partial::Partial;
use crate::turned::{Stopped, Tried};
use count_core::Count;
use std::alloc::Allocator;

impl<'r, A: Allocator> Partial<'r, A> {
    /// Takes turns until one stops, and counts each. Returns how many bytes of the piece they took
    /// and why they stopped. The builder counts the turns that close nodes.
    #[inline(never)]
    pub fn feed(&mut self, piece: &[u8], turns: &mut Count) -> (usize, Stopped)
        ensures { FeedTells self.old self.new piece.now turns.old.so_far turns.new.so_far result }
    {
        let mut at = 0;
        'turns: loop {
            if at == piece.len() && self.wants() {
                turns.tick();
                return (at, Stopped::Wants);
            }
            let (before, last) = self.whole_turns(&piece[at..], turns);
            at += before;
            match last {
                Tried::Added(count) => {
                    at += count;
                    continue 'turns;
                }
                Tried::OutOfMemory(refused) => return (at, Stopped::OutOfMemory(refused)),
                Tried::Untouched => {}
            }
            if self.is_finished() {
                return (at, Stopped::Finished);
            }
            match self.turn(&piece[at..]) {
                Ok(count) => at += count,
                Err(stopped) => return (at, stopped),
            }
        }
    }
}
