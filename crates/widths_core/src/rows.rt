//! The arms of variants by their index, in one row for each variant.

ghost use Rattle.std.specs.Prelude.{◌≡◌, ◌≤◌, ◌+◌, length, OnOk, IfOk, MatchOption};
ghost use Rattle.std.specs.List.{insert};
ghost use Rattle.widths_core.specs.Rows.{IsPlace, IsSearched, IsPaired, HasNoRow, IsIn, Lacks};
ghost use Rattle.widths_core.specs.Rows.{Rises, Inserts};

use crate::type_step::ArmStep;
use growth_core::{Refused, insert, with_capacity};
use std::alloc::Global;

/// The arms that no earlier arm of the same index shadows: one row for each variant, by ascending
/// index. An arm takes 13 bytes.
#[derive(Debug, Drop)]
pub(crate) struct Rows {
    indexes: Vec<u8>,
    arms: Vec<ArmStep>,
}

/// Finds an index in a row: at once if the row has no gap, and otherwise by at most eight halvings.
fn place_of(row: &[u8], index: u8) -> Option<usize>
    requires { Rises row.now 0 (length row.now) }
    ensures { MatchOption result (Lacks row.now 0 (length row.now) index)
        (λ i. IsIn row.now 0 (length row.now) index i) }
{
    let first = *row.first()?;
    if index < first {
        return None;
    }
    let place = usize::from(index - first);
    if place < row.len() && row[place] == index {
        return Some(place);
    }
    row.binary_search(&index).ok()
}

impl Rows {
    /// Creates no rows, with capacity for this many arms.
    pub(crate) fn with_capacity(alloc: Global, arms: usize) -> Result<Rows, Refused>
        ensures { IfOk result (λ rows. HasNoRow rows) }
    {
        Ok(Rows {
            indexes: with_capacity(alloc, arms)?,
            arms: with_capacity(alloc, arms)?,
        })
    }

    /// Returns the number of arms in all rows.
    pub(crate) fn len(&self) -> usize
        ensures { result ≡ length self.now.indexes.items }
    {
        self.indexes.len()
    }

    /// Returns where an index is in the row from `first` to the end, or where it belongs.
    pub(crate) fn search(&self, first: usize, index: u8) -> Result<usize, usize>
        requires within { first ≤ length self.now.indexes.items }
        requires rises { Rises self.now.indexes.items first (length self.now.indexes.items) }
        ensures { IsSearched self.now.indexes.items first index result }
    {
        let (_, row) = self.indexes.as_slice().split_at(first);
        match row.binary_search(&index) {
            Ok(place) => Ok(first + place),
            Err(place) => Err(first + place),
        }
    }

    /// Inserts an arm before those from a position on.
    pub(crate) fn insert(&mut self, at: usize, index: u8, arm: ArmStep) -> Result<(), Refused>
        requires paired { IsPaired self.old }
        requires within { at ≤ length self.old.indexes.items }
        ensures { OnOk result (Inserts self.old self.new at index arm) }
    {
        insert(&mut self.indexes, at, index)?;
        insert(&mut self.arms, at, arm)?;
        Ok(())
    }

    /// Returns the arm of an index in the row of `count` arms from `from` on.
    pub(crate) fn find(&self, from: u32, count: u32, index: u8) -> Option<ArmStep>
        requires paired { IsPaired self.now }
        requires within { from + count ≤ length self.now.indexes.items }
        requires rises { Rises self.now.indexes.items from (from + count) }
        ensures { IsPlace self.now from count index result }
    {
        let (_, rest) = self.indexes.as_slice().split_at(from as usize);
        let (row, _) = rest.split_at(count as usize);
        let place = place_of(row, index)?;
        Some(self.arms[from as usize + place])
    }
}
