//! The rows that are left of each lane. Lanes take turns. The turns are only for fairness: no proof depends on the
//! order among lanes.
ghost use Rattle.std.specs.Prelude.{◌≡◌, ◌==◌};
ghost use Rattle.std.specs.List.{list_all};
ghost use Rattle.std.specs.Vec.Iter.{into_iter_len};
ghost use Rattle.hub_core.specs.Feeds.{GivenAtFirst, GivenAtLast};

use crate::shape::MOST_SEATS;
use scan_core::Runs;
use std::alloc::{AllocError, Global};
use std::vec::IntoIter;

/// Each lane's rows that are left, in order. Lanes take turns.
#[derive(Drop)]
pub struct Feeds {
    pub(crate) rests: Vec<IntoIter<Runs>>,
    /// The lane whose turn it is.
    turn: u8,
}

/// Whether none of these lanes has a row left.
fn are_empty(rests: &[IntoIter<Runs>]) -> bool
    ensures { result ≡ list_all (λ rest. into_iter_len rest == 0) rests.now }
{
    rests.iter().all(|rest| rest.len() == 0)
}

impl Feeds {
    ghost use Rattle.std.specs.Prelude.{◌≡◌, ◌<◌, ◌≤◌, [], IfOk, None, length, slice_index_or, true};
    ghost use Rattle.hub_core.specs.Feeds.{TakesRow, are_given, rests_of};
    ghost use Rattle.hub_core.specs.Serving.{items_of};
    ghost use Rattle.hub_core.specs.inner.Feeds.{NoneIsLeft};

    /// These rows of each lane.
    pub fn new(alloc: Global, rows: Vec<Vec<Runs>>) -> Result<Feeds, AllocError>
        ensures { IfOk result (λ f. rests_of f ≡ items_of rows.items) }
    {
        let mut rests = Vec::with_capacity(alloc, rows.len())?;
        for feed in rows {
            rests.push(feed.into_iter())?;
        }
        Ok(Feeds { rests, turn: 0 })
    }

    /// Whether no row is left.
    pub fn is_empty(&self) -> bool
        ensures { result ≡ are_given (rests_of self.now) }
    {
        are_empty(self.rests.as_slice())
    }

    /// The lane's next row.
    fn next_of_lane(&mut self, lane: u8) -> Option<(u8, Runs)>
        ensures row { TakesRow (rests_of self.old) result (rests_of self.new) }
        ensures left { result ≡ None → lane < length (rests_of self.old) → slice_index_or (rests_of self.old) lane [] ≡ [] }
    {
        let index = usize::from(lane);
        if index >= self.rests.len() {
            return None;
        }
        let row = self.rests[index].next()?;
        Some((lane, row))
    }

    /// The next row of this lane or one after it.
    fn next_from(&mut self, first: u8) -> Option<(u8, Runs)>
        ensures row { TakesRow (rests_of self.old) result (rests_of self.new) }
        ensures left { result ≡ None → NoneIsLeft first 16 (rests_of self.old) }
    {
        for lane in first..MOST_SEATS {
            if let Some(row) = self.next_of_lane(lane) {
                self.turn = lane + 1;
                return Some(row);
            }
        }
        None
    }

    /// The next row and its lane. If up to `MOST_SEATS` lanes have rows, each gets its turn.
    pub fn take(&mut self) -> Option<(u8, Runs)>
        ensures row { TakesRow (rests_of self.old) result (rests_of self.new) }
        ensures left { result ≡ None → length (rests_of self.old) ≤ 16 → are_given (rests_of self.old) ≡ true }
    {
        match self.next_from(self.turn) {
            Some(row) => Some(row),
            None => self.next_from(0),
        }
    }
}

/// A law about feeds, none of them too long: at first no row was given, and once none is left, all were given.
pub fn feeds_are_given()
    ensures first { GivenAtFirst }
    ensures last { GivenAtLast }
{}
