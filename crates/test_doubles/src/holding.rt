//! A gate that holds a row.

use crate::waiting::{TURN_LIMIT, reaches_within};
use hub_core::Gate;
use lane_core::Ticket;
use std::alloc::{AllocError, Global};
use std::sync::atomic::{AtomicU64, Ordering};

/// Counts how often each row of some lanes comes, and delays one of them until another has come.
#[derive(Drop)]
pub struct Holding {
    held: Ticket,
    until: Ticket,
    /// After how many turns a wait ends.
    turns: u64,
    /// How often each row has come, by lane and number.
    came: Vec<Vec<AtomicU64>>,
    /// How often any other row has come.
    others: AtomicU64,
    /// How often a wait ended at its limit.
    limits_met: AtomicU64,
}

/// A counter for each row of a lane.
fn counters(alloc: Global, rows: usize) -> Result<Vec<AtomicU64>, AllocError> {
    let mut counters = Vec::with_capacity(alloc, rows)?;
    for _ in 0..rows {
        counters.push(AtomicU64::new(0))?;
    }
    Ok(counters)
}

impl Holding {
    /// A gate before any row of these lanes has come; each lane has this many rows. The row `held` passes once the
    /// row `until` has come.
    pub fn new(
        alloc: Global,
        lanes: &[usize],
        held: Ticket,
        until: Ticket,
    ) -> Result<Holding, AllocError> {
        let mut came = Vec::with_capacity(alloc, lanes.len())?;
        for &rows in lanes {
            came.push(counters(alloc, rows)?)?;
        }
        Ok(Holding {
            held,
            until,
            turns: TURN_LIMIT,
            came,
            others: AtomicU64::new(0),
            limits_met: AtomicU64::new(0),
        })
    }

    /// The same gate, whose waits end after this many turns.
    pub fn with_limit(self, turns: u64) -> Holding {
        let mut gate = self;
        gate.turns = turns;
        gate
    }

    /// How often a row has come. None if it is not a row of these lanes.
    fn count(&self, ticket: Ticket) -> Option<&AtomicU64> {
        let lane = self.came.get(usize::from(ticket.lane))?;
        lane.get(ticket.number as usize)
    }

    /// Whether each row of the lanes has come once, and no other row, even if a wait reached its limit.
    pub fn counted_each_once(&self) -> bool {
        self.others.load(Ordering::SeqCst) == 0
            && self.came.iter().all(|lane| lane
                .iter()
                .all(|count| count.load(Ordering::SeqCst) == 1))
    }

    /// The same, if each wait ended before its limit.
    pub fn saw_each_once(&self) -> bool {
        self.counted_each_once() && self.limits_met.load(Ordering::SeqCst) == 0
    }
}

impl Gate for Holding {
    fn pass(&self, ticket: Ticket) {
        let Some(count) = self.count(ticket) else {
            self.others.fetch_add(1, Ordering::SeqCst);
            return;
        };
        count.fetch_add(1, Ordering::SeqCst);
        if ticket != self.held {
            return;
        }
        if !self
            .count(self.until)
            .is_some_and(|count| reaches_within(count, 1, self.turns))
        {
            self.limits_met.fetch_add(1, Ordering::SeqCst);
        }
    }
}
