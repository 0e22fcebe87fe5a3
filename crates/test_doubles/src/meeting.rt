//! A gate at which rows meet.

use crate::waiting::reaches;
use hub_core::Gate;
use lane_core::Ticket;
use std::alloc::{AllocError, Global};
use std::sync::atomic::{AtomicU64, Ordering};

/// Delays the first row of each lane until those of all lanes have come: so that many workers are there at once.
#[derive(Drop)]
pub struct Meeting {
    /// How many rows of the lanes have come.
    came: AtomicU64,
    /// How many of each lane have come.
    lanes: Vec<AtomicU64>,
    /// How often another row came, or a wait ended at its limit.
    faults: AtomicU64,
}

impl Meeting {
    /// A gate for the first rows of this many lanes.
    pub fn of(alloc: Global, count: usize) -> Result<Meeting, AllocError> {
        let mut lanes = Vec::with_capacity(alloc, count)?;
        for _ in 0..count {
            lanes.push(AtomicU64::new(0))?;
        }
        Ok(Meeting {
            came: AtomicU64::new(0),
            lanes,
            faults: AtomicU64::new(0),
        })
    }

    /// Whether the first row of each lane has come once, no other has, and all have met.
    pub fn has_met(&self) -> bool {
        self.faults.load(Ordering::SeqCst) == 0
            && self
                .lanes
                .iter()
                .all(|count| count.load(Ordering::SeqCst) == 1)
    }
}

impl Gate for Meeting {
    fn pass(&self, ticket: Ticket) {
        match self.lanes.get(usize::from(ticket.lane)) {
            Some(count) if ticket.number == 0 => {
                count.fetch_add(1, Ordering::SeqCst);
                self.came.fetch_add(1, Ordering::SeqCst);
                if reaches(&self.came, self.lanes.len() as u64) {
                    return;
                }
            }
            _ => {}
        }
        self.faults.fetch_add(1, Ordering::SeqCst);
    }
}
