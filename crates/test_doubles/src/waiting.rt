//! Waits that end.

use std::sync::atomic::{AtomicU64, Ordering};
use std::thread;

/// How often a thread checks whether it may go on.
pub(crate) const TURN_LIMIT: u64 = 50_000_000;

/// Waits until a counter is at least this high. Returns whether it was, before the limit of turns.
pub(crate) fn reaches(counter: &AtomicU64, wanted: u64) -> bool {
    reaches_within(counter, wanted, TURN_LIMIT)
}

/// The same, with a limit of this many turns.
pub(crate) fn reaches_within(counter: &AtomicU64, wanted: u64, turns: u64) -> bool {
    for _ in 0..turns {
        if counter.load(Ordering::SeqCst) >= wanted {
            return true;
        }
        thread::yield_now();
    }
    false
}
