//! When the calling thread wakes workers, how it waits for deliveries, and how often workers poll before they sleep.
//! No proof depends on this file: `bench/serve` measures the effect of its numbers. bench/c/hub.c, the hub in C for
//! comparison, polls as often before it sleeps.

use crate::signals::Signals;
use std::sync::Wait;

/// How many rows it queues before it wakes a worker, as long as more come and there is room: three quarters of what
/// the queue holds. With 32, as in hub.c, the threads call `futex` 1.5 times as often.
const WAKE_FOR: u32 = 48;

/// How often the calling thread polls for a delivery before it wakes one more worker, if many rows are under way.
const FIRST_LOOKS: u32 = 1_000;

/// How often the calling thread polls for a delivery before it sleeps. It polls longer than a worker: while it
/// sleeps, nobody submits rows.
const LOOKS: u32 = 5_000;

/// How often a worker polls a signal before it sleeps: a sleep and a wake take longer.
pub(crate) const WORKER_LOOKS: u32 = 100;

/// How many microseconds a thread sleeps at most before it looks again: the cost of a lost wake.
pub(crate) const REST: u64 = 1_000_000;

/// How many deliveries a worker posts before it signals the calling thread: each signal may be a wake.
pub(crate) const NOTIFIED_TOGETHER: u32 = 16;

/// If more rows than these are under way while the calling thread waits, there is work for one more worker.
pub(crate) const ROWS_A_WORKER: u32 = 16;

/// How many microseconds the calling thread waits for a delivery before it wakes one more worker. If none is left to
/// wake, it waits twice as long the next time.
const PATIENCE: u64 = 1_000;

/// What the calling thread remembers of its signals and waits.
///
/// It wakes one worker if all sleep, and one more if it has to wait while many rows are under way. If no delivery
/// comes for a while, gates may hold all workers that are awake: it wakes one more and counts one more as `held`.
/// From then on it wakes one whenever all but `held` sleep. Once it sees all asleep, none counts as held.
#[derive(Clone, Copy)]
pub(crate) struct Pace<'a> {
    pub(crate) signals: &'a Signals,
    /// How many workers there are.
    workers: u8,
    /// How many of them a gate may hold, fewer than all.
    held: u8,
    /// How many rows it has queued since it last signalled the workers, less those that it has read itself.
    pub(crate) unannounced: u32,
    /// How many microseconds it waits at most.
    nap: u64,
    /// Whether it has slept. The next turn resets this.
    pub(crate) has_slept: bool,
}

impl<'a> Pace<'a> {
    /// Nothing was queued, and it has not waited.
    pub(crate) fn new(signals: &'a Signals, workers: u8) -> Pace<'a> {
        Pace {
            signals,
            workers,
            held: 0,
            unannounced: 0,
            nap: PATIENCE,
            has_slept: false,
        }
    }

    /// Signals the workers that rows are queued; if they are few, only when no more come for now. It wakes one if all
    /// sleep that are not held: a worker that is awake looks for rows until it finds none.
    pub(crate) fn wake_for_rows(&mut self, are_more: bool) {
        if self.unannounced >= WAKE_FOR || (self.unannounced > 0 && !are_more) {
            self.unannounced = 0;
            let free = self.workers.saturating_sub(self.held);
            let asleep = self.signals.jobs.notify_one(u64::from(free));
            if asleep >= u64::from(self.workers) {
                self.held = 0;
            }
        }
    }

    /// Waits for a delivery, unless a worker has signalled one since `seen` was read. If many rows are under way, it
    /// first wakes one more worker.
    pub(crate) fn wait<R: Wait>(&mut self, rt: &R, seen: u64, are_many: bool) {
        if are_many && !self.signals.deliveries.is_given(seen, FIRST_LOOKS) {
            self.signals.jobs.notify_one(1);
        }
        self.has_slept = self.signals.deliveries.wait(rt, seen, LOOKS, self.nap);
        if self.signals.deliveries.given() != seen {
            self.nap = PATIENCE;
            return;
        }
        if self.held < self.workers.saturating_sub(1) {
            self.held = self.held.saturating_add(1);
        } else {
            self.nap = self.nap.saturating_mul(2).min(REST);
        }
        self.signals.jobs.notify_one(1);
    }
}
