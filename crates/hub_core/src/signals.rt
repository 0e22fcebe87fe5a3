//! How an idle thread sleeps, how another thread wakes it, and how workers learn that they must stop.
//!
//! No proof depends on it, so none would notice a lost wake. A lost wake costs `REST` of pace.rt: the time limit of
//! tests/commands/lanes_test.py notices it, and `bench/serve` measures wakes.

use std::hint;
use std::sync::Wait;
use std::sync::atomic::{AtomicBool, AtomicU64, Ordering};
use std::time::Duration;

/// How many values 32 bits have: `park_timeout` compares the low 32 bits of a word.
const WORDS: u64 = 4_294_967_296;

/// How often a signal was given, and how many threads sleep until the next time.
///
/// A thread reads the count, looks for work, and sleeps if there is none. If the signal was given meanwhile, it looks
/// again at once.
#[derive(Drop)]
pub(crate) struct Signal {
    given: AtomicU64,
    sleepers: AtomicU64,
}

impl Signal {
    /// A signal that was never given.
    fn new() -> Signal {
        Signal {
            given: AtomicU64::new(0),
            sleepers: AtomicU64::new(0),
        }
    }

    /// How often it was given.
    pub(crate) fn given(&self) -> u64 {
        self.given.load(Ordering::SeqCst)
    }

    /// Whether it was given more than `seen` times. It polls this many times.
    pub(crate) fn is_given(&self, seen: u64, looks: u32) -> bool {
        for _ in 0..looks {
            if self.given() != seen {
                return true;
            }
            hint::spin_loop();
        }
        false
    }

    /// Waits until the signal was given more than `seen` times. It polls this many times, and then sleeps for `nap`
    /// microseconds at most. Returns false if a poll found it given, so that it did not sleep.
    ///
    /// It counts as a sleeper before it compares the word, and `give` changes the word before it reads that count. So
    /// no signal is lost between the two.
    pub(crate) fn wait<R: Wait>(&self, rt: &R, seen: u64, looks: u32, nap: u64) -> bool {
        if self.is_given(seen, looks) {
            return false;
        }
        self.sleepers.fetch_add(1, Ordering::SeqCst);
        self.given
            .park_timeout(rt, (seen % WORDS) as u32, Duration::from_micros(nap));
        self.sleepers.fetch_sub(1, Ordering::SeqCst);
        true
    }

    /// Gives the signal and wakes no thread. Returns how many sleep.
    fn give(&self) -> u64 {
        self.given.fetch_add(1, Ordering::SeqCst);
        self.sleepers.load(Ordering::SeqCst)
    }

    /// Gives the signal and wakes all threads that sleep.
    pub(crate) fn notify_all(&self) {
        if self.give() > 0 {
            self.given.wake_all();
        }
    }
}

/// The signal that there are jobs.
///
/// One worker has a signal of its own and wakes before all others. If rows come one by one, each finds the worker
/// that was awake last, whose thread the processor runs sooner than one that slept long.
#[derive(Drop)]
pub(crate) struct JobsSignal {
    /// The signal of the worker that asked first.
    first: Signal,
    /// The signal that all other workers share.
    others: Signal,
    /// How many workers have asked for their signal.
    workers: AtomicU64,
}

impl JobsSignal {
    /// Not given yet, and no worker has asked for its signal.
    fn new() -> JobsSignal {
        JobsSignal {
            first: Signal::new(),
            others: Signal::new(),
            workers: AtomicU64::new(0),
        }
    }

    /// The signal of the next worker that begins.
    pub(crate) fn of_next_worker(&self) -> &Signal {
        if self.workers.fetch_add(1, Ordering::SeqCst) == 0 {
            &self.first
        } else {
            &self.others
        }
    }

    /// Gives it, and wakes a worker if at least `least` sleep. Returns how many slept.
    pub(crate) fn notify_one(&self, least: u64) -> u64 {
        let first = self.first.give();
        let asleep = first.saturating_add(self.others.give());
        if asleep >= least {
            let signal = if first > 0 { &self.first } else { &self.others };
            signal.given.wake_one();
        }
        asleep
    }

    /// Gives it, and wakes all workers that sleep.
    pub(crate) fn notify_all(&self) {
        self.first.notify_all();
        self.others.notify_all();
    }
}

/// What the workers and the calling thread tell each other: that there is something to do, and that
/// the workers are to stop. It carries no claim.
#[derive(Drop)]
pub struct Signals {
    /// To the workers: there are jobs.
    pub(crate) jobs: JobsSignal,
    /// To the workers with a delivery in hand: there are places for deliveries.
    pub(crate) places: Signal,
    /// To the calling thread: there are deliveries.
    pub(crate) deliveries: Signal,
    /// To the workers: they are to stop.
    pub(crate) stop: AtomicBool,
}

impl Signals {
    /// Nothing is told.
    pub fn new() -> Signals {
        Signals {
            jobs: JobsSignal::new(),
            places: Signal::new(),
            deliveries: Signal::new(),
            stop: AtomicBool::new(false),
        }
    }

    /// Tells the workers that rows were submitted and that there is room for deliveries: one that found no
    /// job is woken, and all that found no place. A worker that was not told looks again within a second (`REST` in
    /// pace.rt).
    pub fn notify_workers(&self) {
        self.jobs.notify_one(1);
        self.places.notify_all();
    }

    /// Asks all workers to stop, those too that sleep.
    pub(crate) fn request_stop(&self) {
        self.stop.store(true, Ordering::SeqCst);
        self.jobs.notify_all();
        self.places.notify_all();
    }
}
