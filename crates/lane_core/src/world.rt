//! Lanes, workers and a deliverer in one thread, one step at a time.
ghost use Rattle.std.specs.Prelude.{None, ◌≡◌, ◌<◌, ◌≤◌, IfOk, false, length, map, replicate, []};
ghost use Rattle.lane_core.specs.Contents.{HoldsOfShown, IsShown, ShowsState, lane_contents};
ghost use Rattle.lane_core.specs.Holding.{lane_held};
ghost use Rattle.lane_core.specs.Machine.{is_closed, issued_of, polled_by, start};

use crate::deliverer::Deliverer;
use crate::delivery::Delivery;
use crate::job::Job;
use crate::lane::Lane;
use digits_core::NoMemory;
use element_core::Year;
use std::alloc::{AllocError, Global};
use std::collections::VecDeque;
use std::marker::Model;

mod events;
mod places;

/// Lanes that submit rows and poll deliveries, workers, one deliverer, and unbounded queues.
///
/// Nothing happens by itself: each `step` is one event of the state machine (specs/Machine.antt). In a `Hub` of
/// hub_core, lanes, workers and the deliverer may run in threads of their own, and the queues have a limit.
#[derive(Debug, Drop)]
pub struct World {
    year: Year,
    lanes: Vec<Lane>,
    jobs: VecDeque<Job>,
    workers: Vec<Option<Job>>,
    results: VecDeque<Delivery>,
    deliverer: Deliverer,
}

impl Model for World {
    ghost use Rattle.lane_core.specs.Contents.{Contents};

    ghost Value = { Contents };

    ghost use Rattle.lane_core.specs.inner.Holding.{HoldsShown};
    ghost use Rattle.lane_core.specs.Holding.{held};

    ghost view = { held };

    ghost invariant = { HoldsShown };
}

/// Lanes that have done nothing yet. The loop is like that of `missing_slots` in deliverer.rt.
fn open_lanes(alloc: Global, count: u16) -> Result<Vec<Lane>, AllocError>
    ensures { IfOk result (λ lanes. map lane_held lanes.items ≡ replicate count (lane_contents false 0 [] 0)) }
{
    let mut lanes = Vec::with_capacity(alloc, usize::from(count))?;
    for _i in 0..count {
        lanes.push_reserved(Lane {
            closed: false,
            issued: 0,
            handed: Vec::new(alloc),
            polled: 0,
        });
    }
    Ok(lanes)
}

/// Workers without a job. The loop is like that of `missing_slots` in deliverer.rt.
fn idle_workers(alloc: Global, count: u32) -> Result<Vec<Option<Job>>, AllocError>
    ensures { IfOk result (λ workers. workers.items ≡ replicate count None) }
{
    let mut workers = Vec::with_capacity(alloc, count as usize)?;
    for _i in 0..count {
        workers.push_reserved(None);
    }
    Ok(workers)
}

impl World {
    /// A world of this many lanes and workers before anything has happened. Dates follow the reference year.
    /// `Deliverer::new` says why there are at most 256 lanes.
    pub fn new(alloc: Global, lanes: u16, workers: u32, year: Year) -> Result<World, NoMemory>
        requires { lanes ≤ 256 }
        ensures shows { IfOk result (λ world. ShowsState world (start lanes workers year)) }
        ensures lanes { IfOk result (λ world. length world.lanes ≡ lanes) }
    {
        let deliverer = Deliverer::new(alloc, lanes)?;
        Ok(World {
            year,
            lanes: open_lanes(alloc, lanes)?,
            jobs: VecDeque::new(alloc),
            workers: idle_workers(alloc, workers)?,
            results: VecDeque::new(alloc),
            deliverer,
        })
    }

    /// The deliveries that the lane has polled, by number, from 0 on.
    pub fn polled(&self, lane: u8) -> &[Delivery]
        requires { lane < length self.now.lanes }
        ensures shown { IsShown self.now }
        ensures polled { HoldsOfShown self.now (λ s. result.now ≡ polled_by s lane) }
    {
        let lane = &self.lanes[lane as usize];
        &lane.handed[..lane.polled]
    }

    /// How many tickets the lane has issued. This is the number of its next one.
    pub fn issued(&self, lane: u8) -> u64
        requires { lane < length self.now.lanes }
        ensures { HoldsOfShown self.now (λ s. result ≡ issued_of s lane) }
    {
        self.lanes[lane as usize].issued
    }

    /// Whether the lane is closed.
    pub fn is_closed(&self, lane: u8) -> bool
        requires { lane < length self.now.lanes }
        ensures { HoldsOfShown self.now (λ s. result ≡ is_closed s lane) }
    {
        self.lanes[lane as usize].closed
    }
}
