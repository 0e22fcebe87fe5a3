//! Takes everything that no lane has polled out of a hub: out of its rings, the deliverer, the hands and the queues.
ghost use Rattle.std.specs.Prelude.{◌≡◌, ◌++◌, All, option_to_list};
ghost use Rattle.std.specs.List.{flat_map};
ghost use Rattle.crossbeam_queue.specs.Passes.{IsPassOf};
ghost use Rattle.rtrb.specs.Ring.{sent, received, IsPair, SameProducer};
ghost use Rattle.lane_core.specs.Weights.{OneForOne};
ghost use Rattle.hub_core.specs.inner.DrainedLists.{AreTheSame, Drains, DrainsInto};
ghost use Rattle.hub_core.specs.inner.Fresh.{IsPairedIn};
ghost use Rattle.hub_core.specs.Hubs.{AreAllSeats, IsWorkerOf};
ghost use Rattle.hub_core.specs.Lanes.{submitted};
ghost use Rattle.hub_core.specs.Passes.{shares_of, popped_by, pushed_by};
ghost use Rattle.hub_core.specs.inner.Draining.{AreFromFirst, AreLeftInRings, DrainsAll};
ghost use Rattle.hub_core.specs.inner.Rule.{HasShares, TakesPops, TakesPushes};
ghost use Rattle.hub_core.specs.inner.Workers.{deliveries_in_hand};
ghost use Rattle.hub_core.specs.Workers.{posted, taken};

use crate::closed_lane::ClosedLane;
use crate::deliverer_seat::DelivererSeat;
use crate::hub::Hub;
use crate::lane_seat::LaneSeat;
use crate::lists::place;
use crate::rule::{Pops, Queue, Queued, Share, Trace};
use crate::worker_seat::WorkerSeat;
use crossbeam_queue::Pass;
use lane_core::{Deliverer, Delivery, Job};
use rtrb::{Consumer, Producer};
use std::sync::Wait;

/// Places a delivery, if there is one.
fn place_any(lists: &mut Vec<Vec<Delivery>>, held: Option<Delivery>)
    ensures { DrainsInto lists.old.items lists.new.items (option_to_list held) }
{
    if let Some(delivery) = held {
        place(lists, delivery);
    }
}

/// Joins the workers' passes, and places what is in their hands.
fn place_hands(
    hub: &Hub,
    all_jobs: &mut Pass<Job, Trace>,
    all_results: &mut Pass<Delivery, Trace>,
    lists: &mut Vec<Vec<Delivery>>,
    workers: Vec<WorkerSeat>,
)
    requires passes { HasShares hub.now.jobs 0 all_jobs.old × HasShares hub.now.results 0 all_results.old }
    requires workers { All (IsWorkerOf hub.now) workers.items }
    ensures jobs { TakesPops hub.now.jobs taken workers.items all_jobs.old all_jobs.new }
    ensures results { TakesPushes hub.now.results posted workers.items all_results.old all_results.new }
    ensures drains { DrainsInto lists.old.items lists.new.items (flat_map deliveries_in_hand workers.items) }
{
    for seat in workers {
        let WorkerSeat { takes, posts, held } = seat;
        hub.jobs.absorb::<Share>(all_jobs, takes);
        hub.results.absorb::<Share>(all_results, posts);
        place_any(lists, held);
    }
}

/// Drains a queue with the pass that has all its shares (1,024: `IsOneForOne` in specs/). Only that pass knows at the
/// end that nothing is left.
fn place_queue<T: Queued, R: Wait>(
    rt: &R,
    queue: &Queue<T>,
    all: &mut Pass<T, Trace>,
    lists: &mut Vec<Vec<Delivery>>,
)
    requires { IsPassOf queue.now all.old × (shares_of all.old ≡ 1024) }
    ensures drains { Drains lists.old.items lists.new.items (OneForOne (pushed_by all.old) (popped_by all.old)) }
{
    for _ in rt.forever() {
        let Some(item) = queue.pop_as::<Pops, R>(rt, all) else {
            break;
        };
        place(lists, item.into_delivery());
    }
}

/// Takes out the deliveries that wait.
fn place_waiting(deliverer: &mut Deliverer, lists: &mut Vec<Vec<Delivery>>)
    ensures drains { Drains lists.old.items lists.new.items (AreTheSame deliverer.old.waiting) }
{
    while let Some(delivery) = deliverer.take_any() {
        place(lists, delivery);
    }
}

/// Takes what is left out of a ring, with both its ends at hand.
fn place_rest(
    producer: &mut Producer<Delivery>,
    consumer: &mut Consumer<Delivery>,
    lists: &mut Vec<Vec<Delivery>>,
)
    requires { IsPair producer.old consumer.old }
    ensures same { SameProducer producer.old producer.new × (sent producer.new ≡ sent producer.old) }
    ensures drains { Drains lists.old.items lists.new.items (λ xs. received consumer.old ++ xs ≡ sent producer.old) }
{
    let left = consumer.slots_beside(producer);
    for _i in 0..left {
        place(lists, consumer.pop_known());
    }
}

/// Joins the lanes' passes, and places what is left in their rings.
fn place_rings(
    hub: &Hub,
    all_jobs: &mut Pass<Job, Trace>,
    rings: &mut Vec<Producer<Delivery>>,
    lists: &mut Vec<Vec<Delivery>>,
    lanes: Vec<ClosedLane>,
)
    requires passes { HasShares hub.now.jobs 0 all_jobs.old × All (λ s. IsPassOf hub.now.jobs s.pass) lanes.items }
    requires rings { All (IsPairedIn rings.old.items) lanes.items }
    ensures jobs { TakesPushes hub.now.jobs submitted lanes.items all_jobs.old all_jobs.new }
    ensures drains { Drains lists.old.items lists.new.items (AreLeftInRings rings.old.items lanes.items) }
    ensures received { AreFromFirst rings.old.items lanes.items }
{
    for closed in lanes {
        let LaneSeat {
            lane,
            pass,
            ring,
            ..
        } = closed.seat;
        let mut ring = ring;
        let count = rings.len();
        // For the index below.
        prove!((lane as usize) < count);
        hub.jobs.absorb::<Share>(all_jobs, pass);
        place_rest(&mut rings[lane as usize], &mut ring, lists);
    }
}

/// Takes everything that no lane has polled out of the hub's parts, into the lists.
///
/// Of a lane's numbers that are left, the lowest are in its ring and the highest in the queue of jobs. So in this
/// order of calls the lists come as nearly in order as `Hub::settle` says.
pub(crate) fn drain_all<R: Wait>(
    rt: &R,
    hub: &Hub,
    lists: &mut Vec<Vec<Delivery>>,
    lanes: Vec<ClosedLane>,
    workers: Vec<WorkerSeat>,
    deliverer: DelivererSeat,
)
    requires { AreAllSeats hub.now lanes.items workers.items deliverer }
    ensures { DrainsAll lanes.items workers.items deliverer lists.old.items lists.new.items }
{
    let DelivererSeat {
        jobs,
        collects,
        deliverer,
        held,
        rings,
    } = deliverer;
    let mut jobs = jobs;
    let mut collects = collects;
    let mut deliverer = deliverer;
    let mut rings = rings;
    place_rings(hub, &mut jobs, &mut rings, lists, lanes);
    place_waiting(&mut deliverer, lists);
    place_any(lists, held);
    place_hands(hub, &mut jobs, &mut collects, lists, workers);
    place_queue(rt, &hub.results, &mut collects, lists);
    place_queue(rt, &hub.jobs, &mut jobs, lists);
}
