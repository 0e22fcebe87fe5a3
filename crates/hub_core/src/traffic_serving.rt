//! The serving of a traffic, from the making of its hub to the end of its threads.
ghost use Rattle.std.specs.Prelude.{◌≡◌, ◌≢◌, [], IfErr, IfOk, List, None, Option, map, replicate, vec_len, ℕ};
ghost use Rattle.hub_core.specs.Faults.{GivesBack};
ghost use Rattle.hub_core.specs.Fresh.{IsNew};
ghost use Rattle.hub_core.specs.Hubs.{shape_of, year_of};
ghost use Rattle.hub_core.specs.Lane.{ArePolledFirst};
ghost use Rattle.hub_core.specs.Lanes.{as_lane};
ghost use Rattle.hub_core.specs.Serving.{AreSeatCounts};
ghost use Rattle.hub_core.specs.Traffics.{IfLost, IsKept, IsServed, IsServedUpTo};
ghost use Rattle.hub_core.specs.inner.CallingThread.{AreSeats, AreWorkers, CameBySeats, HasLeft, HaveServed};
ghost use Rattle.hub_core.specs.inner.Fresh.{shape_for};
ghost use Rattle.hub_core.specs.inner.Traffics.{given_to, polled_by_each};
ghost use Rattle.hub_core.specs.inner.Room.{IsRoomFor};

use crate::calling_thread::CallingThread;
use crate::closed_lane::ClosedLane;
use crate::deliverer_seat::DelivererSeat;
use crate::ended::Ended;
use crate::fault::{HubFault, NotBegun, ServeFault};
use crate::gate::Gate;
use crate::hub::Hub;
use crate::lane_seat::LaneSeat;
use crate::pace::Pace;
use crate::parts::Parts;
use crate::shape::{MOST_SEATS, Shape};
use crate::signals::Signals;
use crate::traffic::Traffic;
use crate::worker_seat::WorkerSeat;
use crate::worker_threads::run_workers;
use element_core::Year;
use std::alloc::Global;
use std::snapshot::Snapshot;
use std::sync::Wait;
use std::thread::Threads;

/// What each queue and each ring holds. `shape_for` in specs/ has the same number, and so has `PLACES` in
/// bench/c/hub.c, the hub in C to compare it with. `AFTER_A_SLEEP` and `WAKE_FOR` are chosen for it.
/// `bench/serve` shows what another number costs.
const CAPACITY: u16 = 64;

/// A hub whose queues and rings hold `CAPACITY`, and whose lanes have all tickets that there are.
fn new_hub<R: Wait>(
    rt: &R,
    alloc: Global,
    lanes: u8,
    workers: u8,
    year: Year,
) -> Result<Parts, ServeFault>
    requires counts { AreSeatCounts lanes workers }
    ensures new { IfOk result (IsNew (shape_for lanes workers) year) }
    ensures refused { IfErr result (λ e. e ≡ ServeFault.NoMemory) }
{
    let shape = Shape {
        lanes,
        workers,
        capacity: CAPACITY,
        limit: u32::MAX,
    };
    match Hub::new(rt, alloc, shape, year) {
        Ok(parts) => Ok(parts),
        Err(HubFault::NoMemory) => Err(ServeFault::NoMemory),
        Err(HubFault::BadCount) => unreachable!(),
    }
}

/// Closes each lane, in room that was taken before.
fn close_all(seats: Vec<LaneSeat>, room: Vec<ClosedLane>) -> Vec<ClosedLane>
    requires { IsRoomFor (vec_len seats) room }
    ensures { result.items ≡ seats.items }
{
    let mut closed = room;
    for seat in seats {
        closed.push_reserved(seat.close());
    }
    closed
}

/// Takes a seat from the workers', if one is asked for. Only the contract reads the hub, here and in `put_back`.
fn take_own(hub: &Hub, workers: &mut Vec<WorkerSeat>, has_own: bool) -> Option<WorkerSeat>
    requires { AreWorkers hub.now workers.old None }
    ensures { AreWorkers hub.now workers.new result }
{
    let _ = hub;
    if has_own { workers.pop() } else { None }
}

/// Puts the seat that `take_own` has taken back, if it has taken one.
fn put_back(hub: &Hub, workers: &mut Vec<WorkerSeat>, own: Option<WorkerSeat>)
    requires { AreWorkers hub.now workers.old own }
    ensures { AreWorkers hub.now workers.new None }
{
    let _ = hub;
    if let Some(seat) = own {
        workers.push_reserved(seat);
    }
}

/// The seats of a hub, of which the calling thread may have a worker's: `Parts` without the hub.
#[derive(Drop)]
struct Seats {
    lanes: Vec<LaneSeat>,
    workers: Vec<WorkerSeat>,
    deliverer: DelivererSeat,
    own: Option<WorkerSeat>,
}

/// What the calling thread leaves: the traffic, and the `Seats` without those that have threads, which `run_workers`
/// gives back.
#[derive(Drop)]
struct Left<T> {
    lanes: Vec<LaneSeat>,
    deliverer: DelivererSeat,
    own: Option<WorkerSeat>,
    traffic: Box<T>,
}

/// Runs the workers, and the calling thread's loop beside them, which serves the traffic.
fn serve_seats<'e, R: Threads + Wait + Sync, G: Gate + Sync, T: Traffic + Drop>(
    rt: &'e R,
    alloc: Global,
    hub: &'e Hub,
    seats: Seats,
    traffic: Box<T>,
    gate: &'e G,
    signals: &'e Signals,
) -> Result<(Box<T>, Seats, Ended<T::WaitFault, T::BringFault>), NotBegun<Box<T>>>
    requires seats { AreSeats hub.now seats None }
    requires fresh { T.Came traffic.value traffic.value (given_to seats.lanes.items None) (polled_by_each seats.lanes.items) }
    ensures served { IfOk result (λ v. HaveServed T.Came T.Leaves T.has_ended hub.now traffic.value v.0.value v.1 v.2) }
    ensures refused { IfErr result (GivesBack traffic) }
{
    let Seats {
        lanes,
        workers,
        deliverer,
        own,
    } = seats;
    let threads = workers.len() as u8;
    let task = move |traffic: Box<T>| -> (Left<T>, Ended<T::WaitFault, T::BringFault>)
        requires { CameBySeats T.Came hub.now lanes.items deliverer own None traffic.value traffic.value }
        ensures { HasLeft T.Came T.Leaves T.has_ended hub.entry.now own traffic.value result.0 result.1 }
    {
        let thread = CallingThread {
            hub,
            lanes,
            deliverer,
            own,
            start: Snapshot::of(traffic.as_ref()),
            traffic,
            held: None,
            pace: Pace::new(signals, threads),
        };
        let (thread, ended) = thread.run(rt);
        let CallingThread {
            lanes,
            deliverer,
            own,
            traffic,
            ..
        } = thread;
        let left = Left {
            lanes,
            deliverer,
            own,
            traffic,
        };
        (left, ended)
    };
    let (workers, done) = run_workers(rt, alloc, hub, workers, gate, signals, traffic, task)?;
    let (left, ended) = done;
    let Left {
        lanes,
        deliverer,
        own,
        traffic,
    } = left;
    let seats = Seats {
        lanes,
        workers,
        deliverer,
        own,
    };
    Ok((traffic, seats, ended))
}

/// Takes all seats back, in room that was taken before.
fn finish_all<R: Wait>(rt: &R, alloc: Global, hub: Hub, seats: Seats, room: Vec<ClosedLane>)
    requires seats { (held : Option (ℕ × List ℕ)) × AreSeats hub seats held }
    requires room { IsRoomFor (shape_of hub).lanes room }
    ensures { ArePolledFirst (year_of hub) (map as_lane seats.lanes.items) }
{
    let Seats {
        lanes,
        mut workers,
        deliverer,
        own,
    } = seats;
    put_back(&hub, &mut workers, own);
    let closed = close_all(lanes, room);
    hub.finish(rt, alloc, closed, workers, deliverer);
}

/// Serves a traffic that has given nothing: the calling thread submits its rows, collects, hands and
/// brings their deliveries, and this many workers read them beside each other, each row once the gate has
/// let its ticket pass. A row that the calling thread reads, if the traffic lets it, passes no gate.
///
/// If it is refused (`NotBegun` says why), the traffic has given nothing, and is given back as it was.
pub fn serve_traffic<R: Threads + Wait + Sync, G: Gate + Sync, T: Traffic + Drop>(
    rt: &R,
    alloc: Global,
    traffic: T,
    lanes: u8,
    workers: u8,
    year: Year,
    gate: &G,
) -> Result<(T, Ended<T::WaitFault, T::BringFault>), NotBegun<T>>
    requires counts { AreSeatCounts lanes workers }
    requires fresh { T.Came traffic traffic (replicate lanes []) (replicate lanes []) }
    ensures served { IfOk result (λ v. IsKept v.1 → IsServed T.Came T.has_ended year traffic v.0 v.1) }
    ensures lost { IfOk result (λ v. IfLost v.1 (IsServedUpTo T.Came T.Leaves year traffic v.0)) }
    // These two clauses are the two fields of `GivesBack`, which `run_workers` names.
    ensures refused { IfErr result (λ e. e.fault ≢ ServeFault.BadCount) }
    ensures untouched { IfErr result (λ e. e.input ≡ traffic) }
{
    // The seat with which the calling thread reads counts as a worker's, so beside the most workers it has none.
    let has_own = traffic.lets_caller_read() && workers < MOST_SEATS;
    let Ok(room) = Vec::with_capacity(alloc, usize::from(lanes)) else {
        return Err(NotBegun::new(ServeFault::NoMemory, traffic));
    };
    let Parts {
        hub,
        lanes,
        mut workers,
        deliverer,
    } = match new_hub(rt, alloc, lanes, workers + u8::from(has_own), year) {
        Ok(parts) => parts,
        Err(fault) => return Err(NotBegun::new(fault, traffic)),
    };
    // In a box, as `CallingThread` has it.
    let traffic = match Box::new(alloc, traffic) {
        Ok(traffic) => traffic,
        Err(refused) => return Err(NotBegun::new(ServeFault::NoMemory, refused.value)),
    };
    let own = take_own(&hub, &mut workers, has_own);
    let seats = Seats {
        lanes,
        workers,
        deliverer,
        own,
    };
    match serve_seats(rt, alloc, &hub, seats, traffic, gate, &Signals::new()) {
        Ok((traffic, seats, ended)) => {
            finish_all(rt, alloc, hub, seats, room);
            Ok((Box::into_inner(traffic), ended))
        }
        Err(refused) => Err(NotBegun::new(refused.fault, Box::into_inner(refused.input))),
    }
}
