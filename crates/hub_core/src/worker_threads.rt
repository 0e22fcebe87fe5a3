//! A thread for each worker's seat.
ghost use Rattle.std.specs.Prelude.{◌≡◌, ◌≤◌, All, MatchResult, true, vec_len, vec_capacity};
ghost use Rattle.hub_core.specs.Faults.{GivesBack};
ghost use Rattle.hub_core.specs.Hubs.{IsWorkerOf};
ghost use Rattle.hub_core.specs.Workers.{AreBack};
ghost use Rattle.hub_core.specs.inner.Room.{IsRoomFor};

use crate::fault::{NotBegun, ServeFault};
use crate::gate::Gate;
use crate::hub::Hub;
use crate::pace::{NOTIFIED_TOGETHER, REST, WORKER_LOOKS};
use crate::signals::Signals;
use crate::worker_seat::{Worked, WorkerSeat};
use std::alloc::Global;
use std::sync::Wait;
use std::sync::atomic::Ordering;
use std::thread;
use std::thread::{Promise, PromisedHandle, Scope, Threads};

/// The promise that a worker's seat comes back as one of this hub.
#[derive(Clone, Copy)]
struct OfHub<'a>(&'a Hub);

impl<'a> Promise<WorkerSeat> for OfHub<'a> {
    ghost use Rattle.hub_core.specs.Hubs.{IsWorkerOf};

    ghost kept_by = { λ p r. IsWorkerOf p.0.now r };
}

/// Works until it is asked to stop and then finds no job, or no place for its delivery. It tells the calling thread
/// of `NOTIFIED_TOGETHER` deliveries at once, and of fewer before it rests.
fn run_worker<R: Wait, G: Gate>(
    rt: &R,
    hub: &Hub,
    seat: WorkerSeat,
    gate: &G,
    signals: &Signals,
) -> WorkerSeat
    requires { IsWorkerOf hub.now seat }
    ensures { IsWorkerOf hub.now result }
{
    let mut seat = seat;
    let mut unannounced: u32 = 0;
    let jobs_signal = signals.jobs.of_next_worker();
    for _ in rt.forever() {
        // Read before it looks for work, so that it does not sleep through what is given meanwhile.
        let jobs = jobs_signal.given();
        let places = signals.places.given();
        let is_last = signals.stop.load(Ordering::SeqCst);
        let idle = match hub.work(rt, &mut seat, gate) {
            Worked::Posted => None,
            _ if is_last => break,
            Worked::Nothing => Some((jobs_signal, jobs)),
            Worked::Held => Some((&signals.places, places)),
        };
        unannounced = unannounced.saturating_add(u32::from(idle.is_none()));
        let least = if idle.is_none() { NOTIFIED_TOGETHER } else { 1 };
        if unannounced >= least {
            unannounced = 0;
            signals.deliveries.notify_all();
        }
        if let Some((signal, seen)) = idle {
            signal.wait(rt, seen, WORKER_LOOKS, REST);
        }
    }
    seat
}

/// Joins all threads, into room that was taken before.
fn join_all<'a>(
    rt: &impl Threads,
    hub: &'a Hub,
    room: Vec<WorkerSeat>,
    handles: Vec<PromisedHandle<WorkerSeat, OfHub<'a>>>,
) -> Vec<WorkerSeat>
    requires of_hub { All (λ h. h.promise.0.now ≡ hub.now) handles.items }
    requires room { IsRoomFor (vec_len handles) room }
    ensures { AreBack hub.now (vec_len handles.entry) (vec_capacity room) result }
{
    let mut back = room;
    for handle in handles {
        back.push_reserved(handle.join(rt));
    }
    back
}

/// Starts a thread for each worker, whose handles come into room that was taken before. False if one could not
/// be started.
fn start_all<'s, 'e: 's, R: Threads + Wait + Sync, G: Gate + Sync>(
    rt: &'e R,
    hub: &'e Hub,
    scope: &'s Scope<'s, &'e ()>,
    seats: Vec<WorkerSeat>,
    gate: &'e G,
    signals: &'e Signals,
    room: Vec<PromisedHandle<WorkerSeat, OfHub<'e>>>,
) -> (Vec<PromisedHandle<WorkerSeat, OfHub<'e>>>, bool)
    requires of_hub { All (IsWorkerOf hub.now) seats.items }
    requires room { IsRoomFor (vec_len seats) room }
    ensures of_hub { All (λ h. h.promise.0.now ≡ hub.entry.now) result.0.items }
    ensures count { (vec_len result.0 ≤ vec_len seats) × (result.1 ≡ true → vec_len result.0 ≡ vec_len seats) }
{
    let mut handles = room;
    for seat in seats {
        let started = scope.spawn_with(
            OfHub(hub),
            move || -> WorkerSeat
                requires { IsWorkerOf hub.now seat }
                ensures { IsWorkerOf hub.entry.now result }
            { run_worker(rt, hub, seat, gate, signals) },
        );
        match started {
            Ok(handle) => handles.push_reserved(handle),
            Err(_) => return (handles, false),
        }
    }
    (handles, true)
}

/// Runs the workers, each on a thread of its own, beside a task of the calling thread, which is handed its
/// input. Once the task has ended they are asked to stop, and each stops when it then finds no job or no
/// place for its delivery.
///
/// All threads have ended when it returns, and the seats come back in a list of the same capacity. If it is refused
/// (`NotBegun` says why), the task has not begun, and its input is given back as it was; the task and the seats are
/// dropped.
pub fn run_workers<
    'e,
    R: Threads + Wait + Sync,
    G: Gate + Sync,
    I: Drop,
    F: FnOnce(I) -> T + Drop,
    T: Drop,
>(
    rt: &'e R,
    alloc: Global,
    hub: &'e Hub,
    seats: Vec<WorkerSeat>,
    gate: &'e G,
    signals: &'e Signals,
    input: I,
    task: F,
) -> Result<(Vec<WorkerSeat>, T), NotBegun<I>>
    requires { All (IsWorkerOf hub.now) seats.items × F.pre task input }
    ensures { MatchResult result (λ v. AreBack hub.now (vec_len seats) (vec_capacity seats) v.0 × F.post task input v.1) (GivesBack input) }
{
    thread::scope(
        thread::scope_env(),
        rt,
        |scope| -> Result<(Vec<WorkerSeat>, T), NotBegun<I>>
            requires { All (IsWorkerOf hub.now) seats.items × F.pre task input }
            ensures { MatchResult result (λ v. AreBack hub.entry.now (vec_len seats) (vec_capacity seats) v.0 × F.post task input v.1) (GivesBack input) }
        {
            let Ok(back) = Vec::with_capacity(alloc, seats.capacity()) else {
                return Err(NotBegun::new(ServeFault::NoMemory, input));
            };
            let Ok(room) = Vec::with_capacity(alloc, seats.len()) else {
                return Err(NotBegun::new(ServeFault::NoMemory, input));
            };
            let (handles, started) = start_all(rt, hub, scope, seats, gate, signals, room);
            if !started {
                signals.request_stop();
                join_all(rt, hub, back, handles);
                return Err(NotBegun::new(ServeFault::NoThread, input));
            }
            let done = task(input);
            signals.request_stop();
            Ok((join_all(rt, hub, back, handles), done))
        },
    )
}
