//! Sends rows through a hub of 16 lanes and 16 workers whose queues and rings hold one item each. Standard input has
//! the number of rows per lane. It checks each delivery: its lane, number, row, carrier and element strings.
#![tactic(auto)]

ghost use Rattle.std.specs.Prelude.{◌≡◌, All, IfOk, map, vec_len};
ghost use Rattle.hub_core.specs.Hubs.{AreAllSeats, IsDelivererOf, IsLaneOf, IsWorkerOf};
ghost use Rattle.hub_core.specs.Lanes.{lane_of};

use element_core::Year;
use hub_core::{
    ClosedLane, DelivererSeat, Hub, LaneSeat, OpenGate, Parts, ServeFault, Shape, Signals,
    SubmitFault, WorkerSeat, run_workers,
};
use lane_core::{Delivery, Ticket};
use scan_core::{Answer, Carrier, Runs};
use std::alloc::{AllocError, Global};
use std::io;
use std::io::{BufRead, BufReader};
use std::sync::Wait;
use std::thread::Threads;

/// How many lanes, and how many workers.
const COUNT: u8 = 16;

// 9501101530003 as EAN-13, its light ends included, at one dot a module.
const EAN13: &[u16] = &[
    11, 1, 1, 1, 1, 2, 3, 1, 1, 1, 2, 3, 1, 2, 2, 2, 2, 2, 2, 1, 1, 1, 2, 3, 2, 2, 2, 1, 1, 1, 1,
    1, 1, 1, 2, 3, 1, 1, 4, 1, 1, 3, 2, 1, 1, 3, 2, 1, 1, 3, 2, 1, 1, 1, 4, 1, 1, 1, 1, 1, 7,
];

// 96385074 as EAN-8.
const EAN8: &[u16] = &[
    7, 1, 1, 1, 3, 1, 1, 2, 1, 1, 1, 4, 1, 4, 1, 1, 1, 2, 1, 3, 1, 1, 1, 1, 1, 1, 2, 3, 1, 3, 2, 1,
    1, 1, 3, 1, 2, 1, 1, 3, 2, 1, 1, 1, 7,
];

// (422)528 as GS1-128.
const GS1_128: &[u16] = &[
    10, 2, 1, 1, 2, 3, 2, 4, 1, 1, 1, 3, 1, 1, 1, 2, 1, 3, 3, 3, 2, 1, 1, 2, 2, 3, 2, 2, 1, 1, 2,
    1, 2, 1, 4, 2, 1, 2, 3, 3, 1, 1, 1, 2, 10,
];

/// A lane of the run.
#[derive(Drop)]
struct Lane {
    seat: LaneSeat,
    /// How many rows it submits.
    due: u32,
    /// A row for which the queue of jobs had no room.
    row: Option<Runs>,
    /// How many deliveries it has polled.
    polled: u32,
    /// How many of these, or of its calls to submit, were wrong.
    wrong: u32,
}

/// The kind of the lane's row with this number, one of three.
fn kind(lane: u8, number: u32) -> u32 {
    (u32::from(lane) + number % 3) % 3
}

/// The widths of a kind of row.
fn widths(kind: u32) -> &'static [u16] {
    match kind {
        0 => EAN13,
        1 => EAN8,
        _ => GS1_128,
    }
}

/// The carrier and the element strings of a kind of row.
fn answer(kind: u32) -> (Carrier, &'static str) {
    match kind {
        0 => (Carrier::Ean13, "(01)09501101530003"),
        1 => (Carrier::Ean8, "(01)00000096385074"),
        _ => (Carrier::Gs1128, "(422)528"),
    }
}

/// Whether it is the answer to the lane's row of this number.
fn is_right(delivery: &Delivery, lane: u8, number: u32) -> bool {
    let kind = kind(lane, number);
    let (carrier, text) = answer(kind);
    let is_read = match delivery.answer() {
        Answer::Read {
            carrier: read,
            elements,
        } => { read == carrier && elements.hri().as_str() == text }
        Answer::Refused(_) => false,
    };
    is_read
        && delivery.ticket() == Ticket { lane, number }
        && delivery.row().widths() == widths(kind)
}

/// The row that the lane submits next. None if memory for it was refused.
fn next_row(alloc: Global, lane: &mut Lane) -> Option<Runs>
    ensures { lane.new.seat ≡ lane.old.seat }
{
    match lane.row.take() {
        Some(row) => Some(row),
        None => Runs::of_widths(alloc, widths(kind(lane.seat.lane(), lane.seat.issued()))).ok(),
    }
}

/// Submits the lane's next row, if there is one and the queue has room.
fn submit<R: Wait>(rt: &R, alloc: Global, hub: &Hub, lane: &mut Lane)
    requires { IsLaneOf hub.now lane.old.seat }
    ensures { IsLaneOf hub.now lane.new.seat × (lane_of lane.new.seat ≡ lane_of lane.old.seat) }
{
    if lane.seat.issued() >= lane.due {
        return;
    }
    let Some(row) = next_row(alloc, lane) else {
        return;
    };
    match hub.submit(rt, &mut lane.seat, row) {
        Ok(_) => {}
        Err(SubmitFault::Full(row)) => lane.row = Some(row),
        Err(SubmitFault::Spent(_)) => lane.wrong = lane.wrong.saturating_add(1),
    }
}

/// Polls the lane's next delivery, if it is there, and checks it.
fn poll(hub: &Hub, lane: &mut Lane)
    requires { IsLaneOf hub.now lane.old.seat }
    ensures { IsLaneOf hub.now lane.new.seat × (lane_of lane.new.seat ≡ lane_of lane.old.seat) }
{
    let Some(delivery) = lane.seat.poll() else {
        return;
    };
    if !is_right(&delivery, lane.seat.lane(), lane.polled) {
        lane.wrong = lane.wrong.saturating_add(1);
    }
    lane.polled = lane.polled.saturating_add(1);
}

/// One lane submits; one delivery is collected, handed to the lane and polled, if possible.
fn take_turn<R: Wait>(
    rt: &R,
    alloc: Global,
    hub: &Hub,
    lane: &mut Lane,
    deliverer: &mut DelivererSeat,
)
    requires { IsLaneOf hub.now lane.old.seat × IsDelivererOf hub.now deliverer.old }
    ensures lane { IsLaneOf hub.now lane.new.seat × (lane_of lane.new.seat ≡ lane_of lane.old.seat) }
    ensures deliverer { IsDelivererOf hub.now deliverer.new }
{
    submit(rt, alloc, hub, lane);
    hub.collect(rt, deliverer);
    deliverer.hand(lane.seat.lane());
    poll(hub, lane);
}

/// Each lane gets its turn.
fn go_round<R: Wait>(
    rt: &R,
    alloc: Global,
    hub: &Hub,
    lanes: &mut Vec<Lane>,
    deliverer: &mut DelivererSeat,
)
    requires { All (λ l. IsLaneOf hub.now l.seat) lanes.old.items × IsDelivererOf hub.now deliverer.old }
    ensures lanes { All (λ l. IsLaneOf hub.now l.seat) lanes.new.items }
    ensures numbers { map (λ l. lane_of l.seat) lanes.new.items ≡ map (λ l. lane_of l.seat) lanes.old.items }
    ensures deliverer { IsDelivererOf hub.now deliverer.new }
{
    for lane in lanes.iter_mut() {
        take_turn(rt, alloc, hub, lane, deliverer);
    }
}

/// Repeats turns until each lane has polled all its rows, and signals the workers after each round.
fn drive<R: Wait>(
    rt: &R,
    alloc: Global,
    hub: &Hub,
    lanes: &mut Vec<Lane>,
    deliverer: &mut DelivererSeat,
    signals: &Signals,
)
    requires { All (λ l. IsLaneOf hub.now l.seat) lanes.old.items × IsDelivererOf hub.now deliverer.old }
    ensures lanes { All (λ l. IsLaneOf hub.now l.seat) lanes.new.items }
    ensures numbers { map (λ l. lane_of l.seat) lanes.new.items ≡ map (λ l. lane_of l.seat) lanes.old.items }
    ensures deliverer { IsDelivererOf hub.now deliverer.new }
{
    for _ in rt.forever() {
        go_round(rt, alloc, hub, lanes, deliverer);
        signals.notify_workers();
        if lanes.iter().all(|lane| lane.polled >= lane.due) {
            break;
        }
    }
}

/// The lanes of the run, of these seats, each with this many rows.
fn make_lanes(alloc: Global, seats: Vec<LaneSeat>, due: u32) -> Result<Vec<Lane>, AllocError>
    ensures { IfOk result (λ v. map (λ l. l.seat) v.items ≡ seats.items) }
{
    let mut lanes = Vec::with_capacity(alloc, seats.len())?;
    for seat in seats {
        lanes.push(Lane {
            seat,
            due,
            row: None,
            polled: 0,
            wrong: 0,
        })?;
    }
    Ok(lanes)
}

/// The lanes' seats, closed.
fn close_all(alloc: Global, lanes: Vec<Lane>) -> Result<Vec<ClosedLane>, AllocError>
    ensures { IfOk result (λ v. v.items ≡ map (λ l. l.seat) lanes.items) }
{
    let mut closed = Vec::with_capacity(alloc, lanes.len())?;
    for lane in lanes {
        closed.push(lane.seat.close())?;
    }
    Ok(closed)
}

/// What was polled, how much of it was wrong, and whether settling found nothing.
#[derive(Clone, Copy, Debug)]
struct Counts {
    polled: u64,
    wrong: u64,
    nothing_left: bool,
}

/// How many were polled, and how many were wrong.
fn count(lanes: &[Lane]) -> (u64, u64) {
    let mut polled = 0u64;
    let mut wrong = 0u64;
    for lane in lanes {
        polled = polled.saturating_add(u64::from(lane.polled));
        wrong = wrong.saturating_add(u64::from(lane.wrong));
    }
    (polled, wrong)
}

/// Repeats turns beside the workers until each lane has polled all its rows.
fn run_all<R: Threads + Wait + Sync>(
    rt: &R,
    alloc: Global,
    hub: &Hub,
    lanes: Vec<Lane>,
    workers: Vec<WorkerSeat>,
    deliverer: DelivererSeat,
) -> Result<(Vec<Lane>, Vec<WorkerSeat>, DelivererSeat), ServeFault>
    requires { All (λ l. IsLaneOf hub.now l.seat) lanes.items × All (IsWorkerOf hub.now) workers.items × IsDelivererOf hub.now deliverer }
    ensures lanes { IfOk result (λ v. All (λ l. IsLaneOf hub.now l.seat) v.0.items) }
    ensures numbers { IfOk result (λ v. map (λ l. lane_of l.seat) v.0.items ≡ map (λ l. lane_of l.seat) lanes.items) }
    ensures workers { IfOk result (λ v. All (IsWorkerOf hub.now) v.1.items × (vec_len v.1 ≡ vec_len workers)) }
    ensures deliverer { IfOk result (λ v. IsDelivererOf hub.now v.2) }
{
    let told = Signals::new();
    let signals = &told;
    let task = move |lanes: Vec<Lane>| -> (Vec<Lane>, DelivererSeat)
        requires { All (λ l. IsLaneOf hub.now l.seat) lanes.items × IsDelivererOf hub.now deliverer }
        ensures lanes { All (λ l. IsLaneOf hub.entry.now l.seat) result.0.items }
        ensures numbers { map (λ l. lane_of l.seat) result.0.items ≡ map (λ l. lane_of l.seat) lanes.items }
        ensures deliverer { IsDelivererOf hub.entry.now result.1 }
    {
        let mut lanes = lanes;
        let mut deliverer = deliverer;
        drive(rt, alloc, hub, &mut lanes, &mut deliverer, signals);
        (lanes, deliverer)
    };
    match run_workers(rt, alloc, hub, workers, &OpenGate, signals, lanes, task) {
        Ok((workers, done)) => {
            let (lanes, deliverer) = done;
            Ok((lanes, workers, deliverer))
        }
        Err(refused) => Err(refused.fault),
    }
}

/// Sends all rows through the hub, and settles it.
fn soak<R: Threads + Wait + Sync>(
    rt: &R,
    alloc: Global,
    hub: Hub,
    seats: Vec<LaneSeat>,
    workers: Vec<WorkerSeat>,
    deliverer: DelivererSeat,
    due: u32,
) -> Result<Counts, ServeFault>
    requires { AreAllSeats hub seats.items workers.items deliverer }
{
    let lanes = make_lanes(alloc, seats, due)?;
    let (ran, workers, deliverer) = run_all(rt, alloc, &hub, lanes, workers, deliverer)?;
    let (polled, wrong) = count(&ran);
    let closed = close_all(alloc, ran)?;
    match hub.settle(rt, alloc, closed, workers, deliverer) {
        Ok(lists) => Ok(Counts {
            polled,
            wrong,
            nothing_left: lists.iter().all(|list| list.is_empty()),
        }),
        Err(_) => Err(ServeFault::NoMemory),
    }
}

/// How many rows each lane submits, from the first line of standard input. None if that is no number.
fn read_due<R: Input>(rt: &R, alloc: Global) -> io::Result<Option<u32>> {
    let mut lines = BufReader::new(alloc, rt.reader())?.lines(alloc);
    let Some(line) = lines.next() else {
        return Ok(None);
    };
    Ok(line?.as_str().parse::<u32>().ok())
}

fn main(rt: HostRuntime) -> io::Result<()> {
    let alloc = rt.alloc();
    let (Some(due), Some(year)) = (read_due(&rt, alloc)?, Year::new(2026)) else {
        println!(rt; "standard input has no number of rows")?;
        return Ok(());
    };
    let shape = Shape {
        lanes: COUNT,
        workers: COUNT,
        capacity: 1,
        limit: due,
    };
    let Ok(
        Parts {
            hub,
            lanes,
            workers,
            deliverer,
        },
    ) = Hub::new(&rt, alloc, shape, year)
    else {
        println!(rt; "there is no such hub")?;
        return Ok(());
    };
    match soak(&rt, alloc, hub, lanes, workers, deliverer, due) {
        Ok(counts) => {
            println!(rt; "{} polled, {} wrong", counts.polled, counts.wrong)?;
            println!(rt; "nothing is left: {}", counts.nothing_left)
        }
        Err(fault) => println!(rt; "{fault}"),
    }
}
