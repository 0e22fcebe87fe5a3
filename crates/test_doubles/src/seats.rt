//! A hub with all its seats at hand, for tests that use them one by one.
ghost use Rattle.std.specs.Prelude.{◌≡◌, ◌<◌, All, IfOk, length};
ghost use Rattle.hub_core.specs.Delivering.{lane_count};
ghost use Rattle.hub_core.specs.Hubs.{AreAllSeats, IsDelivererOf, IsLaneOf};
ghost use Rattle.hub_core.specs.Lanes.{numbers_of};

use crate::lane_gate::{LaneGate, first_polled, polls_nothing};
use element_core::Year;
use hub_core::{
    ClosedLane, Collected, DelivererSeat, Handed, Hub, HubFault, LaneSeat, OpenGate, Parts,
    ServeFault, Shape, Signals, SubmitFault, Unsettled, Worked, WorkerSeat, run_workers,
};
use lane_core::{Delivery, Ticket};
use scan_core::{Answer, Carrier, Runs};
use std::alloc::{AllocError, Global};
use std::sync::Wait;
use std::thread::Threads;

/// A hub and all its seats. A call that names a seat that it does not have answers `BadCount`.
#[derive(Drop)]
pub struct OpenHub {
    hub: Hub,
    lanes: Vec<LaneSeat>,
    workers: Vec<WorkerSeat>,
    deliverer: DelivererSeat,
    ghost all: { AreAllSeats hub lanes.items workers.items deliverer },
    ghost count: { length lanes.items ≡ lane_count deliverer },
}

/// Whether it is the lane's delivery with this number, and reads as this carrier.
pub fn is_answer(found: Option<&Delivery>, lane: u8, number: u32, wanted: Carrier) -> bool {
    match found {
        Some(delivery) => {
            delivery.ticket() == Ticket { lane, number }
                && matches!(delivery.answer(), Answer::Read { carrier, .. } if carrier == wanted)
        }
        None => false,
    }
}

/// Why a row comes back, and how many runs it has.
fn told(alloc: Global, fault: SubmitFault) -> Result<String, AllocError> {
    let text = format!(in alloc; "{fault}")?;
    let (SubmitFault::Spent(row) | SubmitFault::Full(row)) = fault;
    format!(in alloc; "{text} {}", row.widths().len())
}

/// Closes each lane, in their order.
fn close_all(alloc: Global, lanes: Vec<LaneSeat>) -> Result<Vec<ClosedLane>, ServeFault>
    ensures { IfOk result (λ v. v.items ≡ lanes.items) }
{
    let mut closed = Vec::new(alloc);
    for lane in lanes {
        if closed.push(lane.close()).is_err() {
            return Err(ServeFault::NoMemory);
        }
    }
    Ok(closed)
}

impl OpenHub {
    /// A hub of this shape and its seats, for 2026.
    pub fn new<R: Wait>(rt: &R, alloc: Global, shape: Shape) -> Result<OpenHub, ServeFault> {
        let year = Year::new(2026).ok_or(ServeFault::BadCount)?;
        match Hub::new(rt, alloc, shape, year) {
            Ok(parts) => {
                let Parts {
                    hub,
                    lanes,
                    workers,
                    deliverer,
                } = parts;
                Ok(OpenHub {
                    hub,
                    lanes,
                    workers,
                    deliverer,
                })
            }
            Err(HubFault::BadCount) => Err(ServeFault::BadCount),
            Err(HubFault::NoMemory) => Err(ServeFault::NoMemory),
        }
    }

    /// What happens to the row that this lane submits.
    pub fn offer<R: Wait>(
        &mut self,
        rt: &R,
        lane: usize,
        row: Runs,
    ) -> Result<Result<Ticket, SubmitFault>, ServeFault> {
        if lane >= self.lanes.len() {
            return Err(ServeFault::BadCount);
        }
        Ok(self.hub.submit(rt, &mut self.lanes[lane], row))
    }

    /// The same in words: its ticket, or why it comes back, and how many runs it has.
    pub fn submit<R: Wait>(
        &mut self,
        rt: &R,
        alloc: Global,
        lane: usize,
        row: Runs,
    ) -> Result<String, ServeFault> {
        match self.offer(rt, lane, row)? {
            Ok(Ticket { lane, number }) => Ok(format!(in alloc; "{lane}/{number}")?),
            Err(fault) => Ok(told(alloc, fault)?),
        }
    }

    /// What this worker does.
    pub fn work<R: Wait>(&mut self, rt: &R, worker: usize) -> Result<Worked, ServeFault> {
        if worker >= self.workers.len() {
            return Err(ServeFault::BadCount);
        }
        Ok(self.hub.work(rt, &mut self.workers[worker], &OpenGate))
    }

    /// The result of collecting.
    pub fn collect<R: Wait>(&mut self, rt: &R) -> Collected {
        self.hub.collect(rt, &mut self.deliverer)
    }

    /// Whether the lane's next delivery waits, has this number and reads as this carrier.
    pub fn has_next(&self, lane: u8, number: u32, carrier: Carrier) -> Result<bool, ServeFault> {
        if usize::from(lane) >= self.lanes.len() {
            return Err(ServeFault::BadCount);
        }
        Ok(is_answer(self.deliverer.next(lane), lane, number, carrier))
    }

    /// How many tickets the lane has issued.
    pub fn issued(&self, lane: usize) -> Result<u32, ServeFault> {
        Ok(self.lanes.get(lane).ok_or(ServeFault::BadCount)?.issued())
    }

    /// What happens to the lane's next delivery.
    pub fn hand(&mut self, lane: u8) -> Result<Handed, ServeFault> {
        if usize::from(lane) >= self.lanes.len() {
            return Err(ServeFault::BadCount);
        }
        Ok(self.deliverer.hand(lane))
    }

    /// What this lane polls.
    pub fn poll(&mut self, lane: usize) -> Result<Option<Delivery>, ServeFault> {
        if lane >= self.lanes.len() {
            return Err(ServeFault::BadCount);
        }
        Ok(self.lanes[lane].poll())
    }

    /// Runs the workers in threads of their own, and opens the gate after the free lane has polled a delivery and the
    /// delayed lane has tried to. Returns the hub and its seats, what the free lane polled, and whether the other
    /// polled nothing while its row was at the gate. If the workers do not start, for want of threads or of memory, the
    /// error is `NoThread`.
    pub fn poll_and_open<R: Threads + Wait + Sync>(
        self,
        rt: &R,
        alloc: Global,
        gate: &LaneGate,
        (free, held): (u8, u8),
    ) -> Result<(OpenHub, Option<Delivery>, bool), ServeFault> {
        let OpenHub {
            hub,
            lanes,
            workers,
            deliverer,
        } = self;
        let (free, held) = (usize::from(free), usize::from(held));
        if free.max(held) >= lanes.len() {
            return Err(ServeFault::BadCount);
        }
        let shared = &hub;
        let signals = Signals::new();
        let task = move |lanes: Vec<LaneSeat>| -> (
            Vec<LaneSeat>,
            DelivererSeat,
            Option<Delivery>,
            bool,
        )
            requires { All (IsLaneOf shared.now) lanes.items × IsDelivererOf shared.now deliverer × (free < length lanes.items) × (held < length lanes.items) }
            ensures lanes { All (IsLaneOf shared.entry.now) result.0.items × (numbers_of result.0.items ≡ numbers_of lanes.items) }
            ensures deliverer { IsDelivererOf shared.entry.now result.1 }
        {
            let mut lanes = lanes;
            let mut deliverer = deliverer;
            let polled = first_polled(rt, shared, &mut lanes[free], &mut deliverer);
            let is_held = polls_nothing(rt, shared, gate, &mut lanes[held], &mut deliverer);
            gate.open();
            (lanes, deliverer, polled, is_held)
        };
        match run_workers(rt, alloc, shared, workers, gate, &signals, lanes, task) {
            Ok((workers, (lanes, deliverer, polled, is_held))) => {
                let station = OpenHub {
                    hub,
                    lanes,
                    workers,
                    deliverer,
                };
                Ok((station, polled, is_held))
            }
            Err(_) => Err(ServeFault::NoThread),
        }
    }

    /// The hub and its seats, with all its lanes closed.
    pub fn close(self, alloc: Global) -> Result<Closed, ServeFault> {
        let OpenHub {
            hub,
            lanes,
            workers,
            deliverer,
        } = self;
        let lanes = close_all(alloc, lanes)?;
        Ok(Closed {
            hub,
            lanes,
            workers,
            deliverer,
        })
    }
}

/// A hub and all its seats, after the close of each lane.
#[derive(Drop)]
pub struct Closed {
    hub: Hub,
    lanes: Vec<ClosedLane>,
    workers: Vec<WorkerSeat>,
    deliverer: DelivererSeat,
    ghost all: { AreAllSeats hub lanes.items workers.items deliverer },
}

impl Closed {
    /// Whether this lane has polled everything.
    pub fn is_done(&self, lane: usize) -> Result<bool, ServeFault> {
        Ok(self.lanes.get(lane).ok_or(ServeFault::BadCount)?.is_done())
    }

    /// What this lane polls.
    pub fn poll(&mut self, lane: usize) -> Result<Option<Delivery>, ServeFault> {
        if lane >= self.lanes.len() {
            return Err(ServeFault::BadCount);
        }
        Ok(self.lanes[lane].poll())
    }

    /// The same with the seats of the lanes, and those of the workers, in reverse order.
    pub fn turned(mut self) -> Closed {
        self.lanes.reverse();
        self.workers.reverse();
        self
    }

    /// The lists of `settle`; or, if memory was refused, all parts unchanged.
    fn settle_once<R: Wait>(self, rt: &R, alloc: Global) -> Result<Vec<Vec<Delivery>>, Closed> {
        let Closed {
            hub,
            lanes,
            workers,
            deliverer,
        } = self;
        match hub.settle(rt, alloc, lanes, workers, deliverer) {
            Ok(lists) => Ok(lists),
            Err(
                Unsettled {
                    hub,
                    lanes,
                    workers,
                    deliverer,
                },
            ) => Err(Closed {
                hub,
                lanes,
                workers,
                deliverer,
            }),
        }
    }

    /// The lists of `settle`; if memory was refused, those of a second try.
    pub fn settle<R: Wait>(self, rt: &R, alloc: Global) -> Result<Vec<Vec<Delivery>>, ServeFault> {
        match self.settle_once(rt, alloc) {
            Ok(lists) => Ok(lists),
            Err(again) => match again.settle_once(rt, alloc) {
                Ok(lists) => Ok(lists),
                Err(_) => Err(ServeFault::NoMemory),
            },
        }
    }
}
