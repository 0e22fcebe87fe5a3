//! A gate that delays a lane's rows, and what other lanes get meanwhile.
ghost use Rattle.std.specs.Prelude.{◌≡◌};
ghost use Rattle.hub_core.specs.Hubs.{IsDelivererOf, IsLaneOf};
ghost use Rattle.hub_core.specs.Lanes.{lane_of};

use crate::waiting::{TURN_LIMIT, reaches};
use hub_core::{DelivererSeat, Gate, Hub, LaneSeat};
use lane_core::{Delivery, Ticket};
use std::sync::Wait;
use std::sync::atomic::{AtomicU64, Ordering};
use std::thread;

/// Delays a lane's rows until somebody opens it, and counts how often that came too late.
#[derive(Drop)]
pub struct LaneGate {
    held: u8,
    came: AtomicU64,
    is_open: AtomicU64,
    limits_met: AtomicU64,
}

impl LaneGate {
    /// A gate that is closed to this lane.
    pub fn new(held: u8) -> LaneGate {
        LaneGate {
            held,
            came: AtomicU64::new(0),
            is_open: AtomicU64::new(0),
            limits_met: AtomicU64::new(0),
        }
    }

    /// Waits for a row of the delayed lane. Returns whether one has come.
    fn holds_one(&self) -> bool {
        reaches(&self.came, 1)
    }

    /// Lets the lane's rows pass.
    pub fn open(&self) {
        self.is_open.store(1, Ordering::SeqCst);
    }

    /// How often a row waited up to the limit.
    pub fn limits_met(&self) -> u64 {
        self.limits_met.load(Ordering::SeqCst)
    }
}

impl Gate for LaneGate {
    fn pass(&self, ticket: Ticket) {
        if ticket.lane != self.held {
            return;
        }
        self.came.fetch_add(1, Ordering::SeqCst);
        if !reaches(&self.is_open, 1) {
            self.limits_met.fetch_add(1, Ordering::SeqCst);
        }
    }
}

/// The first delivery that the lane polls while this thread collects and hands over. None if that takes too many
/// turns.
pub fn first_polled<R: Wait>(
    rt: &R,
    hub: &Hub,
    seat: &mut LaneSeat,
    deliverer: &mut DelivererSeat,
) -> Option<Delivery>
    requires { IsLaneOf hub.now seat.old × IsDelivererOf hub.now deliverer.old }
    ensures of_hub { IsLaneOf hub.now seat.new × IsDelivererOf hub.now deliverer.new }
    ensures lane { lane_of seat.new ≡ lane_of seat.old }
{
    for _ in 0..TURN_LIMIT {
        hub.collect(rt, deliverer);
        deliverer.hand(seat.lane());
        if let Some(delivery) = seat.poll() {
            return Some(delivery);
        }
        thread::yield_now();
    }
    None
}

/// Whether the lane polls nothing while its row is at the gate, after this thread has collected all posted deliveries
/// and handed over the lane's next one.
pub fn polls_nothing<R: Wait>(
    rt: &R,
    hub: &Hub,
    gate: &LaneGate,
    seat: &mut LaneSeat,
    deliverer: &mut DelivererSeat,
) -> bool
    requires { IsLaneOf hub.now seat.old × IsDelivererOf hub.now deliverer.old }
    ensures of_hub { IsLaneOf hub.now seat.new × IsDelivererOf hub.now deliverer.new }
    ensures lane { lane_of seat.new ≡ lane_of seat.old }
{
    let is_at_the_gate = gate.holds_one();
    hub.collect(rt, deliverer);
    hub.collect(rt, deliverer);
    deliverer.hand(seat.lane());
    seat.poll().is_none() && is_at_the_gate
}
