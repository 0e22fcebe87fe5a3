//! A hub that was not settled: its `Parts`, with closed lanes.

use crate::closed_lane::ClosedLane;
use crate::deliverer_seat::DelivererSeat;
use crate::hub::Hub;
use crate::worker_seat::WorkerSeat;

/// A hub that was not settled, since memory was refused, and all its seats, as they were handed in.
#[derive(Drop)]
pub struct Unsettled {
    /// The hub.
    pub hub: Hub,
    /// The lanes' seats.
    pub lanes: Vec<ClosedLane>,
    /// The workers' seats.
    pub workers: Vec<WorkerSeat>,
    /// The deliverer's seat.
    pub deliverer: DelivererSeat,
}
