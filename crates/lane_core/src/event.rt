//! The steps of the state machine.

use scan_core::Runs;

/// A step of a lane, a worker or the deliverer: a `u8` is a lane, a `u32` a worker.
#[derive(Debug, Drop)]
pub enum Event {
    /// The lane submits a row. The row is queued under the lane's next ticket.
    Submit(u8, Runs),
    /// The worker takes the job that was queued first.
    Take(u32),
    /// The worker queues the delivery of its job.
    Post(u32),
    /// The deliverer takes in the delivery that was queued first.
    Collect,
    /// The deliverer puts the delivery of the lane's next number into the lane's outbox.
    Hand(u8),
    /// The lane takes the first delivery of its outbox.
    Poll(u8),
    /// The lane submits no more rows.
    Close(u8),
}
