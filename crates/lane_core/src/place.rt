//! The places where an issued ticket can be; `World::place` finds the one.

/// Where an issued ticket is.
#[derive(Clone, Copy, Debug, PartialEq, Eq)]
pub enum Place {
    /// It is queued as a job.
    JobQueue,
    /// A worker holds it.
    Worker,
    /// It is queued as a delivery.
    ResultQueue,
    /// It waits at the deliverer.
    Waiting,
    /// It is in its lane's outbox.
    Outbox,
    /// Its lane has polled it.
    Polled,
}
