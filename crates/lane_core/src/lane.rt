//! One lane of a world.

use crate::delivery::Delivery;

/// The state of a lane in a world. Contracts see it as `LaneContents` of specs/Contents.antt.
#[derive(Debug, Drop)]
pub(crate) struct Lane {
    /// Whether it submits no more.
    pub(crate) closed: bool,
    /// The number of its next ticket. A `u64`, since it is 2 ^ 32 after the last one.
    pub(crate) issued: u64,
    /// The deliveries that it got, by number.
    pub(crate) handed: Vec<Delivery>,
    /// How many of them it has polled; the others are its outbox.
    pub(crate) polled: usize,
}
