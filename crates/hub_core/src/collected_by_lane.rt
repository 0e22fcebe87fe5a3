//! The result of `Hub::collect_by_lane`: `Collected`, with the lane.

/// As `Collected`, with the lane of the delivery.
#[derive(Clone, Copy, PartialEq)]
pub(crate) enum CollectedByLane {
    /// There was none.
    Nothing,
    /// As `Collected::Taken`, of this lane.
    Taken(u8),
    /// As `Collected::NoMemory`.
    NoMemory,
}
