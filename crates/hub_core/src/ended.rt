//! How the service of a traffic ended.

/// Why a traffic is no longer served.
#[derive(Drop)]
pub enum Ended<W, B> {
    /// The traffic has ended, and all rows that it gave have come back.
    Done,
    /// Memory was refused.
    NoMemory,
    /// The traffic failed to wait for more rows.
    WaitFailed(W),
    /// The traffic failed to take a delivery, which is lost.
    BringFailed(B),
}
