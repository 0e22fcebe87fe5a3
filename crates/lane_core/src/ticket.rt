//! The ticket of a row.

/// What a lane gets for a row that it submits.
#[derive(Clone, Copy, Debug, PartialEq, Eq, PartialOrd, Ord)]
pub struct Ticket {
    /// The lane.
    pub lane: u8,
    /// The row's number in its lane: 0, 1, 2 and so on. It has 32 bits, so `submit` of specs/Machine.antt gives a
    /// lane at most 2 ^ 32 tickets.
    pub number: u32,
}
