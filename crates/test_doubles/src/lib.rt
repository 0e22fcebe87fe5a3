//! For tests: a reader that fails, a writer that takes few bytes, a wire that records its calls, gates that delay
//! rows, and a hub whose seats are all at hand.
#![tactic(auto)]

mod breaking;
mod holding;
mod lane_gate;
mod meeting;
mod narrow;
mod recorded;
mod seats;
mod waiting;

pub use breaking::Breaking;
pub use holding::Holding;
pub use lane_gate::LaneGate;
pub use meeting::Meeting;
pub use narrow::Narrow;
pub use recorded::{Happened, Recorded};
pub use seats::{Closed, OpenHub, is_answer};
