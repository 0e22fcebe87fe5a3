//! A lane over two streams and a consumer group, as a state machine: rows and answers that arrive in any order,
//! twice, late or never, and tills that accept an answer by its name and mark.
#![tactic(auto)]

mod laws;

pub use laws::{always_goes_on, marks_are_needed, own_answers};
