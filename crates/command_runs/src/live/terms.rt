//! The terms of a live input.
use element_core::{Form, Year};

/// What the caller of `live` asks for. `run_live` makes it from the `LiveOptions` of command_line. `answer_live`
/// takes 1 to 16 lanes and 1 to 16 workers (`AreSeatCounts`).
#[derive(Clone, Copy, Debug, PartialEq, Eq)]
pub struct LiveTerms {
    /// The number of lanes.
    pub lanes: u8,
    /// The number of workers.
    pub workers: u8,
    /// The terms by which the elements of rows and messages are read.
    pub year: Year,
    /// The form of the elements in an answer.
    pub form: Form,
}
