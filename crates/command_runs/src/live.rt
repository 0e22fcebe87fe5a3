//! Answers an input as it comes, with a line for each record in the order of the records.
pub mod answering;
pub mod fault;
pub mod input;
pub mod laws;
pub mod pending;
pub mod record;
pub mod terms;
pub mod waiting;
