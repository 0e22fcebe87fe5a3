//! The records of an input, and their fields.
pub mod fault;
pub mod records;
