//! Answers rows, and reports the answers.
pub mod cells;
pub mod held_input;
pub mod lines;
pub mod report;
pub mod row_reader;
pub mod rows;
pub mod serving;
