//! Runs each command, has the errors that refuse a whole input (`CommandFault`), and laws about what commands write.
//!
//! `tests/using/items.txt` lists the public items, and `tests/using/run` fails if the two differ.
#![tactic(auto)]

mod answers;
mod buffered;
mod columns;
mod commands;
mod fault;
mod grid;
mod laws;
mod live;
mod printed;
mod write_buffer;

pub use answers::cells::answer_cells;
pub use answers::rows::{RowsFault, answer_records};
pub use answers::serving::AnswerFault;
pub use commands::check::{one_check, run_check};
pub use commands::lanes::{one_lanes, run_lanes};
pub use commands::live::run_live;
pub use commands::print::{one_print, run_print};
pub use commands::scan::{one_scan, run_scan};
pub use commands::{run, run_buffered};
pub use fault::CommandFault;
pub use laws::{answers_by_place, printed_is_scanned, rows_by_place};
pub use live::answering::answer_live;
pub use live::fault::LiveFault;
pub use live::laws::{lines_are_records, lines_are_report};
pub use live::terms::LiveTerms;
pub use printed::{printed_answer, scanned_once, written_answer};
