//! The records of an input: what each means to a command, and the answers to those that need no hub.
//! `tests/using/items.txt` lists the public items, and `tests/using/run` fails if the two differ.
#![tactic(auto)]

mod check;
mod input;
mod lanes;
mod laws;
mod print;

pub use check::lines::check_lines;
pub use input::fault::{RecordFault, RecordRefusal, RecordsFault};
pub use input::records::{INPUT_LIMIT, Records};
pub use lanes::feeds::{lane_in, next_row};
pub use lanes::widths::read_runs;
pub use laws::{messages_are_no_rows, upce_as_checked};
pub use print::label_lines::label_lines;
pub use print::labels::read_labels;
