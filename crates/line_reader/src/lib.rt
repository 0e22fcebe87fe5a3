//! Reads lines of grey values: where the values turn, the ends between, and the characters that these are most like. In integers, in memory that
//! the caller lends. Nothing is promised of what it finds: `line_core` says what a line shows.
#![tactic(auto)]

mod code;
mod digits;
mod ean;
mod ends;
mod extremes;
mod half;
mod itf;
mod parts;
mod reading;

pub use ends::{Ends, put_ends};
pub use extremes::{Extremes, Turn, put_extremes};
pub use reading::{Kind, Reading, Row, put_widths, read_at};
