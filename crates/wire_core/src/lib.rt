//! Reads and writes in one order, and the lines of an input, however it arrives in pieces. `tests/using/items.txt`
//! lists the public items, and `tests/using/run` fails if the two differ.
#![tactic(auto)]

mod laws;
mod lines;
mod wire;
mod wired;

pub use laws::lines_are_pieces;
pub use lines::{Lines, MOST_LINE};
pub use wire::{Wire, write_all};
pub use wired::{Wired, all_was_read};
