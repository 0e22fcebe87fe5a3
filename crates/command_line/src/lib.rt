//! The command line: the command and the numbers that the arguments ask for, and what is wrong with arguments that
//! ask for none. `tests/using/items.txt` lists the public items, and `tests/using/run` fails if the two differ.
#![tactic(auto)]

mod arguments;
mod commands;
mod grid_options;
mod help;
mod laws;
mod words;

pub use commands::lanes::options::LaneOptions;
pub use commands::live::options::LiveOptions;
pub use commands::print::options::{Output, PrintOptions};
pub use commands::scan::options::ScanOptions;
pub use commands::{Asked, WholeInput};
pub use grid_options::GridOptions;
pub use laws::taken_words_ask;
pub use words::{WordsFault, read_words, sentence};
