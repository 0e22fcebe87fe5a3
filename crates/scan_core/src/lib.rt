//! Reads rows of dots, as runs of widths: rounds them to modules, reads the modules as symbols, and the text of a
//! symbol as elements.
#![tactic(auto)]

mod answer;
mod bits;
mod carrier;
mod cut;
mod dot_symbols;
mod dots;
mod fault;
mod found;
mod identifier;
mod laws;
mod rounding;
mod row_pool;
mod runs;
mod search;
mod small_runs;
mod stage;
mod symbol;
mod symbols;
mod widths;
mod window;

pub use answer::{Answer, find_widths, push_row, read_row, read_widths};
pub use carrier::Carrier;
pub use dot_symbols::DotSymbols;
pub use dots::{find_dots, read_dots};
pub use fault::{RowFault, RunFault};
pub use found::Found;
pub use laws::{
    dots_determine, dots_make_row, each_ratio_is_read, never_too_long, one_answer, one_symbol,
    other_rows_keep, replaced_character_is_noticed, replacement_is_noticed, row_or_fault,
    symbol_measures, symbols_are_told, turned_dots, turned_row, turned_symbols, whole_row,
};
pub use row_pool::RowPool;
pub use runs::Runs;
pub use search::SymbolSearch;
pub use symbols::Symbols;
pub use widths::WritesWidths;
pub use window::Window;
