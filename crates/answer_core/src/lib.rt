//! What a barcode means, as a struct with a fixed layout that programs in C, Python and JavaScript share (`gs1.h`).
#![tactic(auto)]

mod answer;
mod association;
mod buffer;
mod code;
mod coded;
mod compose;
mod conflict;
mod data;
mod format;
mod gap;
mod gtin;
mod gtin_forms;
mod gtin_use;
mod laws;
mod lines;
mod listed;
mod named;
mod number;
mod order;
mod place;
mod printed;
mod read;
mod row;
mod symbol;
mod text;
mod unit;
mod writing;

pub use answer::Answer;
pub use buffer::{put, put_both, put_refusal, put_words};
pub use compose::Given;
pub use conflict::{Conflict, ConflictKind};
pub use gtin_use::GtinUse;
pub use laws::{
    answers_tell_one, lines_tell, link_reads, message_lines, printed_is_read, refused_lines,
    row_lines, scan_reads, string_lines,
};
pub use lines::{Answered, LineKind, read_lines};
pub use named::Day;
pub use place::{MOST_ELEMENTS, Place};
pub use row::dots_in;
pub use symbol::SymbolKind;
pub use unit::unit_of;
