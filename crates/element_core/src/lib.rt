//! GS1 element strings: Application Identifiers, their values, and the dates in them.
#![tactic(auto)]

mod checks;
mod date;
mod draft;
mod element;
mod elements;
mod family;
mod fault;
mod first_digits;
mod form;
mod formats;
mod front;
mod hri;
mod laws;
mod line;
mod named;
mod pair_line;
mod pairs;
mod part;
mod reading;
mod row;
mod rules;
mod shown_list;
mod table;
mod terms;
mod text;
mod time;
mod value;
mod walk;
mod year;

pub use element::Element;
pub use elements::Elements;
pub use fault::ElementFault;
pub use form::Form;
pub use hri::write_hri;
pub use laws::{
    canonical_reads, counts_rows, dated_elements, day_zero, each_text, faultless_pairs,
    first_digits_decide, gtin_reads, no_ai_begins_another, one_list_or_fault, pair_faults,
    pairs_differ, parts_have_one_length, profile_within, read_as_before, reads_pieces,
    timed_elements, year_window,
};
pub use line::{Line, digit_line, elements_line, gtin_line, push_gtin_element};
pub use pairs::Pair;
pub use part::{Check, Part, PartFormat, Rule};
pub use row::{AiRow, ai_row};
pub use terms::{Terms, Year};
pub use text::Text;
pub use walk::{Seen, first_element};
pub use year::ReferenceYear;
