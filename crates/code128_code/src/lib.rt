//! Draws Code 128 and GS1-128 symbols (ISO/IEC 15417) from a list of elements, and reads them from their widths in
//! modules: first as values, then as the text of these values.
#![tactic(auto)]

mod check;
mod code_set;
mod coding;
mod drawing;
mod fault;
mod laws;
mod lookup;
mod meanings;
mod patterns;
mod reading;
mod special_values;
mod symbol_values;
mod texts;

pub use check::check_character;
pub use drawing::encode;
pub use fault::{Code128Fault, TooManyCharacters};
pub use laws::{
    coded_is_said, coded_is_short, measures, modules_say, one_reading, one_way, printed_is_said,
    replaced_is_unchecked, said_is_short, text_or_fault,
};
pub use lookup::character;
pub use reading::{values, values_of};
pub use symbol_values::Values;
pub use texts::text_of;
