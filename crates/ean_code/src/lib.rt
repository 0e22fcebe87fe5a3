//! Draws EAN-13, EAN-8 and UPC-E symbols (ISO/IEC 15420) and ITF-14 symbols (ISO/IEC 16390) from a GTIN, and reads
//! them from their widths in modules.
#![tactic(auto)]

mod drawing;
mod kind;
mod laws;
mod lookup;
mod modules;
mod number_sets;
mod parts;
mod reading;
mod rows;
mod symbologies;
mod two_of_five;

pub use kind::Kind;
pub use laws::{
    gtins_have_fourteen, kind_is_one_way, measures_of_kind, one_list_of_digits, one_spelled,
    printed_symbols, replaced_digit_is_unchecked, two_widths,
};
pub use lookup::character;
pub use modules::Modules;
pub use reading::Spelled;
pub use symbologies::ean8::{ean8, read_ean8};
pub use symbologies::ean13::{ean13, read_ean13};
pub use symbologies::itf14::{itf14, read_itf14};
pub use symbologies::upce::{read_upce, upce};
