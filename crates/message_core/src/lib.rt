//! Reads the texts of scanners that decode symbols themselves, most with a symbology identifier in front.
//! `tests/using/items.txt` lists the public items, and `tests/using/run` fails if the two differ.
#![tactic(auto)]

mod coding;
mod cut;
mod fault;
mod head;
mod key;
mod laws;
mod link;
mod message;
mod pairs;
mod path;
mod spelling;
mod symbology;
mod upce;

pub use cut::{cut_at, without_first};
pub use fault::MessageFault;
pub use head::{Head, are_digits, is_message};
pub use key::{is_key, place_by};
pub use laws::{
    codes_are_read, key_part_is, one_message, one_message_line, pairs_say_elements,
    upce_is_expanded,
};
pub use link::{has_no, is_uri, without_slash};
pub use message::{Message, message_line, read_message};
pub use pairs::{Pairs, put_pair, text_of};
pub use spelling::read_spelled;
pub use symbology::Symbology;
pub use upce::read_upce;
