//! What a line of grey values shows: the ends of bars, the characters between them, and the light on both sides.
#![tactic(auto)]

mod codes;
mod digits;
mod ends;
mod lights;
mod pairs;
mod symbols;

pub use codes::CODES;
pub use digits::DIGITS;
pub use pairs::FIVES;
pub use symbols::{Bars, shows_bars};
