//! The symbols that a picture shows, read from its grey values in integers, in memory that the caller lends.
#![tactic(auto)]

mod area;
mod bands;
mod count;
mod extent;
mod fit;
mod frame;
mod grid;
mod layout;
mod lean;
mod level;
mod look;
mod order;
mod own_row;
mod part;
mod patch;
mod picture;
mod place;
mod read;
mod reader;
mod room;
mod runs;
mod said;
mod samples;
mod seen_line;
mod sharp;
mod shown;
mod stripes;
mod symbol;
mod tally;
mod telling;
mod turning;

pub use own_row::{OwnRow, OwnRows};
pub use picture::Picture;
pub use place::{Corners, Point};
pub use read::{Reading, read_picture};
pub use room::{Room, words_for};
pub use said::{Refused, Said};
pub use seen_line::{Cleared, Sampling, SeenLine, SeenLines};
pub use shown::{MOST, Shown};
pub use symbol::SeenSymbol;
