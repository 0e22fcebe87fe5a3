//! How far the header of a PBM image has come.
use crate::fault::PbmFault;

/// The size of an image in dots, 1 to 65,535 each.
#[derive(Clone, Copy, Debug, PartialEq, Eq)]
pub struct Size {
    pub width: u16,
    pub height: u16,
}

/// How far a header has come. The first number is the width, once it is known.
#[derive(Clone, Copy)]
pub enum State {
    /// At its first byte.
    Start,
    /// After `P`.
    Magic,
    /// In the blanks before a number, and whether there was one yet.
    Blanks(Option<u16>, bool),
    /// In a comment.
    Comment(Option<u16>),
    /// In a number, and the value of its digits so far, at most 65,536.
    Number(Option<u16>, u32),
}

/// The effect of a byte of a header.
#[derive(Clone, Copy)]
pub enum Step {
    /// The header continues.
    Goes(State),
    /// It is the last byte of the header.
    Done(Size),
    /// It is wrong at this place.
    Refused(PbmFault),
}
