//! How a picture is read.
use crate::picture::Picture;
use element_core::Year;

/// A picture, the level below which the dots of its own rows are dark, and the year by which dates are read.
#[derive(Clone, Copy)]
pub(crate) struct Reader<'a> {
    pub(crate) picture: &'a Picture<'a>,
    pub(crate) level: u8,
    pub(crate) year: Year,
}
