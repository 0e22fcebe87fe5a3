//! A symbol of a row, and its place.

use crate::carrier::Carrier;
use element_core::Elements;

/// A window of a row's runs that is read as a row.
#[derive(Debug, Drop)]
pub struct Window {
    /// The index of its first run, a light one.
    pub first: usize,
    /// How many runs it has, with the light ones at its ends: from 27 to 597.
    pub count: usize,
    /// Its elements, with dates by the reference year.
    pub elements: Elements,
    /// The symbol's kind.
    pub carrier: Carrier,
}
