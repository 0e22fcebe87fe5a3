//! The options of the command `lanes`, and their ranges.
ghost use Rattle.std.specs.Prelude.{◌≡◌, ◌↔◌, IfSome, IsSome};
ghost use Rattle.element_core.specs.Terms.{profile};
ghost use Rattle.command_line.specs.Arguments.{IsLaneCount, IsReferenceYear, IsWorkerCount};

use crate::arguments::{MOST_LANES, MOST_WORKERS};
use element_core::{Terms, Year};

/// The options of the command `lanes`.
#[derive(Clone, Copy, Debug, PartialEq, Eq)]
pub struct LaneOptions {
    /// How many lanes there are, 1 to 16.
    pub lanes: u8,
    /// How many workers read rows, 1 to 16.
    pub workers: u8,
    /// The year that dates of two digits are read by, and which AIs are accepted.
    pub year: Year,
    ghost some_lanes: { IsLaneCount lanes },
    ghost some_workers: { IsWorkerCount workers },
}

impl LaneOptions {
    /// These numbers and the AIs of the profile, or none if a number is out of range.
    pub fn new(lanes: u8, workers: u8, year: u16) -> Option<LaneOptions>
        ensures taken { IsSome result
            ↔ (IsLaneCount lanes × IsWorkerCount workers × IsReferenceYear year) }
        ensures numbers { IfSome result (λ o. (o.lanes ≡ lanes) × (o.workers ≡ workers)
            × (o.year ≡ profile year)) }
    {
        LaneOptions::by(lanes, workers, Year::new(year)?)
    }

    /// These numbers with these terms, or none if a number is out of range.
    pub(crate) fn by(lanes: u8, workers: u8, terms: Terms) -> Option<LaneOptions>
        ensures taken { IsSome result ↔ (IsLaneCount lanes × IsWorkerCount workers) }
        ensures numbers { IfSome result (λ o. (o.lanes ≡ lanes) × (o.workers ≡ workers)
            × (o.year ≡ terms)) }
    {
        if !(1..=MOST_LANES).contains(&lanes) || !(1..=MOST_WORKERS).contains(&workers) {
            return None;
        }
        Some(LaneOptions {
            lanes,
            workers,
            year: terms,
        })
    }
}
