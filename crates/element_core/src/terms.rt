//! The terms by which element strings are read.

ghost use Rattle.std.specs.Prelude.{◌≡◌, ◌≤◌, ◌↔◌, IsSome, IfSome};

use crate::year::ReferenceYear;
use std::marker::Model;

/// The terms by which element strings are read: the reference year of dates, and whether every AI of the GS1 General
/// Specifications is accepted or only those of the profile.
#[derive(Clone, Copy, Debug, PartialEq, Eq)]
pub struct Terms {
    year: ReferenceYear,
    every: bool,
}

/// Only a reference year means the profile.
pub type Year = Terms;

impl Model for Terms {
    ghost use Rattle.element_core.specs.Terms.{Terms};

    ghost Value = { Terms };

    ghost view = { λ t. record { year = t.year; every = t.every } };

    ghost inverse = { λ t. record { year = t.year; every = t.every } };
}

impl Terms {
    ghost use Rattle.element_core.specs.Terms.{every_ai, profile};

    /// The profile with the reference year of this number. None outside 1951 to 2149.
    pub fn new(number: u16) -> Option<Terms>
        ensures some { IsSome result ↔ ((1951 ≤ number) × (number ≤ 2149)) }
        ensures value { IfSome result (λ year. year ≡ profile number) }
    {
        let year = ReferenceYear::new(number)?;
        Some(Terms { year, every: false })
    }

    /// The same year with every AI.
    pub fn with_every_ai(self) -> Terms
        ensures { result ≡ every_ai self.year }
    {
        Terms {
            year: self.year,
            every: true,
        }
    }

    /// Whether every AI is accepted.
    pub fn every(self) -> bool
        ensures { result ≡ self.every }
    {
        self.every
    }

    /// The reference year.
    pub fn reference(self) -> ReferenceYear
        ensures { result ≡ self.year }
    {
        self.year
    }

    /// The number of the year, 1951 to 2149.
    pub fn number(self) -> u16
        ensures value { result ≡ self.year }
    {
        self.year.number()
    }
}
