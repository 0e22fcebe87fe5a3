//! The reference year of dates.

ghost use Rattle.std.specs.Prelude.{◌≡◌, ◌≤◌, ◌↔◌, IsSome, IfSome};

use std::marker::Model;

/// The year that determines the century of dates with two-digit years: 1951 to 2149.
#[derive(Clone, Copy, Debug, PartialEq, Eq)]
pub struct ReferenceYear {
    number: u16,
}

impl Model for ReferenceYear {
    ghost use Rattle.std.specs.Prelude.{ℕ, ◌≤◌};

    ghost Value = { ℕ };

    ghost view = { λ y. y.number };

    ghost invariant = { λ y. (1951 ≤ y.number) × (y.number ≤ 2149) };

    ghost inverse = { λ n. record { number = n } };
}

impl ReferenceYear {
    /// The year of this number. None outside 1951 to 2149.
    pub fn new(number: u16) -> Option<ReferenceYear>
        ensures some { IsSome result ↔ ((1951 ≤ number) × (number ≤ 2149)) }
        ensures value { IfSome result (λ year. year ≡ number) }
    {
        if number < 1951 || 2149 < number {
            return None;
        }
        Some(ReferenceYear { number })
    }

    /// The number, 1951 to 2149.
    pub fn number(self) -> u16
        ensures value { result ≡ self }
        ensures range { (1951 ≤ result) × (result ≤ 2149) }
    {
        self.number
    }
}
