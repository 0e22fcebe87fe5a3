//! How the bars of a symbol lean, by where rows show it.
ghost use Rattle.std.specs.Prelude.{◌≡◌, ◌^◌, pos, IfSome};
ghost use Rattle.picture_core.specs.inner.Bounds.{IsBounded};

use crate::fit::Fit;
use crate::frame::over;

/// The line through where rows show a symbol: how far its middle is aside of where the first row has it, by how far the row is below
/// the first, in 1/16 dot.
#[derive(Clone, Copy)]
pub(crate) struct Lean {
    /// Where the first row has it.
    middle: i64,
    place: i64,
    line: Fit,
    ghost middle_within: { IsBounded (2 ^ 21) middle },
    ghost place_within: { IsBounded (2 ^ 21) place },
}

/// The least sum of the squares of how far rows are from the middle one, in 1/256 square dot, that says how bars lean to some two degrees:
/// that of 17 rows of a picture.
const LEAST_SPREAD: i64 = 102_400;

/// The greatest slope: that of 60 degrees.
const STEEPEST: i64 = 113_512;

/// A slope that is greater in any case.
const MOST_SLOPE: i64 = 1 << 58;

/// The most that a place is away from the first dot, in 1/16 dot. A picture ends long before.
const FARTHEST: i64 = 1 << 21;

/// The nearest number that may be a place.
fn near(number: i64) -> i64
    ensures { IsBounded (2 ^ 21) result }
{
    number.clamp(-FARTHEST, FARTHEST)
}

impl Default for Lean {
    ghost is_default = { λ lean. lean.middle ≡ pos 0 };

    /// No row.
    fn default() -> Lean {
        Lean {
            middle: 0,
            place: 0,
            line: Fit::none(),
        }
    }
}

impl Lean {
    /// One row, with the symbol's middle here, in 1/16 dot along it and down.
    pub(crate) fn of_row(middle: i64, place: i64) -> Lean {
        Lean {
            middle: near(middle),
            place: near(place),
            line: Fit::none().with(0, 0),
        }
    }

    /// Adds a row.
    pub(crate) fn add(&mut self, middle: i64, place: i64) {
        let aside = near(middle) - self.middle;
        let down = near(place) - self.place;
        self.line = self.line.with(down, aside);
    }

    /// How far the bars go along the rows for each 65,536 down (the line that fits best); none of rows too near to one another.
    pub(crate) fn slope(&self) -> Option<i64>
        ensures { IfSome result (λ slope. IsBounded 113512 slope) }
    {
        let spread = self.line.spread()?;
        if spread < i64::from(self.line.points()) * LEAST_SPREAD {
            return None;
        }
        let slope = self.line.slope()?.clamp(-MOST_SLOPE, MOST_SLOPE);
        Some(over(slope * 16, spread >> 12).clamp(-STEEPEST, STEEPEST))
    }
}
