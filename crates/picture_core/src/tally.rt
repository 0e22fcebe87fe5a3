//! What rows say, put together by place.
ghost use Rattle.std.specs.Prelude.{◌≡◌, ◌^◌, pos};
ghost use Rattle.picture_core.specs.inner.Bounds.{IsBounded};

use crate::count::added;
use crate::extent::{least, most};
use crate::lean::Lean;
use crate::said::{Said, says_as};
use arrayvec::ArrayVec;

/// What some rows say at a place, or that they show the shape of a symbol and are refused.
#[derive(Drop)]
pub(crate) struct Seen {
    pub(crate) said: Option<Said>,
    /// Its sides along the rows, in 1/256 dot.
    pub(crate) left: i64,
    pub(crate) right: i64,
    /// Where its first row and its last one show it.
    pub(crate) first: Sight,
    pub(crate) last: Sight,
    pub(crate) lean: Lean,
    /// How far its sides may be from those of a row, beside an eighth of the row's width.
    near: i64,
    pub(crate) rows: u32,
    ghost left_within: { IsBounded (2 ^ 40) left },
    ghost right_within: { IsBounded (2 ^ 40) right },
    ghost near_within: { IsBounded (2 ^ 40) near },
}

impl Default for Seen {
    ghost is_default = { λ seen. seen.rows ≡ 0 };

    /// What no row says.
    fn default() -> Seen {
        Seen {
            said: None,
            left: 0,
            right: 0,
            first: Sight::default(),
            last: Sight::default(),
            lean: Lean::default(),
            near: 0,
            rows: 0,
        }
    }
}

/// The most places of a tally.
const MOST: usize = 64;

#[derive(Drop)]
pub(crate) struct Tally {
    all: ArrayVec<Seen, MOST>,
    /// Whether there was no room for a symbol.
    is_short: bool,
}

/// Where a row shows a symbol: its sides along the row, in 1/256 dot, and the row, in 1/65536 dot, with the step to the next one.
#[derive(Clone, Copy)]
pub(crate) struct Sight {
    pub(crate) left: i64,
    pub(crate) right: i64,
    pub(crate) v: i64,
    pub(crate) step: i64,
    ghost left_within: { IsBounded (2 ^ 40) left },
    ghost right_within: { IsBounded (2 ^ 40) right },
    ghost v_within: { IsBounded (2 ^ 40) v },
    ghost step_within: { IsBounded (2 ^ 40) step },
}

impl Default for Sight {
    ghost is_default = { λ sight. sight.v ≡ pos 0 };

    /// Nowhere.
    fn default() -> Sight {
        Sight {
            left: 0,
            right: 0,
            v: 0,
            step: 0,
        }
    }
}

/// The most that a place is away from the first dot, in 1/65536 dot. A picture ends long before.
const FARTHEST: i64 = 1 << 39;

/// The nearest number that may be a place.
fn near(number: i64) -> i64
    ensures { IsBounded (2 ^ 39) result }
{
    number.clamp(-FARTHEST, FARTHEST)
}

impl Sight {
    /// Where a row that begins at u shows a symbol from `left` to `right` of there.
    pub(crate) fn new(u: i64, left: u32, right: u32, v: i64, step: i64) -> Sight {
        let u = near(u);
        Sight {
            left: u + i64::from(left),
            right: u + i64::from(right),
            v: near(v),
            step: near(step),
        }
    }

    /// Its middle along the row and how far down the row is, in 1/16 dot.
    fn middle(self) -> i64 {
        (self.left + self.right) >> 5
    }

    fn place(self) -> i64 {
        self.v >> 12
    }

    fn width(self) -> i64
        ensures { IsBounded (2 ^ 41) result }
    {
        self.right - self.left
    }
}

impl Seen {
    fn goes_on(&self, said: &Option<Said>, sight: Sight) -> bool {
        let width = sight.width();
        let near = width / 8 + self.near;
        let gap = width / 5 * 256 + sight.step;
        sight.v - self.last.v <= gap
            && (self.left - sight.left).abs() < near
            && (self.right - sight.right).abs() < near
            && says_as(&self.said, said)
    }

    fn add(&mut self, sight: Sight) {
        self.left = least(self.left, sight.left);
        self.right = most(self.right, sight.right);
        self.last = sight;
        self.lean.add(sight.middle(), sight.place());
        self.rows = added(self.rows, 1);
    }

    /// Whether both are at one place, or fewer dots apart than there may be between two symbols.
    fn overlaps(&self, other: &Seen, apart: i64) -> bool
        requires { IsBounded (2 ^ 41) apart }
    {
        other.left < self.right
            && self.left < other.right
            && other.first.v <= self.last.v + apart
            && self.first.v <= other.last.v + apart
    }
}

/// Whether so many rows are enough against these.
fn are_enough(rows: u32, against: u32, refused: u32) -> bool {
    rows >= 2
        && u64::from(rows) >= u64::from(against) * 4
        && u64::from(rows) * 8 >= u64::from(refused)
}

impl Tally {
    pub(crate) fn new() -> Tally {
        Tally {
            all: ArrayVec::new(),
            is_short: false,
        }
    }

    /// Whether a row says something.
    pub(crate) fn says(&self) -> bool {
        for seen in self.all.as_slice() {
            if seen.said.is_some() {
                return true;
            }
        }
        false
    }

    /// Whether there was no room for a symbol.
    pub(crate) fn is_short(&self) -> bool {
        self.is_short
    }

    pub(crate) fn all(&self) -> &[Seen] {
        self.all.as_slice()
    }

    pub(crate) fn all_mut(&mut self) -> &mut [Seen] {
        self.all.as_mut_slice()
    }

    /// Which of what was seen is sure.
    pub(crate) fn sure(&self, step: i64) -> [bool; MOST] {
        let mut sure = [false; MOST];
        for (seen, is_sure) in self.all.as_slice().iter().zip(sure.iter_mut()) {
            *is_sure = self.is_sure(seen, step);
        }
        sure
    }

    /// A row says this at a place.
    pub(crate) fn add(&mut self, said: Option<Said>, sight: Sight) {
        for seen in self.all.as_mut_slice().iter_mut() {
            if seen.goes_on(&said, sight) {
                seen.add(sight);
                return;
            }
        }
        let is_symbol = said.is_some();
        let is_put = self.all.try_push(Seen {
            said,
            left: sight.left,
            right: sight.right,
            first: sight,
            last: sight,
            lean: Lean::of_row(sight.middle(), sight.place()),
            near: sight.width() / 8,
            rows: 1,
        });
        if is_symbol && is_put.is_err() {
            self.is_short = true;
        }
    }

    /// Whether enough rows say what was seen: two at least, four times as many as say something else there, and one for each eight
    /// that are refused there.
    fn is_sure(&self, seen: &Seen, step: i64) -> bool {
        let apart = near(step) * 3;
        let mut against = 0u32;
        let mut refused = 0u32;
        for other in self.all.as_slice() {
            if seen.overlaps(other, apart) && !says_as(&seen.said, &other.said) {
                if other.said.is_some() {
                    against = added(against, other.rows);
                } else {
                    refused = added(refused, other.rows);
                }
            }
        }
        are_enough(seen.rows, against, refused)
    }
}
