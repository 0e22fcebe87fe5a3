//! Halves of EAN and UPC symbols: a guard, digits, and the middle or the other guard.
ghost use Rattle.std.specs.Prelude.{◌≡◌, ◌+◌, ◌*◌, ◌<◌, ◌≤◌, ◌^◌, length};

use crate::digits::{MOST_INK, NO_INK};
use crate::parts::{are_even, distance};

/// The most ends of a half.
const ENDS: usize = 34;

/// The ends of a half, inward from its outer one, its digits, and the runs behind them.
#[derive(Clone, Copy)]
pub(crate) struct Half {
    at: [u32; 34],
    pub(crate) digits: usize,
    trail: usize,
    ghost few: { digits ≤ 6 },
    ghost short: { trail ≤ 6 },
}

impl Half {
    /// The half at the left of a window of ends.
    pub(crate) fn at_left(ends: &[u32], digits: usize, trail: usize) -> Half
        requires few { digits ≤ 6 }
        requires short { trail ≤ 6 }
    {
        let mut at = [0; ENDS];
        for (end, place) in at.iter_mut().enumerate() {
            *place = distance(ends, 0, end);
        }
        Half { at, digits, trail }
    }

    /// The half at its right, mirrored.
    pub(crate) fn at_right(ends: &[u32], digits: usize, trail: usize) -> Half
        requires few { digits ≤ 6 }
        requires short { trail ≤ 6 }
    {
        let last = ends.len().saturating_sub(1);
        let mut at = [0; ENDS];
        for (end, place) in at.iter_mut().enumerate() {
            *place = distance(ends, last.saturating_sub(end), last);
        }
        Half { at, digits, trail }
    }

    /// How far one end is from another.
    pub(crate) fn width(&self, from: usize, to: usize) -> u32
        requires from { from < 34 }
        requires to { to < 34 }
    {
        self.at[to].saturating_sub(self.at[from])
    }

    /// The end behind its digits.
    fn middle(&self) -> usize
        ensures { result ≤ 27 }
    {
        3 + 4 * self.digits
    }

    fn all(&self) -> u32 {
        self.at[self.middle() + self.trail]
    }

    fn modules(&self) -> u32
        ensures { result ≤ 51 }
    {
        (3 + 7 * self.digits + self.trail) as u32
    }

    /// The mean module.
    pub(crate) fn module(&self) -> u32 {
        self.all().checked_div(self.modules()).unwrap_or(0)
    }

    fn digit(&self, digit: usize) -> u32
        requires { digit < 6 }
    {
        self.width(3 + 4 * digit, 7 + 4 * digit)
    }

    /// Whether so much light beside it is 2.5 modules or more; if it has four digits, 4.5.
    fn has_light(&self, outside: u32) -> bool {
        let outside = u64::from(outside);
        let quiet = if self.digits == 4 { 9 } else { 5 };
        14 * outside >= quiet * u64::from(self.digit(0))
            && 2 * outside * u64::from(self.modules()) >= quiet * u64::from(self.all())
    }

    /// Whether the scale is steady: from digit to digit, and that of each near the mean.
    fn is_steady(&self) -> bool {
        let modules = u64::from(self.modules());
        let all = u64::from(self.all());
        let mut before = self.digit(0);
        for digit in 0..self.digits {
            let here = self.digit(digit);
            let wide = 5 * u64::from(here) * modules;
            if !are_even(before, here) || wide > 63 * all || 175 * all > 9 * wide {
                return false;
            }
            before = here;
        }
        true
    }

    /// Whether each run of the guard and of what is behind the digits has a module: by the distances of like ends, to 0.55.
    fn has_guards(&self) -> bool {
        let first = self.digit(0);
        if !is_two(self.width(0, 2), first) || !is_two(self.width(1, 3), first) {
            return false;
        }
        let middle = self.middle();
        let last = self.width(middle.saturating_sub(4), middle);
        for run in 1..self.trail {
            if !is_two(self.width(middle + run - 1, middle + run + 1), last) {
                return false;
            }
        }
        true
    }

    /// Whether it may be half of a symbol, with so much light beside it.
    pub(crate) fn is_likely(&self, outside: u32) -> bool {
        self.has_light(outside) && self.has_guards() && self.is_steady()
    }

    /// The sum of the runs outside of its digits that are bars, or of those that are not.
    fn guard_runs(&self, odd: usize) -> u64 {
        let mut sum = 0u64;
        for run in 0..self.middle() + self.trail {
            if (run < 3 || run >= self.middle()) && run % 2 == odd {
                sum = sum.saturating_add(u64::from(self.width(run, run + 1)));
            }
        }
        sum
    }

    /// What these say of ink.
    pub(crate) fn guard_ink(&self) -> u32
        ensures { result ≤ 122 }
    {
        let bars = 2 + self.trail as u64 / 2;
        let spaces = 1 + (self.trail as u64).div_ceil(2);
        let dark = self.guard_runs(0).saturating_mul(spaces);
        let light = self.guard_runs(1).saturating_mul(bars);
        let more = (48 * u64::from(self.modules())).saturating_mul(dark.abs_diff(light));
        let all = u64::from(self.all()) * bars * spaces;
        let ink = more.checked_div(all).unwrap_or(0).min(u64::from(MOST_INK)) as u32;
        if dark < light {
            NO_INK - ink
        } else {
            NO_INK + ink
        }
    }
}

/// Whether a width is two modules, to 0.55, where so much is seven.
fn is_two(width: u32, seven: u32) -> bool {
    let away = (7 * u64::from(width)).abs_diff(2 * u64::from(seven));
    20 * away < 11 * u64::from(seven)
}
