//! Code 128.
ghost use Rattle.std.specs.Prelude.{◌≡◌, ◌+◌, ◌*◌, ◌<◌, ◌≤◌, ◌^◌, IfSome, length};

use crate::parts::{are_even, distance, parts_of, square, sure_of};
use crate::reading::{Kind, MOST_CHARACTERS, Reading, Row};
use line_core::CODES;

/// By how much bars are too wide, in 1/48 module, is more than this, or less if they are too narrow.
const NO_INK: u32 = 64;

/// The most of it, 0.6 module.
const MOST_INK: u32 = 29;

/// The character that some ends are most like, what it says of ink (three times, with `ZERO` more), and its misfit, the square of what is missing.
#[derive(Clone, Copy)]
struct Likest {
    character: u8,
    ink: u32,
    misfit: u64,
}

const ZERO: u32 = 65_535;

/// The five inner ends of a character, in 1/48 module from its first; so many more where a bar ends.
fn inner_at(ends: &[u32], first: usize) -> [u32; 5] {
    let all = distance(ends, first, first.saturating_add(6));
    let mut inner = [0; 5];
    for (end, place) in inner.iter_mut().enumerate() {
        *place = parts_of(
            distance(ends, first, first.saturating_add(end + 1)),
            all,
            528,
        );
    }
    inner
}

/// The square of how far an end is from where a character has it, so many modules behind its first; if a bar ends there it is farther by the ink, with
/// `NO_INK` more.
fn away(place: u32, modules: u32, ink: u32) -> u64
    requires modules { modules ≤ 1275 }
    requires ink { ink ≤ 93 }
{
    square(place.saturating_add(NO_INK).abs_diff(48 * modules + ink))
}

/// The misfit of a character; one that is not less than `most` need not be exact.
fn misfit_of(inner: &[u32; 5], widths: &[u8; 6], ink: u32, most: u64) -> u64
    requires { ink ≤ 93 }
{
    let one = u32::from(widths[0]);
    let two = one + u32::from(widths[1]);
    let three = two + u32::from(widths[2]);
    let four = three + u32::from(widths[3]);
    let spaces = away(inner[1], two, NO_INK).saturating_add(away(inner[3], four, NO_INK));
    if spaces >= most {
        return spaces;
    }
    let five = four + u32::from(widths[4]);
    spaces
        .saturating_add(away(inner[0], one, ink))
        .saturating_add(away(inner[2], three, ink))
        .saturating_add(away(inner[4], five, ink))
}

/// Three times the ink by which a character becomes what is seen.
fn ink_in(inner: &[u32; 5], widths: &[u8; 6]) -> u32 {
    let seen = inner[0].saturating_add(inner[2]).saturating_add(inner[4]);
    let one = u32::from(widths[0]);
    let three = one + u32::from(widths[1]) + u32::from(widths[2]);
    let five = three + u32::from(widths[3]) + u32::from(widths[4]);
    seen.saturating_add(ZERO)
        .saturating_sub(48 * (one + three + five))
}

/// The character, from one to another, that the ends are most like.
fn nearest(inner: &[u32; 5], ink: u32, from: u8, to: u8) -> Likest
    requires ink { ink ≤ 93 }
    requires few { to ≤ 107 }
{
    let mut best = Likest {
        character: 0,
        ink: ZERO,
        misfit: u64::MAX,
    };
    for character in from..to {
        let pattern = &CODES[usize::from(character)];
        let misfit = misfit_of(inner, pattern, ink, best.misfit);
        if misfit < best.misfit {
            best = Likest {
                character,
                ink: ink_in(inner, pattern),
                misfit,
            };
        }
    }
    best
}

/// Whether a misfit is over so many times what is sure, for five ends.
fn is_over(misfit: u64, times: u64, sure: u64) -> bool {
    misfit.saturating_mul(160) > sure.saturating_mul(times).saturating_mul(13)
}

/// A row, and its ends from the first of a window on.
#[derive(Clone, Copy)]
pub(crate) struct Rest<'a> {
    pub(crate) row: &'a Row<'a>,
    pub(crate) first: usize,
    pub(crate) ends: &'a [u32],
}

/// What is known of a symbol: how sure its distances are, and its ink.
#[derive(Clone, Copy)]
struct Known {
    sure: u64,
    ink: u32,
    ghost little: { ink ≤ 93 },
}

impl<'a> Rest<'a> {
    /// The width of a character of six runs.
    fn width(&self, first: usize) -> u32 {
        distance(self.ends, first, first.saturating_add(6))
    }

    /// Whether the first bar may be a start's, with so much light before it.
    fn may_start(&self, light: u32) -> bool {
        let width = u64::from(self.width(0));
        let bar = u64::from(distance(self.ends, 0, 1));
        22 * u64::from(light) >= 5 * width && 55 * bar <= 16 * width && 110 * bar >= 9 * width
    }

    /// Whether the fewest characters that a symbol has are as wide as their neighbours.
    fn are_even(&self) -> bool {
        for number in 0..3usize {
            if !are_even(self.width(6 * number), self.width(6 * number + 6)) {
                return false;
            }
        }
        true
    }

    /// The ink by which the first character is most like a start.
    fn start(&self) -> Option<Known> {
        let sure = sure_of(self.width(0) / 11);
        let inner = inner_at(self.ends, 0);
        let mut best = NO_INK;
        let mut least = u64::MAX;
        for step in 0..7u32 {
            let ink = NO_INK - 18 + 6 * step;
            let misfit = nearest(&inner, ink, 103, 106).misfit;
            if misfit < least {
                least = misfit;
                best = ink;
            }
        }
        if is_over(least, 14, sure) {
            return None;
        }
        Some(Known {
            sure,
            ink: best.min(NO_INK + MOST_INK),
        })
    }

    /// Whether the stop stands here, with light behind it.
    fn is_stop(&self, first: usize, known: Known) -> bool {
        let inner = inner_at(self.ends, first);
        if is_over(
            misfit_of(&inner, &CODES[106], known.ink, u64::MAX),
            14,
            known.sure,
        ) {
            return false;
        }
        let width = u64::from(self.width(first));
        let last = first.saturating_add(7);
        let bar = u64::from(distance(self.ends, first.saturating_add(6), last));
        let away = (528 * bar).abs_diff(
            (96 + u64::from(known.ink)).saturating_sub(u64::from(NO_INK)) * width,
        );
        away < 38 * width
            && 22
                * u64::from(
                    self.row
                        .light_at(self.first.saturating_add(last), true)
                        .counted,
                )
                >= 5 * width
    }

    /// How many characters stand before the stop.
    fn count(&self, known: Known) -> Option<usize>
        ensures { IfSome result (λ count. count < 100) }
    {
        let mut before = self.width(0);
        for number in 1..MOST_CHARACTERS {
            let first = 6 * number;
            if first + 7 >= self.ends.len() {
                return None;
            }
            let width = self.width(first);
            if !are_even(before, width) {
                return None;
            }
            before = width;
            if number >= 3 && self.is_stop(first, known) {
                return Some(number);
            }
            let misfit = nearest(&inner_at(self.ends, first), known.ink, 0, 103).misfit;
            if is_over(misfit, 40, known.sure) {
                return None;
            }
        }
        None
    }

    /// The ink that so many characters say in the mean.
    fn ink(&self, count: usize, known: Known) -> u32
        ensures { result ≤ 93 }
    {
        let mut sum = 0u64;
        for number in 0..count {
            let inner = inner_at(self.ends, number.saturating_mul(6));
            sum = sum.saturating_add(u64::from(nearest(&inner, known.ink, 0, 106).ink));
        }
        let mean = sum
            .checked_div((count as u64).saturating_mul(3))
            .unwrap_or(0);
        let least = u64::from(ZERO / 3 - MOST_INK);
        mean.saturating_sub(least).min(u64::from(2 * MOST_INK)) as u32 + NO_INK - MOST_INK
    }

    /// What the ends of a window of Code 128 are, with so much light before it.
    pub(crate) fn read_code(&self, light: u32) -> Option<Reading> {
        if self.ends.len() < 26 || !self.may_start(light) || !self.are_even() {
            return None;
        }
        let start = self.start()?;
        let count = self.count(start)?;
        let ink = self.ink(count, start);
        let mut reading = Reading::of(Kind::Code128, count);
        let mut sum = 0u64;
        for (number, character) in reading.characters.iter_mut().enumerate().take(count) {
            let inner = inner_at(self.ends, number.saturating_mul(6));
            let found = nearest(&inner, ink, 0, 106);
            if is_over(found.misfit, 13, start.sure) {
                return None;
            }
            *character = found.character;
            sum = sum.saturating_add(found.misfit);
        }
        if is_over(sum, 6 * count as u64, start.sure) {
            return None;
        }
        Some(reading)
    }
}
