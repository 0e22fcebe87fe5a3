//! ITF-14, by the means of its narrow and wide elements.
ghost use Rattle.std.specs.Prelude.{◌≡◌, ◌+◌, ◌*◌, ◌<◌, ◌≤◌, ◌^◌, length};

use crate::parts::{are_even, distance, parts_of, square};
use crate::reading::{Kind, Reading};
use line_core::FIVES;

/// The elements of one colour in all pairs of digits.
const ELEMENTS: usize = 35;

/// The means of the 21 narrow and the 14 wide elements of a colour, in 1/48 of a mean module.
#[derive(Clone, Copy)]
struct Means {
    narrow: u32,
    wide: u32,
    ghost narrow_few: { narrow ≤ 4096 },
    ghost wide_few: { wide ≤ 4096 },
}

/// How many elements are narrower, or as narrow and before it.
fn narrower(elements: &[u32; 35], element: usize) -> usize
    requires { element < 35 }
{
    let own = elements[element];
    let mut count = 0usize;
    for (other, width) in elements.iter().enumerate() {
        if *width < own || (*width == own && other < element) {
            count = count.saturating_add(1);
        }
    }
    count
}

fn mean(sum: u64, count: u64) -> u32
    ensures { result ≤ 4096 }
{
    sum.saturating_add(count / 2)
        .checked_div(count)
        .unwrap_or(0)
        .min(4096) as u32
}

fn means_of(elements: &[u32; 35]) -> Means {
    let mut narrow = 0u64;
    let mut wide = 0u64;
    for element in 0..ELEMENTS {
        let width = u64::from(elements[element]);
        if narrower(elements, element) < 21 {
            narrow = narrow.saturating_add(width);
        } else {
            wide = wide.saturating_add(width);
        }
    }
    Means {
        narrow: mean(narrow, 21),
        wide: mean(wide, 14),
    }
}

/// The misfit of a digit: the square of how far its five elements are from narrow and wide.
fn misfit_of(elements: &[u32; 35], pair: usize, means: Means, widths: &[u8; 5]) -> u64
    requires { pair < 7 }
{
    let mut misfit = 0u64;
    for (element, modules) in widths.iter().enumerate() {
        let mean = if *modules == 1 {
            means.narrow
        } else {
            means.wide
        };
        let away = elements[5 * pair + element].abs_diff(mean);
        misfit = misfit.saturating_add(square(away));
    }
    misfit
}

/// The digit that five elements are most like, and its misfit.
fn nearest(elements: &[u32; 35], pair: usize, means: Means) -> (u8, u64)
    requires { pair < 7 }
{
    let mut best = 0;
    let mut least = u64::MAX;
    for digit in 0..10u8 {
        let misfit = misfit_of(elements, pair, means, &FIVES[usize::from(digit)]);
        if misfit < least {
            least = misfit;
            best = digit;
        }
    }
    (best, least)
}

/// The elements of one colour, bars (0) or spaces (1), of all pairs, each on its pair's scale of 17 modules.
fn elements_of(ends: &[u32], colour: usize) -> [u32; 35]
    requires { colour < 2 }
{
    let mut elements = [0; ELEMENTS];
    for (number, element) in elements.iter_mut().enumerate() {
        let first = 4 + number / 5 * 10;
        let run = first + number % 5 * 2 + colour;
        *element = parts_of(
            distance(ends, run, run + 1),
            distance(ends, first, first + 10),
            816,
        );
    }
    elements
}

/// Whether the guards and the light beside them may be a symbol's.
fn has_guards(ends: &[u32], left: u32, right: u32) -> bool {
    let first = u64::from(distance(ends, 4, 14));
    let last = u64::from(distance(ends, 64, 74));
    let one = u64::from(distance(ends, 0, 2));
    let two = u64::from(distance(ends, 2, 4));
    let wide = u64::from(distance(ends, 74, 75));
    let space = u64::from(distance(ends, 75, 76));
    let bar = u64::from(distance(ends, 76, 77));
    34 * u64::from(left) >= 5 * first
        && 34 * u64::from(right) >= 5 * last
        && 85 * one <= 17 * first
        && 170 * one >= 11 * first
        && 85 * two <= 17 * first
        && 34 * wide >= 3 * last
        && 17 * space <= 2 * last
        && 17 * bar <= 2 * last
}

/// Whether the scale is steady from pair to pair.
fn is_steady(ends: &[u32]) -> bool {
    let mut before = distance(ends, 4, 14);
    for pair in 0..7usize {
        let here = distance(ends, 4 + 10 * pair, 14 + 10 * pair);
        if !are_even(before, here) {
            return false;
        }
        before = here;
    }
    true
}

/// 16,384 times the square of how far an element may be off, where the narrow ones and the module are so wide.
fn sure_of(bars: Means, spaces: Means, module: u32) -> Option<u64> {
    let unit = (bars.narrow + spaces.narrow) / 2;
    let own = 21_474_836u64.checked_div(square(module))? + 655;
    Some(square(unit).saturating_mul(own))
}

fn is_over(misfit: u64, times: u64, sure: u64) -> bool {
    misfit.saturating_mul(32_768) > sure.saturating_mul(times).saturating_mul(3)
}

/// What the ends of a window of ITF-14 are, with so much light beside it.
pub(crate) fn read_itf(ends: &[u32], left: u32, right: u32) -> Option<Reading> {
    if !has_guards(ends, left, right) || !is_steady(ends) {
        return None;
    }
    let bars = elements_of(ends, 0);
    let spaces = elements_of(ends, 1);
    let dark = means_of(&bars);
    let light = means_of(&spaces);
    if 10 * (dark.wide + light.wide) < 17 * (dark.narrow + light.narrow) {
        return None;
    }
    let sure = sure_of(dark, light, distance(ends, 4, 14) / 17)?;
    let mut reading = Reading::of(Kind::Itf14, 14);
    let mut sum = 0u64;
    for (number, character) in reading.characters.iter_mut().enumerate().take(14) {
        let (digit, misfit) = if number % 2 == 0 {
            nearest(&bars, number / 2, dark)
        } else {
            nearest(&spaces, number / 2, light)
        };
        if is_over(misfit, 9, sure) {
            return None;
        }
        *character = digit;
        sum = sum.saturating_add(misfit);
    }
    if is_over(sum, 84, sure) {
        None
    } else {
        Some(reading)
    }
}
