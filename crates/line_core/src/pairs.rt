//! Whether each digit of ITF-14 is closer to its own elements than to those of any other.
ghost use Rattle.std.specs.Prelude.{◌≡◌, ◌≢◌, ◌+◌, ◌*◌, ◌<◌, ◌≤◌, ◌^◌, ℕ, IfSome, IsTrue, length};
ghost use Rattle.ean_code.specs.TwoOfFive.{five_widths};
ghost use Rattle.line_core.specs.Pairs.{AreFiveWidths, IsFiveAt, IsNearestFive, ShowsFives, element, element_at, element_width, five_elements_at, pair_misfit};

use crate::codes::Five;
use crate::digits::square_of;

/// The elements of the digits 0 to 9, narrow (1) or wide (3) (ISO/IEC 16390, symbol character encodation).
pub static FIVES: [[u8; 5]; 10] = [
    [1, 1, 3, 3, 1],
    [3, 1, 1, 1, 3],
    [1, 3, 1, 1, 3],
    [3, 3, 1, 1, 1],
    [1, 1, 3, 1, 3],
    [3, 1, 3, 1, 1],
    [1, 3, 3, 1, 1],
    [1, 1, 1, 3, 3],
    [3, 1, 1, 3, 1],
    [1, 3, 1, 3, 1],
];

/// The elements of a digit.
fn modules_of(digit: u8) -> &'static [u8]
    requires { digit < 10 }
    ensures value { result.now ≡ five_widths digit }
    ensures five { length result.now ≡ 5 }
{
    &FIVES[usize::from(digit)]
}

/// A width in 1/48 of a mean module, if a pair of digits is this wide; none if it is far more.
fn width_in(distance: u32, pair: u32) -> Option<u32>
    ensures value { IfSome result (λ parts. parts ≡ element_width distance pair) }
    ensures few { IfSome result (λ parts. parts ≤ 4096) }
{
    let all = u64::from(distance) * 816 + u64::from(pair / 2);
    let parts = all.checked_div(u64::from(pair))?;
    if parts > 4096 {
        return None;
    }
    Some(parts as u32)
}

/// An element of one colour of the pair that begins at an end.
fn element_of(ends: &[u32], first: usize, colour: usize, number: usize) -> Option<u32>
    requires within { first + 10 < length ends.now }
    requires colour { colour < 2 }
    requires number { number < 5 }
    ensures value { IfSome result (λ parts. parts ≡ element_at ends.now first colour number) }
    ensures few { IfSome result (λ parts. parts ≤ 4096) }
{
    let begin = first + 2 * number + colour;
    let pair = ends[first + 10].saturating_sub(ends[first]);
    width_in(ends[begin + 1].saturating_sub(ends[begin]), pair)
}

/// The elements of one colour of the pair that begins at an end.
fn five_of(ends: &[u32], first: usize, colour: usize) -> Option<Five>
    requires within { first + 10 < length ends.now }
    requires colour { colour < 2 }
    ensures value { IfSome result (λ seen. seen ≡ five_elements_at ends.now first colour) }
    ensures one { IfSome result (λ seen. seen.one ≤ 4096) }
    ensures two { IfSome result (λ seen. seen.two ≤ 4096) }
    ensures three { IfSome result (λ seen. seen.three ≤ 4096) }
    ensures four { IfSome result (λ seen. seen.four ≤ 4096) }
    ensures five { IfSome result (λ seen. seen.five ≤ 4096) }
{
    let one = element_of(ends, first, colour, 0)?;
    let two = element_of(ends, first, colour, 1)?;
    let three = element_of(ends, first, colour, 2)?;
    let four = element_of(ends, first, colour, 3)?;
    let five = element_of(ends, first, colour, 4)?;
    Some(Five {
        one,
        two,
        three,
        four,
        five,
    })
}

/// The width of an element.
fn element(narrow: u32, wide: u32, modules: u8) -> u32
    requires narrow { narrow ≤ 4096 }
    requires wide { wide ≤ 4096 }
    ensures value { result ≡ element narrow wide modules }
    ensures few { result ≤ 4096 }
{
    if modules == 1 { narrow } else { wide }
}

/// The difference between elements and those of a digit.
fn misfit(seen: Five, narrow: u32, wide: u32, modules: &[u8]) -> u64
    requires one { seen.one ≤ 4096 }
    requires two { seen.two ≤ 4096 }
    requires three { seen.three ≤ 4096 }
    requires four { seen.four ≤ 4096 }
    requires five { seen.five ≤ 4096 }
    requires narrow { narrow ≤ 4096 }
    requires wide { wide ≤ 4096 }
    requires count { length modules.now ≡ 5 }
    ensures value { result ≡ pair_misfit seen narrow wide modules.now }
    ensures few { result < 2 ^ 40 }
{
    square_of(seen.one.abs_diff(element(narrow, wide, modules[0])))
        + square_of(seen.two.abs_diff(element(narrow, wide, modules[1])))
        + square_of(seen.three.abs_diff(element(narrow, wide, modules[2])))
        + square_of(seen.four.abs_diff(element(narrow, wide, modules[3])))
        + square_of(seen.five.abs_diff(element(narrow, wide, modules[4])))
}

/// Whether another digit fits elements less well than one whose misfit is known.
fn is_less_like(seen: Five, narrow: u32, wide: u32, own: u64, digit: u8, other: u8) -> bool
    requires one { seen.one ≤ 4096 }
    requires two { seen.two ≤ 4096 }
    requires three { seen.three ≤ 4096 }
    requires four { seen.four ≤ 4096 }
    requires five { seen.five ≤ 4096 }
    requires narrow { narrow ≤ 4096 }
    requires wide { wide ≤ 4096 }
    requires within { other < 10 }
    ensures { IsTrue result → other ≢ digit → own < pair_misfit seen narrow wide (five_widths other) }
{
    other == digit || own < misfit(seen, narrow, wide, modules_of(other))
}

/// The largest misfit of a digit.
const MOST_MISFIT: u64 = 1296;

/// Whether elements fit this digit better than any other, and well enough.
fn is_nearest(seen: Five, narrow: u32, wide: u32, digit: u8) -> bool
    requires one { seen.one ≤ 4096 }
    requires two { seen.two ≤ 4096 }
    requires three { seen.three ≤ 4096 }
    requires four { seen.four ≤ 4096 }
    requires five { seen.five ≤ 4096 }
    requires narrow { narrow ≤ 4096 }
    requires wide { wide ≤ 4096 }
    ensures { IsTrue result → IsNearestFive seen narrow wide digit }
{
    if digit >= 10 {
        return false;
    }
    let own = misfit(seen, narrow, wide, modules_of(digit));
    if own > MOST_MISFIT {
        return false;
    }
    'others: for other in 0..10u8 {
        if !is_less_like(seen, narrow, wide, own, digit, other) {
            return false;
        }
    }
    true
}

/// Whether five widths of a colour, from a run on, are those of a digit.
fn are_widths_of(widths: &[u16], first: usize, digit: u8) -> bool
    requires within { first + 9 ≤ length widths.now }
    requires digit { digit < 10 }
    ensures { IsTrue result → AreFiveWidths widths.now first digit }
{
    let modules = modules_of(digit);
    'elements: for element in 0..5usize {
        if widths[first + 2 * element] != 48 * u16::from(modules[element]) {
            return false;
        }
    }
    true
}

/// The digit that five widths of a colour are those of.
fn digit_of(widths: &[u16], first: usize) -> Option<u8>
    requires within { first + 9 ≤ length widths.now }
    ensures said { IfSome result (λ digit. AreFiveWidths widths.now first digit) }
    ensures within { IfSome result (λ digit. digit < 10) }
{
    for digit in 0..10u8 {
        if are_widths_of(widths, first, digit) {
            return Some(digit);
        }
    }
    None
}

/// Whether the pair that begins at an end shows, in one colour, the digit that the widths mean.
fn is_five_at(
    ends: &[u32],
    widths: &[u16],
    narrow: u32,
    wide: u32,
    colour: usize,
    first: usize,
) -> bool
    requires within { first + 10 < length ends.now }
    requires widths { first + 11 ≤ length widths.now }
    requires colour { colour < 2 }
    requires narrow { narrow ≤ 4096 }
    requires wide { wide ≤ 4096 }
    ensures { IsTrue result → IsFiveAt ends.now widths.now narrow wide colour first }
{
    let Some(digit) = digit_of(widths, first + 1 + colour) else {
        return false;
    };
    let Some(seen) = five_of(ends, first, colour) else {
        return false;
    };
    is_nearest(seen, narrow, wide, digit)
}

/// The first end of the first pair.
const FIRST: usize = 4;

/// The mean width of the elements of a colour that have this many modules, over all pairs.
fn mean_of(ends: &[u32], widths: &[u16], colour: usize, modules: u16) -> u32
    requires within { 74 < length ends.now }
    requires widths { 75 ≤ length widths.now }
    requires colour { colour < 2 }
    requires modules { modules ≤ 4 }
    ensures { result ≤ 4096 }
{
    let mut sum = 0u32;
    let mut count = 0u32;
    for number in 0..35usize {
        let first = FIRST + number / 5 * 10;
        let run = first + number % 5 * 2 + colour;
        if widths[run + 1] == 48 * modules {
            let width = element_of(ends, first, colour, number % 5).unwrap_or(0);
            sum = sum.saturating_add(width);
            count = count.saturating_add(1);
        }
    }
    sum.saturating_add(count / 2)
        .checked_div(count)
        .unwrap_or(0)
        .min(4096)
}

/// Whether the seven digits of a colour are shown, by one width of narrow elements and one of wide ones.
pub(crate) fn show_fives(ends: &[u32], widths: &[u16], colour: usize) -> bool
    requires colour { colour < 2 }
    ensures { IsTrue result → ShowsFives ends.now widths.now colour }
{
    if ends.len() <= 74 || widths.len() < 75 {
        return false;
    }
    let narrow = mean_of(ends, widths, colour, 1);
    let wide = mean_of(ends, widths, colour, 3);
    'pairs: for number in 0..7usize {
        if !is_five_at(ends, widths, narrow, wide, colour, FIRST + 10 * number) {
            return false;
        }
    }
    true
}
