//! Whether each character of Code 128 is closer to its own pattern than to any other.
ghost use Rattle.std.specs.Prelude.{◌≡◌, ◌≢◌, ◌+◌, ◌*◌, ◌<◌, ◌≤◌, ◌^◌, ℕ, IfSome, IsTrue, length};
ghost use Rattle.line_core.specs.Codes.{AreCodeWidths, IsCodeAt, IsNearestCode, ShowsCodes, code_misfit_of, code_pattern, code_place, five_at};

use crate::digits::square_of;

/// The five inner ends of a character, in 1/48 module from its first.
#[derive(Clone, Copy)]
pub struct Five {
    pub one: u32,
    pub two: u32,
    pub three: u32,
    pub four: u32,
    pub five: u32,
}

/// The widths in modules of the values 0 to 102, of the start characters A, B and C, 103 to 105, and of the first six runs of the stop character, six
/// each, the bar first (ISO/IEC 15417, symbol character encodation).
#[rattlefmt::skip]
pub static CODES: [[u8; 6]; 107] = [
    [2, 1, 2, 2, 2, 2], [2, 2, 2, 1, 2, 2], [2, 2, 2, 2, 2, 1], [1, 2, 1, 2, 2, 3], [1, 2, 1, 3, 2, 2],
    [1, 3, 1, 2, 2, 2], [1, 2, 2, 2, 1, 3], [1, 2, 2, 3, 1, 2], [1, 3, 2, 2, 1, 2], [2, 2, 1, 2, 1, 3],
    [2, 2, 1, 3, 1, 2], [2, 3, 1, 2, 1, 2], [1, 1, 2, 2, 3, 2], [1, 2, 2, 1, 3, 2], [1, 2, 2, 2, 3, 1],
    [1, 1, 3, 2, 2, 2], [1, 2, 3, 1, 2, 2], [1, 2, 3, 2, 2, 1], [2, 2, 3, 2, 1, 1], [2, 2, 1, 1, 3, 2],
    [2, 2, 1, 2, 3, 1], [2, 1, 3, 2, 1, 2], [2, 2, 3, 1, 1, 2], [3, 1, 2, 1, 3, 1], [3, 1, 1, 2, 2, 2],
    [3, 2, 1, 1, 2, 2], [3, 2, 1, 2, 2, 1], [3, 1, 2, 2, 1, 2], [3, 2, 2, 1, 1, 2], [3, 2, 2, 2, 1, 1],
    [2, 1, 2, 1, 2, 3], [2, 1, 2, 3, 2, 1], [2, 3, 2, 1, 2, 1], [1, 1, 1, 3, 2, 3], [1, 3, 1, 1, 2, 3],
    [1, 3, 1, 3, 2, 1], [1, 1, 2, 3, 1, 3], [1, 3, 2, 1, 1, 3], [1, 3, 2, 3, 1, 1], [2, 1, 1, 3, 1, 3],
    [2, 3, 1, 1, 1, 3], [2, 3, 1, 3, 1, 1], [1, 1, 2, 1, 3, 3], [1, 1, 2, 3, 3, 1], [1, 3, 2, 1, 3, 1],
    [1, 1, 3, 1, 2, 3], [1, 1, 3, 3, 2, 1], [1, 3, 3, 1, 2, 1], [3, 1, 3, 1, 2, 1], [2, 1, 1, 3, 3, 1],
    [2, 3, 1, 1, 3, 1], [2, 1, 3, 1, 1, 3], [2, 1, 3, 3, 1, 1], [2, 1, 3, 1, 3, 1], [3, 1, 1, 1, 2, 3],
    [3, 1, 1, 3, 2, 1], [3, 3, 1, 1, 2, 1], [3, 1, 2, 1, 1, 3], [3, 1, 2, 3, 1, 1], [3, 3, 2, 1, 1, 1],
    [3, 1, 4, 1, 1, 1], [2, 2, 1, 4, 1, 1], [4, 3, 1, 1, 1, 1], [1, 1, 1, 2, 2, 4], [1, 1, 1, 4, 2, 2],
    [1, 2, 1, 1, 2, 4], [1, 2, 1, 4, 2, 1], [1, 4, 1, 1, 2, 2], [1, 4, 1, 2, 2, 1], [1, 1, 2, 2, 1, 4],
    [1, 1, 2, 4, 1, 2], [1, 2, 2, 1, 1, 4], [1, 2, 2, 4, 1, 1], [1, 4, 2, 1, 1, 2], [1, 4, 2, 2, 1, 1],
    [2, 4, 1, 2, 1, 1], [2, 2, 1, 1, 1, 4], [4, 1, 3, 1, 1, 1], [2, 4, 1, 1, 1, 2], [1, 3, 4, 1, 1, 1],
    [1, 1, 1, 2, 4, 2], [1, 2, 1, 1, 4, 2], [1, 2, 1, 2, 4, 1], [1, 1, 4, 2, 1, 2], [1, 2, 4, 1, 1, 2],
    [1, 2, 4, 2, 1, 1], [4, 1, 1, 2, 1, 2], [4, 2, 1, 1, 1, 2], [4, 2, 1, 2, 1, 1], [2, 1, 2, 1, 4, 1],
    [2, 1, 4, 1, 2, 1], [4, 1, 2, 1, 2, 1], [1, 1, 1, 1, 4, 3], [1, 1, 1, 3, 4, 1], [1, 3, 1, 1, 4, 1],
    [1, 1, 4, 1, 1, 3], [1, 1, 4, 3, 1, 1], [4, 1, 1, 1, 1, 3], [4, 1, 1, 3, 1, 1], [1, 1, 3, 1, 4, 1],
    [1, 1, 4, 1, 3, 1], [3, 1, 1, 1, 4, 1], [4, 1, 1, 1, 3, 1], [2, 1, 1, 4, 1, 2], [2, 1, 1, 2, 1, 4],
    [2, 1, 1, 2, 3, 2], [2, 3, 3, 1, 1, 1],
];

/// The width of a character.
#[tactic(auto, unfolding(code128_code::specs::Characters::patterns))]
fn widths_of(value: u8) -> &'static [u8]
    requires { value < 107 }
    ensures value { result.now ≡ code_pattern value }
    ensures six { length result.now ≡ 6 }
{
    &CODES[usize::from(value)]
}

/// A distance in 1/48 module, if eleven modules are this wide; none if it is far more.
fn place(distance: u32, eleven: u32) -> Option<u32>
    ensures value { IfSome result (λ parts. parts ≡ code_place distance eleven) }
    ensures few { IfSome result (λ parts. parts ≤ 4096) }
{
    let all = u64::from(distance) * 528 + u64::from(eleven / 2);
    let parts = all.checked_div(u64::from(eleven))?;
    if parts > 4096 {
        return None;
    }
    Some(parts as u32)
}

/// The inner ends of the character that begins at an end.
fn five_of(ends: &[u32], first: usize) -> Option<Five>
    requires { first + 6 < length ends.now }
    ensures value { IfSome result (λ seen. seen ≡ five_at ends.now first) }
    ensures one { IfSome result (λ seen. seen.one ≤ 4096) }
    ensures two { IfSome result (λ seen. seen.two ≤ 4096) }
    ensures three { IfSome result (λ seen. seen.three ≤ 4096) }
    ensures four { IfSome result (λ seen. seen.four ≤ 4096) }
    ensures five { IfSome result (λ seen. seen.five ≤ 4096) }
{
    let begin = ends[first];
    let eleven = ends[first + 6].saturating_sub(begin);
    let one = place(ends[first + 1].saturating_sub(begin), eleven)?;
    let two = place(ends[first + 2].saturating_sub(begin), eleven)?;
    let three = place(ends[first + 3].saturating_sub(begin), eleven)?;
    let four = place(ends[first + 4].saturating_sub(begin), eleven)?;
    let five = place(ends[first + 5].saturating_sub(begin), eleven)?;
    Some(Five {
        one,
        two,
        three,
        four,
        five,
    })
}

/// The difference between inner ends and those of a character of this width.
fn misfit(seen: Five, ink: u32, widths: &[u8]) -> u64
    requires one { seen.one ≤ 4096 }
    requires two { seen.two ≤ 4096 }
    requires three { seen.three ≤ 4096 }
    requires four { seen.four ≤ 4096 }
    requires five { seen.five ≤ 4096 }
    requires ink { ink ≤ 128 }
    requires six { length widths.now ≡ 6 }
    ensures value { result ≡ code_misfit_of seen ink widths.now }
    ensures few { result < 2 ^ 40 }
{
    let one = u32::from(widths[0]);
    let two = one + u32::from(widths[1]);
    let three = two + u32::from(widths[2]);
    let four = three + u32::from(widths[3]);
    let five = four + u32::from(widths[4]);
    square_of((seen.one + 64).abs_diff(48 * one + ink))
        + square_of(seen.two.abs_diff(48 * two))
        + square_of((seen.three + 64).abs_diff(48 * three + ink))
        + square_of(seen.four.abs_diff(48 * four))
        + square_of((seen.five + 64).abs_diff(48 * five + ink))
}

/// Whether another character fits inner ends less well than one whose misfit is known.
fn is_less_like(seen: Five, ink: u32, own: u64, value: u8, other: u8) -> bool
    requires one { seen.one ≤ 4096 }
    requires two { seen.two ≤ 4096 }
    requires three { seen.three ≤ 4096 }
    requires four { seen.four ≤ 4096 }
    requires five { seen.five ≤ 4096 }
    requires ink { ink ≤ 128 }
    requires within { other < 107 }
    ensures { IsTrue result → other ≢ value → own < code_misfit_of seen ink (code_pattern other) }
{
    other == value || own < misfit(seen, ink, widths_of(other))
}

/// The largest misfit of a character.
const MOST_MISFIT: u64 = 1024;

/// Whether inner ends fit this character better than any other, and well enough.
fn is_nearest(seen: Five, ink: u32, value: u8) -> bool
    requires one { seen.one ≤ 4096 }
    requires two { seen.two ≤ 4096 }
    requires three { seen.three ≤ 4096 }
    requires four { seen.four ≤ 4096 }
    requires five { seen.five ≤ 4096 }
    requires ink { ink ≤ 128 }
    ensures { IsTrue result → IsNearestCode seen ink value }
{
    if value >= 107 {
        return false;
    }
    let own = misfit(seen, ink, widths_of(value));
    if own > MOST_MISFIT {
        return false;
    }
    'others: for other in 0..107u8 {
        if !is_less_like(seen, ink, own, value, other) {
            return false;
        }
    }
    true
}

/// Whether six widths from a run on are those of a character.
fn are_widths_of(widths: &[u16], first: usize, value: u8) -> bool
    requires within { first + 6 ≤ length widths.now }
    requires value { value < 107 }
    ensures { IsTrue result → AreCodeWidths widths.now first value }
{
    let pattern = widths_of(value);
    'runs: for run in 0..6usize {
        if widths[first + run] != 48 * u16::from(pattern[run]) {
            return false;
        }
    }
    true
}

/// The character that six widths from a run on are those of.
fn value_of(widths: &[u16], first: usize) -> Option<u8>
    requires within { first + 6 ≤ length widths.now }
    ensures said { IfSome result (λ value. AreCodeWidths widths.now first value) }
    ensures within { IfSome result (λ value. value < 107) }
{
    for value in 0..107u8 {
        if are_widths_of(widths, first, value) {
            return Some(value);
        }
    }
    None
}

/// Whether the ends from one on show the character that the widths mean.
fn is_code_at(ends: &[u32], widths: &[u16], ink: u32, first: usize) -> bool
    requires within { first + 6 < length ends.now }
    requires widths { first + 7 ≤ length widths.now }
    requires ink { ink ≤ 128 }
    ensures { IsTrue result → IsCodeAt ends.now widths.now ink first }
{
    let Some(value) = value_of(widths, first + 1) else {
        return false;
    };
    let Some(seen) = five_of(ends, first) else {
        return false;
    };
    is_nearest(seen, ink, value)
}

/// The ink by three ends of a character, if it is the one that the widths mean; plus 65,536.
fn ink_at(ends: &[u32], widths: &[u16], first: usize) -> Option<u32>
    requires within { first + 6 < length ends.now }
    requires widths { first + 7 ≤ length widths.now }
    ensures { IfSome result (λ ink. ink ≤ 131072) }
{
    let seen = five_of(ends, first)?;
    let mut place = 0u32;
    let mut told = 0u32;
    for run in 1..6usize {
        place = place.saturating_add(u32::from(widths[first + run]));
        if run % 2 == 1 {
            told = told.saturating_add(place);
        }
    }
    Some((65_536 + seen.one + seen.three + seen.five).saturating_sub(told))
}

/// The ink of characters: the mean of what their ends show.
fn ink_of(ends: &[u32], widths: &[u16], count: usize) -> u32
    requires few { count ≤ 100 }
    requires within { 6 * count < length ends.now }
    requires widths { 6 * count < length widths.now }
    ensures { result ≤ 128 }
{
    let mut sum = 0u32;
    for number in 0..count {
        let ink = ink_at(ends, widths, 6 * number).unwrap_or(65_536);
        sum = sum.saturating_add(ink);
    }
    let mean = u64::from(sum).checked_div(3 * count as u64).unwrap_or(0);
    mean.saturating_sub(21_845 - 64).min(128) as u32
}

/// Whether the ends show this many characters from the first end on, with one ink.
pub(crate) fn show_codes(ends: &[u32], widths: &[u16], count: usize) -> bool
    requires few { count ≤ 100 }
    ensures { IsTrue result → ShowsCodes ends.now widths.now count }
{
    if ends.len() <= 6 * count || widths.len() <= 6 * count {
        return false;
    }
    let ink = ink_of(ends, widths, count);
    'codes: for number in 0..count {
        if !is_code_at(ends, widths, ink, 6 * number) {
            return false;
        }
    }
    true
}
