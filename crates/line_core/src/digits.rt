//! Whether each digit of EAN and UPC is closer to its own pattern than to any other.
ghost use Rattle.std.specs.Prelude.{◌≡◌, ◌≢◌, ◌+◌, ◌*◌, ◌<◌, ◌≤◌, ◌^◌, ℕ, IfSome, IsTrue, length};
ghost use Rattle.line_core.specs.Digits.{AreWidthsOf, ShowsDigitAt, IsNearest, ShowsDigits, digit_pattern, digit_place, inner_at, misfit_of, square};

/// The three inner ends of a digit, in 1/48 module from its first.
#[derive(Clone, Copy)]
pub struct Inner {
    pub one: u32,
    pub two: u32,
    pub three: u32,
}

/// The widths in modules of the digits 0 to 9 in number set A, four each, the space first, and in number set B
/// (ISO/IEC 15420, symbol character encodation).
pub static DIGITS: [[u8; 4]; 20] = [
    [3, 2, 1, 1],
    [2, 2, 2, 1],
    [2, 1, 2, 2],
    [1, 4, 1, 1],
    [1, 1, 3, 2],
    [1, 2, 3, 1],
    [1, 1, 1, 4],
    [1, 3, 1, 2],
    [1, 2, 1, 3],
    [3, 1, 1, 2],
    [1, 1, 2, 3],
    [1, 2, 2, 2],
    [2, 2, 1, 2],
    [1, 1, 4, 1],
    [2, 3, 1, 1],
    [1, 3, 2, 1],
    [4, 1, 1, 1],
    [2, 1, 3, 1],
    [3, 1, 2, 1],
    [2, 1, 1, 3],
];

/// The width of a digit.
fn widths_of(character: u8) -> &'static [u8]
    requires { character < 20 }
    ensures value { result.now ≡ digit_pattern character }
    ensures four { length result.now ≡ 4 }
{
    &DIGITS[usize::from(character)]
}

/// A distance in 1/48 module, if seven modules are this wide; none if it is far more.
fn place(distance: u32, seven: u32) -> Option<u32>
    ensures value { IfSome result (λ parts. parts ≡ digit_place distance seven) }
    ensures few { IfSome result (λ parts. parts ≤ 4096) }
{
    let all = u64::from(distance) * 336 + u64::from(seven / 2);
    let parts = all.checked_div(u64::from(seven))?;
    if parts > 4096 {
        return None;
    }
    Some(parts as u32)
}

/// The inner ends of the digit that begins at an end.
fn inner_of(ends: &[u32], first: usize) -> Option<Inner>
    requires { first + 4 < length ends.now }
    ensures value { IfSome result (λ seen. seen ≡ inner_at ends.now first) }
    ensures one { IfSome result (λ seen. seen.one ≤ 4096) }
    ensures two { IfSome result (λ seen. seen.two ≤ 4096) }
    ensures three { IfSome result (λ seen. seen.three ≤ 4096) }
{
    let begin = ends[first];
    let seven = ends[first + 4].saturating_sub(begin);
    let one = place(ends[first + 1].saturating_sub(begin), seven)?;
    let two = place(ends[first + 2].saturating_sub(begin), seven)?;
    let three = place(ends[first + 3].saturating_sub(begin), seven)?;
    Some(Inner { one, two, three })
}

/// The square of a small number.
pub(crate) fn square_of(number: u32) -> u64
    requires { number ≤ 65535 }
    ensures value { result ≡ square number }
    ensures few { result ≤ 4294836225 }
{
    u64::from(number) * u64::from(number)
}

/// The difference between inner ends and those of a digit of this width.
fn misfit(seen: Inner, ink: u32, widths: &[u8]) -> u64
    requires one { seen.one ≤ 4096 }
    requires two { seen.two ≤ 4096 }
    requires three { seen.three ≤ 4096 }
    requires ink { ink ≤ 128 }
    requires four { length widths.now ≡ 4 }
    ensures value { result ≡ misfit_of seen ink widths.now }
    ensures few { result < 2 ^ 40 }
{
    let one = u32::from(widths[0]);
    let two = u32::from(widths[1]);
    let three = u32::from(widths[2]);
    let like = square_of(seen.two.abs_diff(48 * (one + two)));
    let other = (seen.three + 48 * one).abs_diff(seen.one + 48 * (one + two + three));
    let moved = (seen.one + seen.three + ink).abs_diff(48 * one + 48 * (one + two + three) + 64);
    32 * like + 16 * square_of(other) + 9 * square_of(moved)
}

/// Whether another digit fits inner ends less well than one whose misfit is known.
fn is_less_like(seen: Inner, ink: u32, own: u64, character: u8, other: u8) -> bool
    requires one { seen.one ≤ 4096 }
    requires two { seen.two ≤ 4096 }
    requires three { seen.three ≤ 4096 }
    requires ink { ink ≤ 128 }
    requires within { other < 20 }
    ensures { IsTrue result → other ≢ character → own < misfit_of seen ink (digit_pattern other) }
{
    other == character || own < misfit(seen, ink, widths_of(other))
}

/// The largest misfit of a digit.
const MOST_MISFIT: u64 = 25_600;

/// Whether inner ends fit this digit better than any other, and well enough.
fn is_nearest(seen: Inner, ink: u32, character: u8) -> bool
    requires one { seen.one ≤ 4096 }
    requires two { seen.two ≤ 4096 }
    requires three { seen.three ≤ 4096 }
    requires ink { ink ≤ 128 }
    ensures { IsTrue result → IsNearest seen ink character }
{
    if character >= 20 {
        return false;
    }
    let own = misfit(seen, ink, widths_of(character));
    if own > MOST_MISFIT {
        return false;
    }
    'others: for other in 0..20u8 {
        if !is_less_like(seen, ink, own, character, other) {
            return false;
        }
    }
    true
}

/// Whether four widths from a run on are those of a digit.
fn are_widths_of(widths: &[u16], first: usize, character: u8) -> bool
    requires within { first + 4 ≤ length widths.now }
    requires character { character < 20 }
    ensures { IsTrue result → AreWidthsOf widths.now first character }
{
    let pattern = widths_of(character);
    'runs: for run in 0..4usize {
        if widths[first + run] != 48 * u16::from(pattern[run]) {
            return false;
        }
    }
    true
}

/// The digit that four widths from a run on are those of.
fn digit_of(widths: &[u16], first: usize) -> Option<u8>
    requires within { first + 4 ≤ length widths.now }
    ensures said { IfSome result (λ character. AreWidthsOf widths.now first character) }
    ensures within { IfSome result (λ character. character < 20) }
{
    for character in 0..20u8 {
        if are_widths_of(widths, first, character) {
            return Some(character);
        }
    }
    None
}

/// Whether the ends from one on show the digit that the widths mean.
fn is_digit_at(ends: &[u32], widths: &[u16], ink: u32, first: usize) -> bool
    requires within { first + 4 < length ends.now }
    requires widths { first + 5 ≤ length widths.now }
    requires ink { ink ≤ 128 }
    ensures { IsTrue result → ShowsDigitAt ends.now widths.now ink first }
{
    let Some(character) = digit_of(widths, first + 1) else {
        return false;
    };
    let Some(seen) = inner_of(ends, first) else {
        return false;
    };
    is_nearest(seen, ink, character)
}

/// The ink by the ends of a digit, if it is the one that the widths mean; plus 65,536.
fn ink_at(ends: &[u32], widths: &[u16], first: usize) -> Option<u32>
    requires within { first + 4 < length ends.now }
    requires widths { first + 5 ≤ length widths.now }
    ensures { IfSome result (λ ink. ink ≤ 131072) }
{
    let seen = inner_of(ends, first)?;
    let one = u32::from(widths[first + 1].min(1024));
    let three = one
        + u32::from(widths[first + 2].min(1024))
        + u32::from(widths[first + 3].min(1024));
    Some(65_536 + one + three - (seen.one + seen.three))
}

/// The ink of digits: the mean of what their ends show.
fn ink_of(ends: &[u32], widths: &[u16], first: usize, count: usize) -> u32
    requires few { count ≤ 6 }
    requires near { first ≤ 100 }
    requires within { first + 4 * count < length ends.now }
    requires widths { first + 4 * count < length widths.now }
    ensures { result ≤ 128 }
{
    let mut sum = 0u32;
    for number in 0..count {
        let ink = ink_at(ends, widths, first + 4 * number).unwrap_or(65_536);
        sum = sum.saturating_add(ink);
    }
    let mean = sum.checked_div(count as u32).unwrap_or(0);
    mean.saturating_sub(65_536 - 64).min(128)
}

/// Whether the ends show this many digits, with one ink.
pub(crate) fn show_digits(ends: &[u32], widths: &[u16], first: usize, count: usize) -> bool
    requires few { count ≤ 6 }
    requires near { first ≤ 100 }
    ensures { IsTrue result → ShowsDigits ends.now widths.now first count }
{
    if ends.len() <= first + 4 * count || widths.len() <= first + 4 * count {
        return false;
    }
    let ink = ink_of(ends, widths, first, count);
    'digits: for number in 0..count {
        if !is_digit_at(ends, widths, ink, first + 4 * number) {
            return false;
        }
    }
    true
}
