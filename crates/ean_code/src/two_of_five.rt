//! The digits of Interleaved 2 of 5, two by two: the first in the bars, the second in the spaces
//! (ISO/IEC 16390, symbol character encodation).
ghost use Rattle.std.specs.Prelude.{◌≡◌, ◌≢◌, ◌+◌, ◌/◌, ◌%◌, ◌<◌, ◌≤◌, ◌++◌, ℕ, IfNone, IfSome, length};
ghost use Rattle.arrayvec.specs.ArrayVec.{array_vec_len};
ghost use Rattle.ean_code.specs.TwoOfFive.{five_widths, pair_widths};
ghost use Rattle.ean_code.specs.inner.TwoOfFive.{packed_five};

use arrayvec::ArrayVec;

/// The widths of the digits 0 to 9, five each: 1 is narrow and 3 is wide.
const DIGITS: [[u8; 5]; 10] = [
    [1, 1, 3, 3, 1],
    [3, 1, 1, 1, 3],
    [1, 3, 1, 1, 3],
    [3, 3, 1, 1, 1],
    [1, 1, 3, 1, 3],
    [3, 1, 3, 1, 1],
    [1, 3, 3, 1, 1],
    [1, 1, 1, 3, 3],
    [3, 1, 1, 3, 1],
    [1, 3, 1, 3, 1],
];

/// The entry of widths that no digit has.
const NONE: u8 = 255;

/// At the packed widths of each digit that digit.
#[rattlefmt::skip]
static BY_WIDTHS: [u8; 32] = [
    255, 255, 255, 7, 255, 4, 0, 255, 255, 2, 9, 255, 6, 255, 255, 255,
    255, 1, 8, 255, 5, 255, 255, 255, 3, 255, 255, 255, 255, 255, 255, 255,
];

/// The five widths of a digit.
fn widths_of(digit: u8) -> &'static [u8]
    requires { digit < 10 }
    ensures value { result.now ≡ five_widths digit }
    ensures five { length result.now ≡ 5 }
{
    &DIGITS[usize::from(digit)]
}

/// Of a width of 1 to 4 modules, 1 if it is 2 or 3, and else 0.
fn bit(width: u8) -> usize
    ensures value { result ≡ width / 2 % 2 }
    ensures low { result < 2 }
{
    usize::from(width / 2 % 2)
}

/// Five widths as one number, a bit each, the first highest.
fn packed(five: &[u8; 5]) -> usize
    ensures value { result ≡ packed_five five.now }
    ensures low { result < 32 }
{
    let first = bit(five[0]) * 4 + bit(five[1]) * 2 + bit(five[2]);
    first * 4 + bit(five[3]) * 2 + bit(five[4])
}

/// The digit with these five widths.
fn digit_with(five: &[u8; 5]) -> Option<u8>
    ensures found { IfSome result (λ d. (d < 10) × (five_widths d ≡ five.now)) }
    ensures none { IfNone result ((d : ℕ) → d < 10 → five_widths d ≢ five.now) }
{
    let digit = BY_WIDTHS[packed(five)];
    if digit == NONE || widths_of(digit) != five.as_slice() {
        return None;
    }
    Some(digit)
}

/// Appends two digits, each 0 to 9.
pub(crate) fn push_pair(widths: &mut ArrayVec<u8, 595>, first: u8, second: u8)
    requires room { array_vec_len widths.old + 10 ≤ 595 }
    requires first { first < 10 }
    requires second { second < 10 }
    ensures items { widths.new.items ≡ widths.old.items ++ pair_widths (first, second) }
    ensures len { array_vec_len widths.new ≡ array_vec_len widths.old + 10 }
{
    let bars = widths_of(first);
    let spaces = widths_of(second);
    let pair = [
        bars[0], spaces[0], bars[1], spaces[1], bars[2], spaces[2], bars[3], spaces[3], bars[4],
        spaces[4],
    ];
    widths.try_extend_from_slice(&pair).unwrap();
}

/// The two digits with these ten widths.
pub(crate) fn pair_with(widths: &[u8]) -> Option<(u8, u8)>
    requires { length widths.now ≡ 10 }
    ensures found { IfSome result (λ p. (p.0 < 10) × (p.1 < 10) × (pair_widths p ≡ widths.now)) }
    ensures none { IfNone result ((p : ℕ × ℕ) → p.0 < 10 → p.1 < 10 → pair_widths p ≢ widths.now) }
{
    let bars = [widths[0], widths[2], widths[4], widths[6], widths[8]];
    let spaces = [widths[1], widths[3], widths[5], widths[7], widths[9]];
    let first = digit_with(&bars)?;
    let second = digit_with(&spaces)?;
    Some((first, second))
}
