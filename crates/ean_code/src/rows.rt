//! The rows of number sets that show a digit without a character
//! (ISO/IEC 15420, symbol character encodation).
ghost use Rattle.std.specs.Prelude.{◌≡◌, ◌≢◌, ◌<◌, ℕ, IfNone, IfSome, length};
ghost use Rattle.ean_code.specs.inner.NumberSets.{character_sets, packed_sets};
ghost use Rattle.ean_code.specs.NumberSets.{ean13_rows, row_of, upce_rows};

use crate::number_sets::NumberSet::{A, B};
use crate::number_sets::{Character, NumberSet};

/// The number sets of the left six characters of an EAN-13, by its first digit.
const EAN13_ROWS: [[NumberSet; 6]; 10] = [
    [A, A, A, A, A, A],
    [A, A, B, A, B, B],
    [A, A, B, B, A, B],
    [A, A, B, B, B, A],
    [A, B, A, A, B, B],
    [A, B, B, A, A, B],
    [A, B, B, B, A, A],
    [A, B, A, B, A, B],
    [A, B, A, B, B, A],
    [A, B, B, A, B, A],
];

/// The number sets of the left four characters of an EAN-8, which show no digit.
pub(crate) const EAN8_ROW: [NumberSet; 4] = [A; 4];

/// The number sets of the six characters of a UPC-E, by its check digit.
const UPCE_ROWS: [[NumberSet; 6]; 10] = [
    [B, B, B, A, A, A],
    [B, B, A, B, A, A],
    [B, B, A, A, B, A],
    [B, B, A, A, A, B],
    [B, A, B, B, A, A],
    [B, A, A, B, B, A],
    [B, A, A, A, B, B],
    [B, A, B, A, B, A],
    [B, A, B, A, A, B],
    [B, A, A, B, A, B],
];

/// The entry of number sets that no row has.
const NONE: u8 = 255;

/// At the packed number sets of each row of an EAN-13 its first digit.
#[rattlefmt::skip]
static EAN13_DIGITS: [u8; 64] = [
    0, 255, 255, 255, 255, 255, 255, 255, 255, 255, 255, 1, 255, 2, 3, 255,
    255, 255, 255, 4, 255, 7, 8, 255, 255, 5, 9, 255, 6, 255, 255, 255,
    255, 255, 255, 255, 255, 255, 255, 255, 255, 255, 255, 255, 255, 255, 255, 255,
    255, 255, 255, 255, 255, 255, 255, 255, 255, 255, 255, 255, 255, 255, 255, 255,
];

/// At the packed number sets of each row of a UPC-E its check digit.
#[rattlefmt::skip]
static UPCE_DIGITS: [u8; 64] = [
    255, 255, 255, 255, 255, 255, 255, 255, 255, 255, 255, 255, 255, 255, 255, 255,
    255, 255, 255, 255, 255, 255, 255, 255, 255, 255, 255, 255, 255, 255, 255, 255,
    255, 255, 255, 6, 255, 9, 5, 255, 255, 8, 7, 255, 4, 255, 255, 255,
    255, 3, 2, 255, 1, 255, 255, 255, 0, 255, 255, 255, 255, 255, 255, 255,
];

/// The number sets of the left six of an EAN-13 with this first digit.
pub(crate) fn ean13_row(digit: u8) -> &'static [NumberSet]
    requires { digit < 10 }
    ensures value { result.now ≡ row_of ean13_rows digit }
    ensures six { length result.now ≡ 6 }
{
    &EAN13_ROWS[usize::from(digit)]
}

/// The number sets of the six of a UPC-E with this check digit.
pub(crate) fn upce_row(digit: u8) -> &'static [NumberSet]
    requires { digit < 10 }
    ensures value { result.now ≡ row_of upce_rows digit }
    ensures six { length result.now ≡ 6 }
{
    &UPCE_ROWS[usize::from(digit)]
}

/// The number sets of six characters as one number, a bit each, the first highest.
fn packed_row(left: &[Character]) -> usize
    requires { length left.now ≡ 6 }
    ensures value { result ≡ packed_sets (character_sets left.now) }
    ensures low { result < 64 }
{
    let first = left[0].set.bit() * 4 + left[1].set.bit() * 2 + left[2].set.bit();
    let last = left[3].set.bit() * 4 + left[4].set.bit() * 2 + left[5].set.bit();
    first * 8 + last
}

/// The first digit of an EAN-13 whose left six characters are these.
pub(crate) fn first_digit(left: &[Character]) -> Option<u8>
    requires { length left.now ≡ 6 }
    ensures found { IfSome result (λ d. (d < 10) × (character_sets left.now ≡ row_of ean13_rows d)) }
    ensures none { IfNone result ((d : ℕ) → d < 10 → character_sets left.now ≢ row_of ean13_rows d) }
{
    let digit = EAN13_DIGITS[packed_row(left)];
    if digit == NONE { None } else { Some(digit) }
}

/// The check digit of a UPC-E whose six characters are these.
pub(crate) fn last_digit(left: &[Character]) -> Option<u8>
    requires { length left.now ≡ 6 }
    ensures found { IfSome result (λ d. (d < 10) × (character_sets left.now ≡ row_of upce_rows d)) }
    ensures none { IfNone result ((d : ℕ) → d < 10 → character_sets left.now ≢ row_of upce_rows d) }
{
    let digit = UPCE_DIGITS[packed_row(left)];
    if digit == NONE { None } else { Some(digit) }
}
