//! The check digit of a payload.
ghost use Rattle.std.specs.Prelude.{[], None, Some, ◌≡◌, ◌↔◌, IfErr, IfNone, IfOk, IsTrue, OnOk, ◌+◌, ◌<◌, ◌≤◌, ◌∷◌, ◌++◌, ℕ, length};
ghost use Rattle.digits_core.specs.Digits.{AreAsciiDigits, digits_of, weighted, IsChecked};
ghost use Rattle.digits_core.specs.Gtins.{first_other};
ghost use Rattle.digits_core.specs.Payloads.{not_digits, payload_fault};

use crate::fault::DigitFault;
use crate::gtin::first_other;

/// The sum of the payload's digits, each times its weight before a check digit.
fn payload_sum(payload: &[u8]) -> u32
    requires few { length payload.now ≤ 17 }
    requires digits { AreAsciiDigits payload.now }
    ensures { (last : ℕ) → weighted (digits_of payload.now ++ last ∷ []) ≡ result + last }
{
    let mut sum = 0;
    let mut weight = if payload.len() % 2 == 0 { 1 } else { 3 };
    for byte in payload {
        sum += weight * u32::from(*byte - b'0');
        weight = 4 - weight;
    }
    sum
}

/// The check digit, 0 to 9, of a payload of 1 to 17 ASCII digits
/// (GS1 General Specifications, section 7.9.1).
///
/// # Examples
///
/// A GTIN lacks its last digit:
///
/// ```
/// use digits_core::check_digit;
/// let digit = check_digit(b"950110153000");
/// assert_eq!(rt; digit, 3);
/// ```
pub fn check_digit(payload: &[u8]) -> u8
    requires some { 1 ≤ length payload.now }
    requires few { length payload.now ≤ 17 }
    requires digits { AreAsciiDigits payload.now }
    ensures digit { result < 10 }
    ensures checked { IsChecked (digits_of payload.now ++ result ∷ []) }
{
    ((10 - payload_sum(payload) % 10) % 10) as u8
}

/// Whether the last of 2 to 18 ASCII digits is the check digit of those before it.
pub(crate) fn is_checked(text: &[u8]) -> bool
    requires some { 2 ≤ length text.now }
    requires few { length text.now ≤ 18 }
    requires digits { AreAsciiDigits text.now }
    ensures { IsTrue result ↔ IsChecked (digits_of text.now) }
{
    let last = text.len() - 1;
    text[last] - b'0' == check_digit(&text[..last])
}

/// Why a text does not consist of ASCII digits: its first byte that is none.
pub fn not_digits(text: &[u8]) -> Option<DigitFault>
    ensures fault { result ≡ not_digits (first_other text.now) }
    ensures digits { IfNone result (AreAsciiDigits text.now) }
{
    match first_other(text) {
        Some(place) => Some(DigitFault::NotDigit(place)),
        None => None,
    }
}

/// The check digit, 0 to 9, of a text of 1 to 17 ASCII digits that have none yet
/// (GS1 General Specifications, section 7.9.1).
///
/// Of two faults the first is answered: the length, then the first byte that is no digit.
pub fn payload_digit(text: &[u8]) -> Result<u8, DigitFault>
    ensures digit { IfOk result (λ digit. digit < 10) }
    ensures checked { IfOk result (λ digit. IsChecked (digits_of text.now ++ digit ∷ [])) }
    ensures taken { OnOk result (payload_fault text.now ≡ None) }
    ensures refused { IfErr result (λ fault. payload_fault text.now ≡ Some fault) }
{
    if text.is_empty() || text.len() > 17 {
        return Err(DigitFault::Length);
    }
    match not_digits(text) {
        Some(fault) => Err(fault),
        None => Ok(check_digit(text)),
    }
}
