//! The rules for parts of a value, apart from their characters.

ghost use Rattle.std.specs.Prelude.{◌≡◌, ◌==◌, ◌||◌, ◌≤◌, ◌<◌, not};
ghost use Rattle.std.specs.Char.{is_ascii_digit};
ghost use Rattle.std.specs.List.{list_all};
ghost use Rattle.std.specs.Prelude.{nat_le};
ghost use Rattle.element_core.specs.Times.{two_or_zero};
ghost use Rattle.element_core.specs.Rules.{begins_with_hex, follows, has_company_prefix, has_no_leading_zero, is_hex, is_media, is_nonzero, is_percent_encoded, is_piece_of_total, is_position, number_after};

use crate::date::are_digits;
use crate::part::Rule;

/// The number of the two digits at a place, 0 if they are not written.
fn two_at(text: &[u8], at: usize) -> u32
    requires { at ≤ 2 }
    ensures value { result ≡ two_or_zero text.now at }
    ensures small { result < 2500 }
{
    if text.len() < at + 2 {
        return 0;
    }
    10 * u32::from(text[at].saturating_sub(b'0')) + u32::from(text[at + 1].saturating_sub(b'0'))
}

/// Whether the number that digits write is no greater than this one.
fn is_at_most(text: &[u8], greatest: u64) -> bool
    requires { greatest ≤ 3600000000 }
    ensures { result ≡ nat_le (number_after 0 text.now) greatest }
{
    let mut number = 0;
    for byte in text {
        number = 10 * number + u64::from(byte.saturating_sub(b'0'));
        if greatest < number {
            return false;
        }
    }
    true
}

/// Whether each byte is the digit 0.
fn are_zeros(text: &[u8]) -> bool
    ensures { result ≡ list_all (λ b. b == 48) text.now }
{
    for byte in text {
        if *byte != b'0' {
            return false;
        }
    }
    true
}

/// Whether a number is above 0.
fn is_nonzero(text: &[u8]) -> bool
    ensures { result ≡ is_nonzero text.now }
{
    !are_zeros(text)
}

/// Whether a number is 0 or does not begin with it.
fn has_no_leading_zero(text: &[u8]) -> bool
    ensures { result ≡ has_no_leading_zero text.now }
{
    match text {
        [first, _, ..] => *first != b'0',
        _ => true,
    }
}

/// Whether the number of a piece is at most that of all pieces.
fn is_piece_of_total(text: &[u8]) -> bool
    ensures { result ≡ is_piece_of_total text.now }
{
    let piece = two_at(text, 0);
    1 <= piece && piece <= two_at(text, 2)
}

/// Whether a text is a digit, `/` and a digit that is not less.
fn is_position(text: &[u8]) -> bool
    ensures { result ≡ is_position text.now }
{
    match text {
        [first, slash, last] => {
            matches!(*first, b'1'..=b'9')
                && *slash == b'/'
                && matches!(*last, b'1'..=b'9')
                && *first <= *last
        }
        _ => false,
    }
}

/// Whether a byte is a hexadecimal digit.
fn is_hex(byte: u8) -> bool
    ensures { result ≡ is_hex byte }
{
    matches!(byte, b'0'..=b'9' | b'A'..=b'F' | b'a'..=b'f')
}

/// Whether two hexadecimal digits come first.
fn begins_with_hex(text: &[u8]) -> bool
    ensures { result ≡ begins_with_hex text.now }
{
    match text {
        [first, second, ..] => is_hex(*first) && is_hex(*second),
        _ => false,
    }
}

/// Whether two hexadecimal digits stand first in the rest, if the byte before it is `%`.
fn is_encoded(byte: u8, rest: &[u8]) -> bool
    ensures { result ≡ (not (byte == 37) || begins_with_hex rest.now) }
{
    byte != b'%' || begins_with_hex(rest)
}

/// Whether each `%` is followed by two hexadecimal digits.
fn is_percent_encoded(text: &[u8]) -> bool
    ensures { result ≡ is_percent_encoded text.now }
{
    for (i, byte) in text.iter().enumerate() {
        if !is_encoded(*byte, &text[i + 1..]) {
            return false;
        }
    }
    true
}

/// Whether a text names a kind of medium.
fn is_media(text: &[u8]) -> bool
    ensures { result ≡ is_media text.now }
{
    let kind = two_at(text, 0);
    matches!(kind, 1..=10) || 80 <= kind
}

/// Whether four digits come first.
fn has_company_prefix(text: &[u8]) -> bool
    ensures { result ≡ has_company_prefix text.now }
{
    4 <= text.len() && are_digits(&text[..4])
}

/// Whether a text obeys the rule.
pub(crate) fn follows(rule: Rule, text: &[u8]) -> bool
    ensures { result ≡ follows rule text.now }
{
    match rule {
        Rule::NonZero => is_nonzero(text),
        Rule::NoLeadingZero => has_no_leading_zero(text),
        Rule::PieceOfTotal => is_piece_of_total(text),
        Rule::Position => is_position(text),
        Rule::Percent => is_percent_encoded(text),
        Rule::Latitude => is_at_most(text, 1_800_000_000),
        Rule::Longitude => is_at_most(text, 3_600_000_000),
        Rule::Media => is_media(text),
        Rule::CompanyPrefix => has_company_prefix(text),
        Rule::ModelNumber => has_company_prefix(text) && !are_digits(text),
        Rule::Free
        | Rule::DayOrMonth
        | Rule::Day
        | Rule::DayAndTime
        | Rule::DayOrMonthAndTime
        | Rule::DayPerhapsTime
        | Rule::OneOrTwoDays
        | Rule::LongDay
        | Rule::LongDayAndTime => true,
    }
}
