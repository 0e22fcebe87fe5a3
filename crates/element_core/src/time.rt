//! The times that element strings name, and the days before them.

ghost use Rattle.std.specs.Prelude.{◌≡◌, ◌+◌, ◌*◌, ◌<◌, ◌≤◌, true, is_some, IsTrue};
ghost use Rattle.element_core.specs.inner.Days.{is_eight_digits};
ghost use Rattle.std.specs.List.{list_all};
ghost use Rattle.std.specs.Char.{is_ascii_digit};
ghost use Rattle.element_core.specs.Days.{IsDay, two};
ghost use Rattle.element_core.specs.Times.{exact_day_of, is_time_text, long_day_of, time_in, time_of, two_or_zero};

use crate::date::{are_digits, day_in_month, is_six_digits, named_day, two_digits};
use crate::year::ReferenceYear;
use jiff::civil::Date;

/// The day that six digits name by its number under the reference year: none if it is 00.
pub(crate) fn exact_date_of(text: &[u8], reference: ReferenceYear) -> Option<Date>
    ensures day { IsDay result (exact_day_of text.now reference) }
    ensures some { is_some result ≡ is_some (exact_day_of text.now reference) }
{
    if !is_six_digits(text) {
        return None;
    }
    if two_digits(text[4], text[5]) == 0 {
        return None;
    }
    named_day(text, reference)
}

/// Whether a text is eight ASCII digits.
fn is_eight_digits(text: &[u8]) -> bool
    ensures { result ≡ is_eight_digits text.now }
{
    text.len() == 8 && are_digits(text)
}

/// The number of two digits of eight.
fn two_of(eight: &[u8], at: usize) -> u8
    requires place { at ≤ 6 }
    requires digits { is_eight_digits eight.now ≡ true }
    ensures value { result ≡ two eight.now at }
    ensures small { result < 100 }
{
    two_digits(eight[at], eight[at + 1])
}

/// The number of the first four digits of eight.
fn year_of(eight: &[u8]) -> u16
    requires { is_eight_digits eight.now ≡ true }
    ensures value { result ≡ 100 * two eight.now 0 + two eight.now 2 }
    ensures small { result ≤ 9999 }
{
    100 * u16::from(two_of(eight, 0)) + u16::from(two_of(eight, 2))
}

/// The day of eight digits, with a year of four. None if the day is 00.
pub(crate) fn long_date_of(text: &[u8]) -> Option<Date>
    ensures day { IsDay result (long_day_of text.now) }
    ensures some { is_some result ≡ is_some (long_day_of text.now) }
{
    if !is_eight_digits(text) {
        return None;
    }
    if two_of(text, 6) == 0 {
        return None;
    }
    day_in_month(year_of(text), two_of(text, 4), two_of(text, 6))
}

/// The number of the two digits at a place, 0 if they are not written.
fn two_or_zero(digits: &[u8], at: usize) -> u8
    requires place { at ≤ 4 }
    requires digits { IsTrue (list_all is_ascii_digit digits.now) }
    ensures value { result ≡ two_or_zero digits.now at }
    ensures small { result < 100 }
{
    match digits.get(at..at + 2) {
        Some([tens, ones]) => two_digits(*tens, *ones),
        _ => 0,
    }
}

/// Whether a text is HH, HHMM or HHMMSS, in ASCII digits.
fn is_time_text(text: &[u8]) -> bool
    ensures { result ≡ is_time_text text.now }
{
    matches!(text.len(), 2 | 4 | 6) && are_digits(text)
}

/// A time of a day: hours 0 to 23, minutes and seconds 0 to 59.
fn time_in(hours: u8, minutes: u8, seconds: u8) -> Option<[u8; 3]>
    ensures { result ≡ time_in hours minutes seconds }
{
    if hours < 24 && minutes < 60 && seconds < 60 {
        Some([hours, minutes, seconds])
    } else {
        None
    }
}

/// The hours, the minutes and the seconds that a text of ASCII digits, HH, HHMM or HHMMSS, names:
/// none if there is no such time, and of any other text
/// (GS1 General Specifications, sections 3.8 and 3.9).
pub(crate) fn time_of(text: &[u8]) -> Option<[u8; 3]>
    ensures { result ≡ time_of text.now }
{
    if !is_time_text(text) {
        return None;
    }
    time_in(
        two_or_zero(text, 0),
        two_or_zero(text, 2),
        two_or_zero(text, 4),
    )
}
