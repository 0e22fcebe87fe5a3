//! The days that element strings name.

ghost use Rattle.std.specs.Prelude.{◌≡◌, ◌<◌, ◌≤◌, ◌+◌, ◌*◌, ◌-◌, ◌==◌, pos, length, is_some, if◌then◌else◌};
ghost use Rattle.std.specs.Int.{IsInRange};
ghost use Rattle.std.specs.Char.{is_ascii_digit};
ghost use Rattle.std.specs.List.{list_all};
ghost use Rattle.jiff.specs.Words.{IsBetween, month_length};
ghost use Rattle.element_core.specs.inner.Days.{AreSixDigits, day_named, is_six_digits};
ghost use Rattle.element_core.specs.Days.{IsDay, day_in, day_of, full_year, two};

use crate::year::ReferenceYear;
use jiff::civil::Date;

/// The number of two ASCII digits.
pub(crate) fn two_digits(tens: u8, ones: u8) -> u8
    requires tens { IsInRange 48 57 tens }
    requires ones { IsInRange 48 57 ones }
    ensures value { result ≡ 10 * (tens - 48) + (ones - 48) }
    ensures small { result < 100 }
{
    10 * (tens - b'0') + (ones - b'0')
}

/// The year with these last two digits that lies from 49 years before the reference year to 50
/// years after it (GS1 General Specifications, section 7.12).
fn nearest_year(reference: u16, digits: u8) -> u16
    requires reference { IsInRange 1951 2149 reference }
    requires digits { digits < 100 }
    ensures value { result ≡ full_year reference digits }
    ensures range { IsInRange 1900 2200 result }
{
    let century = reference - reference % 100;
    let digits = u16::from(digits);
    if reference % 100 + 51 <= digits {
        century + digits - 100
    } else if digits + 50 <= reference % 100 {
        century + digits + 100
    } else {
        century + digits
    }
}

/// The number of a day of the month of `first`, with day 0 as the last.
fn day_or_last(first: Date, day: u8) -> i8
    requires { day < 100 }
    ensures value { result ≡ pos (if day == 0 then month_length first else day) }
    ensures range { IsBetween (pos 0) (pos 99) result }
{
    if day == 0 {
        first.days_in_month()
    } else {
        day as i8
    }
}

/// The day of a month, with day 0 as the last.
pub(crate) fn day_in_month(year: u16, month: u8, day: u8) -> Option<Date>
    requires year { year ≤ 9999 }
    requires month { month < 100 }
    requires day { day < 100 }
    ensures { IsDay result (day_in year month day) }
{
    let Ok(first) = Date::new(year as i16, month as i8, 1) else {
        return None;
    };
    match Date::new(year as i16, month as i8, day_or_last(first, day)) {
        Ok(date) => Some(date),
        Err(_) => None,
    }
}

/// The day that six digits name: year, month and day, two digits each.
pub(crate) fn named_day(six: &[u8], reference: ReferenceYear) -> Option<Date>
    requires length { length six.now ≡ 6 }
    requires digits { AreSixDigits six.now }
    ensures { IsDay result (day_named six.now reference) }
{
    let year = nearest_year(reference.number(), two_digits(six[0], six[1]));
    day_in_month(year, two_digits(six[2], six[3]), two_digits(six[4], six[5]))
}

/// Whether each byte is an ASCII digit.
pub(crate) fn are_digits(text: &[u8]) -> bool
    ensures { result ≡ list_all is_ascii_digit text.now }
{
    text.iter().all(|byte| byte.is_ascii_digit())
}

/// Whether a text is six ASCII digits.
pub(crate) fn is_six_digits(text: &[u8]) -> bool
    ensures { result ≡ is_six_digits text.now }
{
    text.len() == 6 && are_digits(text)
}

/// The day that a text of six digits, YYMMDD, names under the reference year, with day 00 as the
/// last of its month: none if there is no such day, and of any other text
/// (GS1 General Specifications, sections 3.4 and 7.12).
pub(crate) fn date_of(text: &[u8], reference: ReferenceYear) -> Option<Date>
    ensures day { IsDay result (day_of text.now reference) }
    ensures some { is_some result ≡ is_some (day_of text.now reference) }
{
    if !is_six_digits(text) {
        return None;
    }
    named_day(text, reference)
}
