//! The days and times that parts of a value name by their rules.

ghost use Rattle.std.specs.Prelude.{◌≡◌, take, drop, is_some};
ghost use Rattle.element_core.specs.Days.{IsDay};
ghost use Rattle.element_core.specs.Times.{day_named_by, is_named, names_day, names_second_day, names_time, second_day_named_by, time_named_by};

use crate::date::date_of;
use crate::part::Rule;
use crate::time::{exact_date_of, long_date_of, time_of};
use crate::year::ReferenceYear;
use jiff::civil::Date;

/// The bytes before a place, and those from there on.
fn split(text: &[u8], at: usize) -> (&[u8], &[u8])
    ensures front { result.0.now ≡ take at text.now }
    ensures rest { result.1.now ≡ drop at text.now }
{
    text.split_at(text.len().min(at))
}

/// The day that a text names by the rule.
pub(crate) fn day_named_by(rule: Rule, text: &[u8], reference: ReferenceYear) -> Option<Date>
    ensures day { IsDay result (day_named_by rule text.now reference) }
    ensures some { is_some result ≡ is_some (day_named_by rule text.now reference) }
{
    match rule {
        Rule::DayOrMonth => date_of(text, reference),
        Rule::Day => exact_date_of(text, reference),
        Rule::DayOrMonthAndTime => date_of(split(text, 6).0, reference),
        Rule::DayAndTime | Rule::DayPerhapsTime | Rule::OneOrTwoDays => {
            exact_date_of(split(text, 6).0, reference)
        }
        Rule::LongDay => long_date_of(text),
        Rule::LongDayAndTime => long_date_of(split(text, 8).0),
        Rule::Free
        | Rule::NonZero
        | Rule::NoLeadingZero
        | Rule::PieceOfTotal
        | Rule::Position
        | Rule::Percent
        | Rule::Latitude
        | Rule::Longitude
        | Rule::Media
        | Rule::CompanyPrefix
        | Rule::ModelNumber => None,
    }
}

/// The time that a text names by the rule.
pub(crate) fn time_named_by(rule: Rule, text: &[u8]) -> Option<[u8; 3]>
    ensures { result ≡ time_named_by rule text.now }
{
    match rule {
        Rule::DayAndTime | Rule::DayOrMonthAndTime | Rule::DayPerhapsTime => {
            time_of(split(text, 6).1)
        }
        Rule::LongDayAndTime => time_of(split(text, 8).1),
        Rule::Free
        | Rule::DayOrMonth
        | Rule::Day
        | Rule::OneOrTwoDays
        | Rule::LongDay
        | Rule::NonZero
        | Rule::NoLeadingZero
        | Rule::PieceOfTotal
        | Rule::Position
        | Rule::Percent
        | Rule::Latitude
        | Rule::Longitude
        | Rule::Media
        | Rule::CompanyPrefix
        | Rule::ModelNumber => None,
    }
}

/// The second day that a text names by the rule.
pub(crate) fn second_day_named_by(rule: Rule, text: &[u8], reference: ReferenceYear) -> Option<Date>
    ensures { IsDay result (second_day_named_by rule text.now reference) }
{
    match rule {
        Rule::OneOrTwoDays => exact_date_of(split(text, 6).1, reference),
        _ => None,
    }
}

/// Whether parts of this rule name a day.
fn names_day(rule: Rule) -> bool
    ensures { result ≡ names_day rule }
{
    matches!(
        rule,
        Rule::DayOrMonth
            | Rule::Day
            | Rule::DayAndTime
            | Rule::DayOrMonthAndTime
            | Rule::DayPerhapsTime
            | Rule::OneOrTwoDays
            | Rule::LongDay
            | Rule::LongDayAndTime
    )
}

/// Whether a part of this rule and this many bytes names a time.
fn names_time(rule: Rule, count: usize) -> bool
    ensures { result ≡ names_time rule count }
{
    match rule {
        Rule::DayAndTime | Rule::DayOrMonthAndTime | Rule::LongDayAndTime => true,
        Rule::DayPerhapsTime => 6 < count,
        _ => false,
    }
}

/// Whether it names a second day.
fn names_second_day(rule: Rule, count: usize) -> bool
    ensures { result ≡ names_second_day rule count }
{
    matches!(rule, Rule::OneOrTwoDays) && 6 < count
}

/// Whether the days and the time that a text names exist.
pub(crate) fn is_named(reference: ReferenceYear, rule: Rule, text: &[u8]) -> bool
    ensures { result ≡ is_named reference rule text.now }
{
    (!names_day(rule) || day_named_by(rule, text, reference).is_some())
        && (!names_time(rule, text.len()) || time_named_by(rule, text).is_some())
        && (!names_second_day(rule, text.len())
            || exact_date_of(split(text, 6).1, reference).is_some())
}
