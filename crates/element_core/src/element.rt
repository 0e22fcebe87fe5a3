//! An element of a list.

ghost use Rattle.std.specs.Prelude.{◌≡◌, ◌≤◌, length};
ghost use Rattle.element_core.specs.Days.{IsDay};
ghost use Rattle.element_core.specs.Elements.{entry_day, entry_time, entry_until};

use crate::family::{AiFamily, family_at};
use crate::named::{day_named_by, second_day_named_by, time_named_by};
use crate::terms::Year;
use crate::text::Text;
use jiff::civil::Date;

/// An element string: an Application Identifier and its value.
#[derive(Drop)]
pub struct Element {
    /// Two to four ASCII digits.
    pub ai: Text,
    /// The value, without a separator.
    pub value: Text,
    /// The day that the value names, if the AI is one of a day.
    pub date: Option<Date>,
    /// The hours, the minutes and the seconds that the value names; those that the value omits are 0. None if the AI
    /// is not one of a time. In the profile, those of a time are 7003 and 8008.
    pub time: Option<[u8; 3]>,
}

/// The days and the time that an element names.
#[derive(Clone, Copy)]
pub(crate) struct Named {
    /// The day, if its AI is one of a day.
    pub date: Option<Date>,
    /// The hours, the minutes and the seconds, if its AI is one of a time.
    pub time: Option<[u8; 3]>,
    /// The last day of a period, if its AI is one of a period and it names a second day.
    pub until: Option<Date>,
}

/// The days and the time of an element, with one look-up in the table.
pub(crate) fn named_of_element(ai: &[u8], value: &[u8], year: Year) -> Named
    ensures date { IsDay result.date (entry_day year (record { ai = ai.now; value = value.now })) }
    ensures time { result.time ≡ entry_time (record { ai = ai.now; value = value.now }) }
    ensures until { IsDay result.until (entry_until year (record { ai = ai.now; value = value.now })) }
{
    match family_at(ai) {
        Some(AiFamily { parts: [part], .. }) => Named {
            date: day_named_by(part.rule, value, year.reference()),
            time: time_named_by(part.rule, value),
            until: second_day_named_by(part.rule, value, year.reference()),
        },
        _ => Named {
            date: None,
            time: None,
            until: None,
        },
    }
}
