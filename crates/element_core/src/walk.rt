//! Goes through the elements of a text.

ghost use Rattle.std.specs.Prelude.{◌≡◌, ◌+◌, ◌-◌, ◌≤◌, ◌<◌, IfSome, drop, length, take};
ghost use Rattle.element_core.specs.Days.{IsDay};
ghost use Rattle.element_core.specs.Elements.{entry_day, entry_time, entry_until};
ghost use Rattle.element_core.specs.Shown.{shown_elements};
ghost use Rattle.element_core.specs.Walked.{elements_seen, entry_seen};

use crate::element::named_of_element;
use crate::front::front_of;
use crate::terms::Year;
use jiff::civil::Date;

/// An element in its text, with the days and the time that it names.
#[derive(Clone, Copy)]
pub struct Seen<'a> {
    pub ai: &'a [u8],
    pub value: &'a [u8],
    pub date: Option<Date>,
    pub time: Option<[u8; 3]>,
    /// The last day of a period, if it names one.
    pub until: Option<Date>,
    /// The text after it and its separator.
    pub rest: &'a [u8],
}

/// The element at the front of a text, if it begins with an AI of the table.
pub fn first_element(text: &[u8], year: Year) -> Option<Seen<'_>>
    ensures elements { shown_elements text.now ≡ elements_seen result }
    ensures within { IfSome result (λ s. length s.ai.now + length s.value.now + length s.rest.now ≤ length text.now) }
    ensures ai { IfSome result (λ s. s.ai.now ≡ take (length s.ai.now) text.now) }
    ensures value { IfSome result (λ s. s.value.now ≡ take (length s.value.now) (drop (length s.ai.now) text.now)) }
    ensures rest { IfSome result (λ s. s.rest.now ≡ drop (length text.now - length s.rest.now) text.now) }
    ensures some { IfSome result (λ s. 0 < length s.ai.now) }
    ensures date { IfSome result (λ s. IsDay s.date (entry_day year (entry_seen s))) }
    ensures time { IfSome result (λ s. s.time ≡ entry_time (entry_seen s)) }
    ensures until { IfSome result (λ s. IsDay s.until (entry_until year (entry_seen s))) }
{
    let front = front_of(text)?;
    let named = named_of_element(front.ai, front.value, year);
    Some(Seen {
        ai: front.ai,
        value: front.value,
        date: named.date,
        time: named.time,
        until: named.until,
        rest: front.rest,
    })
}
