//! Where elements are in a text, and their days, times and numbers.
ghost use Rattle.std.specs.Prelude.{◌≡◌, ◌≤◌, ◌+◌, length, option_map, take, IfSome, ℕ, Option};
ghost use Rattle.std.specs.List.{AllZip};
ghost use Rattle.element_core.specs.Days.{IsDay};
ghost use Rattle.element_core.specs.Shown.{shown_elements};
ghost use Rattle.answer_core.specs.Places.{Names, IsPlaced};
ghost use Rattle.answer_core.specs.Numbers.{decimals_of, number_at, number_index};
ghost use Rattle.answer_core.specs.inner.Numbers.{first_and_decimals};

use crate::named::{Day, day_of, has_day, has_time, time_of};
use crate::number::{NumberPlace, number_at};
use element_core::{Seen, Year, first_element};

/// The most elements of an answer.
pub const MOST_ELEMENTS: usize = 48;

/// No number.
const NONE: u8 = 255;

/// Where an element is in the text of its answer, and the days and the time that it names.
#[repr(C)]
#[derive(Clone, Copy, Default)]
pub struct Place {
    /// The index of its AI's first byte.
    pub ai: u8,
    /// The index of its value's first byte.
    pub value: u8,
    /// The index behind its value.
    pub end: u8,
    /// What it names: 1, a day; 2, a time; 4, the last day of a period; or a sum of these.
    pub named: u8,
    pub day: Day,
    /// The last day of a period (AI 7007).
    pub until: Day,
    /// Hours, minutes and seconds.
    pub time: [u8; 3],
    /// The index of its number's first digit, behind a currency; 255 if it has no number.
    pub number: u8,
    /// How many digits of the number are decimals; 255 if it has no number.
    pub decimals: u8,
    /// 0.
    pub reserved: u8,
}

// Programs in other languages read it by this size.
const _: () = prove!(size_of::<Place>() == 18);

impl Place {
    /// The place of nothing.
    pub(crate) fn new() -> Place {
        let none = day_of(None);
        Place {
            ai: 0,
            value: 0,
            end: 0,
            named: 0,
            day: none,
            until: none,
            time: [0; 3],
            number: NONE,
            decimals: NONE,
            reserved: 0,
        }
    }
}

/// The index of the number in a value that begins here, and its decimals.
fn number_in(place: Option<NumberPlace>, value: usize) -> (u8, u8)
    requires few { value ≤ 192 }
    requires short { IfSome place (λ p. p.first ≤ 3) }
    ensures index { result.0 ≡ number_index value (option_map first_and_decimals place) }
    ensures decimals { result.1 ≡ decimals_of (option_map first_and_decimals place) }
{
    match place {
        None => (NONE, NONE),
        Some(place) => (value as u8 + place.first, place.decimals),
    }
}

/// The place of an element that begins here in its text.
fn place_of(at: usize, seen: &Seen) -> Place
    requires { at + length seen.now.ai.now + length seen.now.value.now ≤ 192 }
    ensures ai { result.ai ≡ at }
    ensures value { result.value ≡ at + length seen.now.ai.now }
    ensures end { result.end ≡ at + length seen.now.ai.now + length seen.now.value.now }
    ensures names { (day until : Option (ℕ × ℕ × ℕ)) → IsDay seen.now.date day → IsDay seen.now.until until → Names day seen.now.time until result }
    ensures number { result.number ≡ number_index result.value (number_at seen.now.ai.now) }
    ensures decimals { result.decimals ≡ decimals_of (number_at seen.now.ai.now) }
    ensures reserved { result.reserved ≡ 0 }
{
    let value = at + seen.ai.len();
    let (number, decimals) = number_in(number_at(seen.ai), value);
    Place {
        ai: at as u8,
        value: value as u8,
        end: (value + seen.value.len()) as u8,
        named: has_day(seen.date) + 2 * has_time(seen.time) + 4 * has_day(seen.until),
        day: day_of(seen.date),
        until: day_of(seen.until),
        time: time_of(seen.time),
        number,
        decimals,
        reserved: 0,
    }
}

/// Writes the places of the elements of a text, and returns how many they are.
pub(crate) fn put_places(text: &[u8], year: Year, places: &mut [Place; MOST_ELEMENTS]) -> u8
    requires short { length text.now ≤ 192 }
    requires few { length (shown_elements text.now) ≤ 48 }
    ensures count { result ≡ length (shown_elements text.now) }
    ensures stand { AllZip (IsPlaced year text.now) (shown_elements text.now) (take (length (shown_elements text.now)) places.new) }
{
    let mut rest = text;
    let mut count: usize = 0;
    while let Some(seen) = first_element(rest, year) {
        places[count] = place_of(text.len() - rest.len(), &seen);
        count += 1;
        rest = seen.rest;
    }
    count as u8
}
