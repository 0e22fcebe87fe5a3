//! The days and times that elements name.
ghost use Rattle.std.specs.Prelude.{◌≡◌, ◌∷◌, ◌++◌, ◌≤◌, ◌<◌, [], None, Some, Option, ℕ, IfErr, IfOk, OnOk, codes, drop, length};
ghost use Rattle.digits_core.specs.Buffers.{IsPut};
ghost use Rattle.element_core.specs.Days.{IsDay};
ghost use Rattle.gs1_c.specs.Dates.{before_equals, date_line_by, dated_line, day_text, shown_fault, shown_pair, time_text, as_two_digits};

use crate::buffer::put_refusal;
use answer_core::{put, put_words};
use element_core::{Element, ElementFault, Elements, Pair, Text, Year};
use jiff::civil::Date;

/// The most bytes of a pair.
const MOST: usize = 192;

/// How many bytes stand before the first `=`.
pub fn equals_at(text: &[u8]) -> usize
    ensures value { result ≡ length (before_equals text.now) }
    ensures within { result ≤ length text.now }
{
    for (i, byte) in text.iter().enumerate() {
        if *byte == b'=' {
            return i;
        }
    }
    text.len()
}

/// A text of these bytes.
fn text_of(bytes: &[u8]) -> Text
    requires { length bytes.now ≤ 192 }
    ensures { result.items ≡ bytes.now }
{
    let mut text = Text::new();
    let _ = text.try_extend_from_slice(bytes);
    text
}

/// All bytes but the first.
fn all_but_first(bytes: &[u8]) -> &[u8]
    ensures { result.now ≡ drop 1 bytes.now }
{
    match bytes {
        [_, rest @ ..] => rest,
        [] => bytes,
    }
}

/// The pair that a text shows.
fn shown_pair(text: &[u8]) -> Pair
    requires { length text.now ≤ 192 }
    ensures ai { result.ai.items ≡ (shown_pair text.now).ai }
    ensures value { result.value.items ≡ (shown_pair text.now).value }
{
    let (ai, behind) = text.split_at(equals_at(text));
    Pair {
        ai: text_of(ai),
        value: text_of(all_but_first(behind)),
    }
}

/// The element that a text shows, as a list of one; or its first fault.
fn read_pair(text: &[u8], year: Year) -> Result<Elements, ElementFault>
    ensures ok { IfOk result (λ es. (es.year ≡ year) × (es.list ≡ shown_pair text.now ∷ [])) }
    ensures only { OnOk result (shown_fault year text.now ≡ None) }
    ensures err { IfErr result (λ f. shown_fault year text.now ≡ Some f) }
{
    if text.len() > MOST {
        return Err(ElementFault::TooLong);
    }
    if text.is_empty() {
        return Err(ElementFault::Empty);
    }
    Elements::of_pairs(&[shown_pair(text)], year)
}

/// A number below 100, in two digits.
fn two_digits(number: u8) -> [u8; 2]
    ensures { result ≡ as_two_digits number }
{
    [b'0' + number / 10, b'0' + number % 10]
}

/// `date` and a day.
fn day_line(date: Date) -> [u8; 15]
    ensures { (day : ℕ × ℕ × ℕ) → IsDay (Some date) (Some day) → result ≡ codes "date " ++ day_text day }
{
    let year = date.year().unsigned_abs();
    let [a, b] = two_digits((year / 100) as u8);
    let [c, d] = two_digits((year % 100) as u8);
    let [e, f] = two_digits(date.month().unsigned_abs());
    let [g, h] = two_digits(date.day().unsigned_abs());
    [
        b'd', b'a', b't', b'e', b' ', a, b, c, d, b'-', e, f, b'-', g, h,
    ]
}

/// The hours, the minutes and the seconds of a time.
fn time_text(time: [u8; 3]) -> [u8; 8]
    ensures { result ≡ time_text time }
{
    let [a, b] = two_digits(time[0]);
    let [c, d] = two_digits(time[1]);
    let [e, f] = two_digits(time[2]);
    [a, b, b':', c, d, b':', e, f]
}

/// Puts the day and the time of an element, or `none`.
fn put_dated(element: &Element, out: &mut [u8]) -> usize
    ensures { (day : Option (ℕ × ℕ × ℕ)) → IsDay element.now.date day → IsPut (dated_line day element.now.time) out.old out.new result }
{
    let Some(date) = element.date else {
        return put(b"none", out);
    };
    match element.time {
        None => put(&day_line(date), out),
        Some(time) => put_words(&day_line(date), &time_text(time), out),
    }
}

/// Puts the day and the time of the element that a text shows, or the error of the text.
pub fn put_date(text: &[u8], year: Year, out: &mut [u8]) -> usize
    ensures { IsPut (date_line_by year (shown_pair text.now) (shown_fault year text.now)) out.old out.new result }
{
    match read_pair(text, year) {
        Ok(elements) => put_dated(&elements.element(0), out),
        Err(fault) => put_refusal(fault.refusal(), out),
    }
}
