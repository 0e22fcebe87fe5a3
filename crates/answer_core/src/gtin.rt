//! The GTIN among the elements of a text.
ghost use Rattle.std.specs.Prelude.{◌≡◌, ◌≤◌, codes, length, map};
ghost use Rattle.std.specs.Str.{bytes_eq};
ghost use Rattle.answer_core.specs.Places.{entry_at, gtin_index, have_value, is_gtin, span};

use crate::place::Place;

/// No GTIN, or two different ones.
const NONE: u8 = 255;

/// The bytes of a text from an index up to another, or none if there is no such span.
pub(crate) fn span(text: &[u8], from: u8, to: u8) -> &[u8]
    ensures { result.now ≡ span text.now from to }
{
    let (from, to) = (usize::from(from), usize::from(to));
    if from <= to && to <= text.len() {
        &text[from..to]
    } else {
        &[]
    }
}

/// Whether an AI is that of a GTIN.
fn names_gtin(ai: &[u8]) -> bool
    ensures { result ≡ bytes_eq ai.now (codes "01") }
{
    match ai {
        b"01" => true,
        _ => false,
    }
}

/// Whether an element is of AI 01.
fn is_gtin(text: &[u8], place: &Place) -> bool
    ensures { result ≡ is_gtin (entry_at text.now place.now) }
{
    names_gtin(span(text, place.ai, place.value))
}

/// Whether each element of AI 01 has this value.
fn have_value(text: &[u8], value: &[u8], places: &[Place]) -> bool
    ensures { result ≡ have_value value.now (map (entry_at text.now) places.now) }
{
    let mut rest = places;
    while let [place, more @ ..] = rest {
        if is_gtin(text, place) && span(text, place.value, place.end) != value {
            return false;
        }
        rest = more;
    }
    true
}

/// The index of the first element of AI 01; 255 if there is none, or if there is another with a different value.
pub(crate) fn gtin_index(text: &[u8], places: &[Place]) -> u8
    requires { length places.now ≤ 48 }
    ensures { result ≡ gtin_index (map (entry_at text.now) places.now) }
{
    let mut index: u8 = 0;
    let mut rest = places;
    while let [place, more @ ..] = rest {
        if is_gtin(text, place) {
            let alone = have_value(text, span(text, place.value, place.end), more);
            return if alone { index } else { NONE };
        }
        index += 1;
        rest = more;
    }
    NONE
}
