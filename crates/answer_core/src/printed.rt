//! Reads element strings as they are printed: each AI in parentheses or brackets, before its value.
ghost use Rattle.std.specs.Prelude.{◌≡◌, ◌+◌, ◌<◌, ◌≤◌, ◌∷◌, [], drop, length, option_map, false, true, IfNone, IfSome};
ghost use Rattle.std.specs.List.{list_all};
ghost use Rattle.element_core.specs.Pairs.{entries_of, entry_of};
ghost use Rattle.message_core.specs.Collecting.{Puts};
ghost use Rattle.message_core.specs.Links.{fits, fits_entry};
ghost use Rattle.answer_core.specs.Printed.{before_mark, begins_marked, closed, is_known_ai, has_plain_value, is_plain_value, is_taken_ai, mark_at, printed, printed_entry, printed_value, start_of};

use crate::gap::{GapPlace, are_digits, trimmed, without_gaps};
use element_core::{Pair, Text, Year, first_element};
use message_core::{Pairs, has_no, put_pair, text_of};

/// How AIs are marked in a printed text.
#[derive(Clone, Copy, Debug, PartialEq, Eq)]
pub struct Marks {
    /// The character before an AI.
    pub opening: u8,
    /// The character behind it.
    pub closing: u8,
    /// Whether only AIs of the table count, or any two to four digits.
    pub known: bool,
}

/// The digits before the closing character, if nothing else is there, and the text behind it.
fn closed(closing: u8, text: &[u8]) -> Option<(&[u8], &[u8])>
    ensures digits { option_map (λ p. p.0.now) result ≡ closed closing text.now }
    ensures behind { IfSome result (λ p. p.1.now ≡ drop (length p.0.now + 1) text.now) }
{
    for (i, byte) in text.iter().enumerate() {
        if *byte == closing {
            return Some((&text[..i], &text[i + 1..]));
        }
        if !byte.is_ascii_digit() {
            return None;
        }
    }
    None
}

/// Whether digits are an AI of the table.
fn is_known_ai(digits: &[u8], terms: Year) -> bool
    ensures { result ≡ is_known_ai digits.now }
{
    match first_element(digits, terms) {
        Some(first) => first.ai.len() == digits.len(),
        None => false,
    }
}

/// Whether digits count as an AI.
fn is_taken_ai(known: bool, digits: &[u8], terms: Year) -> bool
    ensures { result ≡ is_taken_ai known digits.now }
{
    if known {
        is_known_ai(digits, terms)
    } else {
        2 <= digits.len() && digits.len() <= 4
    }
}

/// The AI at the front of a text, between its two characters, and the text behind them.
fn mark_at(marks: Marks, text: &[u8], terms: Year) -> Option<(&[u8], &[u8])>
    ensures ai { option_map (λ p. p.0.now) result ≡ mark_at marks text.now }
    ensures behind { IfSome result (λ p. p.1.now ≡ drop (length p.0.now + 1) (drop 1 text.now)) }
{
    let [first, rest @ ..] = text else {
        return None;
    };
    if *first != marks.opening {
        return None;
    }
    let (digits, behind) = closed(marks.closing, rest)?;
    if is_taken_ai(marks.known, digits, terms) {
        Some((digits, behind))
    } else {
        None
    }
}

/// Whether an AI between its two characters is at the front of a text.
pub(crate) fn begins_marked(marks: Marks, text: &[u8], terms: Year) -> bool
    ensures { result ≡ begins_marked marks text.now }
{
    mark_at(marks, text, terms).is_some()
}

/// The text before the first AI that is between its two characters.
fn before_mark(marks: Marks, text: &[u8], terms: Year) -> &[u8]
    ensures { result.now ≡ before_mark marks text.now }
{
    for i in 0..text.len() {
        if begins_marked(marks, &text[i..], terms) {
            return &text[..i];
        }
    }
    text
}

/// A value without the gaps around it; if it has only digits, also without those within it. Only if it has at most
/// 192 bytes.
fn printed_value(text: &[u8]) -> Option<Text>
    ensures some { IfSome result (λ t. t.items ≡ printed_value text.now) }
    ensures few { IfSome result (λ t. length t.items ≤ 192) }
    ensures none { IfNone result (192 < length (printed_value text.now)) }
{
    if are_digits(GapPlace::Value, text) {
        without_gaps(GapPlace::Value, text)
    } else {
        text_of(trimmed(GapPlace::Value, text))
    }
}

/// The pair of an AI and the text up to the next one, if neither has more than 192 bytes.
fn printed_pair(ai: &[u8], value: &[u8]) -> Option<Pair>
    ensures some { IfSome result (λ p. entry_of p ≡ printed_entry ai.now value.now) }
    ensures fits { IfSome result (λ p. fits_entry (entry_of p) ≡ true) }
    ensures none { IfNone result (fits_entry (printed_entry ai.now value.now) ≡ false) }
{
    Some(Pair {
        ai: text_of(ai)?,
        value: printed_value(value)?,
    })
}

/// Puts an AI and the text up to the next one at the end, if they fit.
fn put_printed(pairs: &mut Pairs, ai: &[u8], value: &[u8]) -> bool
    ensures { Puts result pairs.old.list pairs.new.list (printed_entry ai.now value.now ∷ []) }
{
    put_pair(pairs, printed_pair(ai, value))
}

/// Replaces the elements by those of a text, if they fit.
pub(crate) fn put_all_printed(marks: Marks, text: &[u8], terms: Year, pairs: &mut Pairs) -> bool
    ensures put { result ≡ true → pairs.new.list ≡ printed marks text.now }
    ensures full { result ≡ false → fits (printed marks text.now) ≡ false }
{
    pairs.clear();
    let mut rest = text;
    while let [_, behind @ ..] = rest {
        if let Some((ai, left)) = mark_at(marks, rest, terms) {
            if !put_printed(pairs, ai, before_mark(marks, left, terms)) {
                return false;
            }
        }
        rest = behind;
    }
    true
}

/// Whether no value is empty or has one of the characters around AIs.
pub(crate) fn are_plain(marks: Marks, pairs: &[Pair]) -> bool
    ensures { result ≡ list_all (has_plain_value marks) (entries_of pairs.now) }
{
    for pair in pairs {
        if !is_plain(marks, pair.value.as_slice()) {
            return false;
        }
    }
    true
}

/// Whether a value is not empty and has none of the characters around AIs.
fn is_plain(marks: Marks, value: &[u8]) -> bool
    ensures { result ≡ is_plain_value marks value.now }
{
    !value.is_empty() && has_no(marks.opening, value) && has_no(marks.closing, value)
}

/// How many bytes a pair has, with a separator behind it.
fn pair_length(pair: &Pair) -> usize
    ensures count { result ≡ length pair.now.ai.items + (length pair.now.value.items + 1) }
    ensures few { result ≤ 385 }
{
    pair.ai.len() + pair.value.len() + 1
}

/// Where the element with this index begins in the text of all elements with a separator between each two.
pub(crate) fn start_of(pairs: &[Pair], i: usize) -> usize
    requires { length pairs.now ≤ 48 }
    ensures { result ≡ start_of (entries_of pairs.now) i }
{
    let mut start = 0;
    for (at, pair) in pairs.iter().enumerate() {
        if at >= i {
            return start;
        }
        start += pair_length(pair);
    }
    start
}
