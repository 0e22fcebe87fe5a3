//! Blanks and hyphens that people put into texts for readability. Texts are UTF-8.
ghost use Rattle.std.specs.Prelude.{◌≡◌, ◌++◌, ◌<◌, ◌≤◌, [], List, false, length, slice_index_or, suc, true, ℕ, IfNone, IfSome};
ghost use Rattle.std.specs.List.{cons_option, list_all};
ghost use Rattle.element_core.specs.Elements.{is_digit};
ghost use Rattle.answer_core.specs.Gaps.{before_gaps, behind_gaps, gap_length, gap_of, is_byte_gap, is_three_byte_gap, is_two_byte_gap, without_gaps, kept_in, last_gap_length, trimmed};

use element_core::Text;
use message_core::without_first;

/// Where blanks and hyphens are ignored.
#[derive(Clone, Copy, Debug, PartialEq, Eq)]
pub enum GapPlace {
    /// At the ends of a text: white space.
    Ends,
    /// In a printed value: white space and the separator, byte 29.
    Value,
    /// In a number: white space and hyphens.
    Number,
}

/// Whether a byte is a gap by itself.
fn is_byte_gap(place: GapPlace, byte: u8) -> bool
    ensures { result ≡ is_byte_gap place byte }
{
    match byte {
        9..=13 => true,
        28 => true,
        29 => place == GapPlace::Value,
        30..=32 => true,
        45 => place == GapPlace::Number,
        _ => false,
    }
}

/// Whether two bytes are a gap: U+0085 or U+00A0.
fn is_two_byte_gap(first: u8, second: u8) -> bool
    ensures { result ≡ is_two_byte_gap first second }
{
    first == 194 && (second == 133 || second == 160)
}

/// Whether three bytes are a gap.
fn is_three_byte_gap(place: GapPlace, first: u8, second: u8, third: u8) -> bool
    ensures { result ≡ is_three_byte_gap place first second third }
{
    match (first, second, third) {
        (225, 154, 128) => true,
        (226, 128, 128..=138) => true,
        (226, 128, 144..=149) => place == GapPlace::Number,
        (226, 128, 168) => true,
        (226, 128, 169) => true,
        (226, 128, 175) => true,
        (226, 129, 159) => true,
        (227, 128, 128) => true,
        _ => false,
    }
}

/// The byte at an index, or 0.
pub(crate) fn byte_at(text: &[u8], i: usize) -> u8
    ensures { result ≡ slice_index_or text.now i 0 }
{
    if i < text.len() { text[i] } else { 0 }
}

/// How many bytes the gap has that begins or ends with these bytes, or 0.
fn gap_of(place: GapPlace, one: u8, two: (u8, u8), three: (u8, u8, u8)) -> usize
    ensures { result ≡ gap_of place one two.0 two.1 three.0 three.1 three.2 }
{
    if is_byte_gap(place, one) {
        1
    } else if is_two_byte_gap(two.0, two.1) {
        2
    } else if is_three_byte_gap(place, three.0, three.1, three.2) {
        3
    } else {
        0
    }
}

/// How many bytes the gap at the front has, or 0.
#[tactic(auto, unfolding(crate::specs::Gaps::gap_length))]
fn gap_length(place: GapPlace, text: &[u8]) -> usize
    ensures { result ≡ gap_length place text.now }
{
    let (first, second, third) = (byte_at(text, 0), byte_at(text, 1), byte_at(text, 2));
    gap_of(place, first, (first, second), (first, second, third))
}

/// How many bytes the gap at the end has, or 0.
#[tactic(auto, unfolding(crate::specs::Gaps::last_gap_length))]
fn last_gap_length(place: GapPlace, text: &[u8]) -> usize
    ensures { result ≡ last_gap_length place text.now }
{
    let count = text.len();
    let first = byte_at(text, count.saturating_sub(3));
    let second = byte_at(text, count.saturating_sub(2));
    let third = byte_at(text, count.saturating_sub(1));
    gap_of(place, third, (second, third), (first, second, third))
}

/// The text behind the gaps at the front.
fn behind_gaps(place: GapPlace, text: &[u8]) -> &[u8]
    ensures { result.now ≡ behind_gaps place text.now }
{
    let mut rest = text;
    for _passed in 0..text.len() {
        let gap = gap_length(place, rest);
        if gap == 0 {
            return rest;
        }
        rest = without_first(gap, rest);
    }
    rest
}

/// The text before the gaps at the end.
fn before_gaps(place: GapPlace, text: &[u8]) -> &[u8]
    ensures { result.now ≡ before_gaps place text.now }
{
    let mut rest = text;
    for _passed in 0..text.len() {
        let gap = last_gap_length(place, rest);
        if gap == 0 {
            return rest;
        }
        rest = &rest[..rest.len().saturating_sub(gap)];
    }
    rest
}

/// A text without the gaps at its ends.
pub(crate) fn trimmed(place: GapPlace, text: &[u8]) -> &[u8]
    ensures { result.now ≡ trimmed place text.now }
{
    before_gaps(place, behind_gaps(place, text))
}

/// The byte at the front, if it begins no gap, and the text behind it or behind the gap.
fn first_sign(place: GapPlace, text: &[u8]) -> (Option<u8>, &[u8])
    ensures { (n : ℕ) → kept_in (suc n) place text.now ≡ cons_option result.0 (kept_in n place result.1.now) }
{
    let gap = gap_length(place, text);
    if gap > 0 {
        return (None, without_first(gap, text));
    }
    match text {
        [byte, behind @ ..] => (Some(*byte), behind),
        [] => (None, text),
    }
}

/// Puts a byte at the end, if there is one and room for it.
fn put_byte(text: &mut Text, byte: Option<u8>) -> bool
    ensures put { result ≡ true → text.new.items ≡ text.old.items ++ cons_option byte [] }
    ensures few { length text.old.items ≤ 192 → length text.new.items ≤ 192 }
    ensures full { result ≡ false → (more : List ℕ) → 192 < length (text.old.items ++ cons_option byte more) }
{
    let Some(byte) = byte else {
        return true;
    };
    if text.is_full() {
        return false;
    }
    text.push(byte);
    true
}

/// A text without its gaps, if at most 192 bytes are left.
pub(crate) fn without_gaps(place: GapPlace, text: &[u8]) -> Option<Text>
    ensures some { IfSome result (λ t. t.items ≡ without_gaps place text.now) }
    ensures few { IfSome result (λ t. length t.items ≤ 192) }
    ensures none { IfNone result (192 < length (without_gaps place text.now)) }
{
    let mut left = Text::new();
    let mut rest = text;
    for _passed in 0..text.len() {
        let (byte, behind) = first_sign(place, rest);
        if !put_byte(&mut left, byte) {
            return None;
        }
        rest = behind;
    }
    Some(left)
}

/// Whether all bytes are digits.
fn is_digit_if_any(byte: Option<u8>) -> bool
    ensures { result ≡ list_all is_digit (cons_option byte []) }
{
    match byte {
        Some(byte) => byte.is_ascii_digit(),
        None => true,
    }
}

/// Whether a text has only digits and gaps.
pub(crate) fn are_digits(place: GapPlace, text: &[u8]) -> bool
    ensures { result ≡ list_all is_digit (without_gaps place text.now) }
{
    let mut rest = text;
    for _passed in 0..text.len() {
        let (byte, behind) = first_sign(place, rest);
        if !is_digit_if_any(byte) {
            return false;
        }
        rest = behind;
    }
    true
}
