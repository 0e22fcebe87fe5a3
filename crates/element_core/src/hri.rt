//! The human-readable interpretation (GS1 General Specifications, section 4.14).

ghost use Rattle.std.specs.Prelude.{◌≡◌, ◌+◌, ◌*◌, ◌/◌, ◌<◌, ◌≤◌, ◌∷◌, ◌++◌, length, All, IfErr, List, OnOk};
ghost use Rattle.arrayvec.specs.ArrayString.{array_string_len};
ghost use Rattle.digits_core.specs.Buffers.{pasted};
ghost use Rattle.element_core.specs.Elements.{Entry, FirstFault, IsElements, hri};
ghost use Rattle.element_core.specs.Shown.{shown_elements};
ghost use Rattle.element_core.specs.inner.Walks.{AreAscii};

use crate::fault::ElementFault;
use crate::front::front_of;
use crate::reading::{TakesElements, read_elements};
use crate::terms::Year;
use arrayvec::ArrayString;
use digits_core::put_at;
use std::str::from_utf8_unchecked;

/// ASCII bytes as a `str`.
pub(crate) fn ascii_str(bytes: &[u8]) -> &str
    requires { All (λ b. b < 128) bytes.now }
    ensures { result.now ≡ bytes.now }
{
    // ASCII is UTF-8.
    unsafe { from_utf8_unchecked(bytes) }
}

/// Puts ASCII bytes at the end.
pub(crate) fn push_bytes(line: &mut ArrayString<288>, bytes: &[u8])
    requires ascii { All (λ b. b < 128) bytes.now }
    requires room { array_string_len line.old + length bytes.now ≤ 288 }
    ensures { line.new.bytes ≡ line.old.bytes ++ bytes.now }
{
    line.push_str(ascii_str(bytes));
}

/// Puts an element at the end: its AI in parentheses, then its value.
pub(crate) fn push_element(line: &mut ArrayString<288>, ai: &[u8], value: &[u8])
    requires ai { All (λ b. b < 128) ai.now }
    requires value { All (λ b. b < 128) value.now }
    requires room { array_string_len line.old + length ai.now + length value.now + 2 ≤ 288 }
    ensures { line.new.bytes ≡ line.old.bytes ++ (40 ∷ ai.now ++ (41 ∷ value.now)) }
{
    line.push('(');
    push_bytes(line, ai);
    line.push(')');
    push_bytes(line, value);
}

impl TakesElements for ArrayString<288> {
    ghost use Rattle.std.specs.Prelude.{◌≡◌};
    ghost use Rattle.element_core.specs.Elements.{hri};

    ghost Holds = { λ line list. line.bytes ≡ hri list };

    fn take(&mut self, ai: &[u8], value: &[u8], _predefined: bool) {
        push_element(self, ai, value);
    }
}

/// Reads an element string and replaces the line by its human-readable interpretation, or returns the string's first
/// error.
pub fn write_hri(text: &[u8], year: Year, line: &mut ArrayString<288>) -> Result<(), ElementFault>
    ensures ok { OnOk result ((list : List Entry) × IsElements year text.now list × (line.new.bytes ≡ hri list)) }
    ensures err { IfErr result (λ f. FirstFault year text.now f) }
{
    line.clear();
    read_elements(text, year, line)
}

/// Replaces the line by that of the elements of a text.
pub(crate) fn write_line(text: &[u8], line: &mut ArrayString<288>)
    requires ascii { AreAscii (shown_elements text.now) }
    requires room { length (hri (shown_elements text.now)) ≤ 288 }
    ensures { line.new.bytes ≡ hri (shown_elements text.now) }
{
    line.clear();
    let mut rest = text;
    while let Some(front) = front_of(rest) {
        push_element(line, front.ai, front.value);
        rest = front.rest;
    }
}

/// Puts an element into `out` from `at` on, and returns where it ends: its AI in parentheses, then its value.
fn put_element(ai: &[u8], value: &[u8], at: usize, out: &mut [u8]) -> usize
    requires { at + length (40 ∷ ai.now ++ (41 ∷ value.now)) ≤ length out.old }
    ensures end { result ≡ at + length (40 ∷ ai.now ++ (41 ∷ value.now)) }
    ensures put { out.new ≡ pasted out.old at (40 ∷ ai.now ++ (41 ∷ value.now)) }
{
    let open = put_at(b"(", at, out);
    let code = put_at(ai, open, out);
    let close = put_at(b")", code, out);
    put_at(value, close, out)
}

/// The same for the line of a text's elements.
fn put_line_of(text: &[u8], at: usize, out: &mut [u8]) -> usize
    requires { at + length (hri (shown_elements text.now)) ≤ length out.old }
    ensures end { result ≡ at + length (hri (shown_elements text.now)) }
    ensures put { out.new ≡ pasted out.old at (hri (shown_elements text.now)) }
{
    let mut end = at;
    let mut rest = text;
    while let Some(front) = front_of(rest) {
        end = put_element(front.ai, front.value, end, out);
        rest = front.rest;
    }
    end
}

/// How many bytes the line of a text's elements has.
fn line_length(text: &[u8]) -> usize
    requires { length (hri (shown_elements text.now)) ≤ 288 }
    ensures { result ≡ length (hri (shown_elements text.now)) }
{
    let mut count = 0;
    let mut rest = text;
    while let Some(front) = front_of(rest) {
        count += front.ai.len() + front.value.len() + 2;
        rest = front.rest;
    }
    count
}

/// Puts the line of a text's elements into `out` from `at` on if there is room for all of it, and returns how many
/// bytes the line has.
pub(crate) fn put_line(text: &[u8], at: usize, out: &mut [u8]) -> usize
    requires short { length text.now ≤ 192 }
    requires least { length (hri (shown_elements text.now)) ≤ 288 }
    requires most { length (hri (shown_elements text.now)) ≤ length text.now + (length text.now + 1) / 4 * 2 }
    ensures count { result ≡ length (hri (shown_elements text.now)) }
    ensures few { result ≤ 288 }
    ensures put { at + result ≤ length out.old → out.new ≡ pasted out.old at (hri (shown_elements text.now)) }
    ensures unchanged { length out.old < at + result → out.new ≡ out.old }
{
    if at <= out.len() {
        let room = out.len() - at;
        // It measures a line first only if there is little room.
        if text.len() + (text.len() + 1) / 4 * 2 <= room || line_length(text) <= room {
            return put_line_of(text, at, out) - at;
        }
    }
    line_length(text)
}
