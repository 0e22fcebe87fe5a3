//! Percent-encodes elements.
ghost use Rattle.std.specs.Prelude.{◌≡◌, ◌<◌, ◌≤◌, ◌+◌, ◌++◌, ◌∷◌, [], MatchOption, length, map};
ghost use Rattle.message_core.specs.Coding.{encoded, hex_digit};
ghost use Rattle.answer_core.specs.Places.{entry_at};
ghost use Rattle.answer_core.specs.Written.{coded_elements, is_unreserved};
ghost use Rattle.answer_core.specs.inner.Written.{byte_code};

use crate::format::split_first;
use crate::place::Place;
use arrayvec::ArrayVec;

/// The longest path and query of a link: 192 bytes with three for each, and two delimiters for each of 48 elements.
pub(crate) type Coded = ArrayVec<u8, 672>;

/// Whether a byte needs no code: letters, digits and `-._~` (RFC 3986, section 2.3).
fn is_unreserved(byte: u8) -> bool
    ensures { result ≡ is_unreserved byte }
{
    byte.is_ascii_alphanumeric() || byte == b'-' || byte == b'.' || byte == b'_' || byte == b'~'
}

/// The hexadecimal digit of a number.
fn hex_digit(number: u8) -> u8
    requires { number < 16 }
    ensures { result ≡ hex_digit number }
{
    if number <= 9 {
        b'0' + number
    } else {
        b'A' - 10 + number
    }
}

/// Puts a byte at the end of a text, encoded if necessary.
fn push_byte(byte: u8, line: &mut Coded)
    requires { length line.old.items + length (byte_code byte) ≤ 672 }
    ensures { line.new.items ≡ line.old.items ++ byte_code byte }
{
    if is_unreserved(byte) {
        line.push(byte);
        return;
    }
    line.push(b'%');
    line.push(hex_digit(byte / 16));
    line.push(hex_digit(byte % 16));
}

/// The first byte, and the bytes behind it.
fn first_byte(bytes: &[u8]) -> Option<(u8, &[u8])>
    ensures { MatchOption result (bytes.now ≡ []) (λ p. bytes.now ≡ p.0 ∷ p.1.now) }
{
    match bytes {
        [] => None,
        [byte, rest @ ..] => Some((*byte, rest)),
    }
}

/// Puts percent-encoded bytes at the end of a text.
fn push_coded(bytes: &[u8], line: &mut Coded)
    requires { length line.old.items + length (encoded is_unreserved bytes.now) ≤ 672 }
    ensures { line.new.items ≡ line.old.items ++ encoded is_unreserved bytes.now }
{
    let mut rest = bytes;
    while let Some((byte, more)) = first_byte(rest) {
        push_byte(byte, line);
        rest = more;
    }
}

/// The delimiters of elements: before the first, before each other, and between AI and value.
#[derive(Clone, Copy)]
pub(crate) struct LinkSigns {
    pub(crate) first: u8,
    pub(crate) next: u8,
    pub(crate) between: u8,
}

/// Puts the elements at these places at the end of a text.
pub(crate) fn push_elements(signs: LinkSigns, text: &[u8], places: &[Place], line: &mut Coded)
    requires { length line.old.items + length (coded_elements signs.first signs.next signs.between (map (entry_at text.now) places.now)) ≤ 672 }
    ensures { line.new.items ≡ line.old.items ++ coded_elements signs.first signs.next signs.between (map (entry_at text.now) places.now) }
{
    let mut sign = signs.first;
    let mut rest = places;
    while let Some(first) = split_first(text, rest) {
        push_element(sign, first.ai, signs.between, first.value, line);
        sign = signs.next;
        rest = first.rest;
    }
}

/// Puts an element behind its delimiter at the end of a text.
fn push_element(sign: u8, ai: &[u8], between: u8, value: &[u8], line: &mut Coded)
    requires { length line.old.items + length ((sign ∷ ai.now) ++ (between ∷ encoded is_unreserved value.now)) ≤ 672 }
    ensures { line.new.items ≡ line.old.items ++ ((sign ∷ ai.now) ++ (between ∷ encoded is_unreserved value.now)) }
{
    line.push(sign);
    let _ = line.try_extend_from_slice(ai);
    line.push(between);
    push_coded(value, line);
}
