//! Percent codes (RFC 3986, section 2.1).
ghost use Rattle.std.specs.Prelude.{◌≡◌, ◌<◌, ◌≤◌, ◌∷◌, [], length, IfNone, IfSome};
ghost use Rattle.message_core.specs.Coding.{begins_code, coded_byte, decoded, hex_value, is_coded};

use element_core::Text;

/// Whether a text begins with two hexadecimal digits.
fn begins_code(text: &[u8]) -> bool
    ensures { result ≡ begins_code text.now }
{
    match text {
        [high, low, ..] => high.is_ascii_hexdigit() && low.is_ascii_hexdigit(),
        _ => false,
    }
}

/// Whether each `%` is followed by two hexadecimal digits.
pub(crate) fn is_coded(text: &[u8]) -> bool
    ensures { result ≡ is_coded text.now }
{
    for (i, byte) in text.iter().enumerate() {
        if *byte == b'%' && !begins_code(&text[i + 1..]) {
            return false;
        }
    }
    true
}

/// The number of a hexadecimal digit.
fn hex_value(digit: u8) -> u8
    ensures value { result ≡ hex_value digit }
    ensures few { result < 16 }
{
    match digit {
        b'0'..=b'9' => digit - b'0',
        b'A'..=b'F' => digit - b'A' + 10,
        b'a'..=b'f' => digit - b'a' + 10,
        _ => 0,
    }
}

/// The byte of a code by its two digits.
fn coded_byte(high: u8, low: u8) -> u8
    ensures { result ≡ coded_byte high low }
{
    hex_value(high) * 16 + hex_value(low)
}

/// The byte that the first byte or code of a text stands for, and the text behind it; `plus` is the meaning of `+`.
#[tactic(auto, unfolding(crate::specs::Coding::decoded))]
fn first_byte(plus: u8, text: &[u8]) -> Option<(u8, &[u8])>
    ensures some { IfSome result (λ p. decoded plus text.now ≡ p.0 ∷ decoded plus p.1.now) }
    ensures shorter { IfSome result (λ p. length p.1.now < length text.now) }
    ensures none { IfNone result (decoded plus text.now ≡ []) }
{
    match text {
        [b'%', high, low, behind @ ..] => Some((coded_byte(*high, *low), behind)),
        [b'+', behind @ ..] => Some((plus, behind)),
        [byte, behind @ ..] => Some((*byte, behind)),
        [] => None,
    }
}

/// The decoded bytes of a text with percent codes, if they are at most 192; `plus` is the meaning of `+`.
pub(crate) fn decoded(plus: u8, text: &[u8]) -> Option<Text>
    ensures some { IfSome result (λ bytes. bytes.items ≡ decoded plus text.now) }
    ensures few { IfSome result (λ bytes. length bytes.items ≤ 192) }
    ensures none { IfNone result (192 < length (decoded plus text.now)) }
{
    let mut bytes = Text::new();
    let mut rest = text;
    while let Some((byte, behind)) = first_byte(plus, rest) {
        if bytes.is_full() {
            return None;
        }
        bytes.push(byte);
        rest = behind;
    }
    Some(bytes)
}
