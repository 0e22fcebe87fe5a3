//! How a message begins.
ghost use Rattle.std.specs.Prelude.{◌≡◌, drop, take};
ghost use Rattle.std.specs.Char.{is_ascii_digit};
ghost use Rattle.std.specs.List.{list_all};
ghost use Rattle.message_core.specs.Heads.{begins_bracketed, begins_separated, begins_with_eight, head_of, is_bare, is_message};
ghost use Rattle.message_core.specs.Symbologies.{symbology_named};

use crate::cut::without_first;
use crate::link::begins_link;
use crate::symbology::Symbology;

/// How a message begins.
#[derive(Clone, Copy, Debug, PartialEq, Eq)]
pub enum Head {
    /// With the identifier of a symbology.
    Symbology(Symbology),
    /// With a separator, which some scanners send for FNC1 in first position: an element string.
    Separator,
    /// With digits, which are a GTIN.
    Digits,
    /// With the scheme of a URI, which is a Digital Link.
    Link,
}

/// Whether a text begins like a symbology identifier.
fn begins_bracketed(text: &[u8]) -> bool
    ensures { result ≡ begins_bracketed text.now }
{
    match text {
        [first, ..] => *first == b']',
        [] => false,
    }
}

/// Whether a text begins with the separator, or with `^` in its place.
pub(crate) fn begins_separated(text: &[u8]) -> bool
    ensures { result ≡ begins_separated text.now }
{
    match text {
        [first, ..] => *first == 29 || *first == b'^',
        [] => false,
    }
}

/// Whether all bytes are digits.
pub fn are_digits(text: &[u8]) -> bool
    ensures { result ≡ list_all is_ascii_digit text.now }
{
    text.iter().all(|byte| byte.is_ascii_digit())
}

/// Whether a text begins with eight digits. No width has so many.
fn begins_with_eight(text: &[u8]) -> bool
    ensures { result ≡ begins_with_eight text.now }
{
    text.len() >= 8 && are_digits(&text[..8])
}

/// Whether a text must be the digits of a GTIN. Eight digits that begin with 0 may be an EAN-8 or a UPC-E: these have
/// different GTINs, and often the same check digit.
fn is_bare(text: &[u8]) -> bool
    ensures { result ≡ is_bare text.now }
{
    begins_with_eight(text) && !(text.len() == 8 && text[0] == b'0')
}

/// Whether a field is a message of a scanner. The widths of a row never begin like a message.
pub fn is_message(text: &[u8]) -> bool
    ensures { result ≡ is_message text.now }
{
    begins_bracketed(text) || begins_separated(text) || begins_with_eight(text) || begins_link(text)
}

/// The text behind an identifier.
pub(crate) fn behind_identifier(text: &[u8]) -> &[u8]
    ensures { result.now ≡ drop 3 text.now }
{
    without_first(3, text)
}

/// The symbology whose identifier begins a text.
fn symbology_of(text: &[u8]) -> Option<Symbology>
    ensures { result ≡ symbology_named (take 3 text.now) }
{
    Symbology::named(text.split_at(text.len().min(3)).0)
}

/// How a message begins. None if it has another identifier, or if it has none and does not begin like a text that may
/// come without one.
pub(crate) fn head_of(text: &[u8]) -> Option<Head>
    ensures { result ≡ head_of text.now }
{
    if begins_bracketed(text) {
        return match symbology_of(text) {
            Some(symbology) => Some(Head::Symbology(symbology)),
            None => None,
        };
    }
    if begins_separated(text) {
        return Some(Head::Separator);
    }
    if is_bare(text) {
        return Some(Head::Digits);
    }
    if begins_link(text) {
        return Some(Head::Link);
    }
    None
}
