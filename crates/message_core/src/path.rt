//! Finds the key of a Digital Link in the path.
ghost use Rattle.std.specs.Prelude.{◌≡◌, option_map};
ghost use Rattle.message_core.specs.Links.{follow_all, is_keyed, key_part, segments};

use crate::cut::first_part;
use crate::key::{is_key, place_by};

/// Whether the rest from here on is qualifiers of a key with their values, in their order.
fn follow_all(key: &[u8], text: &[u8]) -> bool
    ensures { result ≡ follow_all key.now 0 (segments text.now) }
{
    let mut least = 0;
    let mut rest = text;
    loop {
        let (ai, behind) = first_part(b'/', rest);
        let Some(behind) = behind else {
            return false;
        };
        let Some(place) = place_by(key, ai) else {
            return false;
        };
        if place < least {
            return false;
        }
        let (_, left) = first_part(b'/', behind);
        let Some(left) = left else {
            return true;
        };
        least = place + 1;
        rest = left;
    }
}

/// Whether the rest from here on is a key, its value and its qualifiers.
fn is_keyed(text: &[u8]) -> bool
    ensures { result ≡ is_keyed (segments text.now) }
{
    let (key, behind) = first_part(b'/', text);
    let Some(behind) = behind else {
        return false;
    };
    if !is_key(key) {
        return false;
    }
    match first_part(b'/', behind).1 {
        Some(left) => follow_all(key, left),
        None => true,
    }
}

/// The path from the key on, if there is one.
pub(crate) fn key_part(path: &[u8]) -> Option<&[u8]>
    ensures { option_map (λ part. segments part.now) result ≡ key_part (segments path.now) }
{
    let mut rest = path;
    loop {
        if is_keyed(rest) {
            return Some(rest);
        }
        let Some(left) = first_part(b'/', rest).1 else {
            return None;
        };
        rest = left;
    }
}
