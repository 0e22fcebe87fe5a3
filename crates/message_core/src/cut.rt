//! Splits texts at a place or at a byte.
ghost use Rattle.std.specs.Prelude.{◌≡◌, ◌==◌, ◌<◌, ◌≤◌, ◌+◌, ◌∷◌, ℕ, List, [], drop, length, IfNone, IfSome, MatchOption};
ghost use Rattle.std.specs.List.{after_first, before_first, position_or_len, slice_split};

/// The text after this many bytes.
pub fn without_first(many: usize, text: &[u8]) -> &[u8]
    ensures { result.now ≡ drop many text.now }
{
    text.split_at(text.len().min(many)).1
}

/// The index of the first such byte, or the length of the text.
fn place_of(byte: u8, text: &[u8]) -> usize
    ensures value { result ≡ position_or_len (λ b. b == byte) text.now }
    ensures within { result ≤ length text.now }
{
    for (i, b) in text.iter().enumerate() {
        if *b == byte {
            return i;
        }
    }
    text.len()
}

/// The text before the first such byte, or all of it.
pub(crate) fn before(byte: u8, text: &[u8]) -> &[u8]
    ensures { result.now ≡ before_first (λ b. b == byte) text.now }
{
    &text[..place_of(byte, text)]
}

/// The text behind the first such byte, or nothing.
pub(crate) fn behind(byte: u8, text: &[u8]) -> &[u8]
    ensures { result.now ≡ after_first (λ b. b == byte) text.now }
{
    let place = place_of(byte, text);
    if place < text.len() {
        &text[place + 1..]
    } else {
        &text[text.len()..]
    }
}

/// The text before the first such byte and the text behind it, if there is one.
pub fn cut_at(byte: u8, text: &[u8]) -> Option<(&[u8], &[u8])>
    ensures parts { MatchOption result (slice_split (λ b. b == byte) text.now ≡ text.now ∷ [])
        (λ r. slice_split (λ b. b == byte) text.now ≡ r.0.now ∷ slice_split (λ b. b == byte) r.1.now) }
    ensures shorter { IfSome result (λ r. length r.0.now + length r.1.now + 1 ≡ length text.now) }
    ensures behind { IfSome result (λ r. r.1.now ≡ drop (length r.0.now + 1) text.now) }
{
    let place = place_of(byte, text);
    if place == text.len() {
        return None;
    }
    Some((&text[..place], &text[place + 1..]))
}

/// The first part of a text that is split at such bytes, and the text of the other parts, if there are any.
pub(crate) fn first_part(byte: u8, text: &[u8]) -> (&[u8], Option<&[u8]>)
    ensures some { IfSome result.1 (λ left. slice_split (λ b. b == byte) text.now ≡ result.0.now ∷ slice_split (λ b. b == byte) left.now) }
    ensures shorter { IfSome result.1 (λ left. length left.now < length text.now) }
    ensures none { IfNone result.1 (slice_split (λ b. b == byte) text.now ≡ result.0.now ∷ []) }
    ensures first { (others : List (List ℕ)) × (slice_split (λ b. b == byte) text.now ≡ result.0.now ∷ others) }
{
    match cut_at(byte, text) {
        Some((first, left)) => (first, Some(left)),
        None => (text, None),
    }
}
