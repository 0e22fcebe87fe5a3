//! Writes bytes into the caller's buffer.
ghost use Rattle.std.specs.Prelude.{◌∷◌, ◌++◌};
ghost use Rattle.digits_core.specs.Buffers.{IsPut};
ghost use Rattle.digits_core.specs.Refusals.{refusal_text};

use digits_core::{Refusal, put_at};
use itoa::Buffer;

/// Puts bytes at the front of `out` if it has room for all of them, and returns how many they are.
pub fn put(bytes: &[u8], out: &mut [u8]) -> usize
    ensures { IsPut bytes.now out.old out.new result }
{
    if bytes.len() <= out.len() {
        out[..bytes.len()].copy_from_slice(bytes);
    }
    bytes.len()
}

/// The same for two words with a space between them.
pub fn put_words(first: &[u8], second: &[u8], out: &mut [u8]) -> usize
    ensures { IsPut (first.now ++ (32 ∷ second.now)) out.old out.new result }
{
    let space = first.len();
    let count = space + 1 + second.len();
    if count <= out.len() {
        out[..space].copy_from_slice(first);
        out[space] = b' ';
        out[space + 1..count].copy_from_slice(second);
    }
    count
}

/// The same for two texts without a space.
pub fn put_both(first: &[u8], second: &[u8], out: &mut [u8]) -> usize
    ensures { IsPut (first.now ++ second.now) out.old out.new result }
{
    let count = first.len() + second.len();
    if count <= out.len() {
        let middle = put_at(first, 0, out);
        put_at(second, middle, out);
    }
    count
}

/// The same for a refusal: its number and name, and its place if it has one.
pub fn put_refusal(refusal: Refusal, out: &mut [u8]) -> usize
    ensures { IsPut (refusal_text refusal.kind refusal.place) out.old out.new result }
{
    let words = refusal.kind.words().as_bytes();
    match refusal.place {
        None => put(words, out),
        Some(place) => {
            let mut digits = Buffer::new();
            put_words(words, digits.format(place).as_bytes(), out)
        }
    }
}
