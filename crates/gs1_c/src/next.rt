//! Finds elements in a line of elements as data.
ghost use Rattle.std.specs.Prelude.{◌≡◌, ◌≤◌, [], None, IfSome, length};
ghost use Rattle.gs1_c.specs.Shown.{IsFirstElement, is_between, line_elements};
ghost use Rattle.gs1_c.specs.inner.Shown.{up_to};

use crate::dates::equals_at;

/// Where an element is in a line of elements as data.
#[repr(C)]
#[derive(Clone, Copy)]
pub struct ElementPlace {
    /// The index of its AI's first byte.
    pub start: usize,
    /// The index of the `=` behind the AI.
    pub equals: usize,
    /// The index behind its value.
    pub end: usize,
}

/// A space, a tab or a line feed.
fn is_between(byte: u8) -> bool
    ensures { result ≡ is_between byte }
{
    byte == b' ' || (byte == b'\t' || byte == b'\n')
}

/// How many bytes the word at the front of a line has.
fn word_length(line: &[u8]) -> usize
    ensures value { result ≡ length (up_to is_between line.now) }
    ensures within { result ≤ length line.now }
{
    for (i, byte) in line.iter().enumerate() {
        if is_between(*byte) {
            return i;
        }
    }
    line.len()
}

/// The place of the first element that a line shows, if it shows one.
pub fn first_element(line: &[u8]) -> Option<ElementPlace>
    ensures some { IfSome result (λ place. IsFirstElement line.now place) }
    ensures none { result ≡ None → line_elements line.now ≡ [] }
{
    let mut start = 0;
    'words: while start < line.len() {
        let rest = &line[start..];
        let count = word_length(rest);
        let ai = equals_at(&rest[..count]);
        if ai < count {
            return Some(ElementPlace {
                start,
                equals: start + ai,
                end: start + count,
            });
        }
        start += count + 1;
    }
    None
}
