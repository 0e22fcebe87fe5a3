//! The elements that stand in a text.

ghost use Rattle.std.specs.Prelude.{◌≡◌, ◌+◌, ◌≤◌, length, IfSome, option_map, slice_get};
ghost use Rattle.element_core.specs.Shown.{shown_elements};
ghost use Rattle.element_core.specs.inner.Walks.{front_entry};

use crate::front::{Front, front_of};

/// How many elements stand in the text.
pub(crate) fn count_of(text: &[u8]) -> usize
    ensures { result ≡ length (shown_elements text.now) }
{
    let mut count = 0;
    let mut rest = text;
    while let Some(front) = front_of(rest) {
        count += 1;
        rest = front.rest;
    }
    count
}

/// The element at an index, if there are this many.
pub(crate) fn element_of(text: &[u8], i: usize) -> Option<Front<'_>>
    ensures entry { option_map front_entry result ≡ slice_get (shown_elements text.now) i }
    ensures within { IfSome result (λ f. length f.ai.now + length f.value.now ≤ length text.now) }
{
    let mut rest = text;
    for _passed in 0..i {
        rest = front_of(rest)?.rest;
    }
    front_of(rest)
}
