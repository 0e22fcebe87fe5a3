//! Whether ends may be part of a symbol: its characters are equally wide, and its bars are not.

/// How far it is over so many runs; 0 if they are not all there.
fn width(ends: &[u32], first: usize, runs: usize) -> u32 {
    let last = first.saturating_add(runs);
    match (ends.get(first), ends.get(last)) {
        (Some(begin), Some(end)) => end.abs_diff(*begin),
        _ => 0,
    }
}

/// Whether two widths are the same, to a sixteenth of their mean.
fn are_even(one: u32, other: u32) -> bool {
    one > 0 && 32 * u64::from(one.abs_diff(other)) <= u64::from(one) + u64::from(other)
}

/// Whether, from an end on, so many characters of so many runs are each as wide as the one behind it.
fn are_characters(ends: &[u32], first: usize, runs: usize, count: usize) -> bool {
    let mut here = first;
    for _ in 0..count {
        let next = here.saturating_add(runs);
        if !are_even(width(ends, here, runs), width(ends, next, runs)) {
            return false;
        }
        here = next;
    }
    true
}

/// Whether some of these ends may be those of a half of EAN or UPC, of Code 128, or of ITF.
pub(crate) fn is_part(ends: &[u32]) -> bool {
    for first in 0..ends.len() {
        if are_characters(ends, first, 4, 5)
            || are_characters(ends, first, 6, 6)
            || are_characters(ends, first, 10, 4)
        {
            return true;
        }
    }
    false
}

/// Whether ends go on as those of a fence do: of eight distances between ends of the same kind seven or more are as wide
/// as the next one, to an eighth. Those of a symbol differ by a module more often.
pub(crate) fn are_regular(ends: &[u32]) -> bool {
    let mut even = 0usize;
    for first in 0..ends.len() {
        let here = width(ends, first, 2);
        let next = width(ends, first.saturating_add(2), 2);
        if next > 0 && 16 * u64::from(here.abs_diff(next)) <= u64::from(here) + u64::from(next) {
            even = even.saturating_add(1);
        }
    }
    even.saturating_mul(8) >= ends.len().saturating_sub(4).saturating_mul(7)
}
