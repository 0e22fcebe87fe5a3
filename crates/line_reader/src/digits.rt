//! The pattern of an EAN or UPC digit that some ends are most like.
ghost use Rattle.std.specs.Prelude.{◌≡◌, ◌+◌, ◌*◌, ◌<◌, ◌≤◌, ◌^◌, length};

use crate::half::Half;
use crate::parts::{parts_of, small_square};
use line_core::DIGITS;

/// By how much bars are too wide, in 1/96 module: more than this if so, less if they are too narrow.
pub(crate) const NO_INK: u32 = 64;

/// The most of it, 0.6 module.
pub(crate) const MOST_INK: u32 = 58;

/// How much ends that ink moves count, by what the guards say of it and by what the digits do.
pub(crate) const BY_GUARDS: u64 = 3;

pub(crate) const BY_DIGITS: u64 = 9;

/// The pattern that some ends are most like, what it says of ink, with `ZERO` more, and its misfit: 32 times the square of what is missing, in
/// 1/48 module.
#[derive(Clone, Copy)]
pub(crate) struct Likest {
    pub(crate) character: u8,
    pub(crate) ink: u32,
    pub(crate) misfit: u64,
}

/// What makes what patterns say of ink positive.
pub(crate) const ZERO: u32 = 16_384;

/// The three inner ends of a digit, in 1/48 module from its first.
#[derive(Clone, Copy)]
struct Inner {
    one: u32,
    two: u32,
    three: u32,
    ghost first: { one ≤ 12240 },
    ghost second: { two ≤ 12240 },
    ghost third: { three ≤ 12240 },
}

fn inner_of(widths: &[u8; 4]) -> Inner {
    let one = u32::from(widths[0]).min(8);
    let two = one + u32::from(widths[1]).min(8);
    let three = two + u32::from(widths[2]).min(8);
    Inner {
        one: 48 * one,
        two: 48 * two,
        three: 48 * three,
    }
}

/// Those of a digit of a half, which has seven modules.
fn inner_at(half: &Half, digit: usize) -> Inner
    requires { digit < 6 }
{
    let first = 3 + 4 * digit;
    let all = half.width(first, first + 4);
    Inner {
        one: parts_of(half.width(first, first + 1), all, 336),
        two: parts_of(half.width(first, first + 2), all, 336),
        three: parts_of(half.width(first, first + 3), all, 336),
    }
}

/// The misfit of a pattern: by the distances of like ends, which ink does not change, and by the mean of those that it moves.
fn misfit_of(seen: Inner, pattern: Inner, ink: u32, by_ink: u64) -> u64
    requires ink { ink ≤ 122 }
    requires weight { by_ink ≤ 9 }
    ensures { result ≤ 2 ^ 40 }
{
    let like = small_square(seen.two.abs_diff(pattern.two));
    let other = small_square((seen.three + pattern.one).abs_diff(seen.one + pattern.three));
    let moved = seen.one + seen.three + ink;
    let mean = small_square(moved.abs_diff(pattern.one + pattern.three + NO_INK));
    32 * like + 16 * other + by_ink * mean
}

/// The digit that a digit of a half is most like: 0 to 9 as on the left, 10 to 19 mirrored.
pub(crate) fn nearest(half: &Half, digit: usize, ink: u32, by_ink: u64) -> Likest
    requires digit { digit < 6 }
    requires ink { ink ≤ 122 }
    requires weight { by_ink ≤ 9 }
{
    let seen = inner_at(half, digit);
    let mut best = Likest {
        character: 0,
        ink: ZERO,
        misfit: u64::MAX,
    };
    for character in 0..20u8 {
        let pattern = inner_of(&DIGITS[usize::from(character)]);
        let misfit = misfit_of(seen, pattern, ink, by_ink);
        if misfit < best.misfit {
            let ink = (pattern.one + pattern.three + ZERO).saturating_sub(seen.one + seen.three);
            best = Likest {
                character,
                ink,
                misfit,
            };
        }
    }
    best
}
