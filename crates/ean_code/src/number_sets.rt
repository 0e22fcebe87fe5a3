//! The characters of EAN symbols, and the number sets in which they are drawn (ISO/IEC 15420, symbol character
//! encodation).
ghost use Rattle.std.specs.Prelude.{◌≡◌, ◌≢◌, ◌<◌, ◌≤◌, ◌%◌, List, IfNone, IfSome, length};
ghost use Rattle.std.specs.List.{flat_map};
ghost use Rattle.ean_code.specs.Widths.{AreWidths};
ghost use Rattle.ean_code.specs.inner.NumberSets.{AreCharacters, bit_of, is_a};
ghost use Rattle.ean_code.specs.NumberSets.{left_widths, set_b_or_a};

use crate::lookup::character;
use arrayvec::ArrayVec;

/// A number set of the characters left of the centre.
#[derive(Clone, Copy, Default)]
pub(crate) enum NumberSet {
    #[default]
    A,
    B,
}

/// A character left of the centre.
#[derive(Clone, Copy, Default)]
pub(crate) struct Character {
    pub(crate) set: NumberSet,
    /// 0 to 9.
    pub(crate) digit: u8,
}

/// The widths of the digits 0 to 9 in number set A, four each, the space first. The same widths with the bar first
/// are number set C.
const SET_A: [[u8; 4]; 10] = [
    [3, 2, 1, 1],
    [2, 2, 2, 1],
    [2, 1, 2, 2],
    [1, 4, 1, 1],
    [1, 1, 3, 2],
    [1, 2, 3, 1],
    [1, 1, 1, 4],
    [1, 3, 1, 2],
    [1, 2, 1, 3],
    [3, 1, 1, 2],
];

/// The widths of the digits 0 to 9 in number set B, four each, the space first.
const SET_B: [[u8; 4]; 10] = [
    [1, 1, 2, 3],
    [1, 2, 2, 2],
    [2, 2, 1, 2],
    [1, 1, 4, 1],
    [2, 3, 1, 1],
    [1, 3, 2, 1],
    [4, 1, 1, 1],
    [2, 1, 3, 1],
    [3, 1, 2, 1],
    [2, 1, 1, 3],
];

impl NumberSet {
    /// Whether it is number set A.
    pub(crate) fn is_a(self) -> bool
        ensures { result ≡ is_a self }
    {
        match self {
            NumberSet::A => true,
            NumberSet::B => false,
        }
    }

    /// 0 for number set A, and 1 for B.
    pub(crate) fn bit(self) -> usize
        ensures value { result ≡ bit_of self }
        ensures low { result < 2 }
    {
        match self {
            NumberSet::A => 0,
            NumberSet::B => 1,
        }
    }
}

impl Character {
    /// Its widths, the space first.
    pub(crate) fn widths(self) -> &'static [u8]
        requires { self.digit < 10 }
        ensures value { result.now ≡ left_widths self }
        ensures four { length result.now ≡ 4 }
    {
        let set = match self.set {
            NumberSet::A => &SET_A,
            NumberSet::B => &SET_B,
        };
        &set[usize::from(self.digit)]
    }
}

/// Number set B, or else A.
fn set_of(of_b: bool) -> NumberSet
    ensures { result ≡ set_b_or_a of_b }
{
    if of_b { NumberSet::B } else { NumberSet::A }
}

/// Four widths of 1 as one number, two bits each.
const FOUR_ONES: u32 = 0x55;

/// The character that has these widths.
fn character_with(widths: &[u8]) -> Option<Character>
    requires four { length widths.now ≡ 4 }
    requires valid { AreWidths widths.now }
    ensures found { IfSome result (λ c. (c.digit < 10) × (left_widths c ≡ widths.now)) }
    ensures none { IfNone result ((c : Character) → c.digit < 10 → left_widths c ≢ widths.now) }
{
    let first = u32::from(widths[0]) * 4 + u32::from(widths[1]);
    let four = (first * 4 + u32::from(widths[2])) * 4 + u32::from(widths[3]);
    let (of_b, digit) = character((four - FOUR_ONES) as u8)?;
    let set = set_of(of_b);
    Some(Character { set, digit })
}

/// The characters, at most six, of these widths.
pub(crate) fn characters(widths: &[u8]) -> Option<ArrayVec<Character, 6>>
    requires few { length widths.now ≤ 24 }
    requires fours { length widths.now % 4 ≡ 0 }
    requires valid { AreWidths widths.now }
    ensures found { IfSome result (λ cs. AreCharacters cs.items
        × (flat_map left_widths cs.items ≡ widths.now)) }
    ensures none { IfNone result ((cs : List Character) → AreCharacters cs
        → flat_map left_widths cs ≢ widths.now) }
{
    let mut found = ArrayVec::new();
    for i in 0..widths.len() / 4 {
        let next = character_with(&widths[4 * i..4 * i + 4])?;
        found.push(next);
    }
    Some(found)
}
