//! An index of the table of AIs by their first two digits. tables/ais makes the arrays from tables/ais.tsv.

ghost use Rattle.std.specs.Prelude.{◌≡◌, ◌≤◌, map, filter, length};
ghost use Rattle.element_core.specs.Table.{families};
ghost use Rattle.element_core.specs.inner.Families.{family_of, has_first_two};

use crate::family::AiFamily;
use crate::table::families_from;

/// For each number of two digits the index of the first family that has AIs with these first digits.
#[rattlefmt::skip]
static STARTS: [u8; 100] = [
    0, 1, 1, 2, 0, 0, 0, 0, 0, 0, // 0
    3, 4, 4, 4, 0, 5, 5, 5, 0, 0, // 1
    6, 7, 7, 8, 9, 12, 0, 0, 0, 0, // 2
    17, 18, 19, 20, 21, 22, 23, 24, 0, 25, // 3
    31, 34, 35, 43, 0, 0, 0, 0, 0, 0, // 4
    0, 0, 0, 0, 0, 0, 0, 0, 0, 0, // 5
    0, 0, 0, 0, 0, 0, 0, 0, 0, 0, // 6
    0, 16, 17, 0, 0, 0, 0, 0, 0, 0, // 7
    30, 50, 53, 0, 0, 0, 0, 0, 0, 0, // 8
    54, 55, 55, 55, 55, 55, 55, 55, 55, 55, // 9
];

/// For each number of two digits the index after the last such family: if there is none, that of `STARTS`.
#[rattlefmt::skip]
static ENDS: [u8; 100] = [
    1, 2, 2, 3, 0, 0, 0, 0, 0, 0, // 0
    4, 5, 5, 5, 0, 6, 6, 6, 0, 0, // 1
    7, 8, 8, 9, 12, 17, 0, 0, 0, 0, // 2
    18, 19, 20, 21, 22, 23, 24, 25, 0, 31, // 3
    34, 35, 43, 58, 0, 0, 0, 0, 0, 0, // 4
    0, 0, 0, 0, 0, 0, 0, 0, 0, 0, // 5
    0, 0, 0, 0, 0, 0, 0, 0, 0, 0, // 6
    16, 17, 30, 0, 0, 0, 0, 0, 0, 0, // 7
    50, 53, 54, 0, 0, 0, 0, 0, 0, 0, // 8
    55, 56, 56, 56, 56, 56, 56, 56, 56, 56, // 9
];

/// The families that have AIs with these first two ASCII digits, in the table's order: none if one
/// of the bytes is no digit.
pub(crate) fn families_with(first: u8, second: u8) -> &'static [AiFamily]
    ensures { map family_of result.now ≡ filter (has_first_two first second) families }
{
    if !first.is_ascii_digit() || !second.is_ascii_digit() {
        return &[];
    }
    let number = usize::from(10 * (first - b'0') + (second - b'0'));
    &families_from(first)[usize::from(STARTS[number])..usize::from(ENDS[number])]
}
