//! Draws the parts of EAN and UPC symbols.
ghost use Rattle.std.specs.Prelude.{◌≡◌, ◌+◌, ◌*◌, ◌++◌, ◌<◌, ◌≤◌, length};
ghost use Rattle.arrayvec.specs.ArrayVec.{array_vec_len};
ghost use Rattle.digits_core.specs.Digits.{AreAsciiDigits, digits_of};
ghost use Rattle.ean_code.specs.inner.Parts.{two_halves};
ghost use Rattle.ean_code.specs.NumberSets.{left_part, left_widths, right_part};

use crate::number_sets::{Character, NumberSet};
use arrayvec::ArrayVec;

pub(crate) const NORMAL_GUARD: [u8; 3] = [1; 3];

const CENTRE_GUARD: [u8; 5] = [1; 5];

pub(crate) const SPECIAL_GUARD: [u8; 6] = [1; 6];

/// Appends a guard pattern.
pub(crate) fn push_guard(widths: &mut ArrayVec<u8, 595>, guard: &[u8])
    requires { array_vec_len widths.old + length guard.now ≤ 595 }
    ensures items { widths.new.items ≡ widths.old.items ++ guard.now }
    ensures len { array_vec_len widths.new ≡ array_vec_len widths.old + length guard.now }
{
    widths.try_extend_from_slice(guard).unwrap();
}

/// Appends a character.
fn push_character(widths: &mut ArrayVec<u8, 595>, character: Character)
    requires room { array_vec_len widths.old + 4 ≤ 595 }
    requires digit { character.digit < 10 }
    ensures items { widths.new.items ≡ widths.old.items ++ left_widths character }
    ensures len { array_vec_len widths.new ≡ array_vec_len widths.old + 4 }
{
    widths.try_extend_from_slice(character.widths()).unwrap();
}

/// Appends ASCII digits as characters left of the centre, in these number sets.
pub(crate) fn push_left(widths: &mut ArrayVec<u8, 595>, row: &[NumberSet], digits: &[u8])
    requires room { array_vec_len widths.old + 4 * length digits.now ≤ 595 }
    requires row { length row.now ≡ length digits.now }
    requires digits { AreAsciiDigits digits.now }
    ensures items { widths.new.items ≡ widths.old.items ++ left_part row.now (digits_of digits.now) }
    ensures len { array_vec_len widths.new ≡ array_vec_len widths.old + 4 * length digits.now }
{
    for i in 0..digits.len() {
        let character = Character {
            set: row[i],
            digit: digits[i] - b'0',
        };
        push_character(widths, character);
    }
}

/// Appends ASCII digits as characters right of the centre, in number set C, which has the widths of A.
fn push_right(widths: &mut ArrayVec<u8, 595>, digits: &[u8])
    requires room { array_vec_len widths.old + 4 * length digits.now ≤ 595 }
    requires digits { AreAsciiDigits digits.now }
    ensures items { widths.new.items ≡ widths.old.items ++ right_part (digits_of digits.now) }
    ensures len { array_vec_len widths.new ≡ array_vec_len widths.old + 4 * length digits.now }
{
    for i in 0..digits.len() {
        let character = Character {
            set: NumberSet::A,
            digit: digits[i] - b'0',
        };
        push_character(widths, character);
    }
}

/// The widths of a symbol with these ASCII digits left and right of its centre guard pattern.
pub(crate) fn two_halves(row: &[NumberSet], left: &[u8], right: &[u8]) -> ArrayVec<u8, 595>
    requires left { length left.now ≤ 6 }
    requires right { length right.now ≤ 6 }
    requires row { length row.now ≡ length left.now }
    requires left_digits { AreAsciiDigits left.now }
    requires right_digits { AreAsciiDigits right.now }
    ensures { result.items ≡ two_halves (left_part row.now (digits_of left.now)) (right_part (digits_of right.now)) }
{
    let mut widths = ArrayVec::new();
    push_guard(&mut widths, &NORMAL_GUARD);
    push_left(&mut widths, row, left);
    push_guard(&mut widths, &CENTRE_GUARD);
    push_right(&mut widths, right);
    push_guard(&mut widths, &NORMAL_GUARD);
    widths
}
