//! Zero-suppressed numbers, as UPC-E carries them.
ghost use Rattle.std.specs.Prelude.{◌≡◌, ◌-◌, ◌<◌, ◌≤◌, ◌++◌, ◌∷◌, ◌==◌, ◌↔◌, true, ℕ, List, [], IfNone, IfSome, IsTrue, length, slice_index, slice_range};
ghost use Rattle.std.specs.List.{list_all};
ghost use Rattle.digits_core.specs.Digits.{AreAsciiDigits, IsChecked, digits_of};
ghost use Rattle.digits_core.specs.inner.Upce.{IsFirstSix, IsSix};
ghost use Rattle.digits_core.specs.Upce.{IsFirstUpceOf, IsUpceOf, upce_expanded};

use crate::gtin::{Gtin, are_zeros};

/// The twelve digits that six digits and a check digit stand for, in ASCII.
fn expanded(six: [u8; 6], check: u8) -> [u8; 12]
    requires six { AreAsciiDigits six }
    requires low { 48 ≤ check }
    requires high { check < 58 }
    ensures value { digits_of result ≡ upce_expanded (digits_of six) (check - 48) }
    ensures digits { AreAsciiDigits result }
{
    let [a, b, c, d, e, f] = six;
    let z = b'0';
    if f <= b'2' {
        [z, a, b, f, z, z, z, z, c, d, e, check]
    } else if f == b'3' {
        [z, a, b, c, z, z, z, z, z, d, e, check]
    } else if f == b'4' {
        [z, a, b, c, d, z, z, z, z, z, e, check]
    } else {
        [z, a, b, c, d, e, z, z, z, z, f, check]
    }
}

/// The GTIN-12 for the six digits and the check digit of a UPC-E, all in ASCII. None if the check digit is wrong. It
/// accepts every spelling of a number.
pub fn upce_expand(six: [u8; 6], check: u8) -> Option<Gtin>
    requires six { AreAsciiDigits six }
    requires low { 48 ≤ check }
    requires high { check < 58 }
    ensures some { IfSome result (IsUpceOf (digits_of six) (check - 48)) }
    ensures none { IfNone result ((gtin : List ℕ) → IsUpceOf (digits_of six) (check - 48) gtin → ⊥) }
{
    Gtin::read(&expanded(six, check)).ok()
}

/// Whether the digits of a GTIN-12 fit the first line of the table.
fn is_by_first_line(digits: &[u8; 12]) -> bool
    ensures { IsTrue result ↔ ((slice_index digits.now 3 ≤ 50)
        × (list_all (λ byte. byte == 48) (slice_range digits.now 4 8) ≡ true)) }
{
    digits[3] <= b'2' && are_zeros(&digits[4..8])
}

/// Whether the digits of a GTIN-12 fit the last line of the table.
fn is_by_last_line(digits: &[u8; 12]) -> bool
    ensures { IsTrue result ↔ ((53 ≤ slice_index digits.now 10)
        × (list_all (λ byte. byte == 48) (slice_range digits.now 6 10) ≡ true)) }
{
    b'5' <= digits[10] && are_zeros(&digits[6..10])
}

/// The six digits of the first spelling of a GTIN-12, given as its twelve digits in ASCII, if it has one.
fn suppressed(digits: [u8; 12]) -> Option<[u8; 6]>
    requires { AreAsciiDigits digits }
    ensures digits { IfSome result AreAsciiDigits }
    ensures some { IfSome result (λ six. IsFirstSix (digits_of six) (digits_of digits)) }
    ensures none { IfNone result ((six : List ℕ) → IsSix six (digits_of digits) → ⊥) }
{
    let [system, a, b, c, d, e, _, _, h, i, j, _] = digits;
    if system != b'0' {
        return None;
    }
    if is_by_first_line(&digits) {
        return Some([a, b, h, i, j, c]);
    }
    if are_zeros(&digits[4..9]) {
        return Some([a, b, c, i, j, b'3']);
    }
    if are_zeros(&digits[5..10]) {
        return Some([a, b, c, d, j, b'4']);
    }
    if is_by_last_line(&digits) {
        return Some([a, b, c, d, e, j]);
    }
    None
}

/// The six digits and the check digit of the UPC-E for this GTIN, in ASCII, by the first line of the zero-suppression
/// table that has it. None if no line has it.
pub fn upce_suppress(gtin: &Gtin) -> Option<([u8; 6], u8)>
    ensures digits { IfSome result (λ spelled. AreAsciiDigits spelled.0) }
    ensures check { IfSome result (λ spelled. (48 ≤ spelled.1) × (spelled.1 < 58)) }
    ensures some { IfSome result (λ spelled. IsFirstUpceOf (digits_of spelled.0) (spelled.1 - 48) gtin.now) }
    ensures none { IfNone result ((six : List ℕ) (check : ℕ) → IsUpceOf six check gtin.now → ⊥) }
    ensures checked { IsChecked gtin.now }
{
    let digits = gtin.as12()?;
    let six = suppressed(digits)?;
    Some((six, digits[11]))
}
