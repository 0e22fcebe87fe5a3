//! Finds the parts of symbols: guard patterns and characters.
ghost use Rattle.std.specs.Prelude.{◌≡◌, ◌↔◌, ◌≤◌, ℕ, List, IfNone, IfSome, IsTrue, length, replicate};
ghost use Rattle.std.specs.List.{list_all};
ghost use Rattle.ean_code.specs.inner.NumberSets.{character_digits, is_a};
ghost use Rattle.ean_code.specs.inner.Parts.{AreFramed, AreFramedSix, AreHalves, AreSix};
ghost use Rattle.ean_code.specs.Widths.{AreWidths};

use crate::number_sets::{Character, characters};
use arrayvec::ArrayVec;

/// Whether each width is one module, as in a guard pattern.
fn is_guard(widths: &[u8]) -> bool
    ensures { IsTrue result ↔ (widths.now ≡ replicate (length widths.now) 1) }
{
    widths.iter().all(|width| *width == 1)
}

/// Whether each character is of number set A, or right of the centre of C.
pub(crate) fn are_of_a(characters: &[Character]) -> bool
    ensures { result ≡ list_all (λ c. is_a c.set) characters.now }
{
    characters.iter().all(|character| character.set.is_a())
}

/// The widths left and right of the centre guard pattern, this many on either side.
fn framed(widths: &[u8], half: usize) -> Option<(&[u8], &[u8])>
    requires { half ≤ 24 }
    ensures found { IfSome result (λ h. AreFramed half widths.now h.0.now h.1.now) }
    ensures none { IfNone result ((left right : List ℕ) → AreFramed half widths.now left right → ⊥) }
{
    if widths.len() != 2 * half + 11 {
        return None;
    }
    let (start, rest) = widths.split_at(3);
    let (left, rest) = rest.split_at(half);
    let (centre, rest) = rest.split_at(5);
    let (right, end) = rest.split_at(half);
    if !is_guard(start) {
        return None;
    }
    if !is_guard(centre) {
        return None;
    }
    if !is_guard(end) {
        return None;
    }
    Some((left, right))
}

/// The characters left and right of the centre guard pattern, this many on either side.
pub(crate) fn halves(
    widths: &[u8],
    count: usize,
) -> Option<(ArrayVec<Character, 6>, ArrayVec<Character, 6>)>
    requires few { count ≤ 6 }
    requires valid { AreWidths widths.now }
    ensures found { IfSome result (λ h. AreHalves count widths.now h.0.items (character_digits h.1.items)) }
    ensures none { IfNone result ((left : List Character) (right : List ℕ) → AreHalves count widths.now left right → ⊥) }
{
    let (left, right) = framed(widths, 4 * count)?;
    let left = characters(left)?;
    let right = characters(right)?;
    if !are_of_a(right.as_slice()) {
        return None;
    }
    Some((left, right))
}

/// The widths between a normal and a special guard pattern, 24 of them.
fn framed_six(widths: &[u8]) -> Option<&[u8]>
    ensures found { IfSome result (λ six. AreFramedSix widths.now six.now) }
    ensures none { IfNone result ((six : List ℕ) → AreFramedSix widths.now six → ⊥) }
{
    if widths.len() != 33 {
        return None;
    }
    let (start, rest) = widths.split_at(3);
    let (six, end) = rest.split_at(24);
    if !is_guard(start) {
        return None;
    }
    if !is_guard(end) {
        return None;
    }
    Some(six)
}

/// The six characters of a UPC-E.
pub(crate) fn six(widths: &[u8]) -> Option<ArrayVec<Character, 6>>
    requires { AreWidths widths.now }
    ensures found { IfSome result (λ cs. AreSix widths.now cs.items) }
    ensures none { IfNone result ((cs : List Character) → AreSix widths.now cs → ⊥) }
{
    let six = framed_six(widths)?;
    characters(six)
}
