//! ITF-14 (ISO/IEC 16390; GS1 General Specifications, section 5.3).
ghost use Rattle.std.specs.Prelude.{◌≡◌, ◌+◌, ◌*◌, ◌≤◌, ◌++◌, ℕ, List, IfNone, IfSome, length};
ghost use Rattle.std.specs.List.{flat_map};
ghost use Rattle.arrayvec.specs.ArrayVec.{array_vec_len};
ghost use Rattle.digits_core.specs.Digits.{AreAsciiDigits, digits_of};
ghost use Rattle.ean_code.specs.inner.Parts.{AreFramedPairs, IsTextOf};
ghost use Rattle.ean_code.specs.Spelling.{IsGtinSymbol, IsSpelled};
ghost use Rattle.ean_code.specs.Symbols.{IsNumberSymbol, widths_of};
ghost use Rattle.ean_code.specs.declared.kind.Kind.TheVariants.{Itf14};
ghost use Rattle.ean_code.specs.TwoOfFive.{in_pairs, pair_widths};

use crate::modules::Modules;
use crate::reading::{Spelled, spelled_by};
use crate::two_of_five::{pair_with, push_pair};
use arrayvec::ArrayVec;
use digits_core::Gtin;

/// How many widths an ITF-14 has, and how many modules wide it is.
pub(crate) const WIDTH_COUNT: usize = 77;

pub(crate) const MODULE_COUNT: u16 = 135;

/// What a reader sends before its text (GS1 General Specifications, section 5.1.3).
pub(crate) const IDENTIFIER: &str = "]I1";

const START: [u8; 4] = [1, 1, 1, 1];

const STOP: [u8; 3] = [3, 1, 1];

/// Appends 14 ASCII digits, two by two.
fn push_pairs(widths: &mut ArrayVec<u8, 595>, digits: &[u8; 14])
    requires room { array_vec_len widths.old + 70 ≤ 595 }
    requires digits { AreAsciiDigits digits.now }
    ensures items { widths.new.items ≡ widths.old.items ++ flat_map pair_widths (in_pairs (digits_of digits.now)) }
    ensures len { array_vec_len widths.new ≡ array_vec_len widths.old + 70 }
{
    for i in 0..7 {
        push_pair(widths, digits[2 * i] - b'0', digits[2 * i + 1] - b'0');
    }
}

/// The widths of the ITF-14 with these ASCII digits.
fn itf14_widths(digits: &[u8; 14]) -> ArrayVec<u8, 595>
    requires { AreAsciiDigits digits.now }
    ensures { result.items ≡ widths_of Itf14 (digits_of digits.now) }
{
    let mut widths = ArrayVec::new();
    widths.try_extend_from_slice(&START).unwrap();
    push_pairs(&mut widths, digits);
    widths.try_extend_from_slice(&STOP).unwrap();
    widths
}

/// The ITF-14 of a GTIN, 77 widths of 135 modules in all, a wide element being three modules.
pub fn itf14(gtin: &Gtin) -> Modules
    ensures { IsGtinSymbol Itf14 gtin.now result }
{
    Modules::new(itf14_widths(&gtin.digits14()))
}

/// The 70 widths between start and stop.
fn framed_pairs(widths: &[u8]) -> Option<&[u8]>
    ensures found { IfSome result (λ pairs. AreFramedPairs widths.now pairs.now) }
    ensures none { IfNone result ((pairs : List ℕ) → AreFramedPairs widths.now pairs → ⊥) }
{
    if widths.len() != 77 {
        return None;
    }
    let (start, rest) = widths.split_at(4);
    let (pairs, stop) = rest.split_at(70);
    if start != START.as_slice() {
        return None;
    }
    if stop != STOP.as_slice() {
        return None;
    }
    Some(pairs)
}

/// The ASCII digits of the ITF-14 with these widths.
fn itf14_text(widths: &[u8]) -> Option<ArrayVec<u8, 14>>
    ensures found { IfSome result (λ text. IsTextOf Itf14 widths.now text.items) }
    ensures none { IfNone result ((digits : List ℕ) → IsNumberSymbol Itf14 widths.now digits → ⊥) }
{
    let pairs = framed_pairs(widths)?;
    let mut text = ArrayVec::new();
    for i in 0..7 {
        let (first, second) = pair_with(&pairs[10 * i..10 * i + 10])?;
        text.push(b'0' + first);
        text.push(b'0' + second);
    }
    Some(text)
}

/// What an ITF-14 spells, read forwards alone, a wide element being three modules.
pub fn read_itf14(modules: &Modules) -> Spelled
    ensures { IsSpelled Itf14 modules.now result }
{
    read_itf14_widths(modules.widths())
}

/// What an ITF-14 with these widths spells, read forwards alone.
pub(crate) fn read_itf14_widths(widths: &[u8]) -> Spelled
    ensures { IsSpelled Itf14 widths.now result }
{
    spelled_by(itf14_text(widths))
}
