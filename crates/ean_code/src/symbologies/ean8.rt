//! EAN-8 (ISO/IEC 15420).
ghost use Rattle.std.specs.Prelude.{◌≡◌, ◌↔◌, ℕ, List, IfNone, IfSome, IsSome, drop};
ghost use Rattle.digits_core.specs.Digits.{AreAsciiDigits, digits_of, padded};
ghost use Rattle.ean_code.specs.inner.Parts.{IsTextOf};
ghost use Rattle.ean_code.specs.Spelling.{HasNoSymbol, IsGtinSymbol, IsSpelled};
ghost use Rattle.ean_code.specs.Symbols.{IsNumberSymbol, widths_of};
ghost use Rattle.ean_code.specs.Widths.{AreWidths};
ghost use Rattle.ean_code.specs.declared.kind.Kind.TheVariants.{Ean8};

use crate::drawing::two_halves;
use crate::modules::Modules;
use crate::parts::{are_of_a, halves};
use crate::reading::{Spelled, push_digits, spelled_by};
use crate::rows::EAN8_ROW;
use arrayvec::ArrayVec;
use digits_core::Gtin;

/// How many widths an EAN-8 has, and how many modules wide it is.
pub(crate) const WIDTH_COUNT: usize = 43;

pub(crate) const MODULE_COUNT: u16 = 67;

/// What a reader sends before its text (GS1 General Specifications, section 5.1.3).
pub(crate) const IDENTIFIER: &str = "]E4";

/// The widths of the EAN-8 with these ASCII digits.
fn ean8_widths(digits: &[u8; 8]) -> ArrayVec<u8, 595>
    requires { AreAsciiDigits digits.now }
    ensures { result.items ≡ widths_of Ean8 (digits_of digits.now) }
{
    two_halves(&EAN8_ROW, &digits[..4], &digits[4..])
}

/// The EAN-8 of a GTIN, 43 widths of 67 modules in all: none for a GTIN that needs more than 8 digits.
pub fn ean8(gtin: &Gtin) -> Option<Modules>
    ensures some { IfSome result (IsGtinSymbol Ean8 gtin.now) }
    ensures none { IfNone result (HasNoSymbol Ean8 gtin.now) }
    ensures fits { IsSome result ↔ (gtin.now ≡ padded (drop 6 gtin.now)) }
{
    Some(Modules::new(ean8_widths(&gtin.as8()?)))
}

/// The ASCII digits of the EAN-8 with these widths.
fn ean8_text(widths: &[u8]) -> Option<ArrayVec<u8, 13>>
    requires { AreWidths widths.now }
    ensures found { IfSome result (λ text. IsTextOf Ean8 widths.now text.items) }
    ensures none { IfNone result ((digits : List ℕ) → IsNumberSymbol Ean8 widths.now digits → ⊥) }
{
    let (left, right) = halves(widths, 4)?;
    if !are_of_a(left.as_slice()) {
        return None;
    }
    let mut text = ArrayVec::new();
    push_digits(&mut text, left.as_slice());
    push_digits(&mut text, right.as_slice());
    Some(text)
}

/// What an EAN-8 spells, read forwards alone.
pub fn read_ean8(modules: &Modules) -> Spelled
    ensures { IsSpelled Ean8 modules.now result }
{
    read_ean8_widths(modules.widths())
}

/// What an EAN-8 with these widths spells, read forwards alone.
pub(crate) fn read_ean8_widths(widths: &[u8]) -> Spelled
    requires { AreWidths widths.now }
    ensures { IsSpelled Ean8 widths.now result }
{
    spelled_by(ean8_text(widths))
}
