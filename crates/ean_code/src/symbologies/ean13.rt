//! EAN-13, which includes UPC-A (ISO/IEC 15420).
ghost use Rattle.std.specs.Prelude.{◌≡◌, ◌↔◌, ℕ, List, IfNone, IfSome, IsSome, drop};
ghost use Rattle.digits_core.specs.Digits.{AreAsciiDigits, digits_of, padded};
ghost use Rattle.ean_code.specs.inner.Parts.{IsTextOf};
ghost use Rattle.ean_code.specs.Spelling.{HasNoSymbol, IsGtinSymbol, IsSpelled};
ghost use Rattle.ean_code.specs.Symbols.{IsNumberSymbol, widths_of};
ghost use Rattle.ean_code.specs.Widths.{AreWidths};
ghost use Rattle.ean_code.specs.declared.kind.Kind.TheVariants.{Ean13};

use crate::drawing::two_halves;
use crate::modules::Modules;
use crate::parts::halves;
use crate::reading::{Spelled, push_digits, spelled_by};
use crate::rows::{ean13_row, first_digit};
use arrayvec::ArrayVec;
use digits_core::Gtin;

/// How many widths an EAN-13 has, and how many modules wide it is.
pub(crate) const WIDTH_COUNT: usize = 59;

pub(crate) const MODULE_COUNT: u16 = 95;

/// What a reader sends before its text (GS1 General Specifications, section 5.1.3).
pub(crate) const IDENTIFIER: &str = "]E0";

/// The widths of the EAN-13 with these ASCII digits.
fn ean13_widths(digits: &[u8; 13]) -> ArrayVec<u8, 595>
    requires { AreAsciiDigits digits.now }
    ensures { result.items ≡ widths_of Ean13 (digits_of digits.now) }
{
    two_halves(ean13_row(digits[0] - b'0'), &digits[1..7], &digits[7..])
}

/// The EAN-13 of a GTIN, 59 widths of 95 modules in all: none for a GTIN that needs 14 digits.
pub fn ean13(gtin: &Gtin) -> Option<Modules>
    ensures some { IfSome result (IsGtinSymbol Ean13 gtin.now) }
    ensures none { IfNone result (HasNoSymbol Ean13 gtin.now) }
    ensures fits { IsSome result ↔ (gtin.now ≡ padded (drop 1 gtin.now)) }
{
    Some(Modules::new(ean13_widths(&gtin.as13()?)))
}

/// The ASCII digits of the EAN-13 with these widths.
fn ean13_text(widths: &[u8]) -> Option<ArrayVec<u8, 13>>
    requires { AreWidths widths.now }
    ensures found { IfSome result (λ text. IsTextOf Ean13 widths.now text.items) }
    ensures none { IfNone result ((digits : List ℕ) → IsNumberSymbol Ean13 widths.now digits → ⊥) }
{
    let (left, right) = halves(widths, 6)?;
    let first = first_digit(left.as_slice())?;
    let mut text = ArrayVec::new();
    text.push(b'0' + first);
    push_digits(&mut text, left.as_slice());
    push_digits(&mut text, right.as_slice());
    Some(text)
}

/// What an EAN-13 spells, read forwards alone.
pub fn read_ean13(modules: &Modules) -> Spelled
    ensures { IsSpelled Ean13 modules.now result }
{
    read_ean13_widths(modules.widths())
}

/// What an EAN-13 with these widths spells, read forwards alone.
pub(crate) fn read_ean13_widths(widths: &[u8]) -> Spelled
    requires { AreWidths widths.now }
    ensures { IsSpelled Ean13 widths.now result }
{
    spelled_by(ean13_text(widths))
}
