//! UPC-E (ISO/IEC 15420; GS1 General Specifications, section 5.2.2.4).
ghost use Rattle.std.specs.Prelude.{[], ◌≡◌, ◌-◌, ◌∷◌, ◌++◌, ◌<◌, ◌≤◌, ℕ, List, IfNone, IfSome};
ghost use Rattle.digits_core.specs.Digits.{AreAsciiDigits, digits_of};
ghost use Rattle.ean_code.specs.inner.Parts.{IsTextOf};
ghost use Rattle.ean_code.specs.Spelling.{HasNoSymbol, IsGtinSymbol, IsPrintedUpce, IsSpelled};
ghost use Rattle.ean_code.specs.Symbols.{IsNumberSymbol, widths_of};
ghost use Rattle.ean_code.specs.Widths.{AreWidths};
ghost use Rattle.ean_code.specs.declared.kind.Kind.TheVariants.{UpcE};

use crate::drawing::{NORMAL_GUARD, SPECIAL_GUARD, push_guard, push_left};
use crate::modules::Modules;
use crate::parts::six;
use crate::reading::{Spelled, push_digits};
use crate::rows::{last_digit, upce_row};
use arrayvec::ArrayVec;
use digits_core::{Gtin, upce_expand, upce_suppress};

/// How many widths a UPC-E has, and how many modules wide it is.
pub(crate) const WIDTH_COUNT: usize = 33;

pub(crate) const MODULE_COUNT: u16 = 51;

/// What a reader sends before its text (GS1 General Specifications, section 5.1.3).
pub(crate) const IDENTIFIER: &str = "]E0";

/// The widths of the UPC-E with these six ASCII digits and check digit.
fn upce_widths(six: &[u8; 6], check: u8) -> ArrayVec<u8, 595>
    requires six { AreAsciiDigits six.now }
    requires low { 48 ≤ check }
    requires high { check < 58 }
    ensures { result.items ≡ widths_of UpcE (digits_of six.now ++ (check - 48) ∷ []) }
{
    let mut widths = ArrayVec::new();
    push_guard(&mut widths, &NORMAL_GUARD);
    push_left(&mut widths, upce_row(check - b'0'), six);
    push_guard(&mut widths, &SPECIAL_GUARD);
    widths
}

/// The UPC-E of a GTIN, 33 widths of 51 modules in all, by the first line of the zero-suppression table
/// that has it (GS1 General Specifications, section 5.2.2.4): none if no line has.
pub fn upce(gtin: &Gtin) -> Option<Modules>
    ensures printed { IfSome result (IsPrintedUpce gtin.now) }
    ensures some { IfSome result (IsGtinSymbol UpcE gtin.now) }
    ensures none { IfNone result (HasNoSymbol UpcE gtin.now) }
{
    let spelled = upce_suppress(gtin)?;
    Some(Modules::new(upce_widths(&spelled.0, spelled.1)))
}

/// The ASCII digits of the UPC-E with these widths: the six, and the check digit, which their number
/// sets show.
fn upce_text(widths: &[u8]) -> Option<ArrayVec<u8, 13>>
    requires { AreWidths widths.now }
    ensures found { IfSome result (λ text. IsTextOf UpcE widths.now text.items) }
    ensures none { IfNone result ((digits : List ℕ) → IsNumberSymbol UpcE widths.now digits → ⊥) }
{
    let left = six(widths)?;
    let check = last_digit(left.as_slice())?;
    let mut text = ArrayVec::new();
    push_digits(&mut text, left.as_slice());
    text.push(b'0' + check);
    Some(text)
}

/// What a UPC-E spells, read forwards alone: the GTIN-12 that its digits are expanded to, by any line of
/// the zero-suppression table (GS1 General Specifications, section 5.2.2.4).
pub fn read_upce(modules: &Modules) -> Spelled
    ensures { IsSpelled UpcE modules.now result }
{
    read_upce_widths(modules.widths())
}

/// What a UPC-E with these widths spells, read forwards alone.
pub(crate) fn read_upce_widths(widths: &[u8]) -> Spelled
    requires { AreWidths widths.now }
    ensures { IsSpelled UpcE widths.now result }
{
    let Some(text) = upce_text(widths) else {
        return Spelled::NoPattern;
    };
    let mut six = [0; 6];
    six.copy_from_slice(&text.as_slice()[..6]);
    match upce_expand(six, text.as_slice()[6]) {
        Some(gtin) => Spelled::Found(gtin),
        None => Spelled::BadCheck,
    }
}
