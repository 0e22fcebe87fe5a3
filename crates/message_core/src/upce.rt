//! UPC-E by the eight digits under the symbol.
ghost use Rattle.std.specs.Prelude.{◌≡◌, None, length, IfErr, IfNone, IfOk};
ghost use Rattle.digits_core.specs.Digits.{AreAsciiDigits};
ghost use Rattle.message_core.specs.Faults.{heard};
ghost use Rattle.message_core.specs.Upce.{IsUpceDigits, IsUpceFault, IsUpceSaid, upce_fault};

use crate::fault::MessageFault;
use digits_core::{DigitFault, Gtin, not_digits, upce_expand};
use element_core::{Elements, Year};

/// Why a text is not the digit 0 and seven more digits.
fn upce_fault(text: &[u8]) -> Option<DigitFault>
    ensures fault { result ≡ upce_fault text.now }
    ensures long { IfNone result (length text.now ≡ 8) }
    ensures digits { IfNone result (AreAsciiDigits text.now) }
{
    if text.len() != 8 {
        return Some(DigitFault::Length);
    }
    if let Some(fault) = not_digits(text) {
        return Some(fault);
    }
    if text[0] != b'0' {
        return Some(DigitFault::Length);
    }
    None
}

/// The GTIN of a UPC-E, given as printed under the symbol: the digit 0, six digits and the check digit, in ASCII (GS1
/// General Specifications, section 5.2.2.4). It tests the length first, then for a byte that is no digit, then the
/// first digit (the error is `Length`), then the check digit.
pub fn read_upce(text: &[u8]) -> Result<Gtin, DigitFault>
    ensures ok { IfOk result (λ gtin. (upce_fault text.now ≡ None) × IsUpceDigits text.now gtin) }
    ensures refused { IfErr result (IsUpceFault text.now) }
{
    if let Some(fault) = upce_fault(text) {
        return Err(fault);
    }
    let mut six = [0; 6];
    six.copy_from_slice(&text[1..7]);
    upce_expand(six, text[7]).ok_or(DigitFault::CheckDigit)
}

/// The elements of a UPC-E: its GTIN.
pub(crate) fn upce_said(digits: &[u8], year: Year) -> Result<Elements, MessageFault>
    ensures { IsUpceSaid digits.now (heard result) }
{
    match read_upce(digits) {
        Ok(gtin) => Ok(Elements::of_gtin(&gtin, year)),
        Err(fault) => Err(MessageFault::Digits(fault)),
    }
}
