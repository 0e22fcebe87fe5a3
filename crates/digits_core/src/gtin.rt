//! Global Trade Item Numbers.
ghost use Rattle.std.specs.Prelude.{None, Some, ◌≡◌, ◌==◌, ◌↔◌, ◌-◌, ◌≤◌, ◌++◌, ℕ, List, drop, length, replicate, IfErr, IfOk, IfSome, IsOk, IsSome, IsTrue, OnOk};
ghost use Rattle.digits_core.specs.Digits.{AreAsciiDigits, AreDigits, IsChecked, ascii_of, digits_of, padded};
ghost use Rattle.std.specs.List.{list_all};
ghost use Rattle.digits_core.specs.Gtins.{first_other, gtin_fault, is_gtin_length};

use crate::fault::DigitFault;
use crate::payload::is_checked;
use std::marker::Model;

/// A GTIN: 14 digits, the last of which is the check digit of the others. A GTIN of 8, 12 or 13
/// digits has zeros before them (GS1 General Specifications, sections 3.3 and 7.9).
#[derive(Clone, Copy, Debug, PartialEq, Eq)]
pub struct Gtin {
    digits: [u8; 14],
}

impl Model for Gtin {
    ghost use Rattle.std.specs.Prelude.{ℕ, List};
    ghost use Rattle.std.proofs.Common.{ap};
    ghost use Rattle.digits_core.specs.Digits.{AreAsciiDigits, IsChecked, ascii_of, ascii_of-digits_of, digits_of};

    ghost Value = { List ℕ };

    ghost view = { λ g. digits_of g.digits };

    ghost invariant = { λ g. AreAsciiDigits g.digits × IsChecked (digits_of g.digits) };

    ghost inverse = { λ ds. record { digits = ascii_of ds } };

    ghost inverse_ok = { λ a h. ap (λ ds. record { digits = ds }) (ascii_of-digits_of a.digits h.0) };
}

/// The offset of the first byte that is no ASCII digit.
pub(crate) fn first_other(text: &[u8]) -> Option<usize>
    ensures { result ≡ first_other text.now }
{
    text.iter().position(|byte| !byte.is_ascii_digit())
}

/// The text of at most 14 bytes with zeros before it.
fn zeros_before(text: &[u8]) -> [u8; 14]
    requires { length text.now ≤ 14 }
    ensures { result ≡ replicate (14 - length text.now) 48 ++ text.now }
{
    let mut digits = [b'0'; 14];
    digits[14 - text.len()..].copy_from_slice(text);
    digits
}

/// Whether each byte is the digit '0'.
pub(crate) fn are_zeros(text: &[u8]) -> bool
    ensures { result ≡ list_all (λ byte. byte == 48) text.now }
{
    text.iter().all(|byte| *byte == b'0')
}

impl Gtin {
    /// The GTIN of 8, 12, 13 or 14 ASCII digits.
    ///
    /// It tests the length first, then for a byte that is no digit, then the check digit. The first test that fails
    /// is the error.
    pub fn read(text: &[u8]) -> Result<Gtin, DigitFault>
        ensures ok { IfOk result (λ g. g ≡ padded (digits_of text.now)) }
        ensures taken { OnOk result (gtin_fault text.now ≡ None) }
        ensures refused { IfErr result (λ fault. gtin_fault text.now ≡ Some fault) }
        ensures checked { IfOk result (λ g. IsChecked g) }
        // For digits of one of the four lengths, only the check digit decides.
        ensures decided { IsTrue (is_gtin_length (length text.now)) → AreAsciiDigits text.now
            → (IsOk result ↔ IsChecked (digits_of text.now)) }
    {
        if !matches!(text.len(), 8 | 12 | 13 | 14) {
            return Err(DigitFault::Length);
        }
        if let Some(place) = first_other(text) {
            return Err(DigitFault::NotDigit(place));
        }
        if !is_checked(text) {
            return Err(DigitFault::CheckDigit);
        }
        Ok(Gtin {
            digits: zeros_before(text),
        })
    }

    /// All 14 digits, in ASCII.
    pub fn digits14(&self) -> [u8; 14]
        ensures value { result ≡ ascii_of self.now }
        ensures digits { AreDigits self.now }
        ensures checked { IsChecked self.now }
    {
        self.digits
    }

    /// The last `N` digits, in ASCII, if all before them are zeros.
    fn last_digits<const N: usize>(&self) -> Option<[u8; N]>
        requires { N ≤ 14 }
        ensures some { IsSome result ↔ (self.now ≡ padded (drop (14 - N) self.now)) }
        ensures value { IfSome result (λ text. text ≡ ascii_of (drop (14 - N) self.now)) }
        ensures digits { IfSome result AreAsciiDigits }
        ensures checked { IsChecked self.now }
    {
        let (zeros, digits) = self.digits.split_last_chunk::<N>()?;
        if !are_zeros(zeros) {
            return None;
        }
        Some(*digits)
    }

    /// The 13 digits, in ASCII, of a GTIN-13, GTIN-12 or GTIN-8. None if the GTIN needs 14 digits.
    pub fn as13(&self) -> Option<[u8; 13]>
        ensures some { IsSome result ↔ (self.now ≡ padded (drop 1 self.now)) }
        ensures value { IfSome result (λ text. text ≡ ascii_of (drop 1 self.now)) }
        ensures digits { IfSome result AreAsciiDigits }
    {
        self.last_digits::<13>()
    }

    /// The 12 digits, in ASCII, of a GTIN-12 or GTIN-8. None if the GTIN needs more digits.
    pub fn as12(&self) -> Option<[u8; 12]>
        ensures some { IsSome result ↔ (self.now ≡ padded (drop 2 self.now)) }
        ensures value { IfSome result (λ text. text ≡ ascii_of (drop 2 self.now)) }
        ensures digits { IfSome result AreAsciiDigits }
        ensures checked { IsChecked self.now }
    {
        self.last_digits::<12>()
    }

    /// The 8 digits, in ASCII, of a GTIN-8. None if the GTIN needs more digits.
    pub fn as8(&self) -> Option<[u8; 8]>
        ensures some { IsSome result ↔ (self.now ≡ padded (drop 6 self.now)) }
        ensures value { IfSome result (λ text. text ≡ ascii_of (drop 6 self.now)) }
        ensures digits { IfSome result AreAsciiDigits }
    {
        self.last_digits::<8>()
    }
}
