//! The GTIN of an answer: what it identifies, and with how many digits it is written.
ghost use Rattle.std.specs.Prelude.{◌≡◌, length};
ghost use Rattle.digits_core.specs.Buffers.{IsPut};
ghost use Rattle.digits_core.specs.Gtins.{is_gtin_length};
ghost use Rattle.answer_core.specs.GtinForms.{gtin_in, short_gtin};
ghost use Rattle.answer_core.specs.GtinUses.{gtin_use};

use crate::answer::Answer;
use crate::buffer::put;
use crate::gtin::span;
use crate::gtin_use::{GtinUse, gtin_use};
use crate::text::are_zeros;

/// Whether a GTIN is written with this many digits.
fn is_gtin_length(count: u32) -> bool
    ensures { result ≡ is_gtin_length count }
{
    match count {
        8 | 12 | 13 | 14 => true,
        _ => false,
    }
}

/// The last digits of 14, this many, if only zeros are before them; otherwise no digits.
fn short_gtin(count: u32, digits: &[u8]) -> &[u8]
    ensures { result.now ≡ short_gtin count digits.now }
{
    if digits.len() != 14 || !is_gtin_length(count) {
        return b"";
    }
    let zeros = 14 - count as usize;
    if are_zeros(&digits[..zeros]) {
        &digits[zeros..]
    } else {
        b""
    }
}

impl Answer {
    /// The value of AI 01; no bytes if there is none, or two that differ.
    fn gtin_bytes(&self) -> &[u8]
        ensures { result.now ≡ gtin_in self.now }
    {
        let text = self.text_bytes();
        match self.places().get(usize::from(self.gtin)) {
            Some(place) => span(text, place.value, place.end),
            None => b"",
        }
    }

    /// What its GTIN identifies, if it has one.
    pub fn gtin_use(&self) -> Option<GtinUse>
        ensures { result ≡ gtin_use (gtin_in self.now) }
    {
        gtin_use(self.gtin_bytes())
    }

    /// Puts its GTIN as 8, 12, 13 or 14 digits at the front of `out` if there is room for them, and returns how many
    /// they are. They are none if it has no GTIN or one that needs more digits, or for any other count.
    pub fn put_gtin(&self, count: u32, out: &mut [u8]) -> usize
        ensures { IsPut (short_gtin count (gtin_in self.now)) out.old out.new result }
    {
        put(short_gtin(count, self.gtin_bytes()), out)
    }
}
