//! What the widths of a symbol spell.
ghost use Rattle.std.specs.Prelude.{◌≡◌, ◌+◌, ◌≤◌, ◌++◌, IfNone, IfSome, IsTrue, length};
ghost use Rattle.arrayvec.specs.ArrayVec.{array_vec_len};
ghost use Rattle.digits_core.specs.Digits.{AreAsciiDigits, ascii_of};
ghost use Rattle.digits_core.specs.Gtins.{is_gtin_length};
ghost use Rattle.ean_code.specs.inner.NumberSets.{AreCharacters, character_digits};
ghost use Rattle.ean_code.specs.inner.Spelling.{TextSpells};
ghost use Rattle.ean_code.specs.declared.reading.Spelled.TheVariants.{NoPattern};

use crate::number_sets::Character;
use arrayvec::ArrayVec;
use digits_core::Gtin;

/// What the modules of a symbol spell.
#[derive(Clone, Copy, Debug, PartialEq, Eq)]
pub enum Spelled {
    /// They are no symbol of the kind that was looked for.
    NoPattern,
    /// They are one, and its digits are no GTIN's, since the check digit is wrong.
    BadCheck,
    /// They are one, of this GTIN.
    Found(Gtin),
}

/// Appends the digits of characters, in ASCII.
pub(crate) fn push_digits(text: &mut ArrayVec<u8, 13>, characters: &[Character])
    requires room { array_vec_len text.old + length characters.now ≤ 13 }
    requires valid { AreCharacters characters.now }
    ensures { text.new.items ≡ text.old.items ++ ascii_of (character_digits characters.now) }
{
    for i in 0..characters.len() {
        text.push(b'0' + characters[i].digit);
    }
}

/// What the ASCII digits of a symbol spell, as many as a GTIN may have: if there are none, that there
/// is no symbol.
pub(crate) fn spelled_by<const N: usize>(text: Option<ArrayVec<u8, N>>) -> Spelled
    requires digits { IfSome text (λ t. AreAsciiDigits t.items) }
    requires count { IfSome text (λ t. IsTrue (is_gtin_length (length t.items))) }
    ensures none { IfNone text.entry (result ≡ NoPattern) }
    ensures some { IfSome text.entry (λ t. TextSpells t.items result) }
{
    let Some(text) = text else {
        return Spelled::NoPattern;
    };
    match Gtin::read(text.as_slice()) {
        Ok(gtin) => Spelled::Found(gtin),
        Err(_) => Spelled::BadCheck,
    }
}
