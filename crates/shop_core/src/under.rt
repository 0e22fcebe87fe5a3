//! The text under a symbol.
ghost use Rattle.std.specs.Prelude.{◌≡◌, ◌+◌, ◌++◌, ◌≤◌, ℕ, List, length};
ghost use Rattle.digits_core.specs.Upce.{IsFirstUpceOf};
ghost use Rattle.sheet_core.specs.Labels.{Drawn, IsDrawn};
ghost use Rattle.shop_core.specs.Under.{IsReadUnder, IsUpceReadUnder};

use arrayvec::ArrayVec;
use digits_core::{Gtin, upce_suppress};
use sheet_core::Label;

/// The most letters under a symbol.
pub(crate) const MOST_DIGITS: usize = 288;

/// Puts ASCII letters at the end of others.
fn push(digits: &mut ArrayVec<u32, MOST_DIGITS>, bytes: &[u8])
    requires { length digits.old.items + length bytes.now ≤ 288 }
    ensures { digits.new.items ≡ digits.old.items ++ bytes.now }
{
    'bytes: for byte in bytes {
        digits.push(u32::from(*byte));
    }
}

/// Puts the eight digits of a UPC-E.
fn push_upce(digits: &mut ArrayVec<u32, MOST_DIGITS>, gtin: &Gtin)
    requires room { length digits.old.items + 8 ≤ 288 }
    requires spelled { (six : List ℕ) × (check : ℕ) × IsFirstUpceOf six check gtin.now }
    ensures { (under : List ℕ) × IsUpceReadUnder gtin.now under × (digits.new.items ≡ digits.old.items ++ under) }
{
    match upce_suppress(gtin) {
        Some(spelled) => {
            push(digits, b"0");
            push(digits, &spelled.0);
            push(digits, &[spelled.1]);
        }
        None => unreachable!(),
    }
}

/// The text under the symbol of a label, if it has one.
pub(crate) fn under_bars(label: &Label) -> ArrayVec<u32, MOST_DIGITS>
    requires { (s : Drawn) × IsDrawn label.now s }
    ensures { IsReadUnder label.now result.items }
{
    let mut digits = ArrayVec::new();
    match label {
        Label::Ean13(gtin) => push(&mut digits, &gtin.digits14()[1..]),
        Label::UpcA(gtin) => push(&mut digits, &gtin.digits14()[2..]),
        Label::Ean8(gtin) => push(&mut digits, &gtin.digits14()[6..]),
        Label::UpcE(gtin) => push_upce(&mut digits, gtin),
        Label::Itf14(gtin) => push(&mut digits, &gtin.digits14()),
        Label::Gs1128(elements) => push(&mut digits, elements.hri().as_bytes()),
    }
    digits
}
