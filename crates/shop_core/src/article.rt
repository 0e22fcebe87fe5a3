//! Articles.
ghost use Rattle.sheet_core.specs.Labels.{IsDrawn};
ghost use Rattle.shop_core.specs.Under.{IsReadUnder};

use crate::under::MOST_DIGITS;
use arrayvec::ArrayVec;
use sheet_core::{DrawnSymbol, Label};

/// The texts of a label, as the code points of their letters. Empty texts are not shown.
#[repr(C)]
#[derive(Clone, Copy)]
pub struct Texts<'a> {
    pub name: &'a [u32],
    pub price: &'a [u32],
    /// The old price, which is struck through.
    pub old_price: &'a [u32],
    /// The price per kilogram, litre or piece.
    pub unit_price: &'a [u32],
    pub deposit: &'a [u32],
    pub best_before: &'a [u32],
    pub batch: &'a [u32],
    /// At most 8 further lines, with a line feed between each two.
    pub lines: &'a [u32],
}

/// The content of a label: a symbol, the text under it, and texts.
#[derive(Drop)]
pub struct Article<'a> {
    pub label: Label,
    pub symbol: DrawnSymbol,
    /// The text under the symbol.
    pub digits: ArrayVec<u32, MOST_DIGITS>,
    pub texts: Texts<'a>,
    /// Whether the symbol has bearer bars, one above it and one below it.
    pub has_bearers: bool,
    ghost drawn: { ∥ IsDrawn label symbol ∥₁ },
    ghost under: { ∥ IsReadUnder label digits.items ∥₁ },
}
