//! Reads rows through the bars of a drawn label back.
ghost use Rattle.std.specs.Prelude.{◌≡◌, ◌↔◌, ◌<◌, ◌≤◌, ◌+◌, ◌*◌, All, IsTrue, ℕ, false, length};
ghost use Rattle.std.specs.List.{list_any};
ghost use Rattle.scan_core.specs.Bits.{dot_at};
ghost use Rattle.scan_core.specs.Row.{IsRow};
ghost use Rattle.scan_core.specs.Windows.{search_of};
ghost use Rattle.shop_core.specs.inner.Edges.{begins_or_ends};
ghost use Rattle.shop_core.specs.Drawings.{LiesOn, RowAnswers, SaysAlone, has_dot};

use crate::part::Part;
use crate::says::is_of;
use element_core::Year;
use scan_core::{DotSymbols, SymbolSearch, dots_determine, symbols_are_told};
use sheet_core::{Label, darken};

/// Makes the dots of a row dark if a part of the label is there, and the others light.
fn put_row(parts: &[Part], width: u16, height: u16, y: u16, row: &mut [u8])
    requires room { width ≤ 8 * length row.old }
    requires within { All (LiesOn width height) parts.now }
    ensures { (x : ℕ) → dot_at row.new x ≡ list_any (has_dot x y) parts.now }
{
    row.fill(0);
    'parts: for part in parts {
        if part.has_row(y) {
            darken(row, usize::from(part.left), usize::from(part.width));
        }
    }
}

/// Whether a search finds exactly one symbol, and it is the label's.
fn says_alone(symbols: DotSymbols, label: &Label, year: Year) -> bool
    requires all { symbols ≡ search_of symbols.runs year }
    requires row { IsRow symbols.runs }
    ensures { IsTrue result ↔ SaysAlone symbols.entry.runs year label.now }
{
    symbols_are_told();
    let mut symbols = symbols;
    let Some(window) = symbols.next_symbol() else {
        return false;
    };
    if !is_of(label, year, &window) {
        return false;
    }
    match symbols.next_symbol() {
        None => true,
        Some(_) => false,
    }
}

/// Whether row `y` of a label shows exactly one symbol, and it is the label's. Parts count as dark all over.
pub(crate) fn row_answers(
    parts: &[Part],
    width: u16,
    height: u16,
    y: u16,
    label: &Label,
    year: Year,
    row: &mut [u8],
) -> bool
    requires room { width ≤ 8 * length row.old }
    requires within { All (LiesOn width height) parts.now }
    ensures { IsTrue result ↔ RowAnswers parts.now width y label.now year }
{
    dots_determine();
    put_row(parts, width, height, y, row);
    says_alone(DotSymbols::of_dots(row, width, year), label, year)
}

/// Whether a part begins or ends with this row.
fn is_edge(parts: &[Part], y: u16) -> bool
    ensures { result ≡ list_any (begins_or_ends y) parts.now }
{
    for part in parts {
        if part.top == y || part.bottom() == u32::from(y) {
            return true;
        }
    }
    false
}

/// Whether each row from one up to another shows exactly one symbol, and it is the label's. Unless a part begins or
/// ends there, a row is the same as the one above it.
pub(crate) fn rows_answer(
    parts: &[Part],
    width: u16,
    height: u16,
    top: u16,
    end: u16,
    label: &Label,
    year: Year,
    row: &mut [u8],
) -> bool
    requires room { width ≤ 8 * length row.old }
    requires within { All (LiesOn width height) parts.now }
    ensures { IsTrue result ↔ ((y : ℕ) → top ≤ y → y < end → RowAnswers parts.now width y label.now year) }
{
    'rows: for y in top..end {
        if y == top || is_edge(parts, y) {
            if !row_answers(parts, width, height, y, label, year, row) {
                return false;
            }
        }
    }
    true
}
