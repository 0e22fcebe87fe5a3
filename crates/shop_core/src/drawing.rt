//! Drawn labels, and the final check of each.
ghost use Rattle.std.specs.Prelude.{◌≡◌, ◌↔◌, ◌<◌, ◌≤◌, ◌+◌, ◌*◌, All, AllPairs, IsTrue, length, slice_index_or, ℕ};
ghost use Rattle.shop_core.specs.Drawings.{LieApart, IsDrawingOf, LiesOn, bar_count, zone_of};

use crate::article::Article;
use crate::bars::{are_bars, are_others, keep_bearers, module_sum};
use crate::part::{Part, Zone};
use crate::row::rows_answer;
use crate::texts::{keep_price, keep_runs, tell_all};
use arrayvec::ArrayVec;
use element_core::Year;
use sheet_core::DrawnSymbol;

/// The most parts of a label: 298 bars, 2 bearers, and the lines of its texts.
pub const MOST_PARTS: usize = 400;

/// A drawn label: its size in dots, its parts, and the rows that go through all bars.
#[derive(Debug, Drop)]
pub struct Drawing {
    pub width: u16,
    pub height: u16,
    /// First the bars of its symbol, from the left.
    pub parts: ArrayVec<Part, MOST_PARTS>,
    /// The first row through the bars, and the row below the last one.
    pub top: u16,
    pub end: u16,
    /// Where the left quiet zone begins, and the dots of a module.
    pub left: u16,
    pub module: u16,
    /// The height of bars in the standard, in 1/64 dot.
    pub nominal: u32,
}

/// Where a quiet zone ends that begins here, by its modules and their dots.
fn quiet_end(left: u16, dots: u16, count: u8) -> u32
    ensures { result ≡ left + dots * count }
{
    u32::from(left) + u32::from(dots) * u32::from(count)
}

/// Where modules end that begin here, by their dots.
fn modules_end(from: u64, dots: u16, count: u64) -> u64
    requires near { from ≤ 20_000_000_000 }
    requires few { count ≤ 255 * 595 }
    ensures end { result ≡ from + dots * count }
    ensures near { result ≤ from + 9_943_297_875 }
{
    from + u64::from(dots) * count
}

impl Drawing {
    /// The zone of a symbol.
    fn zone(&self, symbol: &DrawnSymbol) -> Zone
        ensures { result ≡ zone_of self.now symbol.now }
    {
        let from = quiet_end(self.left, self.module, symbol.quiet_left());
        let end = modules_end(u64::from(from), self.module, module_sum(symbol.widths()));
        let right = modules_end(end, self.module, u64::from(symbol.quiet_right()));
        Zone {
            left: u64::from(self.left),
            from,
            right,
            top: self.top,
            bottom: self.end,
        }
    }
}

/// How many bars a symbol has.
fn bar_count(symbol: &DrawnSymbol) -> usize
    ensures { result ≡ bar_count symbol.now.modules }
{
    (symbol.widths().len() + 1) / 2
}

/// Whether all parts lie on a label of this size.
fn lie_on(parts: &[Part], width: u16, height: u16) -> bool
    ensures { IsTrue result ↔ All (LiesOn width height) parts.now }
{
    'parts: for k in 0..parts.len() {
        if !parts[k].lies_on(width, height) {
            return false;
        }
    }
    true
}

/// Whether a part overlaps none of those behind it.
fn is_apart_behind(parts: &[Part], place: usize) -> bool
    requires { place < length parts.now }
    ensures { IsTrue result ↔ ((j : ℕ) (d : Part) → place < j → j < length parts.now
        → LieApart (slice_index_or parts.now place d) (slice_index_or parts.now j d)) }
{
    'parts: for k in place + 1..parts.len() {
        if !parts[place].is_apart(&parts[k]) {
            return false;
        }
    }
    true
}

/// Whether no two parts overlap.
fn lie_apart(parts: &[Part]) -> bool
    ensures { IsTrue result ↔ AllPairs LieApart parts.now }
{
    'parts: for k in 0..parts.len() {
        if !is_apart_behind(parts, k) {
            return false;
        }
    }
    true
}

/// Whether a drawing is a label of an article. It has bars, and all its parts lie on it and do not overlap. The first
/// parts are the bars of the article's symbol. The others are letters or bearer bars outside the rows and columns of
/// the symbol and its quiet zones. It shows each text, or marks that the text goes on; the price is complete. Each
/// row through the bars reads back as the article and nothing else.
///
/// `row` has room for a row of its dots. Its content does not matter.
pub fn check_drawing(drawing: &Drawing, article: &Article, year: Year, row: &mut [u8]) -> bool
    requires { drawing.now.width ≤ 8 * length row.old }
    ensures { IsTrue result ↔ IsDrawingOf drawing.now article.now year }
{
    let parts = drawing.parts.as_slice();
    let zone = drawing.zone(&article.symbol);
    let bars = bar_count(&article.symbol);
    if drawing.end <= drawing.top {
        return false;
    }
    if drawing.end > drawing.height {
        return false;
    }
    if zone.right > u64::from(drawing.width) {
        return false;
    }
    if !lie_on(parts, drawing.width, drawing.height) {
        return false;
    }
    if !lie_apart(parts) {
        return false;
    }
    if parts.len() < bars {
        return false;
    }
    if !are_bars(parts, article.symbol.widths(), &zone, drawing.module) {
        return false;
    }
    if !are_others(parts, article.has_bearers, &zone, bars) {
        return false;
    }
    if !keep_bearers(parts, article.has_bearers, &zone) {
        return false;
    }
    if !keep_runs(parts, article) {
        return false;
    }
    if !tell_all(parts, article) {
        return false;
    }
    if !keep_price(parts, article.texts.price.len()) {
        return false;
    }
    rows_answer(
        parts,
        drawing.width,
        drawing.height,
        drawing.top,
        drawing.end,
        &article.label,
        year,
        row,
    )
}
