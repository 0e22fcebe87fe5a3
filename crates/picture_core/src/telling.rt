//! What is reported: each symbol is looked up in the picture once more, and is reported if all that is promised of it holds.
ghost use Rattle.std.specs.Prelude.{◌≡◌, ◌⊎◌, IfNone, IfSome, IsSomeAnd, ◌<◌, ◌+◌, ◌*◌, ◌≤◌, ℕ, All, AllPairs, IsTrue, Option, Some, length, slice_index_or};
ghost use Rattle.scan_core.specs.Row.{IsRow};
ghost use Rattle.picture_core.specs.declared.symbol.SeenSymbol.{SeenSymbol};
ghost use Rattle.picture_core.specs.Rows.{IsWindowAt, RowShows};
ghost use Rattle.picture_core.specs.Order.{AreInReadingOrder, symbol_at};
ghost use Rattle.picture_core.specs.Told.{AreApart, AreApartIn, AreOnLines, AreOwnRows, HasOwnRows, HaveOwnRows, IsOnLine, IsSymbolIn, IsSomeSymbolIn};

use crate::count::added;
use crate::order::{are_in_order, put_in_order};
use crate::own_row::{OwnRow, OwnRows};
use crate::picture::Picture;
use crate::room::RowRoom;
use crate::runs::{dots_in, put_runs};
use crate::said::{Furthest, Said};
use crate::seen_line::{SeenLine, SeenLines};
use crate::shown::{MOST, Shown};
use crate::symbol::SeenSymbol;
use crate::turning::line_shows;
use arrayvec::ArrayVec;
use element_core::Year;

/// Whether a window of a row's runs is read as a symbol, and its bars begin and end at these dots.
fn is_window_at(runs: &[u16], year: Year, said: &Said, at: OwnRow) -> bool
    requires row { IsRow runs.now }
    requires few { length runs.now ≤ 65537 }
    ensures { IsTrue result → IsWindowAt runs.now year said.now.carrier said.now.elements at }
{
    let first = at.first as usize;
    let count = at.count as usize;
    if first % 2 != 0 || count % 2 != 1 || runs.len() < first + count {
        return false;
    }
    let mut furthest = Furthest::none();
    let Some(again) = Said::of_widths(&runs[first..first + count], year, &mut furthest) else {
        return false;
    };
    if !again.says_as(said) {
        return false;
    }
    let left = dots_in(&runs[..first + 1]);
    let right = dots_in(&runs[..first + count - 1]);
    if left != at.left || right != at.right {
        return false;
    }
    true
}

/// Whether a row of the picture shows a symbol where it is said to.
fn row_shows(
    picture: &Picture,
    level: u8,
    year: Year,
    said: &Said,
    at: OwnRow,
    widths: &mut [u16],
) -> bool
    requires { picture.now.width + 2 ≤ length widths.old }
    ensures { IsTrue result → RowShows picture.now level year said.now.carrier said.now.elements at }
{
    let y = at.y as usize;
    if y >= picture.height() {
        return false;
    }
    let count = put_runs(picture.row(y), level, widths);
    is_window_at(&widths[..count], year, said, at)
}

/// Whether a row comes before another, or there is one alone.
fn are_enough(first: u32, last: u32, height: usize) -> bool
    ensures { IsTrue result → (first < last) ⊎ (height ≡ 1) }
{
    first < last || height == 1
}

/// Whether this many rows say what a symbol says: two, or the only one.
fn is_enough(rows: u32, height: usize) -> bool
    ensures { IsTrue result → (2 ≤ rows) ⊎ (height ≡ 1) }
{
    2 <= rows || height == 1
}

/// Whether two rows of the picture show a symbol, or the one that it has.
fn are_own_rows(
    picture: &Picture,
    level: u8,
    year: Year,
    symbol: &SeenSymbol,
    rows: OwnRows,
    widths: &mut [u16],
) -> bool
    requires { picture.now.width + 2 ≤ length widths.old }
    ensures { IsTrue result → AreOwnRows picture.now level year symbol.now rows }
{
    if !are_enough(rows.first.y, rows.last.y, picture.height()) {
        return false;
    }
    if !symbol.corners.hold_bars(rows.first) || !symbol.corners.hold_bars(rows.last) {
        return false;
    }
    if !row_shows(picture, level, year, &symbol.said, rows.first, widths) {
        return false;
    }
    if !row_shows(picture, level, year, &symbol.said, rows.last, widths) {
        return false;
    }
    true
}

/// Whether the rows of the picture that a symbol names, if it names any, show it.
fn own_rows_show(
    picture: &Picture,
    level: u8,
    year: Year,
    symbol: &SeenSymbol,
    widths: &mut [u16],
) -> bool
    requires { picture.now.width + 2 ≤ length widths.old }
    ensures { IsTrue result → IfSome symbol.now.own_rows (AreOwnRows picture.now level year symbol.now) }
{
    match symbol.own_rows {
        Some(rows) => are_own_rows(picture, level, year, symbol, rows, widths),
        None => true,
    }
}

/// Whether lines show a symbol, and the middle of its bars there is on it.
fn is_on_line(
    picture: &Picture,
    year: Year,
    symbol: &SeenSymbol,
    line: &SeenLine,
    row: &mut RowRoom,
) -> bool
    ensures { IsTrue result → IsOnLine picture.now year symbol.now line.now }
{
    match line_shows(picture, year, &symbol.said, line, row) {
        Some(dot) => symbol.corners.hold(line.place_at(dot)),
        None => false,
    }
}

/// Whether two groups of lines side by side show a symbol.
fn are_on_lines(
    picture: &Picture,
    year: Year,
    symbol: &SeenSymbol,
    lines: &SeenLines,
    row: &mut RowRoom,
) -> bool
    ensures { IsTrue result → AreOnLines picture.now year symbol.now lines.now }
{
    let second = lines.second();
    if !lines.first.is_before(&second) {
        return false;
    }
    if !is_on_line(picture, year, symbol, &lines.first, row) {
        return false;
    }
    is_on_line(picture, year, symbol, &second, row)
}

/// Whether a symbol names lines, and they show it.
fn is_on_its_lines(picture: &Picture, year: Year, symbol: &SeenSymbol, row: &mut RowRoom) -> bool
    ensures { IsTrue result → IsSomeAnd symbol.now.lines (AreOnLines picture.now year symbol.now) }
{
    match &symbol.lines {
        Some(lines) => are_on_lines(picture, year, symbol, lines, row),
        None => false,
    }
}

/// Whether the lines of a symbol show it, if it names no rows of the picture.
fn lines_show(picture: &Picture, year: Year, symbol: &SeenSymbol, row: &mut RowRoom) -> bool
    ensures { IsTrue result → IfNone symbol.now.own_rows
        (IsSomeAnd symbol.now.lines (AreOnLines picture.now year symbol.now)) }
{
    symbol.own_rows.is_some() || is_on_its_lines(picture, year, symbol, row)
}

/// Whether all holds that is promised of a symbol.
fn is_told(
    picture: &Picture,
    level: u8,
    year: Year,
    symbol: &SeenSymbol,
    widths: &mut [u16],
    row: &mut RowRoom,
) -> bool
    requires { picture.now.width + 2 ≤ length widths.old }
    ensures { IsTrue result → IsSymbolIn picture.now level year symbol.now }
{
    if symbol.said.elements.year() != year {
        return false;
    }
    if !is_enough(symbol.rows, picture.height()) {
        return false;
    }
    if !symbol
        .corners
        .are_in_size(picture.width(), picture.height())
    {
        return false;
    }
    if !symbol.corners.have_area() {
        return false;
    }
    if !symbol.corners.hold(symbol.corners.middle()) {
        return false;
    }
    if !own_rows_show(picture, level, year, symbol, widths) {
        return false;
    }
    if !lines_show(picture, year, symbol, row) {
        return false;
    }
    true
}

/// Whether neither of two symbols has the middle of the other on it.
fn are_apart(one: &SeenSymbol, other: &SeenSymbol) -> bool
    ensures { IsTrue result → AreApart one.now other.now }
{
    !one.corners.hold(other.corners.middle()) && !other.corners.hold(one.corners.middle())
}

/// Whether a symbol stands apart from each of the first this many.
fn is_apart(symbols: &[Option<SeenSymbol>], count: usize, symbol: &SeenSymbol) -> bool
    requires { count ≤ length symbols.now }
    ensures { IsTrue result → (k : ℕ) (d : Option SeenSymbol) → k < count → AreApartIn (slice_index_or symbols.now k d) (Some symbol.now) }
{
    'symbols: for place in 0..count {
        if let Some(other) = &symbols[place] {
            if !are_apart(other, symbol) {
                return false;
            }
        }
    }
    true
}

/// Whether the symbol behind the first `count` may be reported after them.
fn may_be_told(
    picture: &Picture,
    level: u8,
    year: Year,
    symbols: &[Option<SeenSymbol>],
    count: usize,
    widths: &mut [u16],
    row: &mut RowRoom,
) -> bool
    requires room { picture.now.width + 2 ≤ length widths.old }
    requires within { count < length symbols.now }
    ensures told { IsTrue result → (d : Option SeenSymbol) → IsSomeSymbolIn picture.now level year (slice_index_or symbols.now count d) }
    ensures apart { IsTrue result → (k : ℕ) (d : Option SeenSymbol) → k < count
        → AreApartIn (slice_index_or symbols.now k d) (slice_index_or symbols.now count d) }
{
    match &symbols[count] {
        Some(symbol) => {
            is_told(picture, level, year, symbol, widths, row) && is_apart(symbols, count, symbol)
        }
        None => false,
    }
}

/// Keeps the symbols that may be reported, each after those before it.
fn keep_told(
    picture: &Picture,
    level: u8,
    year: Year,
    symbols: &mut ArrayVec<Option<SeenSymbol>, MOST>,
    widths: &mut [u16],
    row: &mut RowRoom,
)
    requires { picture.now.width + 2 ≤ length widths.old }
    ensures told { All (IsSomeSymbolIn picture.now level year) symbols.new.items }
    ensures apart { AllPairs AreApartIn symbols.new.items }
    ensures few { length symbols.new.items ≤ length symbols.old.items }
{
    let mut count = 0;
    'symbols: for _ in 0..MOST {
        if count < symbols.len() {
            if may_be_told(picture, level, year, symbols.as_slice(), count, widths, row) {
                count += 1;
            } else {
                symbols.remove(count);
            }
        }
    }
    symbols.truncate(count);
}

/// Whether a symbol, if there is one, names own rows.
fn names_rows(symbol: &Option<SeenSymbol>) -> bool
    ensures { IsTrue result → HasOwnRows symbol.now }
{
    match symbol {
        Some(symbol) => symbol.own_rows.is_some(),
        None => true,
    }
}

/// Whether the symbol at a place names own rows.
fn has_own_rows(symbols: &[Option<SeenSymbol>], place: usize) -> bool
    requires { place < length symbols.now }
    ensures { IsTrue result → HasOwnRows (symbol_at symbols.now place) }
{
    names_rows(&symbols[place])
}

/// Whether all symbols name own rows.
fn have_own_rows(symbols: &[Option<SeenSymbol>]) -> bool
    ensures { IsTrue result → HaveOwnRows symbols.now }
{
    'symbols: for place in 0..symbols.len() {
        if !has_own_rows(symbols, place) {
            return false;
        }
    }
    true
}

/// Whether only own rows are asked for, and other symbols are among these.
fn are_others(symbols: &[Option<SeenSymbol>], level: Option<u8>) -> bool
    ensures { (IsTrue result → ⊥) → IfSome level (λ l. HaveOwnRows symbols.now) }
{
    level.is_some() && !have_own_rows(symbols)
}

/// Puts symbols in the order of reading, and keeps those that may be reported.
fn keep_in_order(
    picture: &Picture,
    level: u8,
    year: Year,
    symbols: &mut ArrayVec<Option<SeenSymbol>, MOST>,
    given: Option<u8>,
    widths: &mut [u16],
    row: &mut RowRoom,
)
    requires { picture.now.width + 2 ≤ length widths.old }
    ensures told { All (IsSomeSymbolIn picture.now level year) symbols.new.items }
    ensures apart { AllPairs AreApartIn symbols.new.items }
    ensures own { IfSome given (λ l. HaveOwnRows symbols.new.items) }
    ensures order { AreInReadingOrder symbols.new.items }
    ensures few { length symbols.new.items ≤ length symbols.old.items }
{
    put_in_order(symbols.as_mut_slice());
    keep_told(picture, level, year, symbols, widths, row);
    if !are_in_order(symbols.as_slice()) {
        // The highest symbol of a line was not kept. Those that are left are looked up in their order: all are kept.
        put_in_order(symbols.as_mut_slice());
        keep_told(picture, level, year, symbols, widths, row);
    }
    if !are_in_order(symbols.as_slice()) || are_others(symbols.as_slice(), given) {
        symbols.clear();
    }
}

/// Leaves of the symbols that were found those that may be reported, in the order of reading.
pub(crate) fn tell(
    picture: &Picture,
    level: u8,
    year: Year,
    shown: &mut Shown,
    given: Option<u8>,
    widths: &mut [u16],
    row: &mut RowRoom,
)
    requires { picture.now.width + 2 ≤ length widths.old }
    ensures told { All (IsSomeSymbolIn picture.now level year) shown.new.symbols.items }
    ensures apart { AllPairs AreApartIn shown.new.symbols.items }
    ensures order { AreInReadingOrder shown.new.symbols.items }
    ensures own { IfSome given (λ l. HaveOwnRows shown.new.symbols.items) }
{
    let found = shown.symbols.len();
    keep_in_order(picture, level, year, &mut shown.symbols, given, widths, row);
    let gone = found - shown.symbols.len();
    shown.left_out = added(shown.left_out, gone as u32);
}
