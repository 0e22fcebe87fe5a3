//! Whether a line shows a symbol.
ghost use Rattle.std.specs.Prelude.{◌≡◌, ◌+◌, ◌-◌, ◌*◌, ◌<◌, ◌≤◌, ◌^◌, ℕ, IsTrue, length};
ghost use Rattle.line_core.specs.Symbols.{ShowsAnyCode, ShowsBars, ShowsCode, ShowsEan, ShowsItf, ShowsWidths, ShowsUpce};

use crate::codes::show_codes;
use crate::digits::show_digits;
use crate::ends::show_ends;
use crate::lights::has_light;
use crate::pairs::show_fives;

/// The samples of a line. Those in `from..to` are in the picture, the others beyond its edge. Their distance is in
/// 1/256 dot. Further the samples at which they turn; the ends between these, in 1/256 dot from the first sample; and
/// the widths in 1/48 module of the runs between the ends, light first and last.
#[derive(Clone, Copy)]
pub struct Bars<'a> {
    pub values: &'a [u32],
    pub from: usize,
    pub to: usize,
    pub step: u16,
    pub turns: &'a [u32],
    pub ends: &'a [u32],
    pub widths: &'a [u16],
}

/// Whether bars show an EAN with two halves of this many digits and this many half modules of light, if necessary up
/// to the edge of the picture.
fn shows_ean(bars: &Bars, digits: usize, quiet: u16, edge: bool) -> bool
    requires { digits ≤ 6 }
    ensures { IsTrue result → ShowsEan bars.now.values.now bars.now.from bars.now.to bars.now.step bars.now.turns.now bars.now.ends.now bars.now.widths.now digits quiet edge }
{
    if bars.widths.len() != 8 * digits + 13 {
        return false;
    }
    if !show_digits(bars.ends, bars.widths, 3, digits) {
        return false;
    }
    if !show_digits(bars.ends, bars.widths, 8 + 4 * digits, digits) {
        return false;
    }
    has_light(bars, 3, 4 + 8 * digits, 4, 14, quiet, edge)
}

/// Whether they show UPC-E.
fn shows_upce(bars: &Bars) -> bool
    ensures { IsTrue result → ShowsUpce bars.now.values.now bars.now.from bars.now.to bars.now.step bars.now.turns.now bars.now.ends.now bars.now.widths.now }
{
    if bars.widths.len() != 35 {
        return false;
    }
    if !show_digits(bars.ends, bars.widths, 3, 6) {
        return false;
    }
    has_light(bars, 3, 23, 4, 14, 5, false)
}

/// Whether they show Code 128 with this many characters; the last one is the stop character.
fn shows_code(bars: &Bars, characters: usize) -> bool
    requires { characters ≤ 100 }
    ensures { IsTrue result → ShowsCode bars.now.values.now bars.now.from bars.now.to bars.now.step bars.now.turns.now bars.now.ends.now bars.now.widths.now characters }
{
    if characters == 0 || bars.widths.len() != 6 * characters + 3 {
        return false;
    }
    if !show_codes(bars.ends, bars.widths, characters) {
        return false;
    }
    has_light(bars, 0, 6 * (characters - 1), 6, 22, 5, true)
}

/// Whether they show Code 128 with as many characters as the widths have room for.
fn shows_any_code(bars: &Bars) -> bool
    ensures { IsTrue result → ShowsAnyCode bars.now.values.now bars.now.from bars.now.to bars.now.step bars.now.turns.now bars.now.ends.now bars.now.widths.now }
{
    let characters = (bars.widths.len() / 6).min(100);
    shows_code(bars, characters)
}

/// Whether they show ITF-14.
fn shows_itf(bars: &Bars) -> bool
    ensures { IsTrue result → ShowsItf bars.now.values.now bars.now.from bars.now.to bars.now.step bars.now.turns.now bars.now.ends.now bars.now.widths.now }
{
    if bars.widths.len() != 79 {
        return false;
    }
    if !show_fives(bars.ends, bars.widths, 0) {
        return false;
    }
    if !show_fives(bars.ends, bars.widths, 1) {
        return false;
    }
    has_light(bars, 4, 64, 10, 34, 5, true)
}

/// Whether each character of the widths is closer to its own pattern than to any other of its alphabet, and there is
/// light beside the bars.
fn shows_symbol(bars: &Bars) -> bool
    ensures { IsTrue result → ShowsWidths bars.now.values.now bars.now.from bars.now.to bars.now.step bars.now.turns.now bars.now.ends.now bars.now.widths.now }
{
    if shows_ean(bars, 6, 5, true) {
        return true;
    }
    if shows_ean(bars, 4, 9, false) {
        return true;
    }
    if shows_upce(bars) {
        return true;
    }
    if shows_any_code(bars) {
        return true;
    }
    shows_itf(bars)
}

/// Whether samples show the bars of the symbol with these widths: each end lies between a dark and a light extreme
/// that are next to each other.
pub fn shows_bars(bars: &Bars) -> bool
    ensures { IsTrue result → ShowsBars bars.now.values.now bars.now.from bars.now.to bars.now.step bars.now.turns.now bars.now.ends.now bars.now.widths.now }
{
    let count = bars.ends.len();
    if count >= 1_048_576 || count + 1 != bars.widths.len() {
        return false;
    }
    if !show_ends(bars.values, bars.step, bars.turns, bars.ends) {
        return false;
    }
    shows_symbol(bars)
}
