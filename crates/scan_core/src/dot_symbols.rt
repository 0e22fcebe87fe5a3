//! Finds every symbol of a row of packed dots without memory.
ghost use Rattle.std.specs.Prelude.{◌≡◌, ◌≤◌, ◌+◌, ◌*◌, ◌%◌, IfNone, IfSome, length, true};
ghost use Rattle.scan_core.specs.Bits.{dots_at};
ghost use Rattle.scan_core.specs.Row.{IsRow, dots_of};
ghost use Rattle.scan_core.specs.Windows.{IsLeft, IsNextWindow, IsOver, IsSymbolOf, search_after, search_of};
ghost use Rattle.scan_core.specs.DotRuns.{runs_of_dots};
ghost use Rattle.scan_core.specs.inner.Parts.{IsPart, shifted};

use crate::dots::{FirstRuns, first_runs};
use crate::rounding::total_dots;
use crate::search::SymbolSearch;
use crate::symbols::{Rest, next_window};
use crate::window::Window;
use element_core::Year;
use std::marker::Model;

/// A symbol that begins at or before this run of a part ends in the part.
const LAST_FIRST: usize = 598;

/// The light run after it. The next part begins with it.
const STEP: usize = 600;

/// A part of a row: its first runs from one on.
#[derive(Drop)]
struct Section {
    /// How many runs of the row come before it, an even number.
    before: usize,
    /// How many dots of the row come before it.
    at: usize,
    runs: FirstRuns,
}

impl Section {
    /// Moves on to the part that begins 600 runs further right.
    fn go_on(&mut self, bits: &[u8], width: usize)
        requires enough { width ≤ 8 * length bits.now }
        requires few { width ≤ 65535 }
        requires part { IsPart (dots_at bits.now 0 width) self.old }
        requires more { self.old.runs.more ≡ true }
        ensures part { IsPart (dots_at bits.now 0 width) self.new }
        ensures before { self.new.before ≡ self.old.before + 600 }
    {
        self.at += total_dots(&self.runs.widths.as_slice()[..STEP]) as usize;
        self.before += STEP;
        self.runs = first_runs(bits, self.at, width - self.at);
    }
}

/// The next symbol of a part, if it begins so early that no symbol before it ends behind the part.
fn next_early(runs: &FirstRuns, first: usize, least: usize, year: Year) -> Option<Window>
    requires row { IsRow runs.now.widths.items }
    requires light { first % 2 ≡ 0 }
    ensures next { IfSome result (λ w. IsNextWindow (record { runs = runs.now.widths.items; year = year; first = first; least = least }) w) }
    ensures early { IfSome result (λ w. w.first ≤ 598) }
    ensures none { IfNone result ((v : Window) → IsSymbolOf runs.now.widths.items year v
        → IsLeft (record { runs = runs.now.widths.items; year = year; first = first; least = least }) v → v.first ≤ 598 → ⊥) }
{
    let window = next_window(runs.widths.as_slice(), &mut Rest { first, least }, year)?;
    if window.first <= LAST_FIRST {
        Some(window)
    } else {
        None
    }
}

/// The next symbol in a part that begins after this run, or at it with at least this many runs; or else in the parts
/// behind it.
fn next_in_parts(
    bits: &[u8],
    width: usize,
    year: Year,
    part: &mut Section,
    first: usize,
    least: usize,
) -> Option<Window>
    requires enough { width ≤ 8 * length bits.now }
    requires few { width ≤ 65535 }
    requires part { IsPart (dots_at bits.now 0 width) part.old }
    requires light { first % 2 ≡ 0 }
    requires early { part.old.runs.more ≡ true → first ≤ 598 }
    ensures part { IsPart (dots_at bits.now 0 width) part.new }
    ensures behind { part.old.before ≤ part.new.before }
    ensures light { IfSome result (λ w. w.first % 2 ≡ 0) }
    ensures early { part.new.runs.more ≡ true → IfSome result (λ w. w.first ≤ 598) }
    ensures last { part.new.runs.more ≡ true → IfNone result ⊥ }
    ensures next { IfSome result (λ w. IsNextWindow (record { runs = runs_of_dots (dots_at bits.now 0 width); year = year; first = part.old.before + first; least = least })
        (shifted part.new.before w)) }
    ensures over { IfNone result (IsOver (record { runs = runs_of_dots (dots_at bits.now 0 width); year = year; first = part.old.before + first; least = least })) }
{
    let mut first = first;
    let mut least = least;
    'parts: while part.runs.more {
        if let Some(window) = next_early(&part.runs, first, least, year) {
            return Some(window);
        }
        part.go_on(bits, width);
        first = 0;
        least = 0;
    }
    next_window(
        part.runs.widths.as_slice(),
        &mut Rest { first, least },
        year,
    )
}

/// Searches a row of packed dots for its symbols, from left to right. It takes no memory: of the row, which may have
/// 65,537 runs, it keeps only a part.
#[derive(Drop)]
pub struct DotSymbols<'a> {
    bits: &'a [u8],
    width: u16,
    year: Year,
    part: Section,
    /// The search has passed all windows that begin before this run of the part.
    first: usize,
    /// It has also passed those that begin at this run and have fewer runs.
    least: usize,
}

impl<'a> Model for DotSymbols<'a> {
    ghost use Rattle.scan_core.specs.Windows.{Search};

    ghost Value = { Search };

    ghost use Rattle.scan_core.specs.Searches.{search_in_dots};
    ghost use Rattle.scan_core.specs.inner.Parts.{IsDotSearch};

    ghost view = { search_in_dots };

    ghost invariant = { IsDotSearch };
}

impl<'a> DotSymbols<'a> {
    /// Searches the row of `width` dots of packed bytes. The first dot of a byte is its high bit; 1 is dark.
    pub fn of_dots(bits: &'a [u8], width: u16, year: Year) -> DotSymbols<'a>
        requires { width ≤ 8 * length bits.now }
        ensures all { result ≡ search_of result.runs year }
        ensures row { IsRow result.runs }
        ensures few { length result.runs ≤ 65537 }
        ensures dots { dots_of result.runs ≡ dots_at bits.now 0 width }
    {
        DotSymbols {
            bits,
            width,
            year,
            part: Section {
                before: 0,
                at: 0,
                runs: first_runs(bits, 0, usize::from(width)),
            },
            first: 0,
            least: 0,
        }
    }
}

impl<'a> SymbolSearch for DotSymbols<'a> {
    ghost rest = { λ s. s };

    fn next_symbol(&mut self) -> Option<Window> {
        let mut found = next_in_parts(
            self.bits,
            usize::from(self.width),
            self.year,
            &mut self.part,
            self.first,
            self.least,
        );
        if let Some(window) = &mut found {
            self.first = window.first;
            self.least = window.count + 1;
            window.first += self.part.before;
        }
        found
    }
}
