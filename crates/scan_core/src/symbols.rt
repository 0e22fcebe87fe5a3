//! Finds every symbol of a row.
ghost use Rattle.std.specs.Prelude.{None, ◌≡◌, ◌⊎◌, ◌<◌, ◌+◌, ◌*◌, ◌%◌, ◌≤◌, ◌↔◌, IfErr, IfNone, IfOk, IfSome, IsTrue, OnOk, ℕ, false, length, slice_index, true};
ghost use Rattle.scan_core.specs.Row.{IsRow, runs_fault};
ghost use Rattle.scan_core.specs.Showing.{HasSize, kind_of};
ghost use Rattle.scan_core.specs.inner.Searches.{AreNoneShorter, HasRun, IsNextPlace, MayEnd};
ghost use Rattle.scan_core.specs.Windows.{IsNextWindow, IsOver, IsSymbolOf, search_after, search_of};
ghost use Rattle.element_core.specs.Terms.{Terms};

use crate::answer::{Answer, found_in};
use crate::carrier::{Carrier, fixed_candidate, gs1128_candidate};
use crate::fault::RunFault;
use crate::laws::one_answer;
use crate::runs::runs_fault;
use crate::search::SymbolSearch;
use crate::window::Window;
use element_core::Year;
use std::marker::Model;

/// The shortest window has this many runs.
const LEAST_RUNS: usize = 27;

/// It has this many pairs of runs after its first run, not counting the last pair.
const LEAST_PAIRS: usize = 12;

/// The longest window has this many pairs of runs after its first run.
const MOST_PAIRS: usize = 298;

/// The part of a row that is left to search.
#[derive(Clone, Copy)]
pub(crate) struct Rest {
    /// The search has passed all windows that begin before this run.
    pub(crate) first: usize,
    /// It has also passed those that begin at this run and have fewer runs.
    pub(crate) least: usize,
}

/// Searches a row for its symbols, from left to right.
#[derive(Drop)]
pub struct Symbols<'a> {
    widths: &'a [u16],
    year: Year,
    rest: Rest,
}

impl<'a> Model for Symbols<'a> {
    ghost use Rattle.scan_core.specs.Windows.{Search};

    ghost Value = { Search };

    ghost use Rattle.scan_core.specs.Searches.{search_in};
    ghost use Rattle.scan_core.specs.inner.Searches.{IsSearch};

    ghost view = { search_in };

    ghost invariant = { IsSearch };
}

/// Where a window is.
#[derive(Clone, Copy)]
struct Span {
    first: usize,
    count: usize,
}

/// Whether a carrier has symbols of this many runs. It is not inlined into the loop: few windows get this far, and it
/// divides.
#[inline(never)]
fn is_symbol_count(run_count: usize) -> bool
    ensures { result ≡ false → (c : Carrier) (N : ℕ) → HasSize (kind_of c) run_count N → ⊥ }
{
    match (fixed_candidate(run_count), gs1128_candidate(run_count)) {
        (None, None) => false,
        _ => true,
    }
}

/// The width of the widest run, or 0 if there is none.
fn widest_of(widths: &[u16]) -> u16
    ensures reached { (result ≡ 0) ⊎ ((i : ℕ) × (i < length widths.now) × (slice_index widths.now i ≡ result)) }
    ensures widest { (i : ℕ) → i < length widths.now → slice_index widths.now i ≤ result }
{
    let mut widest = 0;
    'runs: for i in 0..widths.len() {
        widest = widths[i].max(widest);
    }
    widest
}

/// Whether no run is wider than this.
fn none_wider(widths: &[u16], widest: u16) -> bool
    ensures { result ≡ true → (i : ℕ) → i < length widths.now → slice_index widths.now i ≤ widest }
{
    // The loop goes through all runs, since one without an early exit checks many at once.
    let mut none = true;
    'runs: for i in 0..widths.len() {
        none &= widths[i] <= widest;
    }
    none
}

/// Whether a light run can be the end of a symbol that has these dark and light runs next to it.
///
/// An end is at least five modules, the dark run at most two, and the light one exactly one, each to within a third
/// of a module.
fn may_end(end: u16, dark: u16, light: u16) -> bool
    ensures { IsTrue result ↔ MayEnd end dark light }
{
    15 * u32::from(light) <= 4 * u32::from(end) && 15 * u32::from(dark) <= 7 * u32::from(end)
}

/// Whether the window of this many runs from this one on can be a symbol, by its right end and the number of its
/// runs.
fn may_be_symbol(widths: &[u16], first: usize, count: usize) -> bool
    requires row { IsRow widths.now }
    requires many { 3 ≤ count }
    requires within { first + count ≤ length widths.now }
    ensures { result ≡ false → (year : Terms) (v : Window) → IsSymbolOf widths.now year v → v.first ≡ first → v.count ≡ count → ⊥ }
{
    let last = first + count - 1;
    may_end(widths[last], widths[last - 1], widths[last - 2]) && is_symbol_count(count - 2)
}

/// How many pairs of runs after the first run the search skips, eight at a time, because no light run from the
/// thirteenth pair on is wider than this.
fn pairs_passed(widths: &[u16], first: usize, pairs: usize, widest: u16) -> usize
    requires within { first + 2 * pairs + 1 ≤ length widths.now }
    ensures least { 12 ≤ result }
    ensures passed { (k : ℕ) → 12 ≤ k → k < result → slice_index widths.now (first + 2 * k + 2) ≤ widest }
{
    let mut passed = LEAST_PAIRS;
    'eights: while passed + 8 <= pairs {
        let next = first + 2 * passed + 1;
        if !none_wider(&widths[next..next + 16], widest) {
            return passed;
        }
        passed += 8;
    }
    passed
}

/// The number of runs of the first window that begins with this run, has at least this many runs and can be a symbol.
/// Shorter windows come first.
///
/// A window grows until one of its light runs is at least as wide as its light end: no longer one is read. It can be
/// a symbol if its other end is wider than those before it and than the first dark ones. It is not inlined into the
/// loop, since few runs can be light ends.
#[inline(never)]
fn count_from(widths: &[u16], first: usize, least: usize) -> Option<usize>
    requires row { IsRow widths.now }
    requires light { first % 2 ≡ 0 }
    requires within { first + 27 ≤ length widths.now }
    ensures odd { IfSome result (λ count. count % 2 ≡ 1) }
    ensures within { IfSome result (λ count. first + count ≤ length widths.now) }
    ensures least { IfSome result (λ count. least ≤ count) }
    ensures shortest { IfSome result (λ count. (year : Terms) → AreNoneShorter widths.now year first least count) }
    ensures none { IfNone result ((year : Terms) (v : Window) → IsSymbolOf widths.now year v → v.first ≡ first → least ≤ v.count → ⊥) }
{
    let left = widths[first];
    if widths.len() - first < least {
        return None;
    }
    let pairs = ((widths.len() - first) / 2).min(MOST_PAIRS);
    // No window of fewer than 27 runs is read, so it looks at the first 24 runs between the ends together.
    let mut widest = widest_of(&widths[first + 1..first + 25]);
    if left <= widest {
        return None;
    }
    'pairs: for k in pairs_passed(widths, first, pairs, widest)..pairs {
        let right = widths[first + 2 * k + 2];
        if widest < right {
            if least <= 2 * k + 3 && may_be_symbol(widths, first, 2 * k + 3) {
                return Some(2 * k + 3);
            }
            if left <= right {
                return None;
            }
            widest = right;
        }
    }
    None
}

/// The first window that can be a symbol and begins after this run, or at it with at least this many runs.
fn next_place(widths: &[u16], first: usize, least: usize) -> Option<Span>
    requires row { IsRow widths.now }
    requires light { first % 2 ≡ 0 }
    ensures next { IfSome result (λ p. (year : Terms) → IsNextPlace (record { runs = widths.now; year = year; first = first; least = least }) p) }
    ensures over { IfNone result ((year : Terms) → IsOver (record { runs = widths.now; year = year; first = first; least = least })) }
{
    let last = widths.len().checked_sub(LEAST_RUNS)?;
    let mut start = first;
    let mut shortest = least;
    'runs: while start <= last {
        if may_end(widths[start], widths[start + 1], widths[start + 2]) {
            if let Some(count) = count_from(widths, start, shortest) {
                return Some(Span {
                    first: start,
                    count,
                });
            }
        }
        start += 2;
        shortest = 0;
    }
    None
}

/// The first symbol among this window and those after it. The search continues behind it.
///
/// It is called only if a window can be a symbol, so that a search that finds none does not pay for the room of an
/// answer.
#[inline(never)]
fn first_read(widths: &[u16], place: Span, year: Year, rest: &mut Rest) -> Option<Window>
    requires row { IsRow widths.now }
    requires begins_light { place.first % 2 ≡ 0 }
    requires ends_light { place.count % 2 ≡ 1 }
    requires within { place.first + place.count ≤ length widths.now }
    ensures next { IfSome result (λ w. IsNextWindow (record { runs = widths.now; year = year; first = place.first; least = place.count }) w) }
    ensures after { IfSome result (λ w. rest.new ≡ record { first = w.first; least = w.count + 1 }) }
    ensures over { IfNone result (IsOver (record { runs = widths.now; year = year; first = place.first; least = place.count })) }
    ensures unchanged { IfNone result (rest.new ≡ rest.old) }
{
    one_answer();
    let mut here = place;
    'places: loop {
        let Span { first, count } = here;
        let found = found_in(&widths[first..first + count]);
        if let Answer::Read { carrier, elements } = found.answer(year) {
            *rest = Rest {
                first,
                least: count + 1,
            };
            return Some(Window {
                first,
                count,
                elements,
                carrier,
            });
        }
        let Some(next) = next_place(widths, first, count + 1) else {
            return None;
        };
        here = next;
    }
}

/// The next symbol in the part that is left. The search continues behind it.
pub(crate) fn next_window(widths: &[u16], rest: &mut Rest, year: Year) -> Option<Window>
    requires row { IsRow widths.now }
    requires light { rest.old.first % 2 ≡ 0 }
    ensures next { IfSome result (λ w. IsNextWindow (record { runs = widths.now; year = year; first = rest.old.first; least = rest.old.least }) w) }
    ensures after { IfSome result (λ w. rest.new ≡ record { first = w.first; least = w.count + 1 }) }
    ensures over { IfNone result (IsOver (record { runs = widths.now; year = year; first = rest.old.first; least = rest.old.least })) }
    ensures unchanged { IfNone result (rest.new ≡ rest.old) }
{
    let Some(place) = next_place(widths, rest.first, rest.least) else {
        return None;
    };
    first_read(widths, place, year, rest)
}

impl<'a> Symbols<'a> {
    /// Searches the row of these widths, or says why they are no row.
    pub fn of_widths(widths: &'a [u16], year: Year) -> Result<Symbols<'a>, RunFault>
        ensures ok { IfOk result (λ s. s ≡ search_of widths.now year) }
        ensures taken { OnOk result (runs_fault widths.now ≡ None) }
        ensures few { OnOk result (length widths.now ≤ 65537) }
        ensures refused { IfErr result (λ fault. runs_fault widths.now ≡ Some fault) }
    {
        if let Some(fault) = runs_fault(widths) {
            return Err(fault);
        }
        Ok(Symbols {
            widths,
            year,
            rest: Rest { first: 0, least: 0 },
        })
    }
}

impl<'a> SymbolSearch for Symbols<'a> {
    ghost rest = { λ s. s };

    fn next_symbol(&mut self) -> Option<Window>
        ensures next { IfSome result (λ w. IsNextWindow self.old w) }
        ensures after { IfSome result (λ w. self.new ≡ search_after self.old w) }
        ensures over { IfNone result (IsOver self.old) }
        ensures stays { IfNone result (IsOver self.new) }
        ensures same { IfNone result (self.new.runs ≡ self.old.runs) }
        ensures unchanged { IfNone result (self.new ≡ self.old) }
    {
        next_window(self.widths, &mut self.rest, self.year)
    }
}
