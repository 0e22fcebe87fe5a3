//! Checks the symbol of a drawn label: its bars, and what else is in its zone.
ghost use Rattle.std.specs.Prelude.{◌≡◌, ◌↔◌, ◌<◌, ◌≤◌, ◌*◌, ◌/◌, IsTrue, ℕ, length, slice_index_or, sum};
ghost use Rattle.std.specs.List.{list_any};
ghost use Rattle.ean_code.specs.Widths.{AreModules};
ghost use Rattle.shop_core.specs.Drawings.{AreBars, AreOthers, IsBar, bar_count, bears_above, bears_below, keeps_bearers};

use crate::part::{Part, Zone};

/// How many modules widths are.
pub(crate) fn module_sum(modules: &[u8]) -> u64
    requires { AreModules modules.now }
    ensures total { result ≡ sum modules.now }
    ensures few { result ≤ 255 * 595 }
{
    let mut total = 0u64;
    for width in modules {
        total += u64::from(*width);
    }
    total
}

/// Whether the part of a run of a symbol is a bar in these columns, if the run is dark.
fn is_bar_at(parts: &[Part], run: usize, zone: &Zone, left: u64, width: u64) -> bool
    requires { run / 2 < length parts.now }
    ensures { IsTrue result ↔ ((j : ℕ) (p : Part) → 2 * j ≡ run → IsBar zone.now left width (slice_index_or parts.now j p)) }
{
    if run % 2 == 1 {
        return true;
    }
    parts[run / 2].is_bar(zone, left, width)
}

/// Whether the first parts are the bars of these modules, with this many dots per module.
pub(crate) fn are_bars(parts: &[Part], modules: &[u8], zone: &Zone, dots: u16) -> bool
    requires modules { AreModules modules.now }
    requires enough { bar_count modules.now ≤ length parts.now }
    ensures { IsTrue result ↔ AreBars zone.now dots modules.now parts.now }
{
    let mut at = u64::from(zone.from);
    'modules: for k in 0..modules.len() {
        let width = u64::from(dots) * u64::from(modules[k]);
        if !is_bar_at(parts, k, zone, at, width) {
            return false;
        }
        at += width;
    }
    true
}

/// Whether each part from this one on is outside a zone, and is letters or a bearer that is wanted.
pub(crate) fn are_others(parts: &[Part], bearers: bool, zone: &Zone, first: usize) -> bool
    ensures { IsTrue result ↔ AreOthers bearers zone.now first parts.now }
{
    'parts: for k in first..parts.len() {
        if !parts[k].is_other(bearers, zone) {
            return false;
        }
    }
    true
}

/// Whether a bearer is directly above a zone.
fn is_borne_above(parts: &[Part], zone: &Zone) -> bool
    ensures { result ≡ list_any (bears_above zone.now) parts.now }
{
    for part in parts {
        if part.bears_above(zone) {
            return true;
        }
    }
    false
}

/// Whether a bearer is directly below a zone.
fn is_borne_below(parts: &[Part], zone: &Zone) -> bool
    ensures { result ≡ list_any (bears_below zone.now) parts.now }
{
    for part in parts {
        if part.bears_below(zone) {
            return true;
        }
    }
    false
}

/// Whether there is a bearer above a zone and one below it, if they are wanted.
pub(crate) fn keep_bearers(parts: &[Part], wanted: bool, zone: &Zone) -> bool
    ensures { result ≡ keeps_bearers wanted zone.now parts.now }
{
    !wanted || (is_borne_above(parts, zone) && is_borne_below(parts, zone))
}
