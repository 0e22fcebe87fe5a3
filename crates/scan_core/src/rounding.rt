//! Rounds widths in dots to modules.
ghost use Rattle.std.specs.Prelude.{◌≡◌, ◌+◌, ◌*◌, ◌<◌, ◌≤◌, ◌↔◌, ◌^◌, ◌%◌, IsTrue, ℕ, List, false, length, sum, true};
ghost use Rattle.std.specs.List.{AllZip};
ghost use Rattle.ean_code.specs.Widths.{AreModules};
ghost use Rattle.scan_core.specs.inner.Limits.{AreLimits, IsLeast, IsPast};
ghost use Rattle.scan_core.specs.Row.{inner};
ghost use Rattle.scan_core.specs.Showing.{IsQuiet, IsRun, Rounds};

use crate::small_runs::round_small;

/// The runs of the longest symbol.
pub(crate) const MOST_RUNS: usize = 595;

/// The number of dots of all runs.
pub(crate) fn total_dots(widths: &[u16]) -> u32
    requires { sum widths.now < 2 ^ 32 }
    ensures { result ≡ sum widths.now }
{
    widths.iter().map(|width| u32::from(*width)).sum()
}

/// Whether both light ends are at least five modules wide, if the runs between them are `total`
/// dots and `count` modules.
pub(crate) fn is_quiet(widths: &[u16], total: u32, count: u16) -> bool
    requires some { 0 < length widths.now }
    requires sum { total ≡ sum (inner widths.now) }
    ensures { IsTrue result ↔ IsQuiet widths.now count }
{
    let least = 5 * u64::from(total);
    let left = u64::from(widths[0]) * u64::from(count);
    let right = u64::from(widths[widths.len() - 1]) * u64::from(count);
    least <= left && least <= right
}

/// The widths in dots at which the number of modules of a run changes.
///
/// From each of the first four limits on, a run is near 1, 2, 3 or 4 modules, or wider. From each of the others on,
/// it is past them.
#[derive(Clone, Copy)]
pub(crate) struct Limits {
    pub(crate) one: u16,
    pub(crate) two: u16,
    pub(crate) three: u16,
    pub(crate) four: u16,
    pub(crate) past_one: u16,
    pub(crate) past_two: u16,
    pub(crate) past_three: u16,
    pub(crate) past_four: u16,
}

/// The least width in dots that is at least this many thirds of a module, if `total` dots are `count` modules.
fn least_width(thirds: u32, total: u32, count: u32) -> u16
    requires thirds { thirds ≤ 13 }
    requires narrow { total ≤ 65535 }
    requires short { count ≤ 1091 }
    requires long { 5 ≤ count }
    ensures { IsLeast count total thirds result }
{
    ((thirds * total + (3 * count - 1)) / (3 * count)) as u16
}

/// The least width in dots that is more than this many thirds of a module, if `total` dots are `count` modules.
fn width_past(thirds: u32, total: u32, count: u32) -> u16
    requires thirds { thirds ≤ 13 }
    requires narrow { total ≤ 65535 }
    requires short { count ≤ 1091 }
    requires long { 5 ≤ count }
    ensures { IsPast count total thirds result }
{
    (thirds * total / (3 * count) + 1) as u16
}

/// The limits if `total` dots are `count` modules: `count` is at most 1,091, the modules of the longest symbol.
fn limits_of(total: u16, count: u16) -> Limits
    requires short { count ≤ 1091 }
    requires long { 5 ≤ count }
    ensures { AreLimits count total result.one result.two result.three result.four
        result.past_one result.past_two result.past_three result.past_four }
{
    let total = u32::from(total);
    let count = u32::from(count);
    Limits {
        one: least_width(2, total, count),
        two: least_width(5, total, count),
        three: least_width(8, total, count),
        four: least_width(11, total, count),
        past_one: width_past(4, total, count),
        past_two: width_past(7, total, count),
        past_three: width_past(10, total, count),
        past_four: width_past(13, total, count),
    }
}

/// 1 if the width reaches the limit, else 0.
fn reaches(width: u16, limit: u16) -> u16
    ensures reached { limit ≤ width → result ≡ 1 }
    ensures below { width < limit → result ≡ 0 }
    ensures most { result ≤ 1 }
{
    u16::from(limit <= width)
}

/// The number of modules that is nearest to a run of `width` dots, and whether it is near enough.
///
/// It is near enough if the run reaches as many limits above 1 module as it is past.
fn modules_of(width: u16, limits: Limits) -> (u8, bool)
    ensures found { (N W : ℕ) → 0 < W → AreLimits N W limits.one limits.two limits.three limits.four
        limits.past_one limits.past_two limits.past_three limits.past_four → result.1 ≡ true → IsRun N W width result.0 }
    ensures none { (N W : ℕ) → 0 < W → AreLimits N W limits.one limits.two limits.three limits.four
        limits.past_one limits.past_two limits.past_three limits.past_four → result.1 ≡ false → (m : ℕ) → IsRun N W width m → ⊥ }
{
    let reached = reaches(width, limits.two)
        + reaches(width, limits.three)
        + reaches(width, limits.four);
    let passed = reaches(width, limits.past_one)
        + reaches(width, limits.past_two)
        + reaches(width, limits.past_three)
        + reaches(width, limits.past_four);
    let is_near = (limits.one <= width) & (reached == passed);
    (1 + reached as u8, is_near)
}

/// Writes the number of modules of each run to `modules`. Returns whether each run has one.
///
/// It goes through all runs, since a loop without an early exit rounds many at once.
fn round_each(inner: &[u16], total: u16, count: u16, modules: &mut [u8]) -> bool
    requires places { length modules.old ≡ length inner.now }
    requires short { count ≤ 1091 }
    requires long { 5 ≤ count }
    requires dots { 0 < total }
    ensures places { length modules.new ≡ length inner.now }
    ensures found { result ≡ true → AllZip (IsRun count total) inner.now modules.new }
    ensures none { result ≡ false → (ms : List ℕ) → AllZip (IsRun count total) inner.now ms → ⊥ }
{
    let limits = limits_of(total, count);
    if limits.past_four <= 255 && inner.len() >= 16 {
        return round_small(inner, limits, modules);
    }
    let mut each = true;
    'runs: for i in 0..inner.len() {
        let (found, is_near) = modules_of(inner[i], limits);
        modules[i] = found;
        each &= is_near;
    }
    each
}

/// Writes the modules of a symbol's runs, which are `total` dots and `count` modules wide, to `modules`. Returns
/// whether each run has some.
pub(crate) fn round(inner: &[u16], total: u16, count: u16, modules: &mut [u8]) -> bool
    requires places { length modules.old ≡ length inner.now }
    requires few { length inner.now ≤ 595 }
    requires odd { length inner.now % 2 ≡ 1 }
    requires sum { total ≡ sum inner.now }
    requires short { count ≤ 1091 }
    requires long { 5 ≤ count }
    requires dots { 0 < total }
    ensures found { result ≡ true → Rounds inner.now count modules.new }
    ensures modules { result ≡ true → AreModules modules.new }
    ensures none { result ≡ false → (ms : List ℕ) → Rounds inner.now count ms → ⊥ }
{
    round_each(inner, total, count, modules)
}
