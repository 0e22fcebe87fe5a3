//! Whether each end lies between two extremes that are next to each other.
ghost use Rattle.std.specs.Prelude.{◌≡◌, ◌+◌, ◌-◌, ◌*◌, ◌<◌, ◌≤◌, ◌^◌, ℕ, IsTrue, length};
ghost use Rattle.line_core.specs.Ends.{IsEnd, IsEndOf, IsFall, IsRise, ShowsEnds, at};

/// The least difference of two extremes, in 1/256 grey value.
const LEAST: u32 = 768;

/// Whether the values go from a light extreme to a dark one.
fn falls(values: &[u32], from: usize, to: usize) -> bool
    ensures { IsTrue result → IsFall values.now from to }
{
    if to >= values.len() || from >= to {
        return false;
    }
    let high = values[from];
    let low = values[to];
    let Some(all) = high.checked_sub(low) else {
        return false;
    };
    if all < LEAST {
        return false;
    }
    let mut lowest = high;
    'samples: for sample in from..to + 1 {
        let here = values[sample];
        if here > high || here < low || here.saturating_sub(lowest) > all / 2 {
            return false;
        }
        lowest = lowest.min(here);
    }
    true
}

/// Whether the values go from a dark extreme to a light one.
fn rises(values: &[u32], from: usize, to: usize) -> bool
    ensures { IsTrue result → IsRise values.now from to }
{
    if to >= values.len() || from >= to {
        return false;
    }
    let low = values[from];
    let high = values[to];
    let Some(all) = high.checked_sub(low) else {
        return false;
    };
    if all < LEAST {
        return false;
    }
    let mut highest = low;
    'samples: for sample in from..to + 1 {
        let here = values[sample];
        if here > high || here < low || highest.saturating_sub(here) > all / 2 {
            return false;
        }
        highest = highest.max(here);
    }
    true
}

/// `step` times the value at `part` of `step` parts on a straight line from one value to the next.
fn way(before: u32, behind: u32, step: u32, part: u32) -> u64
    requires step { step ≤ 65535 }
    requires part { part < step }
    ensures value { result ≡ (step - part) * before + part * behind }
    ensures few { result < 2 ^ 50 }
{
    u64::from(step - part) * u64::from(before) + u64::from(part) * u64::from(behind)
}

/// Whether an end lies between a dark and a light extreme.
fn is_end(values: &[u32], step: u16, from: usize, to: usize, low: u32, high: u32, end: u32) -> bool
    requires { to < length values.now }
    ensures { IsTrue result → IsEnd values.now step from to low high end }
{
    let step = u32::from(step);
    if step == 0 {
        return false;
    }
    let sample = (end / step) as usize;
    let part = end % step;
    if sample < from || sample >= to {
        return false;
    }
    let here = 5 * way(values[sample], values[sample + 1], step, part);
    let low = u64::from(low);
    let high = u64::from(high);
    u64::from(step) * (4 * low + high) <= here && here <= u64::from(step) * (low + 4 * high)
}

/// Whether an end lies between two extremes, and is where a row goes to dark if its number is even.
fn is_end_of(values: &[u32], step: u16, from: usize, to: usize, end: u32, number: usize) -> bool
    ensures { IsTrue result → IsEndOf values.now step from to end number }
{
    if to >= values.len() || from >= to {
        return false;
    }
    if number % 2 == 0 {
        falls(values, from, to) && is_end(values, step, from, to, values[to], values[from], end)
    } else {
        rises(values, from, to) && is_end(values, step, from, to, values[from], values[to], end)
    }
}

/// Whether the values turn at these samples, and each end lies between two of them that are next to each other.
pub(crate) fn show_ends(values: &[u32], step: u16, turns: &[u32], ends: &[u32]) -> bool
    ensures { IsTrue result → ShowsEnds values.now step turns.now ends.now }
{
    if turns.len() != ends.len() + 1 {
        return false;
    }
    'ends: for number in 0..ends.len() {
        let from = turns[number] as usize;
        let to = turns[number + 1] as usize;
        if !is_end_of(values, step, from, to, ends[number], number) {
            return false;
        }
    }
    true
}
