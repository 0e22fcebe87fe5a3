//! Whether there is light beside the bars of a symbol.
ghost use Rattle.std.specs.Prelude.{◌≡◌, ◌+◌, ◌-◌, ◌*◌, ◌<◌, ◌≤◌, ◌^◌, ℕ, IfSome, IsTrue, length};
ghost use Rattle.line_core.specs.Ends.{at};
ghost use Rattle.line_core.specs.Lights.{HasLight, IsFarBefore, IsFarBehind, IsLightBefore, IsLightBehind, both_at, width_of};

use crate::symbols::Bars;

/// How much light must be there: `quiet` half modules, if a character of `halves` half modules has this width; the
/// sum of a light extreme and the dark one beside it; the distance of samples; whether the edge of the picture counts
/// as light; and which samples are in the picture.
#[derive(Clone, Copy)]
pub(crate) struct Light {
    step: u16,
    both: u64,
    width: u32,
    halves: u16,
    quiet: u16,
    edge: bool,
    from: usize,
    to: usize,
}

/// A place, times a number.
fn times(halves: u16, place: u64) -> u64
    requires { place < 2 ^ 40 }
    ensures value { result ≡ halves * place }
    ensures few { result < 2 ^ 56 }
{
    u64::from(halves) * place
}

/// The place of a sample.
fn place_of(step: u16, sample: usize) -> u64
    requires { sample < 2 ^ 20 }
    ensures value { result ≡ step * sample }
    ensures few { result < 2 ^ 40 }
{
    u64::from(step) * sample as u64
}

/// Whether a sample is light, if it is half a module or more before an end.
fn is_light_before(values: &[u32], light: Light, end: u32, sample: usize) -> bool
    requires within { sample < length values.now }
    requires few { length values.now < 2 ^ 20 }
    ensures { IsTrue result → light.halves * (light.step * sample) + light.width ≤ light.halves * end → light.both ≤ 2 * at values.now sample }
{
    let here = times(light.halves, place_of(light.step, sample));
    let last = times(light.halves, u64::from(end));
    here + u64::from(light.width) > last || light.both <= 2 * u64::from(values[sample])
}

/// Whether a sample is this far before an end, or the first of the picture if that is enough.
fn is_far_before(light: Light, end: u32, sample: usize) -> bool
    requires { sample < 2 ^ 20 }
    ensures { IsTrue result → IsFarBefore light.step end light.width light.halves light.quiet light.edge light.from sample }
{
    let wide = times(light.quiet, u64::from(light.width));
    let here = times(light.halves, place_of(light.step, sample)) + wide;
    let last = times(light.halves, u64::from(end));
    if here <= last {
        return true;
    }
    if light.from == 0 || sample != light.from {
        return false;
    }
    light.edge || here <= last + times(light.halves, 256)
}

/// Whether a sample is this far behind an end, or the last of the picture if that is enough.
fn is_far_behind(light: Light, samples: usize, end: u32, sample: usize) -> bool
    requires { sample < 2 ^ 20 }
    ensures { IsTrue result → IsFarBehind light.step end light.width light.halves light.quiet light.edge light.to samples sample }
{
    let wide = times(light.quiet, u64::from(light.width));
    let here = times(light.halves, place_of(light.step, sample));
    let last = times(light.halves, u64::from(end)) + wide;
    if last <= here {
        return true;
    }
    if light.to >= samples || sample + 1 != light.to {
        return false;
    }
    light.edge || last <= here + times(light.halves, 256)
}

/// Whether all samples from one on are light, up to half a module before an end.
fn are_light_before(values: &[u32], light: Light, end: u32, first: usize) -> bool
    requires { length values.now < 2 ^ 20 }
    ensures { IsTrue result → (i : ℕ) → first ≤ i → i < length values.now
        → light.halves * (light.step * i) + light.width ≤ light.halves * end → light.both ≤ 2 * at values.now i }
{
    'samples: for sample in first..values.len() {
        if !is_light_before(values, light, end, sample) {
            return false;
        }
    }
    true
}

/// Whether there is light before an end from a sample on.
fn has_light_from(values: &[u32], light: Light, end: u32, sample: usize) -> bool
    requires { length values.now < 2 ^ 20 }
    ensures { IsTrue result → IsLightBefore values.now light.step light.both end light.width light.halves light.quiet light.edge light.from }
{
    if sample >= values.len() || sample < light.from {
        return false;
    }
    if !is_far_before(light, end, sample) {
        return false;
    }
    are_light_before(values, light, end, sample)
}

/// Whether there is light before an end.
fn has_light_before(values: &[u32], light: Light, end: u32) -> bool
    ensures { IsTrue result → IsLightBefore values.now light.step light.both end light.width light.halves light.quiet light.edge light.from }
{
    if values.len() >= 1_048_576 {
        return false;
    }
    let wide = times(light.quiet, u64::from(light.width));
    let all = times(light.halves, u64::from(end));
    let unit = u64::from(light.halves) * u64::from(light.step);
    let first = all.saturating_sub(wide).checked_div(unit).unwrap_or(0);
    has_light_from(
        values,
        light,
        end,
        (first.min(1_048_576) as usize).max(light.from),
    )
}

/// Whether a sample is light, if it is half a module or more behind an end.
fn is_light_behind(values: &[u32], light: Light, end: u32, sample: usize) -> bool
    requires within { sample < length values.now }
    requires few { length values.now < 2 ^ 20 }
    ensures { IsTrue result → light.halves * end + light.width ≤ light.halves * (light.step * sample) → light.both ≤ 2 * at values.now sample }
{
    let here = times(light.halves, place_of(light.step, sample));
    let last = times(light.halves, u64::from(end));
    last + u64::from(light.width) > here || light.both <= 2 * u64::from(values[sample])
}

/// Whether all samples up to one are light, from half a module behind an end on.
fn are_light_behind(values: &[u32], light: Light, end: u32, last: usize) -> bool
    requires few { length values.now < 2 ^ 20 }
    requires within { last < length values.now }
    ensures { IsTrue result → (i : ℕ) → i ≤ last
        → light.halves * end + light.width ≤ light.halves * (light.step * i) → light.both ≤ 2 * at values.now i }
{
    'samples: for sample in 0..last + 1 {
        if !is_light_behind(values, light, end, sample) {
            return false;
        }
    }
    true
}

/// Whether there is light behind an end up to a sample.
fn has_light_to(values: &[u32], light: Light, end: u32, sample: usize) -> bool
    requires { length values.now < 2 ^ 20 }
    ensures { IsTrue result → IsLightBehind values.now light.step light.both end light.width light.halves light.quiet light.edge light.to }
{
    if sample >= values.len() || sample >= light.to {
        return false;
    }
    if !is_far_behind(light, values.len(), end, sample) {
        return false;
    }
    are_light_behind(values, light, end, sample)
}

/// Whether there is light behind an end.
fn has_light_behind(values: &[u32], light: Light, end: u32) -> bool
    ensures { IsTrue result → IsLightBehind values.now light.step light.both end light.width light.halves light.quiet light.edge light.to }
{
    if values.len() >= 1_048_576 {
        return false;
    }
    let wide = times(light.quiet, u64::from(light.width));
    let all = times(light.halves, u64::from(end));
    let unit = u64::from(light.halves) * u64::from(light.step);
    let last = (all + wide)
        .checked_div(unit)
        .unwrap_or(0)
        .saturating_add(1);
    has_light_to(
        values,
        light,
        end,
        (last.min(1_048_576) as usize).min(light.to.saturating_sub(1)),
    )
}

/// The sum of a dark and a light extreme that are next to each other.
fn both_at(values: &[u32], turns: &[u32], number: usize) -> Option<u64>
    requires { number < 2 ^ 40 }
    ensures { IfSome result (λ both. both ≡ both_at values.now turns.now number) }
{
    if number + 1 >= turns.len() {
        return None;
    }
    let one = turns[number] as usize;
    let other = turns[number + 1] as usize;
    if one >= values.len() || other >= values.len() {
        return None;
    }
    Some(u64::from(values[one]) + u64::from(values[other]))
}

/// The distance from an end over this many runs.
fn width_of(ends: &[u32], first: usize, runs: usize) -> Option<u32>
    requires first { first < 2 ^ 40 }
    requires runs { runs < 2 ^ 40 }
    ensures { IfSome result (λ width. width ≡ width_of ends.now first runs) }
{
    if first + runs >= ends.len() {
        return None;
    }
    Some(ends[first + runs].saturating_sub(ends[first]))
}

/// A character: the end at which it begins, its runs, and its half modules.
#[derive(Clone, Copy)]
pub(crate) struct Place {
    pub(crate) first: usize,
    pub(crate) runs: usize,
    pub(crate) halves: u16,
}

/// Whether there is this much light before the bars, by the first character.
fn has_light_at_left(bars: &Bars, character: Place, quiet: u16, edge: bool) -> bool
    requires first { character.first < 2 ^ 40 }
    requires runs { character.runs < 2 ^ 40 }
    ensures { IsTrue result → IsLightBefore bars.now.values.now bars.now.step (both_at bars.now.values.now bars.now.turns.now 0) (at bars.now.ends.now 0)
        (width_of bars.now.ends.now character.first character.runs) character.halves quiet edge bars.now.from }
{
    let Some(width) = width_of(bars.ends, character.first, character.runs) else {
        return false;
    };
    if bars.ends.len() == 0 {
        return false;
    }
    let Some(both) = both_at(bars.values, bars.turns, 0) else {
        return false;
    };
    let light = Light {
        step: bars.step,
        both,
        width,
        halves: character.halves,
        quiet,
        edge,
        from: bars.from,
        to: bars.to,
    };
    has_light_before(bars.values, light, bars.ends[0])
}

/// Whether there is this much light behind them, by the last character.
fn has_light_at_right(bars: &Bars, character: Place, quiet: u16, edge: bool) -> bool
    requires first { character.first < 2 ^ 40 }
    requires runs { character.runs < 2 ^ 40 }
    requires few { length bars.now.ends.now < 2 ^ 40 }
    ensures { IsTrue result → IsLightBehind bars.now.values.now bars.now.step
        (both_at bars.now.values.now bars.now.turns.now (length bars.now.ends.now - 1)) (at bars.now.ends.now (length bars.now.ends.now - 1))
        (width_of bars.now.ends.now character.first character.runs) character.halves quiet edge bars.now.to }
{
    let Some(width) = width_of(bars.ends, character.first, character.runs) else {
        return false;
    };
    if bars.ends.len() == 0 {
        return false;
    }
    let last = bars.ends.len() - 1;
    let Some(both) = both_at(bars.values, bars.turns, last) else {
        return false;
    };
    let light = Light {
        step: bars.step,
        both,
        width,
        halves: character.halves,
        quiet,
        edge,
        from: bars.from,
        to: bars.to,
    };
    has_light_behind(bars.values, light, bars.ends[last])
}

/// Whether there is this much light beside the bars, by characters that begin at these ends, with this many runs and
/// half modules.
pub(crate) fn has_light(
    bars: &Bars,
    first: usize,
    last: usize,
    runs: usize,
    halves: u16,
    quiet: u16,
    edge: bool,
) -> bool
    requires first { first < 2 ^ 40 }
    requires last { last < 2 ^ 40 }
    requires runs { runs < 2 ^ 40 }
    ensures { IsTrue result → HasLight bars.now.values.now bars.now.from bars.now.to bars.now.step bars.now.turns.now bars.now.ends.now first last runs
        halves quiet edge }
{
    if bars.ends.len() >= 1_048_576 {
        return false;
    }
    let left = Place {
        first,
        runs,
        halves,
    };
    let right = Place {
        first: last,
        runs,
        halves,
    };
    has_light_at_left(bars, left, quiet, edge) && has_light_at_right(bars, right, quiet, edge)
}
