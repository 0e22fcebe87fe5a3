//! The samples of the lines of a symbol.
ghost use Rattle.std.specs.Prelude.{◌≡◌, ◌⊎◌, ◌+◌, ◌-◌, ◌*◌, ◌<◌, ◌≤◌, ◌^◌, ℕ, IfSome, IsTrue, OnSome, length, slice_index_or};
ghost use Rattle.picture_core.specs.Samples.{AreSamples, IsBeyondEdge, IsInPicture, IsSampleAt, cubic_at, sample_down, sample_right, samples_in, samples_sum};

use crate::picture::Picture;
use crate::seen_line::{Sampling, SeenLine};

/// Twice the middle of all values, in 1/256 grey value, which have 64 grey values more.
const BOTH: u32 = 98_304;

/// The sum of the values of the lines at a sample; none if one is not in the picture.
fn sum_at(picture: &Picture, line: &SeenLine, sample: u32) -> Option<u32>
    ensures sum { IfSome result (λ sum. sum ≡ samples_sum picture.now line.now sample line.now.lines) }
    ensures amid { OnSome result ((lower : ℕ) → lower < line.now.lines
        → IsInPicture picture.now (sample_right line.now sample lower) (sample_down line.now sample lower)) }
{
    let mut sum = 0u32;
    'lines: for lower in 0..u32::from(line.lines) {
        match picture.cubic_at(
            line.sample_right(sample, lower),
            line.sample_down(sample, lower),
        ) {
            Some(value) => sum += value,
            None => return None,
        }
    }
    Some(sum)
}

/// The mean of the lines at a sample, dark for light if they are so; none if one is not in the picture.
fn sample_at(picture: &Picture, line: &SeenLine, sample: u32) -> Option<u32>
    ensures { IfSome result (λ mean. IsSampleAt picture.now line.now sample mean) }
{
    if line.lines == 0 {
        return None;
    }
    let sum = sum_at(picture, line, sample)?;
    let mean = sum / u32::from(line.lines);
    if line.is_inverted {
        Some(BOTH.saturating_sub(mean))
    } else {
        Some(mean)
    }
}

/// Whether a value is the mean of the lines at a sample.
fn is_sample(picture: &Picture, line: &SeenLine, sample: u32, value: u32) -> bool
    ensures { IsTrue result → IsSampleAt picture.now line.now sample value }
{
    match sample_at(picture, line, sample) {
        Some(mean) => mean == value,
        None => false,
    }
}

/// So many samples of lines, of which those from one to before another are of the picture.
#[derive(Clone, Copy)]
pub(crate) struct Range {
    pub(crate) count: usize,
    pub(crate) from: usize,
    pub(crate) to: usize,
}

/// Whether one of the lines is beyond the picture at a dot.
fn is_beyond(picture: &Picture, line: &SeenLine, dot: u32) -> bool
    ensures { IsTrue result → IsBeyondEdge picture.now line.now dot }
{
    'lines: for lower in 0..u32::from(line.lines) {
        if !picture.holds(line.right_at(dot, lower), line.down_at(dot, lower)) {
            return true;
        }
    }
    false
}

/// Whether some values are the means of the lines from the first sample on.
fn are_means(picture: &Picture, line: &SeenLine, from: usize, to: usize, values: &[u32]) -> bool
    ensures { IsTrue result → (sample : ℕ) → sample < to - from → IsSampleAt picture.now line.now sample (slice_index_or values.now (from + sample) 0) }
{
    if from > 1 || to > values.len() || to > MOST {
        return false;
    }
    'samples: for sample in 0..to.saturating_sub(from) {
        if !is_sample(picture, line, sample as u32, values[from + sample]) {
            return false;
        }
    }
    true
}

/// Whether samples may begin here: with the first, or before it beyond the edge.
fn may_begin(picture: &Picture, line: &SeenLine, from: usize) -> bool
    ensures { IsTrue result → (from ≡ 0) ⊎ ((from ≡ 1) × IsBeyondEdge picture.now line.now 4294967295) }
{
    if from == 0 {
        return true;
    }
    from == 1 && is_beyond(picture, line, u32::MAX)
}

/// Whether they may end here: with the last of the picture, or behind that of the line beyond the edge.
fn may_end(picture: &Picture, line: &SeenLine, last: usize, to: usize, count: usize) -> bool
    ensures { IsTrue result → (count ≡ to) ⊎ ((count ≡ to + 1) × (to ≡ last) × IsBeyondEdge picture.now line.now line.now.dots) }
{
    if count == to {
        return true;
    }
    if to > MOST || count != to + 1 || to != last {
        return false;
    }
    is_beyond(picture, line, line.dots)
}

/// Whether these are the means of the lines, and those of a range are of the picture.
pub(crate) fn are_samples(
    picture: &Picture,
    line: &SeenLine,
    from: usize,
    to: usize,
    values: &[u32],
) -> bool
    ensures { IsTrue result → AreSamples picture.now line.now from to values.now }
{
    if line.dots == 0 || from > 1 {
        return false;
    }
    let last = from + line.sampling.samples_in(line.dots);
    if to > last {
        return false;
    }
    if !may_begin(picture, line, from) {
        return false;
    }
    if !may_end(picture, line, last, to, values.len()) {
        return false;
    }
    are_means(picture, line, from, to, values)
}

/// The most samples of a line.
const MOST: usize = 65_535;

/// How far samples are apart one way, in 1/131072 dot, by how far dots are.
fn between(step: u32, sampling: Sampling) -> u64 {
    let half = i64::from(step.cast_signed());
    let step = match sampling {
        Sampling::Dots => 2 * half,
        Sampling::Halves => half,
    };
    step.cast_unsigned()
}

/// Adds the values of a line to as many sums, up to the first that is not in the picture; how many.
fn add_values(picture: &Picture, line: &SeenLine, lower: u32, sums: &mut [u32]) -> usize {
    let across = between(line.across, line.sampling);
    let down = between(line.down, line.sampling);
    let x = 2 * u64::from(line.right_at(0, lower));
    let y = 2 * u64::from(line.down_at(0, lower));
    picture.add_along(x, y, across, down, sums)
}

/// Puts the means of lines at the front of `values`, up to the first sample that is not in the picture; how many.
fn put_means(picture: &Picture, line: &SeenLine, values: &mut [u32]) -> usize {
    if line.dots == 0 || line.lines == 0 {
        return 0;
    }
    let most = line.sampling.samples_in(line.dots).min(MOST - 2);
    let room = most.min(values.len());
    let sums = &mut values[..room];
    sums.fill(0);
    let mut count = room;
    for lower in 0..u32::from(line.lines) {
        count = add_values(picture, line, lower, &mut sums[..count.min(room)]);
    }
    for value in sums.iter_mut().take(count) {
        let mean = *value / u32::from(line.lines);
        *value = if line.is_inverted {
            BOTH.saturating_sub(mean)
        } else {
            mean
        };
    }
    count
}

/// So many samples beside the edge say how light it is, or an eighth of all.
const BESIDE: usize = 64;

/// A value by its number from the first one on, or from the last one back.
fn value_from(values: &[u32], number: usize, is_back: bool) -> u32 {
    let place = if is_back {
        values.len().saturating_sub(1).saturating_sub(number)
    } else {
        number
    };
    values.get(place).copied().unwrap_or(0)
}

/// By how much values beside the edge come back where they turn: a sixth of their range, or six grey values.
fn least_beside(values: &[u32], beside: usize, is_back: bool) -> u32 {
    let mut low = u32::MAX;
    let mut high = 0;
    for number in 0..beside {
        let value = value_from(values, number, is_back);
        low = low.min(value);
        high = high.max(value);
    }
    (high.saturating_sub(low) / 6).max(1536)
}

/// How light the edge is: as the first place from there that values come back from.
fn light_beside(values: &[u32], is_back: bool) -> u32 {
    let beside = (values.len() / 8).max(BESIDE).min(values.len());
    let least = least_beside(values, beside, is_back);
    let mut light = 0;
    for number in 0..beside {
        let value = value_from(values, number, is_back);
        light = light.max(value);
        if light.saturating_sub(value) > least {
            break;
        }
    }
    light
}

/// Puts a light value in a place beside others.
fn put_light(values: &mut [u32], place: usize, light: u32) {
    if let Some(value) = values.get_mut(place) {
        *value = light;
    }
}

/// Puts the samples of lines at the front of `values`. If they begin or end at the edge of the picture, one more is light.
pub(crate) fn put_samples(picture: &Picture, line: &SeenLine, values: &mut [u32]) -> Range
    ensures within { result.count ≤ length values.new }
    ensures few { result.count ≤ 65535 }
{
    let begins = is_beyond(picture, line, u32::MAX);
    let from = if begins { 1 } else { 0 };
    let count = match values.get_mut(from..) {
        Some(inner) => put_means(picture, line, inner),
        None => 0,
    };
    let to = from.saturating_add(count);
    let inner = values.get(from..to).unwrap_or(&[]);
    let left = light_beside(inner, false);
    let right = light_beside(inner, true);
    if begins {
        put_light(values, 0, left);
    }
    let all = line.sampling.samples_in(line.dots.max(1));
    let ends = count == all && is_beyond(picture, line, line.dots);
    if ends {
        put_light(values, to, right);
    }
    let whole = if ends { to.saturating_add(1) } else { to };
    Range {
        count: whole.min(values.len()).min(MOST),
        from,
        to,
    }
}
