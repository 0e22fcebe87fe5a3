//! The end between two neighbouring extremes.
ghost use Rattle.std.specs.Prelude.{◌≡◌, ◌+◌, ◌*◌, ◌<◌, ◌≤◌, length};

use crate::extremes::{Extremes, highest, lowest, part_of};

/// The ends of runs, from the first that goes to dark on, in 1/256 dot from the row's first sample.
#[derive(Drop)]
pub struct Ends<'a> {
    ends: &'a mut [u32],
    count: usize,
    skipped: usize,
    ghost within: { count ≤ length ends.now },
}

impl<'a> Ends<'a> {
    pub fn none(ends: &'a mut [u32]) -> Ends<'a> {
        Ends {
            ends,
            count: 0,
            skipped: 0,
        }
    }

    /// Adds an end, if there is room for it.
    fn push(&mut self, end: u32) {
        if self.count < self.ends.len() {
            self.ends[self.count] = end;
            self.count += 1;
        }
    }

    /// How many extremes come before the one in front of the first end.
    pub fn skipped(&self) -> usize {
        self.skipped
    }

    pub fn all(&self) -> &[u32] {
        &self.ends[..self.count]
    }

    /// Makes them those of the line from its other side, whose length is given: an even number, from the first that goes to dark on.
    pub fn turn_round(&mut self, length: u32) {
        self.count = self.count / 2 * 2;
        let all = &mut self.ends[..self.count];
        all.reverse();
        for end in all.iter_mut() {
            *end = length.saturating_sub(*end);
        }
    }
}

/// How many extremes on each side say how dark dark is and how light light, and how many say so if they do not say much more.
const NEAR: usize = 4;

const FAR: usize = 12;

/// How much more these may say, and how far an end stays from both extremes, in 1/1024 of their difference.
const MORE: u16 = 358;

const INNER: u16 = 225;

const OUTER: u16 = 799;

/// So many values on each side of the way from one to the next.
fn around(values: &[u32], number: usize, sides: usize) -> &[u32] {
    let count = values.len();
    let end = number.saturating_add(1).saturating_add(sides).min(count);
    let first = number.saturating_add(1).saturating_sub(sides).min(end);
    &values[first..end]
}

/// The value that the row passes at the end between an extreme and the next.
fn level_between(values: &[u32], number: usize) -> u32
    requires { number + 1 < length values.now }
{
    let near = around(values, number, NEAR);
    let far = around(values, number, FAR);
    let low = lowest(near);
    let high = highest(near);
    let more = part_of(high.saturating_sub(low), MORE);
    let low = lowest(far).max(low.saturating_sub(more));
    let high = highest(far).min(high.saturating_add(more));
    let dark = values[number].min(values[number + 1]);
    let own = values[number].abs_diff(values[number + 1]);
    let least = dark.saturating_add(part_of(own, INNER));
    let most = dark.saturating_add(part_of(own, OUTER));
    (low.saturating_add(high) / 2).max(least).min(most)
}

/// How far behind the sample before it a row passes a level.
fn passes_at(way: u32, all: u32, step: u16) -> u32
    ensures { result ≤ 65535 }
{
    let step = u64::from(step);
    match (u64::from(way) * step).checked_div(u64::from(all)) {
        Some(part) => part.min(step) as u32,
        None => (step / 2) as u32,
    }
}

/// Whether a value is not yet on the other side of a level.
fn is_before(value: u32, level: u32, falls: bool) -> bool {
    if falls { value > level } else { value < level }
}

/// How far a value is from the level that the row goes to.
fn way_to(value: u32, level: u32, falls: bool) -> u32 {
    if falls {
        value.saturating_sub(level)
    } else {
        level.saturating_sub(value)
    }
}

/// Where the samples from one extreme to the next pass a level, from the first of them on.
fn pass_of(way: &[u32], level: u32, falls: bool, step: u16) -> u32
    requires { length way.now ≤ 65535 }
{
    let mut before = way.first().copied().unwrap_or(0);
    let mut place = 0u32;
    for number in 1..way.len() {
        let here = way[number];
        if number + 1 == way.len() || !is_before(here, level, falls) {
            let part = passes_at(way_to(before, level, falls), before.abs_diff(here), step);
            return place.saturating_add(part);
        }
        before = here;
        place = place.saturating_add(u32::from(step));
    }
    0
}

/// By how much the values differ from a sample to the next; 0 beyond the last.
fn steep(samples: &[u32], at: usize) -> u32 {
    match (samples.get(at), samples.get(at.saturating_add(1))) {
        (Some(one), Some(other)) => one.abs_diff(*other),
        _ => 0,
    }
}

/// The sample from one to another behind which the way is steepest.
fn steepest(samples: &[u32], from: usize, to: usize) -> usize {
    let mut found = from;
    let mut most = 0;
    for at in from..to {
        let here = steep(samples, at);
        if here > most {
            most = here;
            found = at;
        }
    }
    found
}

/// How far behind a sample the way is steepest, by the parabola through it and its neighbours: it lies between the sample and the next.
fn summit(before: u32, here: u32, behind: u32, step: u16) -> u32 {
    let half = u64::from(step / 2);
    let sides = u64::from(before) + u64::from(behind);
    let away = u64::from(before.abs_diff(behind)) * half;
    let part = match (2 * u64::from(here)).checked_sub(sides) {
        Some(curve) => away.checked_div(curve).unwrap_or(0).min(half),
        None => 0,
    };
    if before > behind {
        (half - part) as u32
    } else {
        (half + part) as u32
    }
}

/// Where light that was added moves the end least: where the way is steepest.
fn summit_of(samples: &[u32], from: usize, to: usize, step: u16) -> u32 {
    let at = steepest(samples, from, to);
    let before = match at.checked_sub(1) {
        Some(before) => steep(samples, before),
        None => 0,
    };
    let part = summit(
        before,
        steep(samples, at),
        steep(samples, at.saturating_add(1)),
        step,
    );
    (at.min(65535) as u32)
        .saturating_mul(u32::from(step))
        .saturating_add(part)
}

/// The end between an extreme and the next.
fn end_between(
    samples: &[u32],
    extremes: &Extremes,
    number: usize,
    step: u16,
    by_slope: bool,
) -> u32
    requires few { length samples.now ≤ 65535 }
    requires number { number + 1 < extremes.now.count }
{
    let values = extremes.values();
    let places = extremes.places();
    let from = places[number];
    let to = places[number + 1] as usize;
    if by_slope {
        return summit_of(samples, from as usize, to, step);
    }
    let falls = values[number + 1] < values[number];
    let way = samples
        .get(from as usize..to.saturating_add(1))
        .unwrap_or(&[]);
    let part = pass_of(way, level_between(values, number), falls, step);
    from.saturating_mul(u32::from(step)).saturating_add(part)
}

/// Puts the ends between the extremes of a row, whose samples are `step` 256ths of a dot apart: where the values pass a level, or where the
/// way is steepest.
pub fn put_ends(samples: &[u32], extremes: &Extremes, step: u16, by_slope: bool, ends: &mut Ends)
    requires { length samples.now ≤ 65535 }
{
    let values = extremes.values();
    for number in 1..values.len() {
        if values[number] < values[number - 1] || ends.count > 0 {
            ends.push(end_between(samples, extremes, number - 1, step, by_slope));
        } else {
            ends.skipped = number;
        }
    }
}
