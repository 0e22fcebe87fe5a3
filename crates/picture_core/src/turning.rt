//! Reads lines by the ends between the places where their values turn.
ghost use Rattle.std.specs.Prelude.{◌≡◌, ◌+◌, ◌-◌, ◌*◌, ◌/◌, ◌<◌, ◌≤◌, IfSome, IsTrue, length};
ghost use Rattle.line_core.specs.Ends.{at};
ghost use Rattle.line_core.specs.Symbols.{ShowsBars};
ghost use Rattle.picture_core.specs.Bars.{LineShows};
ghost use Rattle.picture_core.specs.Samples.{step_of};
ghost use Rattle.picture_core.specs.Sharp.{AreSeen};

use crate::look::{LOOKS, Look};
use crate::part::{are_regular, is_part};
use crate::picture::Picture;
use crate::place::half_way;
use crate::reader::Reader;
use crate::room::RowRoom;
use crate::said::{Furthest, Said};
use crate::samples::{Range, are_samples, put_samples};
use crate::seen_line::{Cleared, SeenLine};
use crate::sharp::{are_seen, put_seen};
use crate::tally::{Sight, Tally};
use element_core::Year;
use line_core::{Bars, shows_bars};
use line_reader::{Ends, Extremes, Reading, Row, put_ends, put_extremes, put_widths, read_at};

/// The most widths of a symbol.
const MOST_WIDTHS: usize = 640;

/// Where a row is: its first dot is at u, in 1/256 dot, in row v of rows that are a step apart, in 1/65536.
#[derive(Clone, Copy)]
pub(crate) struct Sighted {
    pub(crate) u: i64,
    pub(crate) v: i64,
    pub(crate) step: i64,
}

/// What looking at rows took: how many dots and rows; how many ends the row with the most has; how many may show part of
/// a symbol; and how many are those of a fence.
#[derive(Clone, Copy, Default)]
pub(crate) struct Taken {
    pub(crate) dots: usize,
    pub(crate) rows: usize,
    pub(crate) ends: usize,
    pub(crate) parts: usize,
    pub(crate) fences: usize,
}

impl Taken {
    /// With a row more.
    pub(crate) fn with(self, row: Taken) -> Taken {
        Taken {
            dots: self.dots.saturating_add(row.dots),
            rows: self.rows.saturating_add(row.rows),
            ends: self.ends.max(row.ends),
            parts: self.parts.saturating_add(row.parts),
            fences: self.fences.saturating_add(row.fences),
        }
    }

    /// Whether no symbol stands there: no row has so many ends, or seven of eight rows are those of a fence.
    pub(crate) fn show_nothing(self, fewest: usize) -> bool {
        self.ends < fewest || self.fences.saturating_mul(8) >= self.rows.saturating_mul(7)
    }

    /// Whether so many of the rows may show part of a symbol that one may stand there: an eighth of them.
    pub(crate) fn show_part(self) -> bool {
        self.parts.saturating_mul(8) >= self.rows
    }
}

/// Notes what a window of ends shows; whether it is read.
fn note_reading(
    year: Year,
    reading: &Reading,
    left: u32,
    right: u32,
    row: Sighted,
    tally: &mut Tally,
    furthest: &mut Furthest,
) -> bool {
    let mut widths = [0u16; MOST_WIDTHS];
    let count = put_widths(reading, &mut widths).min(MOST_WIDTHS);
    match Said::of_widths(&widths[..count], year, furthest) {
        Some(said) => {
            let sight = Sight::new(row.u, left, right, row.v, row.step);
            tally.add(Some(said), sight);
            true
        }
        None => false,
    }
}

/// Notes what the windows of a row of ends show.
fn read_ends(reader: &Reader, all: &Row, row: Sighted, tally: &mut Tally, furthest: &mut Furthest) {
    let ends = all.ends;
    let shift = if all.is_back { all.behind } else { all.before };
    let mut next = 0usize;
    for number in 0..ends.len() / 2 {
        let first = 2 * number;
        if first < next {
            continue;
        }
        let Some(reading) = read_at(all, first) else {
            continue;
        };
        let last = first.saturating_add(reading.runs());
        if last >= ends.len() {
            continue;
        }
        let (left, right) = if all.is_back {
            (
                all.length.saturating_sub(ends[last]),
                all.length.saturating_sub(ends[first]),
            )
        } else {
            (ends[first], ends[last])
        };
        let left = left.saturating_sub(shift);
        let right = right.saturating_sub(shift);
        if note_reading(reader.year, &reading, left, right, row, tally, furthest) {
            next = last;
        }
    }
}

/// Puts the samples of lines as a look sees them, sharpened if a blur is taken out of them, and their means.
fn put_all<'a>(
    picture: &Picture,
    line: &SeenLine,
    samples: &'a mut [u32],
) -> (Range, &'a [u32], &'a [u32])
    ensures { length result.1.now ≤ 65535 }
{
    if line.cleared == Cleared::Nothing {
        let range = put_samples(picture, line, samples);
        let values = &samples[..range.count];
        return (range, values, values);
    }
    let half = samples.len() / 2;
    let (values, means) = samples.split_at_mut(half);
    let range = put_samples(picture, line, means);
    let means = means.get(range.from..range.to).unwrap_or(&[]);
    let count = means.len().min(values.len()).min(65_535);
    put_seen(line.cleared, &means[..count], &mut values[..count]);
    let range = Range {
        count,
        from: 0,
        to: count,
    };
    (range, &values[..count], &means[..count])
}

/// How far the samples of a line lie beyond the picture, before it and behind it.
fn beyond(range: Range, step: u16) -> (u32, u32) {
    let before = if range.from == 0 { 0 } else { u32::from(step) };
    let behind = if range.count <= range.to {
        0
    } else {
        u32::from(step)
    };
    (before, behind)
}

/// Notes what the ends of a line show, looked at from one of its sides.
fn read_side(
    reader: &Reader,
    range: Range,
    samples: &[u32],
    step: u16,
    turns: &Extremes,
    ends: &Ends,
    is_back: bool,
    row: Sighted,
    tally: &mut Tally,
    furthest: &mut Furthest,
)
    requires { length samples.now ≤ 65535 }
{
    let (first, last) = beyond(range, step);
    let (before, behind) = if is_back {
        (last, first)
    } else {
        (first, last)
    };
    let places = turns.places();
    let all = Row {
        samples,
        step,
        turns: &places[ends.skipped().min(places.len())..],
        ends: ends.all(),
        length: (samples.len() as u32).saturating_mul(u32::from(step)),
        before,
        behind,
        is_back,
    };
    read_ends(reader, &all, row, tally, furthest);
}

/// Notes what a line shows, whose samples are put here; what that took.
fn read_samples(
    reader: &Reader,
    line: &SeenLine,
    look: &Look,
    row: Sighted,
    samples: &mut [u32],
    parts: &mut [u32],
    places: &mut [u32],
    values: &mut [u32],
    ends: &mut [u32],
    tally: &mut Tally,
    furthest: &mut Furthest,
) -> Taken {
    let (range, samples, _) = put_all(reader.picture, line, samples);
    let step = line.sampling.step();
    let half = parts.len() / 2;
    let (low, high) = parts.split_at_mut(half);
    let mut turns = Extremes::none(places, values);
    put_extremes(samples, look.turn, low, high, &mut turns);
    let mut all = Ends::none(ends);
    put_ends(samples, &turns, step, look.by_slope, &mut all);
    let taken = Taken {
        dots: (line.dots as usize).saturating_mul(usize::from(line.lines)),
        ends: all.all().len(),
        rows: 1,
        parts: if is_part(all.all()) { 1 } else { 0 },
        fences: if are_regular(all.all()) { 1 } else { 0 },
    };
    read_side(
        reader, range, samples, step, &turns, &all, false, row, tally, furthest,
    );
    all.turn_round((samples.len() as u32).saturating_mul(u32::from(step)));
    read_side(
        reader, range, samples, step, &turns, &all, true, row, tally, furthest,
    );
    taken
}

/// Notes what a line shows; what that took.
pub(crate) fn read_bars(
    reader: &Reader,
    line: &SeenLine,
    look: &Look,
    row: Sighted,
    room: &mut RowRoom,
    tally: &mut Tally,
    furthest: &mut Furthest,
) -> Taken {
    read_samples(
        reader,
        line,
        look,
        row,
        room.samples,
        room.parts,
        room.places,
        room.values,
        room.ends,
        tally,
        furthest,
    )
}

/// The dot in the middle of bars, if the means of a line, as they are seen, show them, and they say what a symbol says.
fn middle_of(
    picture: &Picture,
    year: Year,
    said: &Said,
    line: &SeenLine,
    means: &[u32],
    bars: &Bars,
) -> Option<u32>
    requires { bars.now.step ≡ step_of line.now.sampling }
    ensures { IfSome result (λ dot. LineShows picture.now year said.now.carrier said.now.elements line.now dot) }
{
    if bars.ends.len() == 0 || bars.from > 1 || !line.is_laid() {
        return None;
    }
    if !said.is_said_by(bars.widths, year) {
        return None;
    }
    if !shows_bars(bars) {
        return None;
    }
    if !are_samples(picture, line, bars.from, bars.to, means) {
        return None;
    }
    if !are_seen(line.cleared, means, bars.values) {
        return None;
    }
    let middle = half_way(bars.ends[0], bars.ends[bars.ends.len() - 1]);
    Some(middle.saturating_sub(u32::from(bars.step) * bars.from as u32) / 256)
}

/// What is laid through a picture: its samples as they are seen, their means, and where they turn.
#[derive(Clone, Copy)]
struct Laid<'a> {
    range: Range,
    values: &'a [u32],
    means: &'a [u32],
    turns: &'a [u32],
    ends: &'a [u32],
}

/// The dot in the middle of the bars of a symbol that begin at one of the ends of a line. The first end is behind the first turn.
fn window_shows(
    picture: &Picture,
    year: Year,
    said: &Said,
    line: &SeenLine,
    laid: Laid,
    first: usize,
) -> Option<u32>
    ensures { IfSome result (λ dot. LineShows picture.now year said.now.carrier said.now.elements line.now dot) }
{
    let step = line.sampling.step();
    let (before, behind) = beyond(laid.range, step);
    let all = Row {
        samples: laid.values,
        step,
        turns: laid.turns,
        ends: laid.ends,
        length: (laid.values.len().min(65_535) as u32).saturating_mul(u32::from(step)),
        before,
        behind,
        is_back: false,
    };
    let reading = read_at(&all, first)?;
    let last = first.checked_add(reading.runs())?.checked_add(1)?;
    let mut widths = [0u16; MOST_WIDTHS];
    let count = put_widths(&reading, &mut widths).min(MOST_WIDTHS);
    let bars = Bars {
        values: laid.values,
        from: laid.range.from,
        to: laid.range.to,
        step,
        turns: laid.turns.get(first..last.checked_add(1)?)?,
        ends: laid.ends.get(first..last)?,
        widths: &widths[..count],
    };
    middle_of(picture, year, said, line, laid.means, &bars)
}

/// The dot in the middle of the bars of a symbol, if the samples of its lines, put here, show it as a look sees them.
fn samples_show(
    picture: &Picture,
    year: Year,
    said: &Said,
    line: &SeenLine,
    look: &Look,
    samples: &mut [u32],
    parts: &mut [u32],
    places: &mut [u32],
    values: &mut [u32],
    ends: &mut [u32],
) -> Option<u32>
    ensures { IfSome result (λ dot. LineShows picture.now year said.now.carrier said.now.elements line.now dot) }
{
    let (range, samples, means) = put_all(picture, line, samples);
    let step = line.sampling.step();
    let half = parts.len() / 2;
    let (low, high) = parts.split_at_mut(half);
    let mut turns = Extremes::none(places, values);
    put_extremes(samples, look.turn, low, high, &mut turns);
    let mut all = Ends::none(ends);
    put_ends(samples, &turns, step, look.by_slope, &mut all);
    let laid = Laid {
        range,
        values: samples,
        means,
        turns: turns.places().get(all.skipped()..)?,
        ends: all.all(),
    };
    for number in 0..laid.ends.len() / 2 {
        if let Some(dot) = window_shows(picture, year, said, line, laid, 2 * number) {
            return Some(dot);
        }
    }
    None
}

/// The dot in the middle of the bars of a symbol, if its lines show it as a look sees them.
fn look_shows(
    picture: &Picture,
    year: Year,
    said: &Said,
    line: &SeenLine,
    look: &Look,
    room: &mut RowRoom,
) -> Option<u32>
    ensures { IfSome result (λ dot. LineShows picture.now year said.now.carrier said.now.elements line.now dot) }
{
    samples_show(
        picture,
        year,
        said,
        line,
        look,
        room.samples,
        room.parts,
        room.places,
        room.values,
        room.ends,
    )
}

/// The dot in the middle of the bars of a symbol, if its lines show it.
pub(crate) fn line_shows(
    picture: &Picture,
    year: Year,
    said: &Said,
    line: &SeenLine,
    room: &mut RowRoom,
) -> Option<u32>
    ensures { IfSome result (λ dot. LineShows picture.now year said.now.carrier said.now.elements line.now dot) }
{
    for look in &LOOKS {
        if !look.may_take(line) {
            continue;
        }
        if let Some(dot) = look_shows(picture, year, said, line, look, room) {
            return Some(dot);
        }
    }
    None
}
