//! What a row shows from one of its ends on.
ghost use Rattle.std.specs.Prelude.{◌≡◌, ◌+◌, ◌*◌, ◌<◌, ◌≤◌, length};

use crate::code::Rest;
use crate::ean::{read_ean, read_upce};
use crate::itf::read_itf;
use crate::parts::distance;
use line_core::{CODES, DIGITS, FIVES};

/// The kinds of symbols.
#[derive(Clone, Copy, PartialEq, Eq)]
pub enum Kind {
    Ean13,
    Ean8,
    UpcE,
    Code128,
    Itf14,
}

/// The most characters of a symbol.
pub(crate) const MOST_CHARACTERS: usize = 100;

/// The characters of a symbol, from left to right: those of EAN and UPC as patterns, the right half's inward.
#[derive(Clone, Copy)]
pub struct Reading {
    pub kind: Kind,
    pub count: usize,
    pub characters: [u8; 100],
}

impl Reading {
    /// How many runs its bars have.
    pub fn runs(&self) -> usize {
        match self.kind {
            Kind::Ean13 => 59,
            Kind::Ean8 => 43,
            Kind::UpcE => 33,
            Kind::Itf14 => 77,
            Kind::Code128 => self.count.saturating_mul(6).saturating_add(7),
        }
    }

    pub(crate) fn of(kind: Kind, count: usize) -> Reading {
        Reading {
            kind,
            count,
            characters: [0; MOST_CHARACTERS],
        }
    }
}

/// The samples of a row, `step` 256ths of a dot apart, those at which they turn, the ends between these, and how long the row is, in 1/256 dot.
/// `before` and `behind` say how much of it lies beyond the edge of the picture.
#[derive(Clone, Copy)]
pub struct Row<'a> {
    pub samples: &'a [u32],
    pub step: u16,
    pub turns: &'a [u32],
    pub ends: &'a [u32],
    pub length: u32,
    pub before: u32,
    pub behind: u32,
    /// Whether it is looked at from its other side: so are its ends, and nothing else.
    pub is_back: bool,
}

impl<'a> Row<'a> {
    /// The sample of the extreme before an end.
    fn turn(&self, number: usize) -> usize {
        let place = if self.is_back {
            self.ends.len().saturating_sub(number)
        } else {
            number
        };
        self.turns.get(place).copied().unwrap_or(0) as usize
    }

    fn value(&self, sample: usize) -> u64 {
        self.samples.get(sample).copied().map_or(0, u64::from)
    }

    /// How far a sample is from a place.
    fn away(&self, sample: usize, place: u32) -> u32 {
        (sample.min(65_535) as u32)
            .saturating_mul(u32::from(self.step))
            .abs_diff(place)
    }

    /// The light from an end on to the right of the samples, from the light extreme beside it on.
    fn light_to_right(&self, end: u32, extreme: usize, both: u64) -> Light {
        for sample in extreme..self.samples.len() {
            if 2 * self.value(sample).min(1 << 40) < both {
                return Light::of(self.away(sample, end), 0);
            }
        }
        let beyond = if self.is_back {
            self.before
        } else {
            self.behind
        };
        Light::of(self.length.saturating_sub(end), beyond)
    }

    /// The same to the left.
    fn light_to_left(&self, end: u32, extreme: usize, both: u64) -> Light {
        for away in 0..extreme {
            let sample = extreme.saturating_sub(away);
            if 2 * self.value(sample).min(1 << 40) < both {
                return Light::of(self.away(sample, end), 0);
            }
        }
        let beyond = if self.is_back {
            self.behind
        } else {
            self.before
        };
        Light::of(end, beyond)
    }

    /// The light before an end, or behind it: as far as values are no darker than half way between the extremes at the end.
    pub(crate) fn light_at(&self, end: usize, is_behind: bool) -> Light {
        let Some(place) = self.ends.get(end) else {
            return Light::of(0, 0);
        };
        let one = self.turn(end);
        let other = self.turn(end.saturating_add(1));
        let both = self.value(one).saturating_add(self.value(other));
        let extreme = if is_behind { other } else { one };
        let place = if self.is_back {
            self.length.saturating_sub(*place)
        } else {
            *place
        };
        if is_behind == self.is_back {
            self.light_to_left(place, extreme, both)
        } else {
            self.light_to_right(place, extreme, both)
        }
    }
}

/// The light beside a window: what the picture shows of it, and what counts as light. Beyond the picture's edge all is light.
#[derive(Clone, Copy)]
pub(crate) struct Light {
    pub(crate) shown: u32,
    pub(crate) counted: u32,
}

impl Light {
    /// So much, of which a part is beyond the edge.
    pub(crate) fn of(width: u32, beyond: u32) -> Light {
        Light {
            shown: if beyond > 0 {
                width.saturating_sub(beyond).saturating_add(256)
            } else {
                width
            },
            counted: if beyond > 0 { u32::MAX } else { width },
        }
    }
}

/// What a window of so many runs from an end on shows.
fn read_window(row: &Row, first: usize, left: Light, runs: usize) -> Option<Reading> {
    let ends = row.ends.get(first..)?.get(..runs.saturating_add(1))?;
    let right = row.light_at(first.saturating_add(runs), true);
    match runs {
        59 if !row.is_back => read_ean(ends, left.counted, right.counted, 6),
        43 if !row.is_back => read_ean(ends, left.shown, right.shown, 4),
        33 => read_upce(ends, left.shown, right.shown),
        77 => read_itf(ends, left.counted, right.counted),
        _ => None,
    }
}

/// The runs of symbols of a fixed length, in the order in which they are tried.
const RUNS: [usize; 4] = [59, 43, 33, 77];

/// What a row shows from an end on, at which it goes from light to dark. A row that is looked at from its other side shows no EAN, which is
/// read from both.
pub fn read_at(row: &Row, first: usize) -> Option<Reading> {
    let ends = row.ends.get(first..)?;
    let left = row.light_at(first, false);
    if 24 * u64::from(left.counted) >= 11 * u64::from(distance(ends, 0, 3)) {
        for runs in RUNS {
            let reading = read_window(row, first, left, runs);
            if reading.is_some() {
                return reading;
            }
        }
    }
    let rest = Rest { row, first, ends };
    rest.read_code(left.counted)
}

/// A digit from its other side.
fn other_side(character: u8) -> u8 {
    if character < 10 {
        character + 10
    } else {
        character - 10
    }
}

/// Widths of a symbol, in 1/48 module, in memory that is lent.
struct Widths<'a> {
    widths: &'a mut [u16],
    count: usize,
    ghost within: { count ≤ length widths.now },
}

impl<'a> Widths<'a> {
    fn push(&mut self, modules: u8) {
        if self.count < self.widths.len() {
            self.widths[self.count] = 48 * u16::from(modules);
            self.count += 1;
        }
    }

    fn push_ones(&mut self, runs: u8) {
        for _ in 0..runs {
            self.push(1);
        }
    }

    /// The runs of a digit of EAN or UPC.
    fn push_digit(&mut self, character: u8) {
        for modules in DIGITS[usize::from(character.min(19))] {
            self.push(modules);
        }
    }

    fn push_ean(&mut self, reading: &Reading) {
        let half = (reading.count / 2).min(6);
        self.push_ones(3);
        for digit in 0..half {
            self.push_digit(reading.characters[digit]);
        }
        self.push_ones(5);
        for digit in 0..half {
            let character = reading.characters[2 * half - 1 - digit];
            self.push_digit(other_side(character));
        }
        self.push_ones(3);
    }

    fn push_upce(&mut self, reading: &Reading) {
        self.push_ones(3);
        for digit in 0..6usize {
            self.push_digit(reading.characters[digit]);
        }
        self.push_ones(6);
    }

    fn push_code(&mut self, reading: &Reading) {
        for number in 0..reading.count.min(MOST_CHARACTERS) {
            for modules in CODES[usize::from(reading.characters[number].min(106))] {
                self.push(modules);
            }
        }
        for modules in CODES[106] {
            self.push(modules);
        }
        self.push(2);
    }

    fn push_itf(&mut self, reading: &Reading) {
        self.push_ones(4);
        for pair in 0..7usize {
            let bars = &FIVES[usize::from(reading.characters[2 * pair] % 10)];
            let spaces = &FIVES[usize::from(reading.characters[2 * pair + 1] % 10)];
            for element in 0..5usize {
                self.push(bars[element]);
                self.push(spaces[element]);
            }
        }
        self.push(3);
        self.push_ones(2);
    }
}

/// Puts the widths of a symbol, light first and last, and says how many there are.
pub fn put_widths(reading: &Reading, widths: &mut [u16]) -> usize {
    let mut all = Widths { widths, count: 0 };
    all.push(20);
    match reading.kind {
        Kind::Ean13 | Kind::Ean8 => all.push_ean(reading),
        Kind::UpcE => all.push_upce(reading),
        Kind::Code128 => all.push_code(reading),
        Kind::Itf14 => all.push_itf(reading),
    }
    all.push(20);
    let Widths { widths: _, count } = all;
    count
}
