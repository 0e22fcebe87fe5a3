//! The lines of a picture along which a look saw a symbol.
ghost use Rattle.picture_core.specs.Lines.{IsBefore, IsLaid, second_of, down_at, length_of, place_at, right_at, square_of};
ghost use Rattle.picture_core.specs.Samples.{sample_down, sample_right, samples_in, step_of};
ghost use Rattle.std.specs.Prelude.{◌≡◌, ◌<◌, ◌≤◌, ◌^◌, IsTrue};

use crate::place::{Point, half_way};

/// What was taken out of the mean of lines before its bars were looked for: no blur, one of 2.4 dots, or one of 3.
#[derive(Clone, Copy, PartialEq, Eq)]
pub enum Cleared {
    Nothing,
    Small,
    Large,
}

/// Where the mean of lines has samples: at each dot, or also half way to the next one.
#[derive(Clone, Copy, PartialEq, Eq)]
pub enum Sampling {
    Dots,
    Halves,
}

impl Sampling {
    /// How many samples so many dots have.
    pub(crate) fn samples_in(self, dots: u32) -> usize
        requires { 0 < dots }
        ensures { result ≡ samples_in self dots }
    {
        let dots = dots as usize;
        match self {
            Sampling::Dots => dots,
            Sampling::Halves => 2 * dots - 1,
        }
    }

    /// How far samples are apart, in 1/256 dot.
    pub(crate) fn step(self) -> u16
        ensures { result ≡ step_of self }
    {
        match self {
            Sampling::Dots => 256,
            Sampling::Halves => 128,
        }
    }
}

/// Lines of a picture, a dot apart, whose mean shows a symbol. A place that is left of the picture or above it counts as far outside:
/// numbers wrap at 65,536 dots.
#[derive(Clone, Copy)]
pub struct SeenLine {
    /// Where the first line begins, to the right and down, in 1/65536 dot from the corner of the picture.
    pub x: u32,
    pub y: u32,
    /// How far a line goes to the right and down from dot to dot.
    pub across: u32,
    pub down: u32,
    /// How many dots a line has.
    pub dots: u32,
    /// How many lines there are.
    pub lines: u8,
    /// Where their mean has samples.
    pub sampling: Sampling,
    /// What was taken out of it.
    pub cleared: Cleared,
    /// Whether the bars are light and what is between them dark.
    pub is_inverted: bool,
}

/// How long a step is one way, which may go back.
fn length_of(step: u32) -> u64
    ensures value { result ≡ length_of step }
    ensures few { result ≤ 2 ^ 31 }
{
    if step == 0 {
        return 0;
    }
    u64::from(step.min(u32::MAX - step + 1))
}

/// The square of a step.
fn square_of(across: u32, down: u32) -> u64
    ensures value { result ≡ square_of across down }
    ensures few { result ≤ 2 ^ 63 }
{
    length_of(across) * length_of(across) + length_of(down) * length_of(down)
}

/// The square of a dot, and how far that of a step may be from it.
const DOT: u64 = 1 << 32;

const ROUNDED: u64 = 1 << 20;

/// Two groups of lines of a look that show a symbol, the second one at another place across the stripes.
#[derive(Clone, Copy)]
pub struct SeenLines {
    pub first: SeenLine,
    /// Where the second group's first line begins, as of a `SeenLine`, and how many dots it has. The rest is the first group's.
    pub x: u32,
    pub y: u32,
    pub dots: u32,
}

impl SeenLines {
    /// The second group.
    pub fn second(&self) -> SeenLine
        ensures { result ≡ second_of self.now }
    {
        SeenLine {
            x: self.x,
            y: self.y,
            dots: self.dots,
            ..self.first
        }
    }
}

/// A dot times a dot, in squares of 1/256 dot.
const SQUARE: u64 = 65_536;

impl SeenLine {
    /// Whether the line in the middle of others stands beside that of these, a dot more than there are lines or farther.
    pub(crate) fn is_before(&self, other: &SeenLine) -> bool
        ensures { IsTrue result → IsBefore self.now other.now }
    {
        if self.dots == 0 {
            return false;
        }
        other.place_at(0).is_beyond(
            self.place_at(0),
            self.place_at(self.dots - 1),
            SQUARE * (u64::from(self.lines) + 1) * u64::from(self.dots - 1),
        )
    }

    /// The same lines from their other ends.
    pub(crate) fn turned_round(&self) -> SeenLine {
        let last = self.dots.saturating_sub(1);
        let lowest = u32::from(self.lines).saturating_sub(1);
        SeenLine {
            x: self.right_at(last, lowest),
            y: self.down_at(last, lowest),
            across: self.across.wrapping_neg(),
            down: self.down.wrapping_neg(),
            ..*self
        }
    }

    /// Whether there are at most nine lines, and the step from dot to dot is a dot long.
    pub(crate) fn is_laid(&self) -> bool
        ensures { IsTrue result → IsLaid self.now }
    {
        let square = square_of(self.across, self.down);
        self.lines <= 9 && square <= DOT + ROUNDED && DOT <= square + ROUNDED
    }

    /// How far right a dot of one of the lines stands.
    pub(crate) fn right_at(&self, dot: u32, line: u32) -> u32
        ensures { result ≡ right_at self.now dot line }
    {
        self.x
            .wrapping_add(dot.wrapping_mul(self.across))
            .wrapping_sub(line.wrapping_mul(self.down))
    }

    /// How far down it stands.
    pub(crate) fn down_at(&self, dot: u32, line: u32) -> u32
        ensures { result ≡ down_at self.now dot line }
    {
        self.y
            .wrapping_add(dot.wrapping_mul(self.down))
            .wrapping_add(line.wrapping_mul(self.across))
    }

    /// How far right a sample of one of the lines stands.
    pub(crate) fn sample_right(&self, sample: u32, line: u32) -> u32
        ensures { result ≡ sample_right self.now sample line }
    {
        match self.sampling {
            Sampling::Dots => self.right_at(sample, line),
            Sampling::Halves => half_way(
                self.right_at(sample / 2, line),
                self.right_at(sample / 2 + sample % 2, line),
            ),
        }
    }

    /// How far down it stands.
    pub(crate) fn sample_down(&self, sample: u32, line: u32) -> u32
        ensures { result ≡ sample_down self.now sample line }
    {
        match self.sampling {
            Sampling::Dots => self.down_at(sample, line),
            Sampling::Halves => half_way(
                self.down_at(sample / 2, line),
                self.down_at(sample / 2 + sample % 2, line),
            ),
        }
    }

    /// Where a dot of the line in the middle stands in the picture.
    pub(crate) fn place_at(&self, dot: u32) -> Point
        ensures { result ≡ place_at self.now dot }
    {
        let line = u32::from(self.lines) / 2;
        Point {
            x: self.right_at(dot, line) / 256,
            y: self.down_at(dot, line) / 256,
        }
    }
}
