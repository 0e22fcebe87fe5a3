//! Patches of stripes: blocks that hang together and go one way.
ghost use Rattle.std.specs.Prelude.{◌*◌, ◌^◌};
ghost use Rattle.picture_core.specs.inner.Bounds.{IsBounded};

use crate::extent::{BEYOND, least, most};
use crate::fit::Fit;
use crate::frame::{Frame, ONE, over};
use crate::grid::Grid;
use crate::stripes::{Block, Blocks};

/// Blocks hang together that are this many blocks apart, across or down.
const REACH: usize = 3;

/// 1,048,576 times the cosine of 33 degrees: so much may the doubled directions of two blocks differ that go one way.
const ALIKE: i64 = 879_000;

/// The product of two parts of directions.
fn product(one: i32, other: i32) -> i32
    requires one { IsBounded 32768 one }
    requires other { IsBounded 32768 other }
    ensures { IsBounded (2 ^ 30) result }
{
    one * other
}

/// Whether two blocks go one way, so that they may be of one symbol.
fn go_one_way(one: Block, other: Block) -> bool {
    let cos = product(i32::from(one.cos), i32::from(other.cos));
    let sin = product(i32::from(one.sin), i32::from(other.sin));
    i64::from(cos) + i64::from(sin) >= ALIKE
}

/// Takes the blocks about a block that are left and go its way, into `queue` from `tail` on; where they end there.
fn take_around(
    blocks: &mut Blocks,
    number: u32,
    look: u32,
    queue: &mut [u32],
    tail: usize,
) -> usize {
    let here = blocks.block(number as usize);
    let layout = blocks.layout;
    let row = number as usize / layout.columns;
    let column = number as usize % layout.columns;
    let mut end = tail;
    // The first row and the first column have none before them.
    for r in row.saturating_sub(REACH)..(row + REACH + 1).min(layout.rows) {
        for c in column.saturating_sub(REACH)..(column + REACH + 1).min(layout.columns) {
            let place = layout.place(c, r);
            if blocks.is_left(place, look)
                && go_one_way(here, blocks.block(place))
                && end < queue.len()
            {
                blocks.take(place, look);
                queue[end] = place as u32;
                end += 1;
            }
        }
    }
    end
}

/// Takes the patch that a block is in: its blocks stand at the front of `queue`; how many they are.
pub(crate) fn take_patch(blocks: &mut Blocks, first: usize, look: u32, queue: &mut [u32]) -> usize {
    let Ok(number) = u32::try_from(first) else {
        return 0;
    };
    let Some(front) = queue.first_mut() else {
        return 0;
    };
    *front = number;
    blocks.take(first, look);
    let mut tail = 1;
    for head in 0..queue.len() {
        if head >= tail {
            break;
        }
        let number = queue[head];
        tail = take_around(blocks, number, look, queue, tail);
    }
    tail
}

/// The sum of the directions of blocks.
#[derive(Clone, Copy)]
struct Direction {
    blocks: u32,
    cos: i64,
    sin: i64,
    ghost cos_within: { IsBounded (32768 * blocks) cos },
    ghost sin_within: { IsBounded (32768 * blocks) sin },
}

/// The largest sum of directions that a frame is made of.
const MOST_DIRECTION: i64 = i32::MAX as i64;

impl Direction {
    /// That of no block.
    fn none() -> Direction {
        Direction {
            blocks: 0,
            cos: 0,
            sin: 0,
        }
    }

    /// With one block more, as long as there is room for it.
    fn with(self, block: Block) -> Direction {
        if self.blocks == u32::MAX {
            return self;
        }
        Direction {
            blocks: self.blocks + 1,
            cos: self.cos + i64::from(block.cos),
            sin: self.sin + i64::from(block.sin),
        }
    }

    /// The frame across stripes that go this way. Patches that are not of thousands of megapixels have no larger sum.
    fn frame(self) -> Frame {
        Frame::half_of(
            self.cos.clamp(-MOST_DIRECTION, MOST_DIRECTION) as i32,
            self.sin.clamp(-MOST_DIRECTION, MOST_DIRECTION) as i32,
        )
    }
}

/// The frame across a patch's stripes, by the mean of their directions.
pub(crate) fn across(blocks: &Blocks, patch: &[u32]) -> Frame {
    let mut sum = Direction::none();
    for number in patch {
        sum = sum.with(blocks.block(*number as usize));
    }
    sum.frame()
}

/// The greatest slope of rows, in 1/65536: that of 30 degrees.
const STEEPEST: i64 = 37_837;

/// The slope of a line, in 1/65536, from 30 degrees up to 30 degrees down; none if its points are at one place along it.
fn slope_of(line: Fit) -> Option<i64> {
    let spread = line.spread()?;
    if spread <= 0 {
        return None;
    }
    let part = over(line.slope()?.checked_mul(1024)?, spread);
    Some(part.clamp(-STEEPEST, STEEPEST) * 64)
}

/// A place in whole dots.
fn in_dots(place: i64) -> i64
    requires { IsBounded (2 ^ 30) place }
    ensures { IsBounded (2 ^ 22) result }
{
    place >> 8
}

/// The frame whose rows go along the middles of a patch's stripes, as they do on a label that is seen aslant: the line
/// through its blocks that fits best.
pub(crate) fn along(blocks: &Blocks, patch: &[u32], frame: Frame) -> Frame {
    let mut line = Fit::none();
    for number in patch {
        let spot = blocks.centre(*number as usize);
        line = line.with(in_dots(frame.u_of(spot)), in_dots(frame.v_of(spot)));
    }
    match slope_of(line) {
        Some(slope) => frame.sheared(slope.clamp(-STEEPEST, STEEPEST)),
        None => frame,
    }
}

/// From the least to the most.
#[derive(Clone, Copy)]
struct Span {
    least: i64,
    most: i64,
    ghost least_within: { IsBounded (2 ^ 40) least },
    ghost most_within: { IsBounded (2 ^ 40) most },
}

impl Span {
    /// That of no number.
    fn none() -> Span {
        Span {
            least: BEYOND,
            most: -BEYOND,
        }
    }

    fn with(self, number: i64) -> Span
        requires { IsBounded (2 ^ 40) number }
    {
        Span {
            least: least(self.least, number),
            most: most(self.most, number),
        }
    }

    fn length(self) -> i64
        ensures { IsBounded (2 ^ 41) result }
    {
        self.most - self.least
    }
}

/// How far rows go beyond both ends of a patch of this length whose blocks have this side.
fn beyond(length: i64, side: i64) -> i64
    requires length { IsBounded (2 ^ 41) length }
    requires side { IsBounded (2 ^ 21) side }
    ensures { IsBounded (2 ^ 41) result }
{
    (length + 2 * side) / 5 + 2 * side
}

/// The middles of a patch's blocks, along the rows of a frame and across them.
fn spans_of(blocks: &Blocks, patch: &[u32], frame: Frame) -> (Span, Span) {
    let mut us = Span::none();
    let mut vs = Span::none();
    for number in patch {
        let spot = blocks.centre(*number as usize);
        us = us.with(frame.u_of(spot) * 256);
        vs = vs.with(frame.v_of(spot) * 256);
    }
    (us, vs)
}

/// How much of the changes of a patch's blocks goes one way in the mean, of 100: little if there is only print.
pub(crate) fn share_of(blocks: &Blocks, patch: &[u32]) -> u64 {
    let mut sum = 0u64;
    for number in patch {
        sum = sum.saturating_add(u64::from(blocks.block(*number as usize).share));
    }
    sum.checked_div(patch.len() as u64).unwrap_or(0)
}

/// Whether the box around a patch is larger than so many times its blocks, as that of text is.
pub(crate) fn is_sparse(blocks: &Blocks, patch: &[u32], times: i64) -> bool {
    let (us, vs) = spans_of(blocks, patch, across(blocks, patch));
    let side = blocks.layout.side as i64;
    let long = (us.length() >> 16).saturating_add(side);
    let high = (vs.length() >> 16).saturating_add(side);
    let most = i64::try_from(patch.len())
        .unwrap_or(i64::MAX)
        .saturating_mul(times)
        .saturating_mul(side)
        .saturating_mul(side);
    long.saturating_mul(high) > most
}

/// At most this many rows through a patch, and beyond its ends.
pub(crate) fn grid_over(blocks: &Blocks, patch: &[u32], frame: Frame, rows: u32) -> Grid {
    let (us, vs) = spans_of(blocks, patch, frame);
    let side = blocks.layout.side as i64 * ONE;
    let beyond = beyond(us.length(), side);
    let height = vs.length() + side;
    let step = over(height, i64::from(rows)).max(ONE);
    Grid {
        frame,
        left: us.least - beyond,
        right: us.most + beyond,
        top: vs.least - side / 2,
        step,
        count: over(height, step).clamp(1, i64::from(u32::MAX)) as u32,
    }
}
