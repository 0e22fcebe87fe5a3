//! The blocks of a picture whose grey values change to and fro one way.
ghost use Rattle.std.specs.Prelude.{◌≡◌, ◌+◌, ◌<◌, ◌≤◌, ◌^◌, length, pos, ◌≤ℤ◌};
ghost use Rattle.picture_core.specs.inner.Bounds.{IsBounded};

use crate::frame::{Spot, over, size_of};
use crate::layout::Layout;
use crate::picture::Picture;

/// A block: twice the direction in which its grey values change, in 1/1024, and how much of the change goes that way,
/// of 100. One that is not striped has none.
#[derive(Clone, Copy)]
pub(crate) struct Block {
    pub(crate) cos: i16,
    pub(crate) sin: i16,
    pub(crate) share: u16,
}

/// One that is not striped.
const PLAIN: Block = Block {
    cos: 0,
    sin: 0,
    share: 0,
};

impl Block {
    pub(crate) fn is_striped(self) -> bool {
        self.cos != 0 || self.sin != 0
    }
}

/// How much the grey values change across, down and both ways, in sums of products.
#[derive(Clone, Copy)]
struct Changes {
    across: i32,
    down: i32,
    both: i32,
}

/// No change.
const NONE: Changes = Changes {
    across: 0,
    down: 0,
    both: 0,
};

/// The product of the differences of grey values.
fn product(one: i32, other: i32) -> i32
    requires one { IsBounded 255 one }
    requires other { IsBounded 255 other }
    ensures { IsBounded 65025 result }
{
    one * other
}

/// The changes of some dots of a row from `from` on, by those beside, above and below each.
fn row_changes(above: &[u8], here: &[u8], below: &[u8], from: usize, dots: usize) -> Changes
    requires some { 1 ≤ from }
    requires few { dots ≤ 32 }
    requires beside { from + dots + 1 ≤ length here.now }
    requires above { length above.now ≡ length here.now }
    requires below { length below.now ≡ length here.now }
    ensures across { IsBounded 2080800 result.across }
    ensures down { IsBounded 2080800 result.down }
    ensures both { IsBounded 2080800 result.both }
{
    let mut across = 0i32;
    let mut down = 0i32;
    let mut both = 0i32;
    for dot in 0..dots {
        let x = from + dot;
        let dx = i32::from(here[x + 1]) - i32::from(here[x - 1]);
        let dy = i32::from(below[x]) - i32::from(above[x]);
        across += product(dx, dx);
        down += product(dy, dy);
        both += product(dx, dy);
    }
    Changes { across, down, both }
}

/// A square of a picture.
#[derive(Clone, Copy)]
struct Square {
    left: usize,
    top: usize,
    side: usize,
    ghost left_within: { left ≤ 2097120 },
    ghost top_within: { top ≤ 2097120 },
    ghost few: { side ≤ 32 },
}

/// The least change of a dot of a striped block, and how much of it goes one way, of 100.
const LEAST_CHANGE: i64 = 30;

const LEAST_PART: i64 = 45;

/// The block of a square, of which every second row is looked at.
fn block_of(picture: &Picture, square: Square) -> Block {
    let from = square.left.max(1);
    let to = (square.left + square.side).min(picture.width().max(1) - 1);
    if from >= to {
        return PLAIN;
    }
    let dots = to - from;
    let mut changes = NONE;
    let mut rows = 0u16;
    for pair in 0..square.side / 2 {
        let y = square.top.max(1) + pair * 2;
        if y + 1 >= picture.height() {
            break;
        }
        let row = row_changes(
            picture.row(y - 1),
            picture.row(y),
            picture.row(y + 1),
            from,
            dots,
        );
        changes = Changes {
            across: changes.across + row.across,
            down: changes.down + row.down,
            both: changes.both + row.both,
        };
        rows += 1;
    }
    striped(changes, i64::from(rows) * i64::from(dots as u16))
}

/// The block with these changes of this many dots.
fn striped(changes: Changes, dots: i64) -> Block
    requires across { IsBounded 33292800 changes.across }
    requires down { IsBounded 33292800 changes.down }
    requires both { IsBounded 33292800 changes.both }
    requires dots { IsBounded (2 ^ 32) dots }
{
    let sum = i64::from(changes.across) + i64::from(changes.down);
    let cos = changes.across - changes.down;
    let sin = 2 * changes.both;
    let size = size_of(cos, sin);
    if size < 1 || sum < dots * LEAST_CHANGE || size * 100 < sum * LEAST_PART {
        return PLAIN;
    }
    Block {
        cos: part_of(cos, size),
        sin: part_of(sin, size),
        share: share_of(size, sum),
    }
}

/// How much of a sum a size is, of 100.
fn share_of(size: i64, sum: i64) -> u16 {
    let size = size.cast_unsigned().saturating_mul(100);
    size.checked_div(sum.cast_unsigned()).unwrap_or(0).min(100) as u16
}

/// A part of a size, in 1/1024.
fn part_of(part: i32, size: i64) -> i16
    requires { pos 0 ≤ℤ size }
{
    over(i64::from(part) * 1024, size).clamp(-1024, 1024) as i16
}

/// A part of a direction, as it is kept in a word.
fn word_of(part: i16) -> u32 {
    u32::from(part.cast_unsigned())
}

/// So much more stands there for what else is known of a block: in the word of its cosine whether part of a symbol was
/// seen there, in that of its sine its share.
const PART: u32 = 65_536;

fn part_in(word: u32) -> i16 {
    ((word % 65_536) as u16).cast_signed()
}

/// Where a block begins, by how many are before it.
fn begin_of(before: usize, side: usize) -> usize
    requires before { before ≤ 65535 }
    requires side { side ≤ 32 }
    ensures { result ≤ 2097120 }
{
    before * side
}

/// The middle of a block, by how many are before it, in 1/256 dot.
fn middle_of(before: usize, side: usize) -> i64
    requires side { side ≤ 32 }
    ensures { IsBounded (2 ^ 29) result }
{
    let begin = begin_of(before.min(65_535), side);
    (2 * begin + side) as i64 * 128
}

/// The blocks of a picture, row by row.
#[derive(Drop)]
pub(crate) struct Blocks<'a> {
    pub(crate) layout: Layout,
    cos: &'a mut [u32],
    sin: &'a mut [u32],
    /// The look that took the block last, from 1.
    taken: &'a mut [u32],
    ghost same_sin: { length sin.now ≡ length cos.now },
    ghost same_taken: { length taken.now ≡ length cos.now },
}

impl<'a> Blocks<'a> {
    /// Those of a picture, as many as there is room for.
    pub(crate) fn of_picture(
        picture: &Picture,
        cos: &'a mut [u32],
        sin: &'a mut [u32],
        taken: &'a mut [u32],
    ) -> Blocks<'a> {
        let layout = Layout::of(picture.width(), picture.height());
        let count = layout
            .blocks()
            .min(cos.len())
            .min(sin.len())
            .min(taken.len());
        let mut blocks = Blocks {
            layout,
            cos: &mut cos[..count],
            sin: &mut sin[..count],
            taken: &mut taken[..count],
        };
        for number in 0..count {
            let square = Square {
                left: begin_of(number % layout.columns, layout.side),
                top: begin_of((number / layout.columns).min(65_535), layout.side),
                side: layout.side,
            };
            blocks.set(number, block_of(picture, square));
        }
        blocks
    }

    pub(crate) fn len(&self) -> usize
        ensures { result ≡ length self.now.cos.now }
    {
        self.cos.len()
    }

    fn set(&mut self, number: usize, block: Block) {
        if number < self.cos.len() {
            self.cos[number] = word_of(block.cos);
            self.sin[number] = word_of(block.sin).wrapping_add(PART * u32::from(block.share));
            self.taken[number] = 0;
        }
    }

    /// A block by its number: a plain one beyond the last.
    pub(crate) fn block(&self, number: usize) -> Block {
        if number >= self.cos.len() {
            return PLAIN;
        }
        Block {
            cos: part_in(self.cos[number]),
            sin: part_in(self.sin[number]),
            share: (self.sin[number] / PART) as u16,
        }
    }

    /// Whether a block is striped, and this look has not taken it.
    pub(crate) fn is_left(&self, number: usize, look: u32) -> bool {
        number < self.cos.len() && self.taken[number] < look && self.block(number).is_striped()
    }

    /// Notes of a block whether part of a symbol was seen there.
    pub(crate) fn mark(&mut self, number: usize, is_part: bool) {
        if let Some(cos) = self.cos.get_mut(number) {
            *cos = *cos % PART + if is_part { PART } else { 0 };
        }
    }

    /// Whether it was.
    pub(crate) fn shows_part(&self, number: usize) -> bool {
        number < self.cos.len() && self.cos[number] >= PART
    }

    /// A look takes a block.
    pub(crate) fn take(&mut self, number: usize, look: u32) {
        if let Some(taken) = self.taken.get_mut(number) {
            *taken = look;
        }
    }

    /// A block is striped no more.
    pub(crate) fn clear(&mut self, number: usize) {
        self.set(number, PLAIN);
    }

    /// The middle of a block.
    pub(crate) fn centre(&self, number: usize) -> Spot {
        Spot {
            x: middle_of(number % self.layout.columns, self.layout.side),
            y: middle_of(number / self.layout.columns, self.layout.side),
        }
    }
}
