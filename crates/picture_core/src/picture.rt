//! Grey dots.
ghost use Rattle.std.specs.Prelude.{true, false, IfNone, IsTrue, OnSome, ◌≡◌, ◌+◌, ◌-◌, ◌*◌, ◌/◌, ◌<◌, ◌≤◌, ◌↔◌, ℕ, IfSome, length, slice_index_or};
ghost use Rattle.picture_core.specs.Pictures.{IsPicture};
ghost use Rattle.picture_core.specs.Lines.{mix};
ghost use Rattle.picture_core.specs.Rows.{greys_of_row};
ghost use Rattle.picture_core.specs.Samples.{IsInPicture, cubic_at, cubic_beside, inside, less_by, weight_before, weight_behind};

use std::marker::Model;

/// The grey values of a picture, row by row: 0 is black.
#[derive(Drop)]
pub struct Picture<'a> {
    grey: &'a [u8],
    width: usize,
    height: usize,
    /// How far a row begins behind the one above it.
    stride: usize,
}

impl<'a> Model for Picture<'a> {
    ghost use Rattle.std.specs.Prelude.{length};
    ghost use Rattle.picture_core.specs.Pictures.{Greys, IsPicture};

    ghost Value = { Greys };

    ghost view = { λ p. record { values = p.grey.now; width = p.width; height = p.height; stride = p.stride } };

    ghost invariant = { λ p. IsPicture (length p.grey.now) p.width p.height p.stride };
}

/// Whether this many values hold this many rows of a width, each a stride behind the one above.
fn are_within(values: usize, width: usize, height: usize, stride: usize) -> bool
    ensures within { result ≡ true → (y : ℕ) → y < height → y * stride + width ≤ values }
    ensures beyond { result ≡ false → (0 < height) × (values < (height - 1) * stride + width) }
{
    let Some(above) = height.checked_sub(1) else {
        return true;
    };
    match above.checked_mul(stride) {
        Some(last) => last <= values && width <= values - last,
        None => false,
    }
}

impl<'a> Picture<'a> {
    /// A picture of at most 65,535 dots a side, whose rows begin so far one behind the other, at least as far as they are wide, and
    /// whose values are all there.
    pub fn new(grey: &'a [u8], width: usize, height: usize, stride: usize) -> Option<Picture<'a>>
        ensures picture { IfSome result (λ picture. picture ≡ record { values = grey.now; width = width; height = height; stride = stride }) }
        ensures some { OnSome result (IsPicture (length grey.now) width height stride) }
        ensures none { IfNone result (IsPicture (length grey.now) width height stride → ⊥) }
    {
        if width > 65535 || height > 65535 || stride < width {
            return None;
        }
        if !are_within(grey.len(), width, height, stride) {
            return None;
        }
        Some(Picture {
            grey,
            width,
            height,
            stride,
        })
    }

    /// How many dots a row has.
    pub fn width(&self) -> usize
        ensures value { result ≡ self.now.width }
        ensures narrow { result ≤ 65535 }
    {
        self.width
    }

    /// How many rows there are.
    pub fn height(&self) -> usize
        ensures value { result ≡ self.now.height }
        ensures low { result ≤ 65535 }
    {
        self.height
    }

    /// A row, from the top.
    pub fn row(&self, y: usize) -> &'a [u8]
        requires { y < self.now.height }
        ensures values { result.now ≡ greys_of_row self.now y }
        ensures long { length result.now ≡ self.now.width }
        ensures few { length result.now ≤ 65535 }
    {
        let first = y * self.stride;
        &self.grey[first..first + self.width]
    }

    /// Whether a place, in 1/65536 dot from the corner of the picture, is in it.
    pub(crate) fn holds(&self, x: u32, y: u32) -> bool
        ensures { IsTrue result ↔ IsInPicture self.now x y }
    {
        ((x / 65_536) as usize) < self.width() && ((y / 65_536) as usize) < self.height()
    }

    /// The value at a part of a dot to the right and down of the middle of one.
    #[tactic(auto, unfolding(crate::specs::Samples::cubic_beside))]
    fn cubic_beside(&self, column: usize, row: usize, right: u32, down: u32) -> u32
        requires column { column < self.now.width }
        requires row { row < self.now.height }
        requires right { right < 256 }
        requires down { down < 256 }
        ensures value { result ≡ cubic_beside self.now column row right down }
        ensures few { result ≤ 524288 }
    {
        let last = self.width() - 1;
        let lowest = self.height() - 1;
        let above = self.row(row);
        let below = self.row((row + 1).min(lowest));
        let one = mixed_in(above, below, column.saturating_sub(1), down);
        let two = mixed_in(above, below, column, down);
        let three = mixed_in(above, below, (column + 1).min(last), down);
        let four = mixed_in(above, below, (column + 2).min(last), down);
        let more = weight_before(right) * u64::from(two)
            + weight_behind(right) * u64::from(three)
            + 549_755_813_888;
        (more.saturating_sub(less_by(one, four, right)) / 33_554_432) as u32
    }

    /// The value at a place, in 1/65536 dot from the corner of the picture, in 1/256 grey value and 64 grey values more: linear across rows,
    /// cubic along them; none if it is not in the picture.
    pub(crate) fn cubic_at(&self, x: u32, y: u32) -> Option<u32>
        ensures value { IfSome result (λ value. value ≡ cubic_at self.now x y) }
        ensures some { OnSome result (IsInPicture self.now x y) }
        ensures few { IfSome result (λ value. value ≤ 524288) }
    {
        if !self.holds(x, y) {
            return None;
        }
        let x = inside(x, self.width());
        let y = inside(y, self.height());
        let column = (x / 65_536) as usize;
        let row = (y / 65_536) as usize;
        Some(self.cubic_beside(column, row, x / 256 % 256, y / 256 % 256))
    }

    /// What `cubic_at` gives at a place in 1/131072 dot, if no dot that counts there is beyond an edge: the first of the
    /// four dots is less than `columns` dots from the left, and the upper row less than `rows` from the top.
    #[inline(always)]
    fn inner_at(&self, x: u64, y: u64, columns: usize, rows: usize) -> Option<u32>
        requires columns { 0 < columns → columns + 3 ≤ self.now.width }
        requires rows { 0 < rows → rows + 1 ≤ self.now.height }
    {
        let x = x.wrapping_sub(3 * 65_536);
        let y = y.wrapping_sub(65_536);
        let left = (x / 131_072) as usize;
        let row = (y / 131_072) as usize;
        if left >= columns || row >= rows {
            return None;
        }
        let above = self.row(row);
        let below = self.row(row + 1);
        let down = (y / 512 % 256) as u32;
        let dots = [
            mixed_in(above, below, left, down),
            mixed_in(above, below, left + 1, down),
            mixed_in(above, below, left + 2, down),
            mixed_in(above, below, left + 3, down),
        ];
        Some(cubic_between(dots, x / 512 % 256))
    }

    /// Adds to as many sums what `cubic_at` gives at places that are so far apart, in 1/131072 dot, up to the first that
    /// is not in the picture; how many. Nothing is promised here: it is for what is looked at before anything is told.
    pub(crate) fn add_along(
        &self,
        x: u64,
        y: u64,
        across: u64,
        down: u64,
        sums: &mut [u32],
    ) -> usize {
        let mut x = x;
        let mut y = y;
        let columns = self.width().saturating_sub(3);
        let rows = self.height().saturating_sub(1);
        for (sample, sum) in sums.iter_mut().enumerate() {
            let value = match self.inner_at(x, y, columns, rows) {
                Some(value) => Some(value),
                None => self.cubic_at(whole(x), whole(y)),
            };
            let Some(value) = value else {
                return sample;
            };
            *sum = sum.wrapping_add(value);
            x = x.wrapping_add(across);
            y = y.wrapping_add(down);
        }
        sums.len()
    }
}

/// A place in 1/65536 dot, by the same in halves of that.
fn whole(place: u64) -> u32 {
    (place / 2 % 4_294_967_296) as u32
}

/// What `cubic_beside` has between the second of four dots and the third, this many 256ths of the way from one to the other, by powers of the part.
fn cubic_between(dots: [u32; 4], part: u64) -> u32 {
    let [one, two, three, four] = dots.map(u64::from);
    let before = two.wrapping_sub(one);
    let between = three.wrapping_sub(two);
    let behind = four.wrapping_sub(three);
    let third = before
        .wrapping_add(behind)
        .wrapping_sub(between.wrapping_mul(2));
    let second = between.wrapping_sub(before).wrapping_sub(third);
    let first = before.wrapping_add(between);
    let all = part
        .wrapping_mul(third)
        .wrapping_add(second.wrapping_mul(256));
    let all = part
        .wrapping_mul(all)
        .wrapping_add(first.wrapping_mul(65_536));
    let all = part
        .wrapping_mul(all)
        .wrapping_add(two * 33_554_432 + 549_755_813_888);
    (all / 33_554_432 % 4_294_967_296) as u32
}

/// Half a dot.
const HALF: u32 = 32_768;

/// The place, from the middle of the first of so many dots, that is nearest to one from the corner of the picture.
fn inside(place: u32, dots: usize) -> u32
    requires some { 0 < dots }
    requires few { dots ≤ 65535 }
    ensures value { result ≡ inside dots place }
    ensures within { result / 65536 < dots }
{
    place.saturating_sub(HALF).min(65_536 * (dots as u32 - 1))
}

/// How much the dot before a place counts, of 2^25, if it is this many 256ths of the way to the next.
fn weight_before(part: u32) -> u64
    requires { part < 256 }
    ensures value { result ≡ weight_before part }
    ensures few { result ≤ 83298557 }
{
    let part = u64::from(part);
    let square = part * part;
    (33_554_432 + 3 * (square * part)).saturating_sub(1280 * square)
}

/// How much the one behind it counts.
fn weight_behind(part: u32) -> u64
    requires { part < 256 }
    ensures value { result ≡ weight_behind part }
    ensures few { result ≤ 83297280 }
{
    let part = u64::from(part);
    let square = part * part;
    (65_536 * part + 1024 * square).saturating_sub(3 * (square * part))
}

/// By how much the two beside them make it less.
fn less_by(one: u32, four: u32, part: u32) -> u64
    requires part { part < 256 }
    requires one { one ≤ 65280 }
    requires four { four ≤ 65280 }
    ensures { result ≡ less_by one four part }
{
    let part = u64::from(part);
    let rest = 256 - part;
    part * rest * (rest * u64::from(one) + part * u64::from(four))
}

/// 256 times the value of a column, this many 256ths of the way from a row down to the next.
fn mixed_in(above: &[u8], below: &[u8], column: usize, down: u32) -> u32
    requires above { column < length above.now }
    requires below { column < length below.now }
    requires down { down < 256 }
    ensures value { result ≡ mix (slice_index_or above.now column 0) (slice_index_or below.now column 0) down }
    ensures few { result ≤ 65280 }
{
    mixed(u32::from(above[column]), u32::from(below[column]), down)
}

/// 256 times the value that is this many 256ths of the way from one to another.
fn mixed(one: u32, other: u32, part: u32) -> u32
    requires part { part < 256 }
    requires one { one ≤ 65280 }
    requires other { other ≤ 65280 }
    ensures value { result ≡ mix one other part }
    ensures wide { result ≤ 256 * 65280 }
    ensures narrow { one ≤ 255 → other ≤ 255 → result ≤ 65280 }
{
    one * (256 - part) + other * part
}
