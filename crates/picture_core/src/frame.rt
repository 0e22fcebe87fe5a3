//! Pictures as they are seen along rows that are turned.
ghost use Rattle.std.specs.Prelude.{◌^◌, pos, ◌≤ℤ◌};
ghost use Rattle.picture_core.specs.inner.Bounds.{IsBounded};

/// One, as frames count.
pub(crate) const ONE: i64 = 65536;

/// The part of a dot that places are given in.
pub(crate) const UNIT: i64 = 256;

/// A picture turned: its rows go by `cos` to the right and by `sin` downwards, in 1/65536.
#[derive(Clone, Copy)]
pub(crate) struct Frame {
    pub(crate) cos: i64,
    pub(crate) sin: i64,
    ghost cos_within: { IsBounded 65536 cos },
    ghost sin_within: { IsBounded 65536 sin },
}

/// A place in a picture, in 1/256 dot.
#[derive(Clone, Copy)]
pub(crate) struct Spot {
    pub(crate) x: i64,
    pub(crate) y: i64,
    ghost x_within: { IsBounded (2 ^ 29) x },
    ghost y_within: { IsBounded (2 ^ 29) y },
}

/// The most that a place is away from the first dot, in 1/256 dot, and the most of a slope, in 1/65536. A picture ends long before.
const FARTHEST: i64 = 1 << 29;

pub(crate) const UPRIGHT: Frame = Frame { cos: ONE, sin: 0 };

/// The nearest number that may be a place.
fn near(number: i64) -> i64
    ensures { IsBounded (2 ^ 29) result }
{
    number.clamp(-FARTHEST, FARTHEST)
}

fn product(place: i64, part: i64) -> i64
    requires place { IsBounded (2 ^ 29) place }
    requires part { IsBounded 65536 part }
    ensures { IsBounded (2 ^ 45) result }
{
    place * part
}

/// place * part / 65536.
fn scaled(place: i64, part: i64) -> i64
    requires place { IsBounded (2 ^ 29) place }
    requires part { IsBounded 65536 part }
    ensures { IsBounded (2 ^ 29) result }
{
    product(place, part) >> 16
}

/// How long the direction is.
pub(crate) fn size_of(c: i32, s: i32) -> i64
    ensures some { pos 0 ≤ℤ result }
    ensures most { result ≤ℤ pos (2 ^ 32) }
{
    let c = u64::from(c.unsigned_abs());
    let s = u64::from(s.unsigned_abs());
    (c * c + s * s).isqrt() as i64
}

/// A number over another, or 0 if that is 0.
pub(crate) fn over(a: i64, b: i64) -> i64
    requires { pos 0 ≤ℤ b }
{
    if b == 0 { 0 } else { a / b }
}

/// A part of a size, in 1/65536; 0 if the size is 0.
fn part_of(part: i64, size: i64) -> i64
    requires part { IsBounded (2 ^ 32) part }
    requires size { pos 0 ≤ℤ size }
    ensures { IsBounded 65536 result }
{
    over(part * ONE, size).clamp(-ONE, ONE)
}

/// The size with the sign of a number.
fn signed(size: i64, number: i64) -> i64
    requires { IsBounded 65536 size }
    ensures { IsBounded 65536 result }
{
    if number < 0 { -size } else { size }
}

impl Frame {
    /// Where a place is along the rows.
    pub(crate) fn u_of(self, spot: Spot) -> i64
        ensures { IsBounded (2 ^ 30) result }
    {
        scaled(spot.x, self.cos) + scaled(spot.y, self.sin)
    }

    /// In which row it is.
    pub(crate) fn v_of(self, spot: Spot) -> i64
        ensures { IsBounded (2 ^ 30) result }
    {
        scaled(spot.y, self.cos) - scaled(spot.x, self.sin)
    }

    /// The place that is so far along the rows and in this row.
    pub(crate) fn spot_at(self, u: i64, v: i64) -> Spot {
        let u = near(u);
        let v = near(v);
        Spot {
            x: near(scaled(u, self.cos) - scaled(v, self.sin)),
            y: near(scaled(u, self.sin) + scaled(v, self.cos)),
        }
    }

    /// Half of a direction: the frame across stripes whose doubled directions add up to this.
    pub(crate) fn half_of(c: i32, s: i32) -> Frame {
        let size = size_of(c, s);
        let cos = part_of(i64::from(c), size);
        let sin = part_of(i64::from(s), size);
        // The larger of both by the root, the other by sin 2a = 2 sin a cos a, so that a small one is as exact.
        if cos >= 0 {
            let root = half_root(cos);
            return Frame {
                cos: root,
                sin: part_of(sin, 2 * root),
            };
        }
        let root = half_root(-cos);
        Frame {
            cos: part_of(sin.abs(), 2 * root),
            sin: signed(root, sin),
        }
    }

    /// The frame whose rows go down by `slope` for each 65,536 along these.
    pub(crate) fn sheared(self, slope: i64) -> Frame {
        let slope = near(slope);
        let cos = (self.cos - scaled(slope, self.sin)) as i32;
        let sin = (self.sin + scaled(slope, self.cos)) as i32;
        let size = size_of(cos, sin);
        Frame {
            cos: part_of(i64::from(cos), size),
            sin: part_of(i64::from(sin), size),
        }
    }
}

/// The root of half of 1 and so much more, in 1/65536.
fn half_root(more: i64) -> i64
    ensures some { pos 0 ≤ℤ result }
    ensures most { result ≤ℤ pos 65536 }
{
    let square = (ONE + more.clamp(0, ONE)) * (ONE / 2);
    (square.unsigned_abs().isqrt() as i64).min(ONE)
}
