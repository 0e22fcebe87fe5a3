//! Boxes on the rows of a frame.
ghost use Rattle.std.specs.Prelude.{◌^◌};
ghost use Rattle.picture_core.specs.inner.Bounds.{IsBounded};

use crate::extent::{BEYOND, least, most};
use crate::frame::{Frame, Spot};
use crate::picture::Picture;
use crate::place::{Corners, Point};

/// A box on the rows of a frame, in 1/256 dot.
#[derive(Clone, Copy)]
pub(crate) struct Area {
    pub(crate) frame: Frame,
    pub(crate) left: i64,
    pub(crate) right: i64,
    pub(crate) top: i64,
    pub(crate) bottom: i64,
    ghost left_within: { IsBounded (2 ^ 40) left },
    ghost right_within: { IsBounded (2 ^ 40) right },
    ghost top_within: { IsBounded (2 ^ 40) top },
    ghost bottom_within: { IsBounded (2 ^ 40) bottom },
}

/// The nearest number from 0 to so much.
fn within(number: i64, most: u32) -> u32 {
    number.clamp(0, i64::from(most)) as u32
}

/// How wide and high a picture is, in 1/256 dot.
#[derive(Clone, Copy)]
pub(crate) struct Size {
    pub(crate) width: u32,
    pub(crate) height: u32,
}

impl Size {
    /// That of a picture.
    pub(crate) fn of(picture: &Picture) -> Size {
        let corner = Point::of_dots(picture.width() as u32, picture.height() as u32);
        Size {
            width: corner.x,
            height: corner.y,
        }
    }

    /// The nearest place of the picture.
    fn nearest(self, spot: Spot) -> Point {
        Point {
            x: within(spot.x, self.width),
            y: within(spot.y, self.height),
        }
    }
}

/// More than is rounded off of a place on a frame, up to 8,192 dots away: a quarter of a dot.
const ROUNDED: i64 = 64;

impl Area {
    /// The box of no place.
    fn nowhere(frame: Frame) -> Area {
        Area {
            frame,
            left: BEYOND,
            right: -BEYOND,
            top: BEYOND,
            bottom: -BEYOND,
        }
    }

    /// As wide as to have this place along the rows in it.
    fn widened(self, u: i64) -> Area
        requires { IsBounded (2 ^ 40) u }
    {
        Area {
            frame: self.frame,
            left: least(self.left, u),
            right: most(self.right, u),
            top: self.top,
            bottom: self.bottom,
        }
    }

    /// As high as to have this row in it.
    fn heightened(self, v: i64) -> Area
        requires { IsBounded (2 ^ 40) v }
    {
        Area {
            frame: self.frame,
            left: self.left,
            right: self.right,
            top: least(self.top, v),
            bottom: most(self.bottom, v),
        }
    }

    /// As large as to have this place in it, with what is rounded off.
    fn with(self, spot: Spot) -> Area {
        let u = self.frame.u_of(spot);
        let v = self.frame.v_of(spot);
        self.widened(u - ROUNDED)
            .widened(u + ROUNDED)
            .heightened(v - ROUNDED)
            .heightened(v + ROUNDED)
    }

    /// The least box on a frame that has all these places in it.
    pub(crate) fn around(frame: Frame, spots: &[Spot]) -> Area {
        let mut area = Area::nowhere(frame);
        for spot in spots {
            area = area.with(*spot);
        }
        area
    }

    /// Whether a place is in it or so near.
    fn holds(&self, spot: Spot, margin: i64) -> bool
        requires { IsBounded (2 ^ 40) margin }
    {
        let u = self.frame.u_of(spot);
        let v = self.frame.v_of(spot);
        self.left - margin <= u
            && u < self.right + margin
            && self.top - margin <= v
            && v < self.bottom + margin
    }

    /// Whether a place is in it or about its quiet zones: an eighth of the width.
    pub(crate) fn is_near(&self, spot: Spot) -> bool {
        self.holds(spot, (self.right - self.left) / 8)
    }

    /// Its corners, clockwise from the upper left one of the frame.
    fn spots(&self) -> [Spot; 4] {
        [
            self.frame.spot_at(self.left, self.top),
            self.frame.spot_at(self.right, self.top),
            self.frame.spot_at(self.right, self.bottom),
            self.frame.spot_at(self.left, self.bottom),
        ]
    }

    /// Its corners in a picture of this size.
    pub(crate) fn corners(&self, size: Size) -> Corners {
        let [upper_left, upper_right, lower_right, lower_left] = self.spots();
        Corners {
            upper_left: size.nearest(upper_left),
            upper_right: size.nearest(upper_right),
            lower_right: size.nearest(lower_right),
            lower_left: size.nearest(lower_left),
        }
    }

    fn middle(&self) -> Spot {
        self.frame
            .spot_at((self.left + self.right) / 2, (self.top + self.bottom) / 2)
    }

    fn is_near_corner(&self, other: &Area) -> bool {
        for spot in other.spots() {
            if self.is_near(spot) {
                return true;
            }
        }
        false
    }

    /// Whether a corner of one is near the other.
    pub(crate) fn meets(&self, other: &Area) -> bool {
        self.is_near_corner(other) || other.is_near_corner(self)
    }

    /// Whether the middle of one is in the other.
    pub(crate) fn is_at(&self, other: &Area) -> bool {
        self.holds(other.middle(), 0) || other.holds(self.middle(), 0)
    }

    /// Makes it as high as both are.
    pub(crate) fn take_in(&mut self, other: &Area) {
        let middle = (other.left + other.right) / 2;
        let top = self.frame.v_of(other.frame.spot_at(middle, other.top));
        let bottom = self.frame.v_of(other.frame.spot_at(middle, other.bottom));
        *self = self.heightened(top).heightened(bottom);
    }
}
