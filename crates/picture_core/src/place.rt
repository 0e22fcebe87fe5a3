//! Places of a picture.
ghost use Rattle.std.specs.Prelude.{◌≡◌, ◌+◌, ◌*◌, ◌/◌, ◌^◌, ◌<◌, ◌↔◌, IsTrue};

use crate::own_row::OwnRow;

/// The parts of a dot that places are given in.
pub(crate) const UNIT: u32 = 256;

/// The most dots of a side.
const MOST_DOTS: u32 = 65_536;

/// A place of a picture, in 1/256 dot from its left and from its top.
#[derive(Clone, Copy)]
pub struct Point {
    pub x: u32,
    pub y: u32,
}

/// The corners of a symbol, clockwise. Its upper left one is the one that is above left where its bars stand upright.
#[derive(Clone, Copy)]
pub struct Corners {
    pub upper_left: Point,
    pub upper_right: Point,
    pub lower_right: Point,
    pub lower_left: Point,
}

/// The product of two numbers.
pub(crate) fn product(one: u32, other: u32) -> u128
    ensures product { result ≡ one * other }
    ensures small { result < 2 ^ 64 }
{
    u128::from(one) * u128::from(other)
}

/// Half way between two numbers.
pub(crate) fn half_way(one: u32, other: u32) -> u32
    ensures { result ≡ (one + other) / 2 }
{
    ((u64::from(one) + u64::from(other)) / 2) as u32
}

impl Point {
    ghost use Rattle.picture_core.specs.Places.{IsBeyond, IsInSize, IsRightOf};

    /// The upper left corner of a dot.
    pub(crate) fn of_dots(column: u32, row: u32) -> Point {
        Point {
            x: column.min(MOST_DOTS) * UNIT,
            y: row.min(MOST_DOTS) * UNIT,
        }
    }

    /// Whether this place is on the right, going from one place to another: the triangle of the three has twice this area or more.
    pub(crate) fn is_beyond(self, from: Point, to: Point, area: u64) -> bool
        ensures { IsTrue result → IsBeyond from to self area }
    {
        product(from.y, to.x) + product(to.y, self.x) + product(self.y, from.x) + u128::from(area)
            <= product(from.x, to.y) + product(to.x, self.y) + product(self.x, from.y)
    }

    /// Whether this is a place of a picture of this size.
    fn is_in_size(self, width: usize, height: usize) -> bool
        ensures { IsTrue result → IsInSize width height self }
    {
        width <= 65_535
            && height <= 65_535
            && self.x as usize <= 256 * width
            && self.y as usize <= 256 * height
    }

    /// Whether this place is on the right or straight ahead, going from one place to another.
    fn is_right_of(self, from: Point, to: Point) -> bool
        ensures { IsTrue result ↔ IsRightOf from to self }
    {
        product(from.y, to.x) + product(to.y, self.x) + product(self.y, from.x)
            <= product(from.x, to.y) + product(to.x, self.y) + product(self.x, from.y)
    }
}

impl Corners {
    ghost use Rattle.picture_core.specs.Places.{AreBarsOn, AreInSize, HaveArea, IsOn, corner_of, lowest, middle};

    /// Whether a place is on the symbol.
    pub fn hold(&self, place: Point) -> bool
        ensures { IsTrue result ↔ IsOn self.now place }
    {
        place.is_right_of(self.upper_left, self.upper_right)
            && place.is_right_of(self.upper_right, self.lower_right)
            && place.is_right_of(self.lower_right, self.lower_left)
            && place.is_right_of(self.lower_left, self.upper_left)
    }

    /// Whether none is outside of a picture of this size.
    pub(crate) fn are_in_size(&self, width: usize, height: usize) -> bool
        ensures { IsTrue result → AreInSize width height self.now }
    {
        self.upper_left.is_in_size(width, height)
            && self.upper_right.is_in_size(width, height)
            && self.lower_right.is_in_size(width, height)
            && self.lower_left.is_in_size(width, height)
    }

    /// Whether they are the corners of an area.
    pub(crate) fn have_area(&self) -> bool
        ensures { IsTrue result → HaveArea self.now }
    {
        !self
            .upper_left
            .is_right_of(self.lower_right, self.upper_right)
    }

    /// Whether the upper left corner of a dot is on the symbol.
    fn hold_corner(&self, column: u32, row: u32) -> bool
        ensures { IsTrue result → IsOn self.now (corner_of column row) }
    {
        match (column.checked_mul(UNIT), row.checked_mul(UNIT)) {
            (Some(x), Some(y)) => self.hold(Point { x, y }),
            _ => false,
        }
    }

    /// Whether the bars of a row are on the symbol.
    pub(crate) fn hold_bars(&self, at: OwnRow) -> bool
        ensures { IsTrue result → AreBarsOn self.now at }
    {
        let Some(below) = at.y.checked_add(1) else {
            return false;
        };
        self.hold_corner(at.left, at.y)
            && self.hold_corner(at.right, at.y)
            && self.hold_corner(at.right, below)
            && self.hold_corner(at.left, below)
    }

    /// How far down they reach.
    pub(crate) fn lowest(&self) -> u32
        ensures { result ≡ lowest self.now }
    {
        self.upper_left
            .y
            .max(self.upper_right.y)
            .max(self.lower_right.y)
            .max(self.lower_left.y)
    }

    /// Half way between two opposite corners.
    pub fn middle(&self) -> Point
        ensures { result ≡ middle self.now }
    {
        Point {
            x: half_way(self.upper_left.x, self.lower_right.x),
            y: half_way(self.upper_left.y, self.lower_right.y),
        }
    }
}
