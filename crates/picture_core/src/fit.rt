//! The line that fits some points best.
ghost use Rattle.std.specs.Prelude.{◌≡◌, ◌*◌, ◌^◌, ◌≤◌};
ghost use Rattle.picture_core.specs.inner.Bounds.{IsBounded};

/// Sums over points, of how far each is along and aside.
#[derive(Clone, Copy)]
pub(crate) struct Fit {
    points: u32,
    along: i64,
    aside: i64,
    squares: i64,
    products: i64,
    ghost few: { points ≤ 262143 },
    ghost along_within: { IsBounded (4194304 * points) along },
    ghost aside_within: { IsBounded (4194304 * points) aside },
    ghost squares_within: { IsBounded (17592186044416 * points) squares },
    ghost products_within: { IsBounded (17592186044416 * points) products },
}

/// The most points. A picture has fewer rows, and patches have fewer blocks if they are not of hundreds of megapixels.
const MOST: u32 = 262_143;

fn product(one: i64, other: i64) -> i64
    requires one { IsBounded (2 ^ 22) one }
    requires other { IsBounded (2 ^ 22) other }
    ensures { IsBounded (2 ^ 44) result }
{
    one * other
}

impl Fit {
    /// No point.
    pub(crate) fn none() -> Fit {
        Fit {
            points: 0,
            along: 0,
            aside: 0,
            squares: 0,
            products: 0,
        }
    }

    /// With one point more, as long as there is room for it.
    pub(crate) fn with(self, along: i64, aside: i64) -> Fit
        requires along { IsBounded (2 ^ 22) along }
        requires aside { IsBounded (2 ^ 22) aside }
    {
        if self.points == MOST {
            return self;
        }
        Fit {
            points: self.points + 1,
            along: self.along + along,
            aside: self.aside + aside,
            squares: self.squares + product(along, along),
            products: self.products + product(along, aside),
        }
    }

    pub(crate) fn points(&self) -> u32
        ensures { result ≤ 262143 }
    {
        self.points
    }

    /// By how much points differ along: their number, squared, times the mean square of how far they are from their middle; none if
    /// this does not fit.
    pub(crate) fn spread(&self) -> Option<i64> {
        i64::from(self.points)
            .checked_mul(self.squares)?
            .checked_sub(self.along.checked_mul(self.along)?)
    }

    /// How far the line goes aside where it goes as far along as the spread says; none if this does not fit.
    pub(crate) fn slope(&self) -> Option<i64> {
        i64::from(self.points)
            .checked_mul(self.products)?
            .checked_sub(self.along.checked_mul(self.aside)?)
    }
}
