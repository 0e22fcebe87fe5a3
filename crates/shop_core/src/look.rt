//! Empty labels, and how they look.

use crate::fault::LabelFault;

/// An empty label, and how it looks. Lengths are dots unless a name says mm.
#[derive(Clone, Copy, Debug)]
pub struct Look {
    pub width: u16,
    pub height: u16,
    /// The white margin at each side, and above and below.
    pub aside: f64,
    pub above: f64,
    /// Dots per millimetre, 4 to 100.
    pub dots: f64,
    /// The width of a module, unless it is the standard's.
    pub module_mm: Option<f64>,
    /// The height of the bars, 5 to 100, unless it is the look's.
    pub bars_mm: Option<f64>,
    /// Whether the price is the largest, and the bars are a strip below it.
    pub is_price_first: bool,
}

/// Whether a number lies between two others, or is one of them.
pub(crate) fn is_within(least: f64, number: f64, most: f64) -> bool {
    least <= number && number <= most
}

impl Look {
    /// Whether its measures are possible.
    pub(crate) fn check(&self) -> Result<(), LabelFault> {
        let is_possible = is_within(4.0, self.dots, 100.0)
            && is_within(0.0, self.aside, self.wide())
            && is_within(0.0, self.above, self.high());
        if !is_possible {
            return Err(LabelFault::Measures);
        }
        match self.bars_mm {
            Some(high) if !is_within(5.0, high, 100.0) => Err(LabelFault::Bars),
            _ => Ok(()),
        }
    }

    pub(crate) fn wide(&self) -> f64 {
        f64::from(self.width)
    }

    pub(crate) fn high(&self) -> f64 {
        f64::from(self.height)
    }

    /// The greatest width of texts.
    pub(crate) fn room(&self) -> f64 {
        self.wide() - 2.0 * self.aside
    }

    /// The lowest row for any part.
    pub(crate) fn bottom(&self) -> f64 {
        self.high() - self.above
    }

    pub(crate) fn high_mm(&self) -> f64 {
        self.high() / self.dots
    }
}
