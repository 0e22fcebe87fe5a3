//! The look in which the price comes first. Lengths are dots.

use crate::fault::LabelFault;
use crate::form::bars_mm;
use crate::layout::{LEAST_PRICE_MM, Sheet};
use crate::letters::Sizes;
use crate::part::Field;
use crate::placing::{Align, Column, Parts};
use crate::plan::between;
use crate::small::{small_sizes, whole};
use crate::symbol_parts::{GAP_MM, Rows};

/// The least room beside the bars for further texts on a label whose price comes first.
const LEAST_SIDE_MM: f64 = 8.0;

impl<'a> Sheet<'a> {
    /// The size at which a large price is as wide as its room.
    fn widest_price(&self) -> f64 {
        let text = self.item.article.text(Field::Price);
        let share = if self.has(Field::OldPrice) {
            0.66
        } else {
            0.99
        };
        self.room() * share / self.plan.fonts.bold.width(text, 0, text.len())
    }

    /// Puts the price at the lower end of a band, as large as there is room, with the old price on its baseline, to the
    /// left of it.
    pub(crate) fn put_large_price(
        &self,
        parts: &mut Parts,
        top: f64,
        bottom: f64,
    ) -> Result<(), LabelFault> {
        let room = bottom - top;
        let wide = self.widest_price();
        let largest = wide.min(self.plan.fonts.bold.size_in(room));
        let price = self.price(self.room(), largest, LEAST_PRICE_MM);
        if price.height() > room {
            return Err(LabelFault::NoPlace);
        }
        let column = self.across(Align::Right);
        let upper = bottom - price.height();
        whole(Field::Price).put(parts, &price, column, upper)?;
        let width = self.room() - price.width() - self.dots();
        let old = self.old_price(width, (0.42 * price.size).max(1.7 * self.dots()));
        let beside = Column {
            left: self.aside(),
            width,
            align: Align::Left,
        };
        let lower = price.upper() - old.upper();
        whole(Field::OldPrice).put(parts, &old, beside, upper + lower)?;
        Ok(())
    }

    /// The sizes of small texts with which the most of them fit a column of this height, and how many fit.
    pub(crate) fn beside(&self, width: f64, high: f64, largest: f64) -> (usize, Sizes) {
        let least = largest.min(1.7 * self.dots());
        let mut size = largest;
        for _ in 0..40u8 {
            let sizes = small_sizes(size, least);
            if size <= least || self.smalls_height(self.smalls.as_slice(), width, sizes) <= high {
                break;
            }
            size = (0.9 * size).max(least);
        }
        let sizes = small_sizes(size, least);
        let mut count = 0usize;
        for number in 1..=self.smalls.len() {
            if self.smalls_height(self.first(number), width, sizes) <= high {
                count = number;
            }
        }
        if width > LEAST_SIDE_MM * self.dots() {
            (count, sizes)
        } else {
            (0, sizes)
        }
    }

    /// Puts the name at the upper end, and returns where it ends. It leaves enough of this height for a price that is
    /// larger than the name, or as large as its width allows.
    fn put_large_name(&self, parts: &mut Parts, high: f64) -> Result<f64, LabelFault> {
        let largest = between(2.6, 0.13 * self.high_mm(), 22.0) * self.dots();
        let sizes = Sizes {
            largest,
            smallest: (0.55 * largest).min(4.0 * self.dots()),
            lines: if self.high_mm() < 60.0 { 2 } else { 3 },
        };
        let price = self.widest_price().min(1.2 * largest);
        let name = self.bold(Field::Name);
        let room = high - name.font.line(price);
        let block = name.fitted_in(self.room(), room, sizes);
        let column = self.across(Align::Left);
        whole(Field::Name).put(parts, &block, column, self.plan.look.above)
    }

    /// Puts the name above, below it the price as large as there is room, and a strip of bars with the small texts
    /// beside it. Small texts without room there are in a line below the name.
    pub(crate) fn price_first(&self, parts: &mut Parts) -> Result<Rows, LabelFault> {
        let look = &self.plan.look;
        let dots = self.dots();
        let high = self.high_mm();
        let kind = self.item.article.label.kind();
        let bars = self.bars(between(6.0, 0.24 * high, bars_mm(kind)) * dots);
        let strip = bars + self.under_height(&self.under()) + 2.0 * self.bearer();
        let bottom = self.bottom() - strip - GAP_MM * dots;
        // A symbol that is wider than texts may be has its quiet zones in the white margins.
        let left = self
            .aside()
            .min((look.wide() - self.item.wide()) / 2.0)
            .round_ties_even();
        let behind = left + self.item.wide() + 0.6 * dots;
        let column = Column {
            left: behind,
            width: look.wide() - self.aside() - behind,
            align: Align::Right,
        };
        let small = between(2.0, 0.075 * high, 9.0) * dots;
        let (count, sizes) = self.beside(column.width, strip, small);
        let (first, others) = (self.first(count), self.others(count));
        let row = small_sizes(small, small.min(1.5 * dots));
        let band = bottom - look.above - self.row_height(others, row);
        let top = self.put_large_name(parts, band)?;
        let needed = self.smalls_height(first, column.width, sizes);
        self.put_smalls(parts, first, column, self.bottom() - needed, sizes)?;
        let top = self.put_row(parts, others, top, row)?;
        self.put_large_price(parts, top, bottom)?;
        self.put_symbol(parts, left, bottom, bars)
    }
}
