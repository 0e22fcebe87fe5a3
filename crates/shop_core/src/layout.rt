//! Lays out a label. Lengths are dots unless a name says mm.
//!
//! Nothing is promised here except that it ends, and the size: `draw` checks each drawing, and returns only those
//! that pass.
ghost use Rattle.std.specs.Prelude.{IfOk};
ghost use Rattle.shop_core.specs.Drawings.{IsOfSize};

use crate::drawing::Drawing;
use crate::fault::LabelFault;
use crate::letters::{Block, Breaks, Setting, Sizes, Span};
use crate::part::Field;
use crate::placing::{Align, Column, Parts, add, fine};
use crate::plan::{Common, Item, Plan, between};
use crate::small::{Small, Smalls, smalls_of, whole};
use crate::symbol_parts::Rows;
use arrayvec::ArrayVec;
use std::num::{nearest_usize_to_f64, saturating_f64_to_u16};

pub(crate) const LEAST_PRICE_MM: f64 = 2.6;

/// Lower labels have no room for a large price above their bars.
const LOW_MM: f64 = 22.0;

/// A label while it is laid out.
#[derive(Drop)]
pub(crate) struct Sheet<'a> {
    pub(crate) item: &'a Item<'a>,
    pub(crate) plan: &'a Plan<'a>,
    pub(crate) smalls: Smalls,
}

impl<'a> Sheet<'a> {
    pub(crate) fn common(&self) -> &Common {
        self.plan.common(self.item.is_retail())
    }

    pub(crate) fn dots(&self) -> f64 {
        self.plan.look.dots
    }

    pub(crate) fn high_mm(&self) -> f64 {
        self.plan.look.high_mm()
    }

    pub(crate) fn aside(&self) -> f64 {
        self.plan.look.aside
    }

    pub(crate) fn bottom(&self) -> f64 {
        self.plan.look.bottom()
    }

    pub(crate) fn room(&self) -> f64 {
        self.plan.look.room()
    }

    pub(crate) fn has(&self, field: Field) -> bool {
        !self.item.article.text(field).is_empty()
    }

    /// A field in bold type.
    pub(crate) fn bold(&self, field: Field) -> Setting<'a> {
        Setting {
            text: self.item.article.text(field),
            font: self.plan.fonts.bold,
            is_bold: true,
            breaks: Breaks::Blanks,
        }
    }

    /// Part of a field in regular type.
    pub(crate) fn regular(&self, small: Small) -> Setting<'a> {
        let text = self.item.article.text(small.field);
        let part = match text.get(small.span.from..small.span.end) {
            Some(part) => part,
            None => text,
        };
        Setting {
            text: part,
            font: self.plan.fonts.regular,
            is_bold: false,
            breaks: Breaks::Blanks,
        }
    }

    /// A whole field in regular type.
    pub(crate) fn field(&self, field: Field) -> Small {
        Small {
            field,
            span: Span {
                from: 0,
                end: self.item.article.text(field).len(),
            },
        }
    }

    /// The width between the white margins.
    pub(crate) fn across(&self, align: Align) -> Column {
        Column {
            left: self.aside(),
            width: self.room(),
            align,
        }
    }

    /// The first small texts, this many.
    pub(crate) fn first(&self, count: usize) -> &[Small] {
        match self.smalls.as_slice().get(..count) {
            Some(first) => first,
            None => self.smalls.as_slice(),
        }
    }

    /// The small texts behind the first.
    pub(crate) fn others(&self, count: usize) -> &[Small] {
        match self.smalls.as_slice().get(count..) {
            Some(others) => others,
            None => &[],
        }
    }

    /// How high small texts are at this width.
    pub(crate) fn smalls_height(&self, smalls: &[Small], width: f64, sizes: Sizes) -> f64 {
        let mut high = 0.0;
        for small in smalls {
            high += self.regular(*small).fitted(width, sizes).height();
        }
        high
    }

    /// Puts small texts below each other, and returns where they end.
    pub(crate) fn put_smalls(
        &self,
        parts: &mut Parts,
        smalls: &[Small],
        column: Column,
        top: f64,
        sizes: Sizes,
    ) -> Result<f64, LabelFault> {
        let mut at = top;
        for small in smalls {
            let block = self.regular(*small).fitted(column.width, sizes);
            at = small.put(parts, &block, column, at)?;
        }
        Ok(at)
    }

    /// The room between small texts beside each other, and how wide they are, in sizes.
    fn row_widths(&self, smalls: &[Small]) -> (f64, f64, f64) {
        let gap = 3.0 * self.plan.fonts.regular.width(&[32], 0, 1);
        let gaps = gap * (nearest_usize_to_f64(smalls.len()) - 1.0).max(0.0);
        let mut wide = 0.0;
        for small in smalls {
            let setting = self.regular(*small);
            wide += setting.width(0, setting.text.len());
        }
        (gap, gaps, wide)
    }

    /// The size of small texts beside each other in one line.
    fn row_size(&self, smalls: &[Small], sizes: Sizes) -> f64 {
        let (_, gaps, wide) = self.row_widths(smalls);
        between(sizes.smallest, self.room() / (wide + gaps), sizes.largest)
    }

    /// The height of a line of small texts beside each other.
    pub(crate) fn row_height(&self, smalls: &[Small], sizes: Sizes) -> f64 {
        if smalls.is_empty() {
            0.0
        } else {
            self.plan.fonts.regular.line(self.row_size(smalls, sizes))
        }
    }

    /// Puts small texts beside each other in one line, and returns where it ends.
    pub(crate) fn put_row(
        &self,
        parts: &mut Parts,
        smalls: &[Small],
        top: f64,
        sizes: Sizes,
    ) -> Result<f64, LabelFault> {
        let (gap, gaps, wide) = self.row_widths(smalls);
        let size = self.row_size(smalls, sizes);
        let share = ((self.room() - gaps * size) / (wide * size)).min(1.0);
        let mut left = self.aside();
        for small in smalls {
            let setting = self.regular(*small);
            // A little more than its letters need, since sums are rounded.
            let width = setting.width(0, setting.text.len()) * size * share + 0.01;
            let column = Column {
                left,
                width,
                align: Align::Left,
            };
            let block = setting.fitted(
                width,
                Sizes {
                    largest: size,
                    smallest: size,
                    lines: 1,
                },
            );
            small.put(parts, &block, column, top)?;
            left += width + gap * size;
        }
        Ok(top + self.row_height(smalls, sizes))
    }

    pub(crate) fn name(&self, width: f64) -> Block<'a> {
        let high = self.high_mm();
        let largest = between(2.5, 0.125 * high, 9.0);
        let sizes = Sizes {
            largest: largest * self.dots(),
            smallest: (0.6 * largest).max(1.9) * self.dots(),
            lines: if high < 60.0 { 2 } else { 3 },
        };
        self.bold(Field::Name).fitted(width, sizes)
    }

    pub(crate) fn price(&self, width: f64, largest: f64, smallest_mm: f64) -> Block<'a> {
        let sizes = Sizes {
            largest,
            smallest: smallest_mm * self.dots(),
            lines: 1,
        };
        self.bold(Field::Price).fitted(width, sizes)
    }

    /// The old price, at most this large.
    pub(crate) fn old_price(&self, width: f64, largest: f64) -> Block<'a> {
        let sizes = Sizes {
            largest,
            smallest: largest.min(1.7 * self.dots()),
            lines: 1,
        };
        self.regular(self.field(Field::OldPrice))
            .fitted(width, sizes)
    }

    /// Puts the name, the price to the right of it, the old price below the price, and the small texts below all of
    /// them. Returns where they end.
    pub(crate) fn put_head(&self, parts: &mut Parts) -> Result<f64, LabelFault> {
        let look = &self.plan.look;
        let price = self.price(0.48 * self.room(), self.common().above, 2.2);
        let old = self.old_price(0.48 * self.room(), 0.6 * price.size);
        let gap = if self.has(Field::Price) {
            self.dots()
        } else {
            0.0
        };
        let width = price.width().max(old.width());
        let left = self.room() - width - gap;
        let column = Column {
            left: self.aside() + self.room() - width,
            width,
            align: Align::Right,
        };
        // Prices have no accents.
        let upper = look.above - 0.08 * price.size;
        let price_end = whole(Field::Price).put(parts, &price, column, upper)?;
        let old_end = whole(Field::OldPrice).put(parts, &old, column, price_end)?;
        let beside = Column {
            left: self.aside(),
            width: left,
            align: Align::Left,
        };
        let name_end = whole(Field::Name).put(parts, &self.name(left), beside, look.above)?;
        self.put_below(parts, old_end.max(name_end))
    }

    /// Puts the small texts below the head of a label, and returns where they end.
    fn put_below(&self, parts: &mut Parts, top: f64) -> Result<f64, LabelFault> {
        let size = between(1.7, 0.07 * self.high_mm(), 5.0) * self.dots();
        let sizes = Sizes {
            largest: size,
            smallest: 0.7 * size,
            lines: 1,
        };
        // Low labels have one line for all of them.
        if self.high_mm() < 45.0 && self.smalls.len() > 1 {
            self.put_row(parts, self.smalls.as_slice(), top, sizes)
        } else {
            self.put_smalls(
                parts,
                self.smalls.as_slice(),
                self.across(Align::Left),
                top,
                sizes,
            )
        }
    }

    /// Puts the price to the right of the bars, the old price above it and the small texts below it, down to the end
    /// of the label. Returns an error if there is no room for them.
    pub(crate) fn put_price(&self, parts: &mut Parts, top: f64) -> Result<(), LabelFault> {
        let left = self.aside() + self.common().column + self.dots();
        let column = Column {
            left,
            width: self.plan.look.wide() - self.aside() - left,
            align: Align::Right,
        };
        let size = between(1.9, 0.085 * self.high_mm(), 5.0) * self.dots();
        let sizes = Sizes {
            largest: size,
            smallest: 0.6 * size,
            lines: 2,
        };
        let old = self.old_price(column.width, 1.3 * size);
        let smalls = self.smalls.as_slice();
        let room = self.bottom()
            - top
            - self.smalls_height(smalls, column.width, sizes)
            - old.height();
        let largest = self.common().beside.min(self.plan.fonts.bold.size_in(room));
        let price = self.price(column.width, largest, LEAST_PRICE_MM);
        if price.height() > room {
            return Err(LabelFault::NoPlace);
        }
        let at = top + room - price.height();
        let at = whole(Field::OldPrice).put(parts, &old, column, at)?;
        let at = whole(Field::Price).put(parts, &price, column, at)?;
        self.put_smalls(parts, smalls, column, at, sizes)?;
        Ok(())
    }

    /// Puts all but the bars. On a low label the price can be larger beside the bars than above them; it stands above
    /// them if there is no room for all texts beside them.
    fn put_all(&self, parts: &mut Parts) -> Result<Rows, LabelFault> {
        if !self.plan.look.is_price_first || !self.has(Field::Price) {
            return self.bars_first(parts);
        }
        if self.high_mm() < LOW_MM && self.item.wide() <= self.common().column {
            if let Ok(rows) = self.bars_first(parts) {
                return Ok(rows);
            }
            parts.clear();
        }
        self.price_first(parts)
    }

    /// The price beside the bars if there is room, otherwise above them.
    pub(crate) fn bars_first(&self, parts: &mut Parts) -> Result<Rows, LabelFault> {
        let look = &self.plan.look;
        let bars = self.bars(self.nominal());
        let wide = self.item.wide();
        let column = self.common().column;
        if wide <= column && (self.has(Field::Price) || self.smalls.len() > 0) {
            let name = self.name(self.room());
            let top = whole(Field::Name).put(parts, &name, self.across(Align::Left), look.above)?;
            self.put_price(parts, top)?;
            let left = self.aside() + (column - wide) / 2.0;
            return self.put_symbol(parts, left.round_ties_even(), top, bars);
        }
        let top = self.put_head(parts)?;
        let left = (look.wide() - wide) / 2.0;
        self.put_symbol(parts, left.round_ties_even(), top, bars)
    }
}

/// Draws an article. Nothing has checked the drawing yet.
pub(crate) fn sketch(item: &Item, plan: &Plan) -> Result<Drawing, LabelFault>
    ensures { IfOk result (IsOfSize plan.now.look.width plan.now.look.height item.now.module) }
{
    plan.check()?;
    let smalls = smalls_of(item)?;
    let sheet = Sheet { item, plan, smalls };
    let mut others = ArrayVec::new();
    let rows = sheet.put_all(&mut others)?;
    let mut parts = ArrayVec::new();
    sheet.put_bars(&mut parts, rows)?;
    for part in others.as_slice() {
        add(&mut parts, *part)?;
    }
    Ok(Drawing {
        width: plan.look.width,
        height: plan.look.height,
        parts,
        top: saturating_f64_to_u16(rows.top),
        end: saturating_f64_to_u16(rows.top + rows.high),
        left: saturating_f64_to_u16(rows.left),
        module: item.module,
        nominal: fine(rows.nominal),
    })
}
