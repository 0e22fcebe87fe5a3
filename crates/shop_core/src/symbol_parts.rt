//! The symbol of a label that is laid out: its bars, the text under them, and its bearer bars. Lengths are dots.

use crate::fault::LabelFault;
use crate::form::{bars_mm, groups, is_long, module_range};
use crate::layout::Sheet;
use crate::letters::{Block, Breaks, Font, Setting, Sizes};
use crate::part::{Field, Ink, Run};
use crate::placing::{Align, Column, Parts, add, fine, part};
use crate::small::whole;

pub(crate) const GAP_MM: f64 = 0.9;

const LEAST_BARS_MM: f64 = 5.0;

/// Where a symbol is: the first row through its bars, the row below the last one, and where its left quiet zone
/// begins.
#[derive(Clone, Copy)]
pub(crate) struct Rows {
    pub(crate) top: f64,
    pub(crate) high: f64,
    pub(crate) left: f64,
    /// The height of bars in the standard.
    pub(crate) nominal: f64,
}

impl<'a> Sheet<'a> {
    /// Puts the bars; the long ones are longer by five modules.
    pub(crate) fn put_bars(&self, parts: &mut Parts, rows: Rows) -> Result<(), LabelFault> {
        let module = self.item.module();
        let start = rows.left + f64::from(self.item.article.symbol.quiet_left()) * module;
        let kind = self.item.article.label.kind();
        let mut at = 0u32;
        let mut is_dark = true;
        for width in self.item.article.symbol.widths() {
            if is_dark {
                let left = start + f64::from(at) * module;
                let right = left + f64::from(*width) * module;
                let more = if is_long(kind, at) { 5.0 * module } else { 0.0 };
                add(
                    parts,
                    part(left, rows.top, right, rows.top + rows.high + more, Ink::Bar),
                )?;
            }
            at = at.saturating_add(u32::from(*width));
            is_dark = !is_dark;
        }
        Ok(())
    }

    /// Puts digits in groups, 25 / 3 modules high and one module below the bars (GS1 General Specifications, section
    /// 5.2.5).
    pub(crate) fn put_groups(
        &self,
        parts: &mut Parts,
        start: f64,
        bottom: f64,
    ) -> Result<(), LabelFault> {
        let module = self.item.module();
        let font: Font = self.plan.fonts.regular;
        let rise = f64::from(font.digits) / 16_384.0;
        let fitting = 6.7 * module / font.width(&[48], 0, 1);
        let size = (11.8 * module).min(fitting).min(8.8 * module / rise);
        // Round digits reach a little below their baseline.
        let base = (bottom - 0.015 * size).floor();
        for (first, count, at, cell) in groups(self.item.article.label.kind()) {
            let wide = f64::from(*cell) * module;
            let own = size * (f64::from(*cell) / 7.0).min(1.0);
            let left = start + (f64::from(*at) - 20.0) * module;
            let run = Run {
                field: Field::Digits,
                from: u16::from(*first),
                count: u16::from(*count),
                is_cut: false,
                is_bold: false,
                is_struck: false,
                size: fine(own),
                left: fine(left),
                base: fine(base),
                step: fine(wide),
            };
            let right = left + f64::from(*count) * wide;
            add(
                parts,
                part(
                    left,
                    base - rise * own,
                    right,
                    bottom.ceil(),
                    Ink::Letters(run),
                ),
            )?;
        }
        Ok(())
    }

    /// The text under a symbol without groups of digits.
    pub(crate) fn under(&self) -> Block<'a> {
        let setting = Setting {
            breaks: Breaks::Elements,
            ..self.regular(self.field(Field::Digits))
        };
        let sizes = Sizes {
            largest: 3.4 * self.dots(),
            smallest: 2.2 * self.dots(),
            lines: 3,
        };
        setting.fitted(self.item.wide(), sizes)
    }

    /// The height of the text under the symbol, with the white above it.
    pub(crate) fn under_height(&self, digits: &Block) -> f64 {
        if self.item.is_retail() {
            (1.0 + 25.0 / 3.0) * self.item.module()
        } else {
            0.8 * self.dots() + digits.height()
        }
    }

    /// The height of bars in the standard.
    pub(crate) fn nominal(&self) -> f64 {
        let kind = self.item.article.label.kind();
        let scale = if self.item.is_retail() {
            self.item.module() / module_range(kind).wanted
        } else {
            self.dots()
        };
        bars_mm(kind) * scale
    }

    /// Where a symbol is whose left quiet zone begins here: at the lower end of the label, below a height, with bars
    /// as high as requested or as there is room for.
    pub(crate) fn rows(
        &self,
        left: f64,
        top: f64,
        wanted: f64,
        under: f64,
        bearer: f64,
    ) -> Result<Rows, LabelFault> {
        let dots = self.dots();
        let room = self.bottom() - under - top - 2.0 * bearer - GAP_MM * dots;
        let high = wanted.min(room).floor();
        if !(high >= LEAST_BARS_MM * dots) {
            return Err(LabelFault::NoHeight);
        }
        Ok(Rows {
            top: (self.bottom() - under - bearer - high).floor(),
            high,
            left,
            nominal: self.nominal(),
        })
    }

    /// The height of a bearer bar.
    pub(crate) fn bearer(&self) -> f64 {
        if self.item.article.has_bearers {
            2.0 * self.item.module()
        } else {
            0.0
        }
    }

    /// Puts the text under a symbol, and its bearer bars, at the lower end of the label and below a height. Returns
    /// where its bars are.
    pub(crate) fn put_symbol(
        &self,
        parts: &mut Parts,
        left: f64,
        top: f64,
        wanted: f64,
    ) -> Result<Rows, LabelFault> {
        let module = self.item.module();
        let digits = self.under();
        let under = self.under_height(&digits);
        let bearer = self.bearer();
        let rows = self.rows(left, top, wanted, under, bearer)?;
        let start = left + f64::from(self.item.article.symbol.quiet_left()) * module;
        let end = rows.top + rows.high;
        if bearer > 0.0 {
            let right = left + self.item.wide();
            add(
                parts,
                part(left, rows.top - bearer, right, rows.top, Ink::Bearer),
            )?;
            add(parts, part(left, end, right, end + bearer, Ink::Bearer))?;
        }
        let bottom = end + bearer + under;
        if self.item.is_retail() {
            self.put_groups(parts, start, bottom)?;
        } else {
            let column = Column {
                left,
                width: self.item.wide(),
                align: Align::Middle,
            };
            whole(Field::Digits).put(parts, &digits, column, bottom - digits.height())?;
        }
        Ok(rows)
    }

    /// The height of bars, if the caller requests none.
    pub(crate) fn bars(&self, usual: f64) -> f64 {
        match self.plan.look.bars_mm {
            Some(high) => high * self.dots(),
            None => usual,
        }
    }
}
