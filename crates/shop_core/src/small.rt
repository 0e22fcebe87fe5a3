//! Texts of a label, typeset in lines: whole fields, and the small ones.

use crate::fault::LabelFault;
use crate::letters::{Block, Sizes, Span};
use crate::part::{Field, Ink, Run};
use crate::placing::{Column, Parts, add, fine, part, short};
use crate::plan::Item;
use arrayvec::ArrayVec;

/// The most further lines.
const MOST_LINES: usize = 8;

/// The most small texts: the further lines, and four fields.
const MOST_SMALL: usize = 12;

/// The fields that come before the further lines.
const SMALL_FIELDS: [Field; 4] = [
    Field::UnitPrice,
    Field::Deposit,
    Field::BestBefore,
    Field::Batch,
];

/// A small text: a field, or a line of one.
#[derive(Clone, Copy)]
pub(crate) struct Small {
    pub(crate) field: Field,
    pub(crate) span: Span,
}

pub(crate) type Smalls = ArrayVec<Small, MOST_SMALL>;

impl Default for Small {
    fn default() -> Small {
        Small {
            field: Field::Lines,
            span: Span { from: 0, end: 0 },
        }
    }
}

impl Small {
    /// Puts a line of a block of it below a height, and returns where it ends.
    fn put_line(
        self,
        parts: &mut Parts,
        block: &Block,
        number: usize,
        column: Column,
        upper: f64,
    ) -> Result<f64, LabelFault> {
        let Some(line) = block.lines.as_slice().get(number) else {
            return Ok(upper);
        };
        let font = block.setting.font;
        let wide = block.line_width(number);
        let start = column.start(wide);
        let lower = upper + font.line(block.size);
        if !(block.size >= 1.0) {
            return Err(LabelFault::NoPlace);
        }
        let run = Run {
            field: self.field,
            from: short(self.span.from.saturating_add(line.from)),
            count: short(line.end.saturating_sub(line.from)),
            is_cut: block.is_cut_line(number),
            is_bold: block.setting.is_bold,
            is_struck: self.field.is_old(),
            size: fine(block.size),
            left: fine(start),
            base: fine(upper.floor() + font.upper(block.size)),
            step: 0,
        };
        add(
            parts,
            part(start, upper, start + wide, lower, Ink::Letters(run)),
        )?;
        Ok(lower)
    }

    /// Puts a block of it below a height, and returns where it ends.
    pub(crate) fn put(
        self,
        parts: &mut Parts,
        block: &Block,
        column: Column,
        top: f64,
    ) -> Result<f64, LabelFault> {
        if block.is_cut && !self.field.may_go_on() {
            return Err(LabelFault::NoPlace);
        }
        let mut upper = top;
        for number in 0..block.lines.len() {
            upper = self.put_line(parts, block, number, column, upper)?;
        }
        Ok(top + block.height())
    }
}

/// The sizes of small texts: at most this large; in two lines at least three fifths of it, unless that is below the
/// least.
pub(crate) fn small_sizes(largest: f64, least: f64) -> Sizes {
    Sizes {
        largest,
        smallest: largest.min((0.6 * largest).max(least)),
        lines: 2,
    }
}

/// A whole field.
pub(crate) fn whole(field: Field) -> Small {
    Small {
        field,
        span: Span { from: 0, end: 0 },
    }
}

/// Puts a small text behind others.
pub(crate) fn add_small(smalls: &mut Smalls, small: Small) -> Result<(), LabelFault> {
    if small.span.end <= small.span.from {
        return Ok(());
    }
    match smalls.try_push(small) {
        Ok(()) => Ok(()),
        Err(_) => Err(LabelFault::Lines),
    }
}

/// Puts a part of a field behind other small texts.
fn add_part(smalls: &mut Smalls, field: Field, from: usize, end: usize) -> Result<(), LabelFault> {
    let span = Span { from, end };
    add_small(smalls, Small { field, span })
}

/// Puts the further lines behind other small texts.
fn add_lines(smalls: &mut Smalls, lines: &[u32]) -> Result<(), LabelFault> {
    let mut from = 0usize;
    let mut count = 0usize;
    for place in 0..lines.len() {
        if lines[place] == 10 {
            add_part(smalls, Field::Lines, from, place)?;
            from = place.saturating_add(1);
            count = count.saturating_add(1);
        }
    }
    if count >= MOST_LINES {
        return Err(LabelFault::Lines);
    }
    add_part(smalls, Field::Lines, from, lines.len())
}

/// The small texts of an article.
pub(crate) fn smalls_of(item: &Item) -> Result<Smalls, LabelFault> {
    let mut smalls = ArrayVec::new();
    for field in &SMALL_FIELDS {
        add_part(&mut smalls, *field, 0, item.article.text(*field).len())?;
    }
    add_lines(&mut smalls, item.article.text(Field::Lines))?;
    Ok(smalls)
}
