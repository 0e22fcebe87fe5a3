//! Parts of a label while it is laid out. Lengths are dots.

use crate::drawing::MOST_PARTS;
use crate::fault::LabelFault;
use crate::part::{Ink, Part};
use arrayvec::ArrayVec;
use std::num::{saturating_f64_to_u16, saturating_f64_to_u32};

pub(crate) type Parts = ArrayVec<Part, MOST_PARTS>;

/// A text's place in its field: at its left, in the middle, or at its right.
#[derive(Clone, Copy)]
pub(crate) enum Align {
    Left,
    Middle,
    Right,
}

/// A column for a text: where it begins, and how wide it is.
#[derive(Clone, Copy)]
pub(crate) struct Column {
    pub(crate) left: f64,
    pub(crate) width: f64,
    pub(crate) align: Align,
}

/// Puts a part behind the others.
pub(crate) fn add(parts: &mut Parts, part: Part) -> Result<(), LabelFault> {
    match parts.try_push(part) {
        Ok(()) => Ok(()),
        Err(_) => Err(LabelFault::NoPlace),
    }
}

/// A sixty-fourth of a dot.
pub(crate) fn fine(length: f64) -> u32 {
    saturating_f64_to_u32(length * 64.0)
}

pub(crate) fn short(number: usize) -> u16 {
    number.min(65_535) as u16
}

/// A rectangle with its edges at whole dots: the sides are rounded outward, the upper and the lower edge upward.
pub(crate) fn part(left: f64, top: f64, right: f64, bottom: f64, ink: Ink) -> Part {
    let from = saturating_f64_to_u16(left.floor());
    let up = saturating_f64_to_u16(top.floor());
    Part {
        left: from,
        top: up,
        width: saturating_f64_to_u16(right.ceil()).saturating_sub(from),
        height: saturating_f64_to_u16(bottom.floor()).saturating_sub(up),
        ink,
    }
}

impl Column {
    /// Where a text of this width begins.
    pub(crate) fn start(&self, wide: f64) -> f64 {
        match self.align {
            Align::Left => self.left,
            Align::Middle => self.left + (self.width - wide) / 2.0,
            Align::Right => self.left + self.width - wide,
        }
    }
}
