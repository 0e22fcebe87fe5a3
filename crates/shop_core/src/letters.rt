//! How texts fill lines. Lengths are dots.

use crate::fault::LabelFault;
use crate::look::is_within;
use crate::part::is_blank;
use arrayvec::ArrayVec;
use std::num::nearest_usize_to_f64;

/// The most lines of a block.
const MOST_LINES: usize = 3;

/// Longer texts have no room on any label.
const MOST_LETTERS: usize = 300;

const ELLIPSIS: u32 = 0x2026;

const FEED: u32 = 10;

const SPACE: u32 = 32;

/// The measures of a font, in 1/16,384 of its size.
#[repr(C)]
#[derive(Clone, Copy)]
pub struct Font<'a> {
    /// The widths of its letters by their code points; 0 if it lacks the letter.
    pub widths: &'a [u16],
    /// The width of its replacement for letters that it lacks.
    pub other: u16,
    /// How far its letters reach above and below their baseline; together at least half a size.
    pub ascent: u16,
    pub descent: u16,
    /// How far its digits reach above the baseline.
    pub digits: u16,
}

/// The fonts of labels.
#[repr(C)]
#[derive(Clone, Copy)]
pub struct Fonts<'a> {
    pub regular: Font<'a>,
    pub bold: Font<'a>,
}

/// Letters from one index up to another.
#[derive(Clone, Copy, Default)]
pub(crate) struct Span {
    pub(crate) from: usize,
    pub(crate) end: usize,
}

/// Where lines of a text may end.
#[derive(Clone, Copy, PartialEq, Eq)]
pub(crate) enum Breaks {
    /// At blanks, and behind hyphens.
    Blanks,
    /// Before an opening parenthesis: each element begins with one.
    Elements,
}

/// A text, and how it is typeset.
#[derive(Clone, Copy)]
pub(crate) struct Setting<'a> {
    pub(crate) text: &'a [u32],
    pub(crate) font: Font<'a>,
    pub(crate) is_bold: bool,
    pub(crate) breaks: Breaks,
}

/// Sizes of a text, and the most lines that it may have.
#[derive(Clone, Copy)]
pub(crate) struct Sizes {
    pub(crate) largest: f64,
    pub(crate) smallest: f64,
    pub(crate) lines: u8,
}

/// Lines of a text in one size, and whether part of it is left out.
#[derive(Drop)]
pub(crate) struct Block<'a> {
    pub(crate) setting: Setting<'a>,
    pub(crate) lines: ArrayVec<Span, MOST_LINES>,
    pub(crate) size: f64,
    pub(crate) is_cut: bool,
}

/// Lines that were filled: the first of them, how many there are, and the width of the widest.
#[derive(Drop)]
struct Filled {
    lines: ArrayVec<Span, MOST_LINES>,
    count: usize,
    widest: f64,
}

/// A letter of a text. Behind the end of the text is the end of a line.
fn letter(text: &[u32], place: usize) -> u32 {
    match text.get(place) {
        Some(letter) => *letter,
        None => FEED,
    }
}

fn is_digit(letter: u32) -> bool {
    48 <= letter && letter <= 57
}

/// Whether a line may end at a hyphen before this letter.
fn begins_word(letter: u32) -> bool {
    is_digit(letter)
        || (65 <= letter && letter <= 90)
        || (97 <= letter && letter <= 122)
        || letter > 127
}

/// Whether a line may end at this blank: not between a number and its unit of one or two letters.
fn is_gap(text: &[u32], place: usize) -> bool {
    let here = letter(text, place);
    if here == 9 {
        return true;
    }
    if here != SPACE {
        return false;
    }
    let is_behind_digit = place > 0 && is_digit(letter(text, place - 1));
    let next = letter(text, place.saturating_add(1));
    let second = letter(text, place.saturating_add(2));
    let third = letter(text, place.saturating_add(3));
    let begins_unit = !is_blank(next) && !is_digit(next);
    let ends_unit = is_blank(second) || (!is_digit(second) && is_blank(third));
    !(is_behind_digit && begins_unit && ends_unit)
}

/// The first place from here on that has a blank, the end of a line or, if the caller asks, a hyphen.
fn word_end(text: &[u32], from: usize, at_hyphen: bool) -> usize {
    for place in from..text.len() {
        let here = letter(text, place);
        if here == FEED || is_gap(text, place) || (at_hyphen && here == 45) {
            return place;
        }
    }
    from.max(text.len())
}

/// The first place from one on that has no hyphen.
fn hyphens_end(text: &[u32], from: usize) -> usize {
    for place in from..text.len() {
        if letter(text, place) != 45 {
            return place;
        }
    }
    from.max(text.len())
}

/// The first place from one on that has no blank.
fn gaps_end(text: &[u32], from: usize) -> usize {
    for place in from..text.len() {
        if !is_gap(text, place) {
            return place;
        }
    }
    from.max(text.len())
}

/// Where the element from a place on ends: before the next opening parenthesis.
fn element_end(text: &[u32], from: usize) -> usize {
    for place in from.saturating_add(1)..text.len() {
        if letter(text, place) == 40 {
            return place;
        }
    }
    text.len()
}

/// The end of the word from a place on, and that of the blanks behind it. A word also ends at a hyphen if a letter
/// follows.
fn word(text: &[u32], from: usize) -> Span {
    let hyphen = word_end(text, from, true);
    let behind = hyphens_end(text, hyphen);
    if hyphen < behind && begins_word(letter(text, behind)) {
        return Span {
            from: behind,
            end: behind,
        };
    }
    let end = word_end(text, from, false);
    Span {
        from: end,
        end: gaps_end(text, end),
    }
}

impl<'a> Font<'a> {
    /// The width of a letter, in sizes.
    fn letter_width(&self, letter: u32) -> f64 {
        let width = match self.widths.get(letter as usize) {
            Some(0) | None => self.other,
            Some(width) => *width,
        };
        f64::from(u32::from(width)) / 16_384.0
    }

    /// The width of the letters of a text, in sizes.
    pub(crate) fn width(&self, text: &[u32], from: usize, end: usize) -> f64 {
        let mut width = 0.0;
        for place in from..end.min(text.len()) {
            width += self.letter_width(letter(text, place));
        }
        width
    }

    /// How far its letters reach above the baseline, in sizes.
    fn rise(&self) -> f64 {
        f64::from(self.ascent) / 16_384.0
    }

    /// How far its letters reach below the baseline, in sizes.
    fn fall(&self) -> f64 {
        f64::from(self.descent) / 16_384.0
    }

    /// The whole dots of a line of this size above its baseline.
    pub(crate) fn upper(&self, size: f64) -> f64 {
        (self.rise() * size).ceil()
    }

    /// The whole dots of a line of this size. Its baseline is between two rows, since programs put it there.
    pub(crate) fn line(&self, size: f64) -> f64 {
        self.upper(size) + (self.fall() * size).ceil()
    }

    /// A size at which a line is at most this high.
    pub(crate) fn size_in(&self, high: f64) -> f64 {
        (high - 2.0) / (self.rise() + self.fall())
    }

    fn check(&self) -> Result<(), LabelFault> {
        if is_within(0.5, self.rise() + self.fall(), 8.0) && self.digits > 0 {
            Ok(())
        } else {
            Err(LabelFault::Measures)
        }
    }
}

impl<'a> Fonts<'a> {
    /// Whether their measures are possible.
    pub(crate) fn check(&self) -> Result<(), LabelFault> {
        self.regular.check()?;
        self.bold.check()
    }
}

impl Filled {
    fn new() -> Filled {
        Filled {
            lines: ArrayVec::new(),
            count: 0,
            widest: 0.0,
        }
    }

    /// Adds a line, unless it is empty.
    fn add(&mut self, from: usize, end: usize) {
        if from < end {
            let _ = self.lines.try_push(Span { from, end });
            self.count = self.count.saturating_add(1);
        }
    }
}

impl<'a> Setting<'a> {
    /// The end of the word from a place on, and that of the blanks behind it.
    fn word(&self, from: usize) -> Span {
        match self.breaks {
            Breaks::Blanks => word(self.text, from),
            Breaks::Elements => {
                let end = element_end(self.text, from);
                Span { from: end, end }
            }
        }
    }

    /// The width of the letters of a span, in sizes.
    pub(crate) fn width(&self, from: usize, end: usize) -> f64 {
        self.font.width(self.text, from, end)
    }

    /// The room between two elements of a line when lines are filled.
    fn gap(&self) -> f64 {
        match self.breaks {
            Breaks::Blanks => 0.0,
            Breaks::Elements => self.font.letter_width(SPACE),
        }
    }

    /// Lines with as many words each as fit.
    fn fill(&self, width: f64) -> Filled {
        let mut filled = Filled::new();
        let mut place = 0usize;
        let mut from = 0usize;
        let mut end = 0usize;
        let mut at = 0.0f64;
        for _ in 0..self.text.len() {
            if self.text.len() <= place {
                break;
            }
            if letter(self.text, place) == FEED {
                filled.add(from, end);
                place = place.saturating_add(1);
                from = place;
                end = place;
                at = 0.0;
                continue;
            }
            let word = self.word(place);
            let bare = self.width(place, word.from);
            if at > 0.0 && at + bare > width {
                filled.add(from, end);
                from = place;
                at = 0.0;
            }
            filled.widest = filled.widest.max(at + bare);
            end = word.from;
            at += bare + self.width(word.from, word.end) + self.gap();
            place = word.end;
        }
        filled.add(from, end);
        filled
    }

    /// Lines in which words that are too long are cut into pieces that fit.
    fn broken(&self, lines: &Filled, width: f64) -> Filled {
        let mut pieces = Filled::new();
        for line in lines.lines.as_slice() {
            let mut from = line.from;
            let mut at = 0.0f64;
            for place in line.from..line.end {
                let wide = self.font.letter_width(letter(self.text, place));
                if from < place && at + wide > width {
                    pieces.add(from, place);
                    from = place;
                    at = 0.0;
                }
                at += wide;
            }
            pieces.add(from, line.end);
        }
        pieces.count = pieces.count.max(lines.count);
        pieces
    }

    /// The part of a line that fits with an ellipsis behind it.
    fn shortened(&self, line: Span, width: f64) -> Span {
        let mut end = line.end;
        for _ in line.from..line.end {
            let is_wide = self.width(line.from, end) + self.ellipsis() > width;
            let is_gap = end > 0 && is_blank(letter(self.text, end - 1));
            if line.from < end && (is_wide || is_gap) {
                end -= 1;
            }
        }
        Span {
            from: line.from,
            end,
        }
    }

    pub(crate) fn ellipsis(&self) -> f64 {
        self.font.letter_width(ELLIPSIS)
    }

    /// The lines of the largest of these sizes at which a text has at most this many lines.
    fn in_lines(&self, width: f64, largest: f64, smallest: f64, most: u8) -> Option<Block<'a>> {
        let mut size = largest;
        for _ in 0..200u8 {
            if size < smallest {
                return None;
            }
            let lines = self.fill(width / size);
            // A size that just fits may be rounded up.
            if lines.count <= usize::from(most) && lines.widest <= width / size + 1e-6 {
                return Some(Block {
                    setting: *self,
                    lines: lines.lines,
                    size,
                    is_cut: false,
                });
            }
            size *= 0.97;
        }
        None
    }

    /// The text in as few lines of this width as possible. It takes one more line only if the size would otherwise be
    /// below three quarters of the largest. Text that does not fit at the smallest size is cut.
    pub(crate) fn fitted(&self, width: f64, sizes: Sizes) -> Block<'a> {
        self.fitted_in(width, f64::INFINITY, sizes)
    }

    /// The same in lines that together are at most this high, or in one line if two of the smallest size are higher.
    pub(crate) fn fitted_in(&self, width: f64, high: f64, sizes: Sizes) -> Block<'a> {
        let mut most = 1u8;
        for count in 2..=sizes.lines.min(3) {
            if f64::from(count) * self.font.line(sizes.smallest) <= high {
                most = count;
            }
        }
        let sizes = Sizes {
            lines: most,
            ..sizes
        };
        if self.text.len() > MOST_LETTERS {
            return self.cut(width, sizes);
        }
        for count in 1..=most {
            let least = if count == most {
                sizes.smallest
            } else {
                sizes.smallest.max(0.75 * sizes.largest)
            };
            let largest = sizes
                .largest
                .min(self.font.size_in(high / f64::from(count)));
            if let Some(block) = self.in_lines(width, largest, least, count) {
                return block;
            }
        }
        self.cut(width, sizes)
    }

    /// The text at its smallest size, cut if it does not fit.
    fn cut(&self, width: f64, sizes: Sizes) -> Block<'a> {
        let front = Setting {
            text: &self.text[..self.text.len().min(MOST_LETTERS)],
            ..*self
        };
        let size = sizes.smallest;
        let most = usize::from(sizes.lines);
        let pieces = front.broken(&front.fill(width / size), width / size);
        let is_cut = self.text.len() > MOST_LETTERS || pieces.count > most;
        let mut lines = pieces.lines;
        if is_cut {
            lines.truncate(most);
            if let Some(last) = lines.pop() {
                lines.push(front.shortened(last, width / size));
            }
        }
        Block {
            setting: front,
            lines,
            size,
            is_cut,
        }
    }
}

impl<'a> Block<'a> {
    /// The height of its first line above its baseline.
    pub(crate) fn upper(&self) -> f64 {
        self.setting.font.upper(self.size)
    }

    /// The height of its lines.
    pub(crate) fn height(&self) -> f64 {
        nearest_usize_to_f64(self.lines.len()) * self.setting.font.line(self.size)
    }

    /// The width of a line, with the ellipsis behind the last if it is cut.
    pub(crate) fn line_width(&self, number: usize) -> f64 {
        let Some(line) = self.lines.as_slice().get(number) else {
            return 0.0;
        };
        let wide = self.size * self.setting.width(line.from, line.end);
        if self.is_cut_line(number) {
            wide + self.size * self.setting.ellipsis()
        } else {
            wide
        }
    }

    /// Whether an ellipsis follows a line.
    pub(crate) fn is_cut_line(&self, number: usize) -> bool {
        self.is_cut && number.saturating_add(1) == self.lines.len()
    }

    /// The width of its widest line.
    pub(crate) fn width(&self) -> f64 {
        let mut widest = 0.0f64;
        for number in 0..self.lines.len() {
            widest = widest.max(self.line_width(number));
        }
        widest
    }
}
