//! Parts of a drawn label.
ghost use Rattle.std.specs.Prelude.{◌≡◌, ◌+◌, ◌↔◌, IsTrue, ℕ};
ghost use Rattle.shop_core.specs.Drawings.{LieApart, IsBar, IsOther, IsOutside, LiesOn, bears_above, bears_below, ends_line, field_number, has_letter, has_row, is_across, is_blank, is_cut_at, is_old, is_one_piece, is_right_run, is_wanted, may_go_on, run_has, run_is_cut, shows_price};

/// The content of a part.
#[derive(Clone, Copy, Debug, PartialEq, Eq)]
pub enum Ink {
    /// A bar of the symbol, all dark.
    Bar,
    /// A bar above or below the symbol, all dark.
    Bearer,
    /// Letters of a text: their place in it, and how they are typeset. They lie in the part.
    Letters(Run),
}

/// A text of an article.
#[derive(Clone, Copy, Debug, PartialEq, Eq)]
pub enum Field {
    Name,
    Price,
    OldPrice,
    UnitPrice,
    Deposit,
    BestBefore,
    Batch,
    Lines,
    /// The text under the symbol.
    Digits,
}

/// Letters of a text of an article, and how they are typeset. Lengths are in 1/64 dot.
#[derive(Clone, Copy, Debug, PartialEq, Eq)]
pub struct Run {
    pub field: Field,
    /// The first of its letters, and how many there are.
    pub from: u16,
    pub count: u16,
    /// Whether an ellipsis follows because the text goes on.
    pub is_cut: bool,
    pub is_bold: bool,
    /// Whether a line goes through it.
    pub is_struck: bool,
    pub size: u32,
    /// Where it begins, and its baseline.
    pub left: u32,
    pub base: u32,
    /// The width of each letter's cell, with the letter in the middle; 0 if letters follow one another by their own
    /// widths.
    pub step: u32,
}

/// A rectangle of whole dots on a label, and its content.
#[derive(Clone, Copy, Debug, PartialEq, Eq)]
pub struct Part {
    pub left: u16,
    pub top: u16,
    pub width: u16,
    pub height: u16,
    pub ink: Ink,
}

/// The columns of a symbol: where its left quiet zone begins, where its bars begin, and where its right quiet zone
/// ends; and its rows.
#[derive(Clone, Copy)]
pub(crate) struct Zone {
    pub(crate) left: u64,
    pub(crate) from: u32,
    pub(crate) right: u64,
    pub(crate) top: u16,
    pub(crate) bottom: u16,
}

impl Default for Part {
    fn default() -> Part {
        Part {
            left: 0,
            top: 0,
            width: 0,
            height: 0,
            ink: Ink::Bar,
        }
    }
}

/// Whether a letter is a space, a tab or a line feed.
pub(crate) fn is_blank(letter: u32) -> bool
    ensures { result ≡ is_blank letter }
{
    letter == 32 || (letter == 9 || letter == 10)
}

/// Whether a further line ends with this letter of the field of this number.
pub(crate) fn ends_line(field: u8, letter: u32) -> bool
    ensures { result ≡ ends_line field letter }
{
    field == 7 && letter == 10
}

impl Run {
    /// The letter behind its last.
    pub(crate) fn end(&self) -> usize
        ensures { result ≡ self.now.from + self.now.count }
    {
        usize::from(self.from) + usize::from(self.count)
    }

    /// Whether it has this letter of the text of the field with this number.
    fn has(&self, field: u8, place: usize) -> bool
        ensures { result ≡ run_has field place self.now }
    {
        let number = self.field.number();
        let end = self.end();
        number == field && (usize::from(self.from) <= place && place < end)
    }

    /// Whether it has an ellipsis before this letter of the text of the field with this number.
    fn is_cut_at(&self, field: u8, place: usize) -> bool
        ensures { result ≡ run_is_cut field place self.now }
    {
        let number = self.field.number();
        let end = self.end();
        number == field && (self.is_cut && end == place)
    }

    /// Whether it lies in a text of this many letters; if it is a price, whether it is all of the text; whether it is
    /// cut only if it may be and more follows; and whether it is struck through exactly if it is the old price.
    pub(crate) fn is_right(&self, letters: usize) -> bool
        ensures { result ≡ is_right_run letters self.now }
    {
        let end = self.end();
        end <= letters
            && ((!self.field.is_one_piece() || usize::from(self.count) == letters)
                && ((!self.is_cut || (self.field.may_go_on() && end < letters))
                    && self.is_struck == self.field.is_old()))
    }
}

impl Field {
    /// Its number.
    pub fn number(self) -> u8
        ensures { result ≡ field_number self }
    {
        match self {
            Field::Name => 0,
            Field::Price => 1,
            Field::OldPrice => 2,
            Field::UnitPrice => 3,
            Field::Deposit => 4,
            Field::BestBefore => 5,
            Field::Batch => 6,
            Field::Lines => 7,
            Field::Digits => 8,
        }
    }

    /// Whether its text must be in one part.
    pub(crate) fn is_one_piece(self) -> bool
        ensures { result ≡ is_one_piece self }
    {
        matches!(self, Field::Price | Field::OldPrice)
    }

    /// Whether its text may be cut.
    pub(crate) fn may_go_on(self) -> bool
        ensures { result ≡ may_go_on self }
    {
        matches!(self, Field::Name | Field::Lines)
    }

    /// Whether it is the old price.
    pub(crate) fn is_old(self) -> bool
        ensures { result ≡ is_old self }
    {
        matches!(self, Field::OldPrice)
    }
}

impl Part {
    /// Whether it is letters, or a bearer in its place if bearers are wanted.
    fn is_wanted(&self, bearers: bool, zone: &Zone) -> bool
        ensures { result ≡ is_wanted bearers zone.now self.now }
    {
        match self.ink {
            Ink::Letters(_) => true,
            _ => bearers && (self.bears_above(zone) || self.bears_below(zone)),
        }
    }

    /// Whether it is outside a zone, and is letters or a bearer that is wanted.
    pub(crate) fn is_other(&self, bearers: bool, zone: &Zone) -> bool
        ensures { IsTrue result ↔ IsOther bearers zone.now self.now }
    {
        self.is_outside(zone) && self.is_wanted(bearers, zone)
    }

    /// Whether it lies outside a zone.
    fn is_outside(&self, zone: &Zone) -> bool
        ensures { IsTrue result ↔ IsOutside zone.now self.now }
    {
        u64::from(self.right()) <= zone.left
            || zone.right <= u64::from(self.left)
            || self.bottom() <= u32::from(zone.top)
            || zone.bottom <= self.top
    }

    /// Whether it is dark in these columns, in all rows of a zone.
    pub(crate) fn is_bar(&self, zone: &Zone, left: u64, width: u64) -> bool
        ensures { IsTrue result ↔ IsBar zone.now left width self.now }
    {
        self.ink == Ink::Bar
            && u64::from(self.left) == left
            && u64::from(self.width) == width
            && self.top <= zone.top
            && u32::from(zone.bottom) <= self.bottom()
    }

    /// Whether it covers the whole width of a zone.
    fn is_across(&self, zone: &Zone) -> bool
        ensures { result ≡ is_across zone.now self.now }
    {
        u64::from(self.left) == zone.left && u64::from(self.right()) == zone.right
    }

    /// Whether it is a bearer directly above a zone.
    pub(crate) fn bears_above(&self, zone: &Zone) -> bool
        ensures { result ≡ bears_above zone.now self.now }
    {
        match self.ink {
            Ink::Bearer => self.is_across(zone) && self.bottom() == u32::from(zone.top),
            _ => false,
        }
    }

    /// Whether it is a bearer directly below a zone.
    pub(crate) fn bears_below(&self, zone: &Zone) -> bool
        ensures { result ≡ bears_below zone.now self.now }
    {
        match self.ink {
            Ink::Bearer => self.is_across(zone) && self.top == zone.bottom,
            _ => false,
        }
    }

    /// Whether it has this letter of the text of the field of this number.
    pub(crate) fn has_letter(&self, field: u8, place: usize) -> bool
        ensures { result ≡ has_letter field place self.now }
    {
        match &self.ink {
            Ink::Letters(run) => run.has(field, place),
            _ => false,
        }
    }

    /// Whether it has an ellipsis in front of this letter of the text of the field of this number.
    pub(crate) fn is_cut_at(&self, field: u8, place: usize) -> bool
        ensures { result ≡ is_cut_at field place self.now }
    {
        match &self.ink {
            Ink::Letters(run) => run.is_cut_at(field, place),
            _ => false,
        }
    }

    /// Whether it shows all of a price of this many letters.
    pub(crate) fn shows_price(&self, letters: usize) -> bool
        ensures { result ≡ shows_price letters self.now }
    {
        match self.ink {
            Ink::Letters(run) => run.field == Field::Price
                && (run.from == 0 && usize::from(run.count) == letters),
            _ => false,
        }
    }

    /// The dot behind its last column.
    pub(crate) fn right(&self) -> u32
        ensures { result ≡ self.now.left + self.now.width }
    {
        u32::from(self.left) + u32::from(self.width)
    }

    /// The dot below its last row.
    pub(crate) fn bottom(&self) -> u32
        ensures { result ≡ self.now.top + self.now.height }
    {
        u32::from(self.top) + u32::from(self.height)
    }

    /// Whether it lies on a label of this size.
    pub(crate) fn lies_on(&self, width: u16, height: u16) -> bool
        ensures { IsTrue result ↔ LiesOn width height self.now }
    {
        self.right() <= u32::from(width) && self.bottom() <= u32::from(height)
    }

    /// Whether it and another do not overlap.
    pub(crate) fn is_apart(&self, other: &Part) -> bool
        ensures { IsTrue result ↔ LieApart self.now other.now }
    {
        self.right() <= u32::from(other.left)
            || other.right() <= u32::from(self.left)
            || self.bottom() <= u32::from(other.top)
            || other.bottom() <= u32::from(self.top)
    }

    /// Whether it has dots in this row.
    pub(crate) fn has_row(&self, y: u16) -> bool
        ensures { result ≡ has_row self.now y }
    {
        self.top <= y && u32::from(y) < self.bottom()
    }
}
