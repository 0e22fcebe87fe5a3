//! Symbols that a picture shows, and where they stand.
use crate::area::Area;
use crate::own_row::OwnRows;
use crate::place::Corners;
use crate::said::Said;
use crate::seen_line::SeenLines;

/// A symbol of a picture.
#[derive(Drop)]
pub struct SeenSymbol {
    /// Its carrier and its elements.
    pub said: Said,
    /// How many rows say so.
    pub rows: u32,
    /// Where it stands.
    pub corners: Corners,
    /// Two of the picture's own rows that show it, if it was found in these and nowhere else.
    pub own_rows: Option<OwnRows>,
    /// Two groups of lines of the picture that show it, if it was found along stripes.
    pub lines: Option<SeenLines>,
    pub(crate) area: Area,
}

impl SeenSymbol {
    /// Whether the other is the same symbol, or a part of it.
    pub(crate) fn is_also(&self, other: &SeenSymbol) -> bool {
        self.said.says_as(&other.said) && self.area.meets(&other.area)
    }

    /// Whether the other says something else of the same place.
    pub(crate) fn is_against(&self, other: &SeenSymbol) -> bool {
        self.area.is_at(&other.area) && !self.said.says_as(&other.said)
    }

    /// Makes it as high as both are.
    pub(crate) fn take_in(&mut self, other: &SeenSymbol) {
        self.area.take_in(&other.area);
        self.rows = self.rows.saturating_add(other.rows);
        self.own_rows = None;
    }
}
