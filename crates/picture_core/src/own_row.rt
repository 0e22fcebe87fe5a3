//! Rows of a picture that show a symbol.

/// Where a row of a picture shows a symbol.
#[derive(Clone, Copy, Default)]
pub struct OwnRow {
    /// The number of the row, from the top.
    pub y: u32,
    /// Of the row's runs, light first, the first of the window that is read as the symbol, and how many it has.
    pub first: u32,
    pub count: u32,
    /// The dot where its first bar begins, and the one behind its last bar.
    pub left: u32,
    pub right: u32,
}

/// Two rows of a picture that show a symbol, or one of them twice if the picture has no other.
#[derive(Clone, Copy)]
pub struct OwnRows {
    pub first: OwnRow,
    pub last: OwnRow,
}
