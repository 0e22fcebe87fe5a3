//! The values of a symbol.
use arrayvec::ArrayVec;

/// The values of a Code 128 symbol. If `values` returned them, they are in the ranges below.
#[derive(Clone, Debug, Drop, PartialEq, Eq)]
pub struct Values {
    /// The data values, 1 to 96 of them, each 0 to 102.
    pub values: ArrayVec<u8, 96>,
    /// The start character: 103, 104 or 105 for code set A, B or C.
    pub start: u8,
    /// The check character, 0 to 102, right or wrong.
    pub check: u8,
}
