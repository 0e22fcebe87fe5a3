//! The code sets.

/// A code set of Code 128: what a value of a symbol character means.
#[derive(Clone, Copy, Debug, PartialEq, Eq)]
pub enum CodeSet {
    /// ASCII without small letters, and control characters.
    A,
    /// ASCII without control characters.
    B,
    /// Pairs of digits.
    C,
}
