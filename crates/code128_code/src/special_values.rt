//! The values of symbol characters that are no data (ISO/IEC 15417, code set tables).

/// The next value only is in the other one of code sets A and B; in A and B.
pub(crate) const SHIFT: u8 = 98;

/// Code set C from the next value on, in A and B.
pub(crate) const CODE_C: u8 = 99;

/// Code set B from the next value on, in A and C.
pub(crate) const CODE_B: u8 = 100;

/// Code set A from the next value on, in B and C.
pub(crate) const CODE_A: u8 = 101;

/// FNC1, in each code set.
pub(crate) const FNC1: u8 = 102;

/// The start character of code set A.
pub(crate) const START_A: u8 = 103;

/// The start character of code set B.
pub(crate) const START_B: u8 = 104;

/// The start character of code set C.
pub(crate) const START_C: u8 = 105;
