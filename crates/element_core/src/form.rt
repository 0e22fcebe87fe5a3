//! How the elements of an answer are written.

/// How the elements of an answer are written.
#[derive(Clone, Copy, Debug, PartialEq, Eq)]
pub enum Form {
    /// Each AI in parentheses before its value (GS1 General Specifications, section 4.14).
    HumanReadable,
    /// Each AI, `=` and its value, with a tab between each two, so that different lists have different lines.
    Pairs,
}
