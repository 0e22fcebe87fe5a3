//! Why an article has no label.

/// Why an article has no label.
#[derive(Clone, Copy, Debug, PartialEq, Eq)]
pub enum LabelFault {
    /// The content has no symbol of its kind.
    NoSymbol,
    /// A measure of the label or of a font is out of range.
    Measures,
    /// The requested width of a module is out of range for the kind of symbol.
    Module,
    /// The requested height of bars is not 5 to 100 mm.
    Bars,
    /// The label is too narrow for the symbol.
    TooWide,
    /// There is no room for a price or another text that must be complete.
    NoPlace,
    /// The bars would be less than 5 mm high.
    NoHeight,
    /// There are more than 8 further lines.
    Lines,
    /// The drawing failed the final check.
    Misdrawn,
}
