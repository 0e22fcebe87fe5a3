//! A law about the lines of an input, as the contract of a function that does nothing.
ghost use Rattle.wire_core.specs.Lines.{LinesArePieces};

/// The lines that are taken from an input are those between its line feeds. `LinesArePieces` of specs/Lines.antt
/// states this in parts, about `Held`, the model of `Lines`.
pub fn lines_are_pieces()
    ensures { LinesArePieces }
{}
