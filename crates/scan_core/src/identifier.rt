//! Symbology identifiers.
ghost use Rattle.std.specs.Prelude.{◌≡◌};
ghost use Rattle.scan_core.specs.Lines.{identifier};

use crate::carrier::Carrier;

impl Carrier {
    /// The symbology identifier that a reader sends before the text of a symbol
    /// (GS1 General Specifications, section 5.1.3).
    pub fn identifier(self) -> &'static str
        ensures { result.now ≡ identifier self }
    {
        match self.kind() {
            Some(kind) => kind.identifier(),
            None => "]C1",
        }
    }
}
