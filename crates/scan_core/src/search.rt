//! Searches for the symbols of a row.
ghost use Rattle.std.specs.Prelude.{◌≡◌, IfNone, IfSome};
ghost use Rattle.scan_core.specs.Windows.{IsNextWindow, IsOver, Search, search_after};

use crate::window::Window;

/// Searches a row for its symbols, from left to right.
pub trait SymbolSearch {
    // The part of the row that is left to search.
    ghost rest: { Self → Search };

    /// The next symbol. Symbols are windows that begin and end with a light run and are read as a row. They come in
    /// the order in which they begin; of those that begin at the same run, the shortest comes first.
    fn next_symbol(&mut self) -> Option<Window>
        ensures next { IfSome result (λ w. IsNextWindow (rest self.old) w) }
        ensures after { IfSome result (λ w. rest self.new ≡ search_after (rest self.old) w) }
        ensures over { IfNone result (IsOver (rest self.old)) }
        ensures stays { IfNone result (IsOver (rest self.new)) }
        ensures same { IfNone result ((rest self.new).runs ≡ (rest self.old).runs) };
}
