//! Symbols as they are drawn.
ghost use Rattle.std.specs.Prelude.{◌≡◌, ◌≤◌, sum};
ghost use Rattle.ean_code.specs.Widths.{AreModules};

use ean_code::Modules;
use std::marker::Model;

/// A symbol and its quiet zones, in modules.
#[derive(Drop)]
pub struct DrawnSymbol {
    pub(crate) modules: Modules,
    pub(crate) quiet_left: u8,
    pub(crate) quiet_right: u8,
}

impl Model for DrawnSymbol {
    ghost use Rattle.std.specs.Prelude.{◌≤◌};
    ghost use Rattle.sheet_core.specs.Labels.{Drawn};

    ghost Value = { Drawn };

    ghost view = { λ s. record { modules = s.modules; quiet_left = s.quiet_left; quiet_right = s.quiet_right } };

    ghost invariant = { λ s. (s.quiet_left ≤ 11) × (s.quiet_right ≤ 11) };
}

/// The width of all modules together.
pub(crate) fn total(modules: &Modules) -> u32
    ensures sum { result ≡ sum modules.now }
    ensures most { result ≤ 2380 }
{
    modules.widths().iter().map(|width| u32::from(*width)).sum()
}

impl DrawnSymbol {
    /// The widths of its runs in modules, a bar first and last.
    pub fn widths(&self) -> &[u8]
        ensures value { result.now ≡ self.now.modules }
        ensures valid { AreModules self.now.modules }
    {
        self.modules.widths()
    }

    /// How many light modules are left of it.
    pub fn quiet_left(&self) -> u8
        ensures { result ≡ self.now.quiet_left }
    {
        self.quiet_left
    }

    /// How many light modules are right of it.
    pub fn quiet_right(&self) -> u8
        ensures { result ≡ self.now.quiet_right }
    {
        self.quiet_right
    }
}
