//! The widths of a symbol.
ghost use Rattle.std.specs.Prelude.{◌≡◌, ◌↔◌, ◌&&◌, ℕ, List, IfSome, IsSome, IsTrue, nat_le, reverse};
ghost use Rattle.std.specs.List.{list_all};
ghost use Rattle.ean_code.specs.Widths.{AreModules};

use arrayvec::ArrayVec;
use std::marker::Model;

/// The widths of a symbol's bars and spaces, each 1 to 4 modules. Bars and spaces alternate, beginning and ending
/// with a bar.
///
/// Their number is odd and at most 595 (ISO/IEC 15420 and ISO/IEC 15417).
#[derive(Clone, Debug, Drop, PartialEq, Eq)]
pub struct Modules {
    widths: ArrayVec<u8, 595>,
}

impl Model for Modules {
    ghost Value = { List ℕ };

    ghost view = { λ m. m.widths.items };

    ghost invariant = { λ m. AreModules m.widths.items };

    ghost inverse = { λ ws. record { widths = record { items = ws } } };
}

/// Whether each width is 1 to 4 modules.
fn are_widths(widths: &[u8]) -> bool
    ensures { result ≡ list_all (λ w. nat_le 1 w && nat_le w 4) widths.now }
{
    widths.iter().all(|width| 1 <= *width && *width <= 4)
}

/// Whether these are the widths of some modules.
fn are_modules(widths: &[u8]) -> bool
    ensures { IsTrue result ↔ AreModules widths.now }
{
    if widths.len() > 595 {
        return false;
    }
    if widths.len() % 2 == 0 {
        return false;
    }
    are_widths(widths)
}

impl Modules {
    /// The modules with the widths of this list. They take over the list.
    pub fn new(widths: ArrayVec<u8, 595>) -> Modules
        requires { AreModules widths.items }
        ensures { result ≡ widths.items }
    {
        Modules { widths }
    }

    /// The modules with these widths. None unless each is 1 to 4 and their number is odd and at most 595.
    pub fn of(widths: &[u8]) -> Option<Modules>
        ensures value { IfSome result (λ m. m ≡ widths.now) }
        ensures valid { IsSome result ↔ AreModules widths.now }
    {
        if !are_modules(widths) {
            return None;
        }
        let mut all = ArrayVec::new();
        all.try_extend_from_slice(widths).unwrap();
        Some(Modules { widths: all })
    }

    /// The widths in modules, the first of them a bar's.
    pub fn widths(&self) -> &[u8]
        ensures value { result.now ≡ self.now }
        ensures valid { AreModules self.now }
    {
        self.widths.as_slice()
    }

    /// Reverses the widths, to read the symbol from its other end.
    pub fn reverse(&mut self)
        ensures { self.new ≡ reverse self.old }
    {
        self.widths.as_mut_slice().reverse();
    }
}
