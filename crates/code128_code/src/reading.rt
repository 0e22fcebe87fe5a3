//! Reads the values of a Code 128 symbol from its widths.
ghost use Rattle.std.specs.Prelude.{◌≡◌, ◌≢◌, ◌↔◌, ◌+◌, ◌%◌, ◌<◌, ◌≤◌, ℕ, List, IfNone, IfSome, IsTrue, length};
ghost use Rattle.std.specs.List.{AllByRecursion, flat_map};
ghost use Rattle.ean_code.specs.Widths.{AreModules, AreWidths};
ghost use Rattle.code128_code.specs.Characters.{pattern, stop};
ghost use Rattle.code128_code.specs.Symbols.{AreValues, IsCode128Symbol};

use crate::lookup::character;
use crate::patterns::STOP;
use crate::special_values::{FNC1, START_A};
use crate::symbol_values::Values;
use arrayvec::ArrayVec;
use ean_code::Modules;

/// Six widths of 1 as one number, two bits each.
const SIX_ONES: u32 = 0x555;

/// The value 0 to 105 of the symbol character with these widths.
fn value_of(widths: &[u8]) -> Option<u8>
    requires six { length widths.now ≡ 6 }
    requires valid { AreWidths widths.now }
    ensures found { IfSome result (λ v. (v < 106) × (pattern v ≡ widths.now)) }
    ensures none { IfNone result ((v : ℕ) → v < 106 → pattern v ≢ widths.now) }
{
    let two = u32::from(widths[0]) * 4 + u32::from(widths[1]);
    let four = (two * 4 + u32::from(widths[2])) * 4 + u32::from(widths[3]);
    let six = (four * 4 + u32::from(widths[4])) * 4 + u32::from(widths[5]);
    character((six - SIX_ONES) as u16)
}

/// The start character with these widths.
fn start_of(widths: &[u8]) -> Option<u8>
    requires six { length widths.now ≡ 6 }
    requires valid { AreWidths widths.now }
    ensures found { IfSome result (λ v. (103 ≤ v) × (v ≤ 105) × (pattern v ≡ widths.now)) }
    ensures none { IfNone result ((v : ℕ) → 103 ≤ v → v ≤ 105 → pattern v ≢ widths.now) }
{
    let value = value_of(widths)?;
    if value < START_A {
        return None;
    }
    Some(value)
}

/// The data or check character with these widths.
fn data_of(widths: &[u8]) -> Option<u8>
    requires six { length widths.now ≡ 6 }
    requires valid { AreWidths widths.now }
    ensures found { IfSome result (λ v. (v ≤ 102) × (pattern v ≡ widths.now)) }
    ensures none { IfNone result ((v : ℕ) → v ≤ 102 → pattern v ≢ widths.now) }
{
    let value = value_of(widths)?;
    if value > FNC1 {
        return None;
    }
    Some(value)
}

/// The data values, at most 96, whose characters have these widths.
fn data_values(widths: &[u8]) -> Option<ArrayVec<u8, 96>>
    requires few { length widths.now ≤ 576 }
    requires sixes { length widths.now % 6 ≡ 0 }
    requires valid { AreWidths widths.now }
    ensures found { IfSome result (λ vs. AreValues vs.items
        × (flat_map pattern vs.items ≡ widths.now)) }
    ensures none { IfNone result ((vs : List ℕ) → AreValues vs → flat_map pattern vs ≢ widths.now) }
{
    let mut values = ArrayVec::new();
    for i in 0..widths.len() / 6 {
        let value = data_of(&widths[6 * i..6 * i + 6])?;
        values.push(value);
    }
    Some(values)
}

/// Whether these are the widths of the stop character.
fn is_stop(widths: &[u8]) -> bool
    ensures { IsTrue result ↔ (widths.now ≡ stop) }
{
    widths == STOP.as_slice()
}

/// Whether a symbol can have this number of widths: six for each of 3 to 98 characters, and seven for the stop
/// character.
fn is_symbol_length(count: usize) -> bool
    ensures { IsTrue result ↔ ((25 ≤ count) × (count % 6 ≡ 1)) }
{
    count >= 25 && count % 6 == 1
}

/// The start, data and check characters of these modules, read only forwards. None if the modules are no Code 128
/// symbol with 1 to 96 data values (ISO/IEC 15417, symbol structure).
pub fn values(modules: &Modules) -> Option<Values>
    ensures some { IfSome result (λ v. IsCode128Symbol v.start v.values.items v.check modules.now) }
    ensures none { IfNone result ((start : ℕ) (values : List ℕ) (check : ℕ)
        → IsCode128Symbol start values check modules.now → ⊥) }
{
    values_of(modules.widths())
}

/// The start, data and check characters of the symbol with these widths, as `values` reads them.
pub fn values_of(widths: &[u8]) -> Option<Values>
    requires { AreModules widths.now }
    ensures some { IfSome result (λ v. IsCode128Symbol v.start v.values.items v.check widths.now) }
    ensures none { IfNone result ((start : ℕ) (values : List ℕ) (check : ℕ)
        → IsCode128Symbol start values check widths.now → ⊥) }
{
    if !is_symbol_length(widths.len()) {
        return None;
    }
    let end = widths.len() - 7;
    if !is_stop(&widths[end..]) {
        return None;
    }
    let start = start_of(&widths[..6])?;
    let values = data_values(&widths[6..end - 6])?;
    let check = data_of(&widths[end - 6..end])?;
    Some(Values {
        start,
        values,
        check,
    })
}
