//! Elements given as pairs.

ghost use Rattle.std.specs.Prelude.{◌≡◌, ◌<◌, ◌≤◌, length, None, Some, IfOk, IfErr, IsSome, not, is_some};
ghost use Rattle.element_core.specs.Table.{predefined_length, row_at};
ghost use Rattle.element_core.specs.Pairs.{entry_of, entries_of, entry_fault, entries_fault};

use crate::family::{family_at, is_read_by};
use crate::fault::ElementFault;
use crate::terms::Year;
use crate::text::Text;
use crate::value::row_fault;

/// An AI and a value. They need not belong together.
#[derive(Drop)]
pub struct Pair {
    /// The AI, in ASCII digits.
    pub ai: Text,
    /// The value, without a separator.
    pub value: Text,
}

/// The fault of the pair at an index, if it has one.
fn pair_fault(year: Year, i: usize, pair: &Pair) -> Option<ElementFault>
    ensures { result ≡ entry_fault year i (entry_of pair.now) }
{
    let ai = pair.ai.as_slice();
    let value = pair.value.as_slice();
    let Some(family) = family_at(ai) else {
        return Some(ElementFault::UnknownAi(i));
    };
    if ai.len() != family.least.len() || !is_read_by(year, &family) {
        return Some(ElementFault::UnknownAi(i));
    }
    row_fault(
        year.reference(),
        i,
        ElementFault::ValueLength(i),
        family.parts,
        value,
    )
}

/// The fault of the first faulty pair.
pub(crate) fn first_fault(year: Year, pairs: &[Pair]) -> Option<ElementFault>
    ensures { result ≡ entries_fault year 0 (entries_of pairs.now) }
{
    for (i, pair) in pairs.iter().enumerate() {
        if let Some(fault) = pair_fault(year, i, pair) {
            return Some(fault);
        }
    }
    None
}

/// Whether a separator stands after a pair with an AI of the table, if it is not the last.
pub(crate) fn needs_separator(ai: &[u8]) -> bool
    requires { IsSome (row_at ai.now) }
    ensures { result ≡ not (is_some (predefined_length ai.now)) }
{
    match family_at(ai) {
        Some(family) => !family.predefined,
        None => true,
    }
}
