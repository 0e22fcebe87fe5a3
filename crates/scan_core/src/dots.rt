//! Reads a row of packed dots without memory.
ghost use Rattle.std.specs.Prelude.{◌≡◌, ◌≤◌, ◌+◌, ◌*◌, ◌++◌, ◌∷◌, [], List, ℕ, length};
ghost use Rattle.scan_core.specs.Answers.{IsAnswer};
ghost use Rattle.scan_core.specs.Bits.{dots_at};
ghost use Rattle.scan_core.specs.inner.FirstRuns.{AreFirst};
ghost use Rattle.scan_core.specs.Reading.{IsFound};
ghost use Rattle.scan_core.specs.Row.{IsRow, dots_of};

use crate::answer::{Answer, found_in};
use crate::cut::cut_into;
use crate::fault::RowFault;
use crate::found::Found;
use arrayvec::ArrayVec;
use element_core::Year;

/// The number of runs that a part keeps. The longest symbol has 597 runs with its light ends, so it is within a part
/// if it begins with run 598 or before.
const MOST: usize = 1_195;

/// The first runs of a row.
#[derive(Drop)]
pub(crate) struct FirstRuns {
    pub(crate) widths: ArrayVec<u16, MOST>,
    /// Whether the row has more.
    pub(crate) more: bool,
}

/// The first runs of the row of `width` dots of packed bytes, from the dot `from` on.
pub(crate) fn first_runs(bits: &[u8], from: usize, width: usize) -> FirstRuns
    requires within { from + width ≤ 8 * length bits.now }
    requires few { width ≤ 65535 }
    ensures { (all : List ℕ) × IsRow all × (dots_of all ≡ dots_at bits.now from width) × AreFirst all result }
{
    let mut first = FirstRuns {
        widths: ArrayVec::new(),
        more: false,
    };
    first.more = cut_into(bits, from, width, &mut first.widths).is_err();
    first
}

/// Finds the symbol in the row of `width` dots of packed bytes. The first dot of a byte is its high bit; 1 is dark.
/// Takes no memory.
pub fn find_dots(bits: &[u8], width: u16) -> Found
    requires { width ≤ 8 * length bits.now }
    ensures { (runs : List ℕ) × IsRow runs × (dots_of runs ≡ dots_at bits.now 0 width) × IsFound runs result }
{
    let first = first_runs(bits, 0, usize::from(width));
    if first.more {
        return Found::Refused(RowFault::RunCount);
    }
    found_in(first.widths.as_slice())
}

/// Reads the row of `width` dots of packed bytes, as `read_row` reads the row that `Runs::cut` makes of them. The
/// first dot of a byte is its high bit; 1 is dark. Takes no memory.
///
/// # Examples
///
/// A row of a bitmap, 113 pixels with an EAN-13:
///
/// ```
/// use scan_core::{Answer, read_dots};
/// let bits = b"\x00\x15\x8A\x76\x66\x53\x99\x54\xE8\x5C\xB9\x72\x85\x40\x00";
/// let year = element_core::Year::new(2026).ok_or("a year")?;
/// let Answer::Read { elements, .. } = read_dots(bits, 113, year) else {
///     return Err(Fail::from("no symbol"));
/// };
/// assert_eq!(rt; elements.hri().as_str(), "(01)09501101530003");
/// ```
pub fn read_dots(bits: &[u8], width: u16, year: Year) -> Answer
    requires { width ≤ 8 * length bits.now }
    ensures { (runs : List ℕ) × IsRow runs × (dots_of runs ≡ dots_at bits.now 0 width) × IsAnswer runs year result }
{
    find_dots(bits, width).answer(year)
}
