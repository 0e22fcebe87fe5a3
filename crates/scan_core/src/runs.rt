//! Rows of dots.
ghost use Rattle.std.specs.Prelude.{[], Err, None, Some, false, ◌≡◌, ◌≢◌, ◌<◌, ◌≤◌, ◌+◌, ◌*◌, ◌↔◌, IfErr, IfOk, IfSome, List, IsErrOf, IsTrue, OnOk, length, nat_le, reverse, sum, ℕ};
ghost use Rattle.std.specs.List.{list_all};
ghost use Rattle.scan_core.specs.Bits.{dots_at};
ghost use Rattle.scan_core.specs.Reading.{IsFound};
ghost use Rattle.scan_core.specs.Row.{IsRow, dots_of, inner, runs_fault};
ghost use Rattle.scan_core.specs.inner.Kept.{RowSays};

use crate::answer::find_into;
use crate::carrier::Carrier;
use crate::cut::cut_into;
use crate::fault::{RowFault, RunFault};
use crate::found::Found;
use crate::row_pool::RowPool;
use crate::widths::{Widths, WritesWidths};
use arrayvec::ArrayString;
use element_core::Year;
use std::alloc::Global;
use std::marker::Model;

/// The dots of the widest row.
const MOST_DOTS: u32 = 65_535;

/// The most runs of a row: those of a row with this many dots whose two light ends have no dot.
const MOST_RUNS: usize = 65_537;

/// A row: the widths of its runs in dots. Light and dark alternate; the first and the last run are light. Only these
/// two may have 0 dots. The row has at most 65,535 dots.
///
/// A row that was read keeps what was found in it, so that it is read only once.
#[derive(Debug, Drop)]
pub struct Runs {
    pub(crate) kept: Box<Kept>,
}

/// The content of a row in one block of memory, so that moving a row moves one address.
#[derive(Debug, Drop)]
pub(crate) struct Kept {
    /// What was found in the row, if it was read.
    pub(crate) found: Found,
    pub(crate) is_read: bool,
    /// The reference year by which `said` has the elements of the characters that were found, if it has any.
    pub(crate) said_by: Option<Year>,
    /// These elements in the human-readable form.
    pub(crate) said: ArrayString<288>,
    pub(crate) widths: Widths,
}

impl Model for Runs {
    ghost use Rattle.std.specs.Prelude.{List, ℕ};

    ghost Value = { List ℕ };

    ghost use Rattle.scan_core.specs.inner.Kept.{IsRowWith};

    ghost view = { λ r. r.kept.value.widths.list };

    ghost invariant = { λ r. IsRowWith r.kept.value.widths.list r.kept.value.is_read r.kept.value.found
        r.kept.value.said_by r.kept.value.said.bytes };
}

/// The runs between the two light ends.
pub(crate) fn inner(widths: &[u16]) -> &[u16]
    ensures { result.now ≡ inner widths.now }
{
    match widths {
        [_, between @ .., _] => between,
        _ => &[],
    }
}

/// The number of dots of all widths.
fn total(widths: &[u16]) -> u32
    requires { length widths.now ≤ 65537 }
    ensures { result ≡ sum widths.now }
{
    let mut total = 0;
    for width in widths {
        total += u32::from(*width);
    }
    total
}

/// Whether each run has at least one dot.
fn have_dots(widths: &[u16]) -> bool
    ensures { result ≡ list_all (λ width. nat_le 1 width) widths.now }
{
    // The loop goes through all runs, since one without an early exit checks many at once.
    let mut each = true;
    for width in widths {
        each &= *width >= 1;
    }
    each
}

/// Why the widths are no row.
pub(crate) fn runs_fault(widths: &[u16]) -> Option<RunFault>
    ensures { result ≡ runs_fault widths.now }
{
    if widths.len() % 2 == 0 || !have_dots(inner(widths)) {
        return Some(RunFault::BadRuns);
    }
    if widths.len() > MOST_RUNS || total(widths) > MOST_DOTS {
        return Some(RunFault::TooWide);
    }
    None
}

/// Why the widths, together at most 65,535 dots, are no row.
fn narrow_fault(widths: &[u16]) -> Option<RunFault>
    requires { sum widths.now ≤ 65535 }
    ensures { result ≡ runs_fault widths.now }
{
    if widths.len() % 2 == 1 && have_dots(inner(widths)) {
        return None;
    }
    Some(RunFault::BadRuns)
}

/// An empty row.
pub(crate) fn new_kept(alloc: Global) -> Result<Box<Kept>, RunFault>
    ensures ok { IfOk result (λ kept. kept.value.is_read ≡ false) }
    ensures empty { IfOk result (λ kept. kept.value.widths.list ≡ []) }
    ensures refused { IfErr result (λ f. f ≡ RunFault.NoMemory) }
{
    match Box::new(
        alloc,
        Kept {
            found: Found::Refused(RowFault::Blank),
            is_read: false,
            said_by: None,
            said: ArrayString::new(),
            widths: Widths::new(alloc),
        },
    ) {
        Ok(kept) => Ok(kept),
        Err(_) => Err(RunFault::NoMemory),
    }
}

impl Runs {
    /// The row of these widths in dots; the first and the last are light.
    ///
    /// The errors are `BadRuns`, `TooWide` and `NoMemory`; if there are several, the first of these.
    pub fn of_widths(alloc: Global, widths: &[u16]) -> Result<Runs, RunFault>
        ensures ok { IfOk result (λ r. r ≡ widths.now) }
        ensures taken { OnOk result (runs_fault widths.now ≡ None) }
        ensures refused { IfErr result (λ f. f ≢ RunFault.NoMemory → runs_fault widths.now ≡ Some f) }
        ensures late { IsErrOf result RunFault.NoMemory → runs_fault widths.now ≡ None }
    {
        if let Some(fault) = runs_fault(widths) {
            return Err(fault);
        }
        let mut kept = new_kept(alloc)?;
        match kept.widths.put_slice(widths) {
            Ok(()) => Ok(Runs { kept }),
            Err(_) => Err(RunFault::NoMemory),
        }
    }

    /// The row that takes over these widths in dots; the first and the last are light. It uses the memory of an
    /// earlier row, if the pool has some.
    ///
    /// The errors are those of `of_widths`.
    pub fn from_widths(pool: &mut RowPool, widths: Vec<u16>) -> Result<Runs, RunFault>
        ensures ok { IfOk result (λ r. r ≡ widths.items) }
        ensures taken { OnOk result (runs_fault widths.items ≡ None) }
        ensures refused { IfErr result (λ f. f ≢ RunFault.NoMemory → runs_fault widths.items ≡ Some f) }
        ensures late { IsErrOf result RunFault.NoMemory → runs_fault widths.items ≡ None }
    {
        match runs_fault(widths.as_slice()) {
            None => {
                let mut kept = pool.take_kept()?;
                let spare = kept.widths.put_vec(widths);
                pool.keep_widths(spare);
                Ok(Runs { kept })
            }
            Some(fault) => Err(fault),
        }
    }

    /// The row of the widths that `writer` writes, in the memory of an earlier row if the pool has some. None if it
    /// does not write them.
    ///
    /// The errors are those of `of_widths`.
    pub fn written_by<W: WritesWidths>(
        pool: &mut RowPool,
        writer: &W,
    ) -> Result<Option<Runs>, RunFault>
        ensures ok { IfOk result (λ row. IfSome row (W.Writes writer.now)) }
        ensures taken { IfOk result (λ row. IfSome row (λ r. runs_fault r ≡ None)) }
        ensures refused { IfErr result (λ f. f ≢ RunFault.NoMemory
            → (widths : List ℕ) × W.Writes writer.now widths × (runs_fault widths ≡ Some f)) }
    {
        let mut kept = pool.take_kept()?;
        if !kept.widths.put_written(writer) {
            pool.keep(kept);
            return Ok(None);
        }
        match narrow_fault(kept.widths.as_slice()) {
            None => Ok(Some(Runs { kept })),
            Some(fault) => {
                pool.keep(kept);
                Err(fault)
            }
        }
    }

    /// The row of `width` dots of packed bytes, from dot `from` on. The first dot of a byte is its high bit; 1 is
    /// dark.
    ///
    /// A row of more than 65,535 dots is `TooWide`, before any memory is taken. The only other error is `NoMemory`.
    pub fn cut(alloc: Global, bits: &[u8], from: usize, width: usize) -> Result<Runs, RunFault>
        requires { from + width ≤ 8 * length bits.now }
        ensures dots { IfOk result (λ r. dots_of r ≡ dots_at bits.now from width) }
        ensures row { IfOk result IsRow }
        ensures too_wide { 65535 < width → result ≡ Err RunFault.TooWide }
        ensures late { width ≤ 65535 → IfErr result (λ f. f ≡ RunFault.NoMemory) }
    {
        if width > MOST_DOTS as usize {
            return Err(RunFault::TooWide);
        }
        let mut kept = new_kept(alloc)?;
        if cut_into(bits, from, width, &mut kept.widths).is_err() {
            return Err(RunFault::NoMemory);
        }
        Ok(Runs { kept })
    }

    /// The widths in dots; the first and the last are light.
    pub fn widths(&self) -> &[u16]
        ensures value { result.now ≡ self.now }
        ensures row { IsRow self.now }
    {
        self.kept.widths.as_slice()
    }

    /// Reverses the row.
    pub fn reverse(&mut self)
        ensures { self.new ≡ reverse self.old }
    {
        let kept = &mut *self.kept;
        kept.is_read = false;
        kept.widths.reverse();
    }

    /// Finds the symbol of the row and keeps it. From then on, `read_row` takes its answer from there.
    pub fn read(&mut self)
        ensures { self.new ≡ self.old }
    {
        let kept = &mut *self.kept;
        find_into(kept.widths.as_slice(), &mut kept.found);
        kept.is_read = true;
        kept.said_by = None;
    }

    /// Reads the row as `read` does. If it shows a symbol of characters with elements, it also keeps these elements
    /// by the reference year, so that `push_row` need not compute them.
    pub fn read_by(&mut self, year: Year)
        ensures { self.new ≡ self.old }
    {
        self.read();
        let kept = &mut *self.kept;
        kept.said_by = kept.found.say(year, &mut kept.said);
    }

    /// What was found in the row, if it was read.
    pub(crate) fn found(&self) -> Option<&Found>
        ensures { IfSome result (λ found. IsFound self.now found.now) }
    {
        if self.kept.is_read {
            Some(&self.kept.found)
        } else {
            None
        }
    }
    /// The carrier of the symbol of characters that was found in the row, and its elements by the reference year in
    /// the human-readable form, if they were kept.
    pub(crate) fn said(&self, year: Year) -> Option<(Carrier, &str)>
        ensures { IfSome result (λ said. RowSays self.now year said.0 said.1.now) }
    {
        let kept = &*self.kept;
        let Some(by) = kept.said_by else {
            return None;
        };
        if kept.is_read && by == year {
            if let Found::Characters(carrier, _) = &kept.found {
                return Some((*carrier, kept.said.as_str()));
            }
        }
        None
    }
}
