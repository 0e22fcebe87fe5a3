//! The answer to a row.
ghost use Rattle.std.specs.Prelude.{None, Some, ◌≡◌, ◌≢◌, ◌++◌, IfErr, IfOk, OnOk, ℕ, length, string_bytes, sum};
ghost use Rattle.scan_core.specs.Answers.{IsAnswer};
ghost use Rattle.scan_core.specs.Lines.{said};
ghost use Rattle.scan_core.specs.inner.Stages.{Fails, FailsAt};
ghost use Rattle.scan_core.specs.Reading.{IsFound, IsUnread};
ghost use Rattle.scan_core.specs.Row.{IsRow, inner, runs_fault};
ghost use Rattle.scan_core.specs.Showing.{HasSize, kind_of};

use crate::carrier::{Candidate, Carrier, fixed_candidate, gs1128_candidate};
use crate::fault::{RowFault, RunFault};
use crate::found::{Found, push_said};
use crate::rounding::{MOST_RUNS, is_quiet, round, total_dots};
use crate::runs::{Runs, inner, runs_fault};
use crate::stage::{Stage, later};
use crate::symbol::read_some_way;
use element_core::{Elements, Form, Year};
use std::alloc::AllocError;

/// The answer to a row.
#[derive(Debug, Drop)]
pub enum Answer {
    /// The row shows a symbol of this carrier with these elements.
    Read {
        /// The symbol's kind.
        carrier: Carrier,
        /// Its elements, with dates by the reference year. An EAN, UPC or ITF-14 has one element, its GTIN.
        elements: Elements,
    },
    /// The row shows no symbol, or the symbol has an error.
    Refused(RowFault),
}

/// Tries the row as a symbol of the candidate. Writes the symbol to `found`, or returns the stage at which the row
/// fails. Its runs between the light ends are `total` dots.
fn try_candidate(
    widths: &[u16],
    total: u32,
    candidate: Candidate,
    found: &mut Found,
) -> Result<(), Stage>
    requires row { IsRow widths.now }
    requires sum { total ≡ sum (inner widths.now) }
    requires counted { HasSize (kind_of candidate.carrier) (length (inner widths.now)) candidate.count }
    ensures found { OnOk result (IsFound widths.now found.new) }
    ensures fails { IfErr result (λ stage. Fails widths.now candidate.carrier candidate.count stage) }
{
    if !is_quiet(widths, total, candidate.count) {
        return Err(Stage::QuietZone);
    }
    let mut room = [0; MOST_RUNS];
    let inner = inner(widths);
    let modules = &mut room[..inner.len()];
    if !round(inner, total as u16, candidate.count, modules) {
        return Err(Stage::Modules);
    }
    if !read_some_way(candidate.carrier, modules, found) {
        return Err(Stage::Pattern);
    }
    Ok(())
}

/// Tries the row as a symbol of one candidate and then of the other. Writes the symbol to `found`, or returns the
/// later of the two stages at which the row fails.
fn try_both(
    widths: &[u16],
    total: u32,
    fixed: Candidate,
    gs1128: Candidate,
    found: &mut Found,
) -> Result<(), Stage>
    requires row { IsRow widths.now }
    requires sum { total ≡ sum (inner widths.now) }
    requires counted { HasSize (kind_of fixed.carrier) (length (inner widths.now)) fixed.count }
    requires counted_gs1128 { HasSize (kind_of gs1128.carrier) (length (inner widths.now)) gs1128.count }
    requires fixed { fixed.carrier ≢ Carrier.Gs1128 }
    requires gs1128 { gs1128.carrier ≡ Carrier.Gs1128 }
    ensures found { OnOk result (IsFound widths.now found.new) }
    ensures fails { IfErr result (λ stage. FailsAt widths.now stage) }
{
    match try_candidate(widths, total, fixed, found) {
        Ok(()) => Ok(()),
        Err(stage) => match try_candidate(widths, total, gs1128, found) {
            Ok(()) => Ok(()),
            Err(other) => Err(later(stage, other)),
        },
    }
}

/// Writes the symbol that the row shows to `found`, or returns why the row is refused.
fn find_shown(widths: &[u16], found: &mut Found) -> Result<(), RowFault>
    requires { IsRow widths.now }
    ensures found { OnOk result (IsFound widths.now found.new) }
    ensures refused { IfErr result (IsUnread widths.now) }
{
    if widths.len() == 1 {
        return Err(RowFault::Blank);
    }
    let inner = inner(widths);
    let total = total_dots(inner);
    match (fixed_candidate(inner.len()), gs1128_candidate(inner.len())) {
        (Some(fixed), Some(gs1128)) => Ok(try_both(widths, total, fixed, gs1128, found)?),
        (Some(fixed), None) => Ok(try_candidate(widths, total, fixed, found)?),
        (None, Some(gs1128)) => Ok(try_candidate(widths, total, gs1128, found)?),
        (None, None) => Err(RowFault::RunCount),
    }
}

/// Writes what is found in the row of these widths to `found`.
///
/// It writes in place, since each function that returns a result copies it.
pub(crate) fn find_into(widths: &[u16], found: &mut Found)
    requires { IsRow widths.now }
    ensures { IsFound widths.now found.new }
{
    if let Err(fault) = find_shown(widths, found) {
        *found = Found::Refused(fault);
    }
}

/// What is found in the row of these widths.
pub(crate) fn found_in(widths: &[u16]) -> Found
    requires { IsRow widths.now }
    ensures { IsFound widths.now result }
{
    let mut found = Found::Refused(RowFault::Blank);
    find_into(widths, &mut found);
    found
}

/// The answer to the row of these widths.
pub(crate) fn answer_in(widths: &[u16], year: Year) -> Answer
    requires { IsRow widths.now }
    ensures { IsAnswer widths.now year result }
{
    found_in(widths).answer(year)
}

/// Reads a row from the left and from the right (GS1 General Specifications, section 5; ISO/IEC 15420, 16390 and
/// 15417). The answer has the elements of the only symbol that the row shows, or the reason why it is refused.
///
/// Each run is rounded to the nearest number of modules and may be off by a third of a module. The width of a module
/// follows from the width of the symbol. Both light ends must be at least five modules wide.
pub fn read_row(runs: &Runs, year: Year) -> Answer
    ensures { IsAnswer runs.now year result }
{
    match runs.found() {
        Some(found) => found.answer(year),
        None => answer_in(runs.widths(), year),
    }
}

/// Appends the line of the answer of `read_row`, with its elements in a form.
pub fn push_row(runs: &Runs, year: Year, form: Form, text: &mut String) -> Result<(), AllocError>
    ensures { OnOk result ((answer : Answer) × IsAnswer runs.now year answer × (string_bytes text.new ≡ string_bytes text.old ++ said form answer)) }
{
    if let Form::HumanReadable = form {
        if let Some((carrier, said)) = runs.said(year) {
            return push_said(carrier, said, text);
        }
    }
    match runs.found() {
        Some(found) => found.push_line(year, form, text),
        None => found_in(runs.widths()).push_line(year, form, text),
    }
}

/// Finds the symbol in the row of these widths in dots, or says why they are no row. Takes no memory.
pub fn find_widths(widths: &[u16]) -> Result<Found, RunFault>
    ensures ok { IfOk result (IsFound widths.now) }
    ensures taken { OnOk result (runs_fault widths.now ≡ None) }
    ensures refused { IfErr result (λ fault. runs_fault widths.now ≡ Some fault) }
{
    match runs_fault(widths) {
        None => Ok(found_in(widths)),
        Some(fault) => Err(fault),
    }
}

/// Reads the row of these widths in dots as `read_row` does, or says why they are no row. Takes no memory.
///
/// # Examples
///
/// A row of pixels across an EAN-8: 7 light ones, then the widths of its bars and spaces:
///
/// ```
/// use scan_core::{Answer, read_widths};
/// let widths = [
///     7, 1, 1, 1, 3, 1, 1, 2, 1, 1, 1, 4, 1, 4, 1, 1, 1, 2, 1, 3, 1, 1, 1, 1, 1, 1, 2, 3, 1, 3,
///     2, 1, 1, 1, 3, 1, 2, 1, 1, 3, 2, 1, 1, 1, 7,
/// ];
/// let year = element_core::Year::new(2026).ok_or("a year")?;
/// let Answer::Read { elements, .. } = read_widths(&widths, year)? else {
///     return Err(Fail::from("no symbol"));
/// };
/// assert_eq!(rt; elements.hri().as_str(), "(01)00000096385074");
/// ```
pub fn read_widths(widths: &[u16], year: Year) -> Result<Answer, RunFault>
    ensures ok { IfOk result (IsAnswer widths.now year) }
    ensures taken { OnOk result (runs_fault widths.now ≡ None) }
    ensures refused { IfErr result (λ fault. runs_fault widths.now ≡ Some fault) }
{
    Ok(find_widths(widths)?.answer(year))
}
