//! What is proved of the product, a sentence and a contract for each: begin reading here.
#![tactic(auto)]

ghost use Rattle.std.specs.Prelude.{◌≡◌, ◌↔◌, ℕ, [], IfOk, List, OnOk, Some, map, reverse, slice_get};
ghost use Rattle.theorems.specs.Words.{AnswerLane, AreAllSeats, AreAnsweredAsByLanes, AreSettled, AreSymbolsOf, AreTold, CheckCharacter, Code128, Entry, ExactlyOne, Fields, HumanReadable, IsAnswer, IsBarRow, IsElements, IsPrintFor, IsRow, IsScan, Label, Lane, Means, PrintOptions, Reads, Refused, Said, ScanOptions, ShowsReplacedCharacter, ShowsReplacedDigit, SymbolCheckDigit, Terms, Window, as_lane, cells_of, label_answer, label_text, labels_report, year_of};

mod further;

use element_core::Year;
pub use further::{
    Lists, a_drawn_label_is_read, check_digit, draw, profile_within, read_message, serve,
};
use hub_core::{Gate, Unsettled};
use scan_core::{Answer, RunFault, Runs, Symbols};
use sheet_core::{Grid, Label, Sheet, SheetFault};
use std::alloc::Global;
use std::sync::Wait;
use std::thread::Threads;
use wire_core::Wire;

/// A text has exactly one meaning: a list of elements, or its first fault.
pub fn each_text_has_one_meaning()
    ensures { (year : Terms) (text : List ℕ) → ExactlyOne (Means year text) }
{
    element_core::each_text();
    element_core::one_list_or_fault();
}

/// A row has exactly one answer, the same from either end.
pub fn answer_of(row: &Runs, year: Year) -> Answer
    ensures one { (said : Said) → IsAnswer row.now year said ↔ (said ≡ result) }
    ensures turned { IsAnswer (reverse row.now) year result }
{
    scan_core::one_answer();
    scan_core::turned_row();
    let _widths = row.widths();
    scan_core::read_row(row, year)
}

/// A search finds every symbol of a row, from left to right: its calls tell one after the other, and then that there is none.
pub fn search<'a>(widths: &'a [u16], year: Year) -> Result<Symbols<'a>, RunFault>
    ensures { IfOk result (λ search. (found : List Window) → AreTold search found → AreSymbolsOf widths.now year found) }
{
    scan_core::row_or_fault();
    scan_core::symbols_are_told();
    Symbols::of_widths(widths, year)
}

/// If one checked digit or character of a symbol is replaced, its row is refused for that.
pub fn a_replaced_character_is_noticed()
    ensures digit { (row : List ℕ) (year : Terms) → IsRow row → ShowsReplacedDigit row → IsAnswer row year (Refused SymbolCheckDigit) }
    ensures character { (row : List ℕ) (year : Terms) → IsRow row → ShowsReplacedCharacter row → IsAnswer row year (Refused (Code128 CheckCharacter)) }
{
    scan_core::replacement_is_noticed();
    scan_core::replaced_character_is_noticed();
}

/// Each row through the bars of a printed label answers that label, and nothing else.
pub fn print_sheets(alloc: Global, labels: &[Label], grid: Grid) -> Result<Vec<Sheet>, SheetFault>
    ensures { IfOk result (λ sheets. (label : Label) (row : List ℕ) (year : Terms) (list : List Entry) (said : Said)
        → IsBarRow labels.now grid sheets.items label row → IsElements year (label_text label) list
        → IsAnswer row year said ↔ (said ≡ label_answer label year list)) }
{
    sheet_core::bar_rows_answer();
    sheet_core::print_sheets(alloc, labels, grid)
}

/// What `print` writes as images, `scan` takes in the same grid and year, and writes the report of the labels, cell by cell, and no other text.
pub fn what_print_writes_scan_reads()
    ensures { (scan : ScanOptions) (print : PrintOptions) (rows : List Fields) (labels : List Label) (bytes text : List ℕ)
        → IsPrintFor scan print rows labels bytes → IsScan scan bytes text ↔ (text ≡ labels_report (cells_of scan.grid) scan.year labels) }
{
    command_runs::printed_is_scanned();
}

/// Whatever the threads of 1 to 16 lanes and workers did: what a lane polled, and then its list, delivers the answers to its rows, in order and each once.
pub fn settle<R: Wait>(rt: &R, alloc: Global, all: Unsettled) -> Result<Lists, Unsettled>
    requires { AreAllSeats all.hub all.lanes.items all.workers.items all.deliverer }
    ensures settled { IfOk result (λ lists. AreSettled (year_of all.hub) (map as_lane all.lanes.items) (map (λ list. list.items) lists.items)) }
    ensures answered { IfOk result (λ lists. (i : ℕ) (lane : Lane) (said : List Said) → slice_get (map as_lane all.lanes.items) i ≡ Some lane
        → AnswerLane lane (map (λ list. list.items) lists.items) said → Reads lane.rows (year_of all.hub) said) }
{
    hub_core::headline();
    hub_core::Hub::settle(all.hub, rt, alloc, all.lanes, all.workers, all.deliverer)
}

/// If each record that `live` read is a row, what it wrote until it ended well is, sorted by lane, what `lanes` writes of these rows.
pub fn live<R: Threads + Wait + Sync, W: Wire + Drop, G: Gate + Sync>(
    rt: &R,
    alloc: Global,
    options: command_line::LiveOptions,
    wire: W,
    gate: &G,
) -> (W, Result<(), command_runs::CommandFault>)
    requires fresh { W.Did wire wire [] }
    ensures { options.form ≡ HumanReadable → OnOk result.1 (AreAnsweredAsByLanes options.rows W.Did W.at_end wire result.0) }
{
    command_runs::lines_are_report();
    command_runs::run_live(rt, alloc, options, wire, gate)
}
