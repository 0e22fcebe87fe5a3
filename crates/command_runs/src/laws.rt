//! Laws about what the commands write and read. Each is the contract of a function that does nothing. specs/Laws.antt
//! states them; the comments there must agree with those here.
ghost use Rattle.command_runs.specs.Laws.{AnswersByPlace, PrintedIsAnswered, PrintedIsScanned, RowsByPlace};

use crate::printed::{printed_answer, scanned_once};
use digits_core::gtins_are_checked;
use element_core::{canonical_reads, gtin_reads};
use sheet_core::printed_is_read;

/// `written_answer`, for the commands: if `print` writes at most 4,096 images, as many as `scan` accepts, then `scan`
/// with the same grid and year accepts them and writes exactly one text, the report of the labels (`scanned`). It has
/// the answers of the labels and no others (`answered`).
pub fn printed_is_scanned()
    ensures answered { PrintedIsAnswered }
    ensures scanned { PrintedIsScanned }
{
    gtins_are_checked();
    gtin_reads();
    canonical_reads();
    printed_is_read();
    printed_answer();
    scanned_once();
}

/// A scan of printed labels has, in each column, an answer for each row of cells of each sheet: that of the label in
/// this cell, or that the cell is blank.
pub fn answers_by_place()
    ensures { AnswersByPlace }
{}

/// A column has a row for each row of cells of each sheet, with the dots of the middle row of its cell.
pub fn rows_by_place()
    ensures { RowsByPlace }
{}
