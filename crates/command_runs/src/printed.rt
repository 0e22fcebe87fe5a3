//! Laws about the answers of printed sheets. Each is the contract of a function that does nothing. laws.rt states the
//! same of the commands.
ghost use Rattle.command_runs.specs.Printed.{PrintedAnswer, ScannedOnce, WrittenAnswer};

use scan_core::{dots_determine, dots_make_row, one_answer};
use sheet_core::{bar_rows_answer, empty_cells_are_blank};

/// If the text of each label says its elements under the reference year, the columns of the printed sheets have the
/// answers of the labels, cell by cell: the carrier and the elements of a label, or that the cell is blank.
pub fn printed_answer()
    ensures { PrintedAnswer }
{
    bar_rows_answer();
    empty_cells_are_blank();
    dots_make_row();
}

/// The columns of sheets have one list of answers at most.
pub fn scanned_once()
    ensures { ScannedOnce }
{
    dots_determine();
    one_answer();
}

/// Printed sheets, at most 4,096 (as many as are read), that are written as images and read again have the answers that
/// `printed_answer` gives them, and no others.
pub fn written_answer()
    ensures { WrittenAnswer }
{
    printed_answer();
    scanned_once();
    sheet_core::printed_is_read();
}
