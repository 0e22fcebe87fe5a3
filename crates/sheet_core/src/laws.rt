//! Laws about the definitions. Each is the contract of a function that does nothing.
ghost use Rattle.sheet_core.specs.Grids.{IsGrid};
ghost use Rattle.sheet_core.specs.Laws.{BarRowsAnswer, BarRowsShow, DrawnIsRead, EmptyCellsAreBlank, FilesAreRead, FilesAreRefused, HeadersAreRead, HeadersAreRefused, OneDrawn, OneListOfSheets, PrintedIsRead, WrittenIsRead};
ghost use Rattle.sheet_core.specs.PrintLaws.{OneBitmap, OnePrinted};

use crate::grid::Grid;
use code128_code::modules_say;
use scan_core::{dots_determine, one_answer, symbol_measures};

/// A label is drawn as one symbol with its quiet zones.
pub fn one_drawn()
    ensures { OneDrawn }
{}

/// Each row through the bars of a printed label's cell shows the label's symbol, from left to right.
pub fn bar_rows_show()
    ensures { BarRowsShow }
{
    dots_determine();
    ean_code::measures_of_kind();
    symbol_measures();
}

/// Each row through the bars of a printed label's cell reads as the label's carrier and the elements of its text by
/// the reference year, and nothing else.
pub fn bar_rows_answer()
    ensures { BarRowsAnswer }
{
    dots_determine();
    ean_code::measures_of_kind();
    symbol_measures();
    modules_say();
    one_answer();
}

/// Each row with the dots of a drawn label reads as the label's carrier and the elements of its text by the reference
/// year, and nothing else.
pub fn drawn_is_read()
    ensures { DrawnIsRead }
{
    dots_determine();
    ean_code::measures_of_kind();
    symbol_measures();
    modules_say();
    one_answer();
}

/// In a cell without a label, each row of a printed sheet is refused as blank.
pub fn empty_cells_are_blank()
    ensures { EmptyCellsAreBlank }
{}

/// Each grid keeps the limits of `Grid::new`.
pub fn grids_keep_limits(grid: &Grid)
    ensures { IsGrid grid.now }
{
    let _rows = grid.rows;
}

/// Sheets that are written, at most 4,096, read back as the same sheets.
pub fn written_is_read()
    ensures { WrittenIsRead }
{}

/// Printed sheets that are written, at most 4,096, read back as the same sheets.
pub fn printed_is_read()
    ensures { PrintedIsRead }
{}

/// The reader accepts exactly the headers of at most 4,096 bytes.
pub fn headers_are_read()
    ensures { HeadersAreRead }
{}

/// The reader accepts exactly the files of at most 4,096 images.
pub fn files_are_read()
    ensures { FilesAreRead }
{}

/// A header is refused exactly for the reasons of its grammar, at the byte that decides.
pub fn headers_are_refused()
    ensures { HeadersAreRefused }
{}

/// A file is refused exactly for the first image that its grammar refuses, or for more than 4,096 images.
pub fn files_are_refused()
    ensures { FilesAreRefused }
{}

/// A file of at most 4,096 images shows one list of sheets.
pub fn one_list_of_sheets()
    ensures { OneListOfSheets }
{}

/// Width, height and dots determine the bytes of a bitmap.
pub fn one_bitmap()
    ensures { OneBitmap }
{}

/// Labels in a grid are printed as exactly one list of sheets.
pub fn one_printed()
    ensures { OnePrinted }
{}
