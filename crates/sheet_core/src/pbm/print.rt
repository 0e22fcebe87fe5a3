//! Prints labels as PBM images. It holds one row of dots in memory.
ghost use Rattle.std.specs.Prelude.{◌≡◌, ◌≢◌, ◌*◌, ◌<◌, ◌≤◌, ◌↔◌, [], ℕ, List, true, false, IfErr, IsErr, IsErrOf, OnErr, OnOk, length};
ghost use Rattle.std.specs.Io.KnownBytes.{Appends};
ghost use Rattle.std.specs.List.{AllByRecursion, AllZip};
ghost use Rattle.digits_core.specs.Bytes.{TookFront};
ghost use Rattle.sheet_core.specs.Bitmaps.{Bitmap, stride};
ghost use Rattle.sheet_core.specs.Drawing.{ArePrinted, AreSheets, IsPrintFault, IsSheet};
ghost use Rattle.sheet_core.specs.Labels.{Drawn, FitsCell, IsDrawn};
ghost use Rattle.sheet_core.specs.inner.Lines.{IsBand, repeated_bytes};
ghost use Rattle.sheet_core.specs.pbm.Images.{image, pbm_of};

use crate::fault::{PrintFault, SheetFault};
use crate::grid::Grid;
use crate::label::Label;
use crate::line::draw_line;
use crate::pbm::write::header;
use crate::print::{check_labels, part};
use crate::sheet::stride;
use digits_core::{Failed, Sink, write_all};
use std::alloc::Global;

/// Writes a row of dots this many times.
fn write_rows<W: Sink>(line: &[u8], count: u16, sink: &mut W) -> Result<(), Failed>
    ensures ok { OnOk result (Appends (W.taken sink.old) (W.taken sink.new) (repeated_bytes count line.now)) }
    ensures err { OnErr result (TookFront (W.taken sink.old) (W.taken sink.new) (repeated_bytes count line.now)) }
    ensures fault { W.failed sink.old ≡ false → (IsErr result ↔ (W.failed sink.new ≡ true)) }
{
    for _ in 0..count {
        write_all(sink, line)?;
    }
    Ok(())
}

/// Writes the dot rows of a row of cells. `line` is its buffer for one of them; its content does not matter.
fn write_band<W: Sink>(
    line: &mut [u8],
    grid: &Grid,
    labels: &[Label],
    sink: &mut W,
) -> Result<(), Failed>
    requires long { length line.old ≡ stride (grid.now.columns * grid.now.width) }
    requires few { length labels.now ≤ grid.now.columns }
    requires symbols { (symbols : List Drawn) × AllZip IsDrawn labels.now symbols × AllByRecursion (FitsCell grid.now) symbols }
    ensures ok { (symbols : List Drawn) → AllZip IsDrawn labels.now symbols → OnOk result
        ((bytes : List ℕ) × IsBand grid.now symbols bytes × Appends (W.taken sink.old) (W.taken sink.new) bytes) }
    ensures err { (symbols : List Drawn) → AllZip IsDrawn labels.now symbols → OnErr result
        ((bytes : List ℕ) × IsBand grid.now symbols bytes × TookFront (W.taken sink.old) (W.taken sink.new) bytes) }
    ensures fault { W.failed sink.old ≡ false → (IsErr result ↔ (W.failed sink.new ≡ true)) }
{
    line.fill(0);
    write_rows(line, grid.module_dots, sink)?;
    draw_line(line, grid, labels);
    write_rows(line, grid.cell_height - 2 * grid.module_dots, sink)?;
    line.fill(0);
    write_rows(line, grid.module_dots, sink)
}

/// Writes the image of a sheet with the first labels, as many as it has cells.
fn write_sheet<W: Sink>(
    line: &mut [u8],
    labels: &[Label],
    grid: &Grid,
    sink: &mut W,
) -> Result<(), Failed>
    requires long { length line.old ≡ stride (grid.now.columns * grid.now.width) }
    requires symbols { (symbols : List Drawn) × AllZip IsDrawn labels.now symbols × AllByRecursion (FitsCell grid.now) symbols }
    ensures ok { (symbols : List Drawn) → AllZip IsDrawn labels.now symbols → OnOk result
        ((sheet : Bitmap) × IsSheet symbols grid.now 0 sheet × Appends (W.taken sink.old) (W.taken sink.new) (image sheet)) }
    ensures err { (symbols : List Drawn) → AllZip IsDrawn labels.now symbols → OnErr result
        ((sheet : Bitmap) × IsSheet symbols grid.now 0 sheet × TookFront (W.taken sink.old) (W.taken sink.new) (image sheet)) }
    ensures fault { W.failed sink.old ≡ false → (IsErr result ↔ (W.failed sink.new ≡ true)) }
{
    let width = grid.columns * grid.cell_width;
    let height = grid.rows * grid.cell_height;
    write_all(sink, header(width, height).as_slice())?;
    let columns = usize::from(grid.columns);
    for row in 0..grid.rows {
        let here = part(labels, usize::from(row) * columns, columns);
        write_band(line, grid, here, sink)?;
    }
    Ok(())
}

/// Writes the images of the sheets of labels.
fn write_sheets<W: Sink>(
    line: &mut [u8],
    labels: &[Label],
    grid: &Grid,
    sink: &mut W,
) -> Result<(), Failed>
    requires long { length line.old ≡ stride (grid.now.columns * grid.now.width) }
    requires symbols { (symbols : List Drawn) × AllZip IsDrawn labels.now symbols × AllByRecursion (FitsCell grid.now) symbols }
    ensures ok { (symbols : List Drawn) → AllZip IsDrawn labels.now symbols → OnOk result
        ((sheets : List Bitmap) × AreSheets symbols grid.now sheets × Appends (W.taken sink.old) (W.taken sink.new) (pbm_of sheets)) }
    ensures err { (symbols : List Drawn) → AllZip IsDrawn labels.now symbols → OnErr result
        ((sheets : List Bitmap) × AreSheets symbols grid.now sheets × TookFront (W.taken sink.old) (W.taken sink.new) (pbm_of sheets)) }
    ensures none { labels.now ≡ [] → sink.new ≡ sink.old }
    ensures fault { W.failed sink.old ≡ false → (IsErr result ↔ (W.failed sink.new ≡ true)) }
{
    let cells = usize::from(grid.columns) * usize::from(grid.rows);
    let count = (labels.len() + (cells - 1)) / cells;
    for i in 0..count {
        let here = part(labels, i * cells, cells);
        write_sheet(line, here, grid, sink)?;
    }
    Ok(())
}

/// Writes labels as PBM images of the sheets that they fill in a grid (netpbm, pbm(5)): the bytes that `write_pbm`
/// writes for the sheets of `print_sheets`. It takes memory for only one row of dots, and writes row by row: if
/// writes are expensive, put a buffer in front of the sink.
///
/// It checks all labels in order, then takes the memory, and then writes. So after `LabelKind` and `LabelWidth`, the
/// errors of `print_sheets`, and after `NoMemory`, nothing was written; after `WriteFault`, a prefix of the bytes
/// was. For no labels it writes nothing.
pub fn print_pbm<W: Sink>(
    alloc: Global,
    labels: &[Label],
    grid: Grid,
    sink: &mut W,
) -> Result<(), PrintFault>
    ensures ok { OnOk result ((sheets : List Bitmap) × ArePrinted labels.now grid sheets
        × Appends (W.taken sink.old) (W.taken sink.new) (pbm_of sheets)) }
    ensures cut { IsErrOf result PrintFault.WriteFault
        → (sheets : List Bitmap) × ArePrinted labels.now grid sheets
        × TookFront (W.taken sink.old) (W.taken sink.new) (pbm_of sheets) }
    ensures refused { IfErr result (IsPrintFault grid labels.now) }
    ensures unwritten { IfErr result (λ e. e ≢ PrintFault.WriteFault → sink.new ≡ sink.old) }
    ensures none { labels.now ≡ [] → sink.new ≡ sink.old }
    ensures write { W.failed sink.old ≡ false
        → (IsErrOf result PrintFault.WriteFault ↔ (W.failed sink.new ≡ true)) }
{
    if let Err(fault) = check_labels(labels, &grid) {
        return Err(PrintFault::Sheet(fault));
    }
    let width = grid.columns * grid.cell_width;
    let Ok(mut line) = vec![in alloc; 0; stride(width)] else {
        return Err(PrintFault::Sheet(SheetFault::NoMemory));
    };
    match write_sheets(line.as_mut_slice(), labels, &grid, sink) {
        Ok(()) => Ok(()),
        Err(Failed) => Err(PrintFault::WriteFault),
    }
}
