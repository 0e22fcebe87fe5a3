//! Prints labels on sheets.
ghost use Rattle.std.specs.Prelude.{◌≡◌, ◌≢◌, ◌+◌, ◌*◌, ◌++◌, ◌≤◌, ℕ, List, IfErr, IfOk, IsErrOf, OnOk, drop, length, take};
ghost use Rattle.std.specs.List.{AllByRecursion, AllZip};
ghost use Rattle.sheet_core.specs.Bitmaps.{stride};
ghost use Rattle.sheet_core.specs.Drawing.{ArePrinted, IsSheet, IsSheetFault, cell_count};
ghost use Rattle.sheet_core.specs.Labels.{Drawn, FitsCell, IsDrawn, IsPrintable};
ghost use Rattle.sheet_core.specs.inner.Lines.{IsBarLine, band, repeated_bytes};

use crate::fault::SheetFault;
use crate::grid::Grid;
use crate::label::Label;
use crate::line::{draw_line, light_line};
use crate::sheet::{Sheet, stride};
use std::alloc::{AllocError, Global};

/// Whether all labels can be printed: each has a symbol that fits its cell with its quiet zones. It checks them in
/// order. The first without a symbol is `LabelKind`, the first that is too wide `LabelWidth`, whichever comes first,
/// with its index. It takes no memory.
pub fn check_labels(labels: &[Label], grid: &Grid) -> Result<(), SheetFault>
    ensures ok { OnOk result (AllByRecursion (IsPrintable grid.now) labels.now) }
    ensures err { IfErr result (IsSheetFault grid.now labels.now) }
{
    for (i, label) in labels.iter().enumerate() {
        let Some(fits) = label.fits(grid) else {
            return Err(SheetFault::LabelKind(i));
        };
        if !fits {
            return Err(SheetFault::LabelWidth(i));
        }
    }
    Ok(())
}

/// The labels from an index on, at most `count` of them.
pub(crate) fn part(labels: &[Label], from: usize, count: usize) -> &[Label]
    ensures { result.now ≡ take count (drop from labels.now) }
{
    let rest = &labels[from.min(labels.len())..];
    &rest[..count.min(rest.len())]
}

/// Appends a line this many times.
fn push_rows(bytes: &mut Vec<u8>, line: &[u8], count: u16) -> Result<(), AllocError>
    ensures { OnOk result (bytes.new.items ≡ bytes.old.items ++ repeated_bytes count line.now) }
{
    for _ in 0..count {
        bytes.extend_from_slice(line)?;
    }
    Ok(())
}

/// Appends the dot rows of a row of cells.
fn push_band(bytes: &mut Vec<u8>, grid: &Grid, labels: &[Label]) -> Result<(), AllocError>
    requires few { length labels.now ≤ grid.now.columns }
    requires symbols { (symbols : List Drawn) × AllZip IsDrawn labels.now symbols × AllByRecursion (FitsCell grid.now) symbols }
    ensures { (symbols : List Drawn) → AllZip IsDrawn labels.now symbols → OnOk result
        ((line : List ℕ) × IsBarLine grid.now symbols line × (bytes.new.items ≡ bytes.old.items ++ band grid.now line)) }
{
    let width = grid.columns * grid.cell_width;
    let light = light_line(width);
    let mut line = light_line(width);
    draw_line(line.as_mut_slice(), grid, labels);
    let bar_rows = grid.cell_height - 2 * grid.module_dots;
    push_rows(bytes, light.as_slice(), grid.module_dots)?;
    push_rows(bytes, line.as_slice(), bar_rows)?;
    push_rows(bytes, light.as_slice(), grid.module_dots)
}

/// The sheet of labels, at most as many as it has cells.
fn print_sheet(alloc: Global, labels: &[Label], grid: &Grid) -> Result<Sheet, AllocError>
    requires few { length labels.now ≤ cell_count grid.now }
    requires symbols { (symbols : List Drawn) × AllZip IsDrawn labels.now symbols × AllByRecursion (FitsCell grid.now) symbols }
    ensures { (symbols : List Drawn) → AllZip IsDrawn labels.now symbols → IfOk result (IsSheet symbols grid.now 0) }
{
    let width = grid.columns * grid.cell_width;
    let height = grid.rows * grid.cell_height;
    let mut bytes = Vec::with_capacity(alloc, stride(width) * usize::from(height))?;
    let columns = usize::from(grid.columns);
    for row in 0..grid.rows {
        let here = part(labels, usize::from(row) * columns, columns);
        push_band(&mut bytes, grid, here)?;
    }
    Ok(Sheet {
        width,
        height,
        bytes,
    })
}

/// The sheets of labels in the cells of a grid, row by row from the left, as many sheets as needed. Cells of the last
/// sheet may stay light. No labels give no sheets.
///
/// A symbol begins after its nominal left quiet zone. Its bars fill all rows of its cell except one module's height
/// at the top and at the bottom. Before it takes any memory, it checks the labels in order: one without a symbol is
/// `LabelKind`, one that is wider than its cell, with its quiet zones, `LabelWidth`, both with its index.
pub fn print_sheets(alloc: Global, labels: &[Label], grid: Grid) -> Result<Vec<Sheet>, SheetFault>
    ensures ok { IfOk result (λ sheets. ArePrinted labels.now grid sheets.items) }
    ensures taken { OnOk result (AllByRecursion (IsPrintable grid) labels.now) }
    ensures refused { IfErr result (λ fault. fault ≢ SheetFault.NoMemory → IsSheetFault grid labels.now fault) }
    ensures late { IsErrOf result SheetFault.NoMemory → AllByRecursion (IsPrintable grid) labels.now }
{
    check_labels(labels, &grid)?;
    let cells = usize::from(grid.columns) * usize::from(grid.rows);
    let count = (labels.len() + (cells - 1)) / cells;
    let mut sheets = Vec::new(alloc);
    for i in 0..count {
        let here = part(labels, i * cells, cells);
        let Ok(sheet) = print_sheet(alloc, here, &grid) else {
            return Err(SheetFault::NoMemory);
        };
        if sheets.push(sheet).is_err() {
            return Err(SheetFault::NoMemory);
        }
    }
    Ok(sheets)
}
