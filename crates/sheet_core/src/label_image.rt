//! The image of one label, in the caller's buffer.
ghost use Rattle.std.specs.Prelude.{[], ◌≡◌, ◌+◌, ◌*◌, ◌∷◌, ◌++◌, ◌≤◌, List, IfErr, IfOk, OnErr, length};
ghost use Rattle.digits_core.specs.Buffers.{IsPut, pasted};
ghost use Rattle.sheet_core.specs.Bitmaps.{Bitmap, stride};
ghost use Rattle.sheet_core.specs.Drawing.{ArePrinted, IsSheetFault};
ghost use Rattle.sheet_core.specs.inner.Lines.{band, repeated_bytes};
ghost use Rattle.sheet_core.specs.pbm.Images.{pbm_of};

use crate::fault::SheetFault;
use crate::grid::Grid;
use crate::label::Label;
use crate::line::{draw_line, light_line};
use crate::pbm::write::header;
use crate::print::check_labels;
use digits_core::put_at;
use std::slice;

/// Puts a row of dots into `out` this many times from `at` on, and returns where the last one ends.
fn put_rows(line: &[u8], count: u16, at: usize, out: &mut [u8]) -> usize
    requires { at + count * length line.now ≤ length out.old }
    ensures end { result ≡ at + length (repeated_bytes count line.now) }
    ensures put { out.new ≡ pasted out.old at (repeated_bytes count line.now) }
{
    let mut end = at;
    for _ in 0..count {
        end = put_at(line, end, out);
    }
    end
}

/// The same for a header and the dot rows of a row of cells with these bars.
fn put_image(header: &[u8], line: &[u8], grid: &Grid, out: &mut [u8])
    requires room { length header.now + grid.now.height * length line.now ≤ length out.old }
    requires long { length line.now ≡ stride (grid.now.columns * grid.now.width) }
    ensures { out.new ≡ pasted out.old 0 (header.now ++ band grid.now line.now) }
{
    let light = light_line(grid.columns * grid.cell_width);
    let bar_rows = grid.cell_height - 2 * grid.module_dots;
    let above = put_at(header, 0, out);
    let bars = put_rows(light.as_slice(), grid.module_dots, above, out);
    let below = put_rows(line, bar_rows, bars, out);
    put_rows(light.as_slice(), grid.module_dots, below, out);
}

/// The PBM image (netpbm, pbm(5)) of the sheet of one label, in a grid of one cell: the bytes that `print_pbm` writes
/// for it. It puts them at the front of `out` if there is room for all of them, and returns how many they are. It
/// takes no memory.
///
/// A label without such a symbol is `LabelKind`. One that is wider than the cell, with its quiet zones, is
/// `LabelWidth`. Both have index 0, and leave `out` unchanged.
///
/// # Examples
///
/// An EAN-13, one pixel a module, in an image of 113 by 3 pixels; the bars are in its middle row:
///
/// ```
/// use sheet_core::{Grid, Label, label_pbm};
/// let label = Label::Ean13(digits_core::Gtin::read(b"9501101530003")?);
/// let grid = Grid::new(1, 113, 3, 1, 1)?;
/// let mut image = [0; 54];
/// let size = label_pbm(&label, grid, &mut image)?;
/// assert_eq!(rt; size, 54);
/// assert_eq!(rt; &image[..9], b"P4\n113 3\n".as_slice());
/// let bars = b"\x00\x15\x8A\x76\x66\x53\x99\x54\xE8\x5C\xB9\x72\x85\x40\x00";
/// assert_eq!(rt; &image[24..39], bars.as_slice());
/// ```
pub fn label_pbm(label: &Label, grid: Grid, out: &mut [u8]) -> Result<usize, SheetFault>
    requires columns { grid.columns ≡ 1 }
    requires rows { grid.rows ≡ 1 }
    ensures ok { IfOk result (λ count. (sheets : List Bitmap) × ArePrinted (label.now ∷ []) grid sheets
        × IsPut (pbm_of sheets) out.old out.new count) }
    ensures refused { IfErr result (IsSheetFault grid (label.now ∷ [])) }
    ensures unchanged { OnErr result (out.new ≡ out.old) }
{
    let labels = slice::from_ref(label);
    check_labels(labels, &grid)?;
    let width = grid.columns * grid.cell_width;
    let height = grid.rows * grid.cell_height;
    let mut line = light_line(width);
    draw_line(line.as_mut_slice(), &grid, labels);
    let header = header(width, height);
    let count = header.len() + usize::from(height) * line.len();
    if count <= out.len() {
        put_image(header.as_slice(), line.as_slice(), &grid, out);
    }
    Ok(count)
}
