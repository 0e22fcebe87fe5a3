//! The lines of labels, which `print --text` writes instead of images.
ghost use Rattle.std.specs.Prelude.{◌≡◌, ◌++◌, ◌<◌, IfOk, OnOk, string_bytes};
ghost use Rattle.csv_records.specs.print.Labels.{label_hri, label_line, label_lines};

use arrayvec::ArrayString;
use element_core::{Elements, Year};
use sheet_core::{Content, Label};
use std::alloc::{AllocError, Global};
use std::fmt::Write;

/// The human-readable line of a label, with the capacity of `Elements::hri`.
fn label_hri(label: &Label, year: Year) -> ArrayString<288>
    ensures { result.bytes ≡ label_hri label.now }
{
    match label.content() {
        Content::Gtin(gtin) => Elements::of_gtin(gtin, year).hri(),
        Content::Elements(elements) => elements.hri(),
    }
}

/// Appends the line of the label at an index, on sheets with this many cells.
fn push_line(
    text: &mut String,
    cells: usize,
    index: usize,
    label: &Label,
    year: Year,
) -> Result<(), AllocError>
    requires { 0 < cells }
    ensures { OnOk result (string_bytes text.new
        ≡ string_bytes text.old ++ label_line cells index label.now) }
{
    let sheet = index / cells;
    let cell = index % cells;
    let kind = label.kind().symbology().name;
    let line = label_hri(label, year);
    let elements = line.as_str();
    writeln!(text, "{sheet} {cell} {kind} {elements}")
}

/// The lines of labels, on sheets with this many cells.
pub fn label_lines(
    alloc: Global,
    labels: &[Label],
    cells: usize,
    year: Year,
) -> Result<String, AllocError>
    requires { 0 < cells }
    ensures { IfOk result (λ text. string_bytes text ≡ label_lines cells labels.now) }
{
    let mut text = String::new(alloc);
    'labels: for (index, label) in labels.iter().enumerate() {
        push_line(&mut text, cells, index, label, year)?;
    }
    Ok(text)
}
