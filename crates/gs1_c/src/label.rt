//! Labels of texts, and their images.
ghost use Rattle.std.specs.Prelude.{◌≡◌, Err, IfErr, IfOk, List, Ok, ℕ};
ghost use Rattle.digits_core.specs.Buffers.{IsPut};
ghost use Rattle.digits_core.specs.Refusals.{refusal_text};
ghost use Rattle.gs1_c.specs.Labels.{IsKindSaid, IsLabelAnswer, IsLabelOf, kind_numbered};

use crate::buffer::put_refusal;
use digits_core::{Gtin, Refusal};
use element_core::{Elements, Year};
use sheet_core::{Grid, GtinKind, Label, LabelKind, label_pbm};

/// The kind of this number.
pub fn kind_numbered(number: u32) -> Option<LabelKind>
    ensures { result ≡ kind_numbered number }
{
    match number {
        0 => Some(LabelKind::Gtin(GtinKind::Ean13)),
        1 => Some(LabelKind::Gtin(GtinKind::UpcA)),
        2 => Some(LabelKind::Gtin(GtinKind::Ean8)),
        3 => Some(LabelKind::Gtin(GtinKind::UpcE)),
        4 => Some(LabelKind::Gs1128),
        5 => Some(LabelKind::Gtin(GtinKind::Itf14)),
        _ => None,
    }
}

/// The label of this kind that a text makes, or why it makes none.
pub fn label_of(kind: LabelKind, text: &[u8], terms: Year) -> Result<Label, Refusal>
    ensures ok { IfOk result (λ label. IsLabelOf terms kind text.now (Ok label)) }
    ensures err { IfErr result (λ r. IsLabelOf terms kind text.now (Err (refusal_text r.kind r.place))) }
{
    match kind {
        LabelKind::Gtin(kind) => match Gtin::read(text) {
            Ok(gtin) => Ok(Label::of_gtin(kind, gtin)),
            Err(fault) => Err(fault.refusal()),
        },
        LabelKind::Gs1128 => match Elements::parse(text, terms) {
            Ok(elements) => Ok(Label::Gs1128(elements)),
            Err(fault) => Err(fault.refusal()),
        },
    }
}

/// Puts the image of a label in a grid of one cell, or why it cannot be printed.
fn put_label(label: &Label, grid: Grid, out: &mut [u8]) -> usize
    requires columns { grid.columns ≡ 1 }
    requires rows { grid.rows ≡ 1 }
    ensures { (bytes : List ℕ) × IsLabelAnswer label.now grid bytes × IsPut bytes out.old out.new result }
{
    match label_pbm(label, grid, out) {
        Ok(count) => count,
        Err(fault) => put_refusal(fault.refusal(), out),
    }
}

/// Puts the image of the label of this kind that a text makes, or why it cannot be printed.
pub fn put_image(kind: LabelKind, text: &[u8], terms: Year, grid: Grid, out: &mut [u8]) -> usize
    requires columns { grid.columns ≡ 1 }
    requires rows { grid.rows ≡ 1 }
    ensures { (bytes : List ℕ) × IsKindSaid (λ label. IsLabelAnswer label grid) terms kind text.now bytes × IsPut bytes out.old out.new result }
{
    match label_of(kind, text, terms) {
        Ok(label) => put_label(&label, grid, out),
        Err(refusal) => put_refusal(refusal, out),
    }
}
