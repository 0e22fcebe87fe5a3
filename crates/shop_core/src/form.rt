//! How each kind of symbol is laid out (GS1 General Specifications, sections 5.2 to 5.4 and 5.12.3).

use sheet_core::{GtinKind, LabelKind};

/// Digits side by side, each in the middle of a cell: the first digit, how many there are, the module at which the
/// first cell begins, counted from 20 modules left of the first bar, and the modules of a cell.
pub(crate) type Group = (u8, u8, u8, u8);

/// Modules from one up to another.
#[derive(Clone, Copy)]
pub(crate) struct Stretch {
    from: u32,
    end: u32,
}

/// The width of a module, in mm: the least, the nominal and the greatest.
#[derive(Clone, Copy)]
pub(crate) struct ModuleRange {
    pub(crate) least: f64,
    pub(crate) wanted: f64,
    pub(crate) most: f64,
}

const EAN13: [Group; 3] = [(0, 1, 10, 7), (1, 6, 23, 7), (7, 6, 70, 7)];

const UPCA: [Group; 4] = [(0, 1, 13, 5), (1, 5, 30, 7), (6, 5, 70, 7), (11, 1, 117, 5)];

const EAN8: [Group; 2] = [(0, 4, 23, 7), (4, 4, 56, 7)];

const UPCE: [Group; 3] = [(0, 1, 13, 5), (1, 6, 23, 7), (7, 1, 73, 5)];

const LONG_EAN13: [Stretch; 3] = [
    Stretch { from: 0, end: 3 },
    Stretch { from: 45, end: 50 },
    Stretch { from: 92, end: 95 },
];

const LONG_UPCA: [Stretch; 3] = [
    Stretch { from: 0, end: 10 },
    Stretch { from: 45, end: 50 },
    Stretch { from: 85, end: 95 },
];

const LONG_EAN8: [Stretch; 3] = [
    Stretch { from: 0, end: 3 },
    Stretch { from: 31, end: 36 },
    Stretch { from: 64, end: 67 },
];

const LONG_UPCE: [Stretch; 2] = [Stretch { from: 0, end: 3 }, Stretch { from: 45, end: 51 }];

/// Whether a kind is one for shops: its digits are in groups.
pub(crate) fn is_retail(kind: LabelKind) -> bool {
    !matches!(kind, LabelKind::Gtin(GtinKind::Itf14) | LabelKind::Gs1128)
}

/// The allowed widths of modules of a kind.
pub(crate) fn module_range(kind: LabelKind) -> ModuleRange {
    if is_retail(kind) {
        ModuleRange {
            least: 0.264,
            wanted: 0.33,
            most: 0.66,
        }
    } else {
        ModuleRange {
            least: 0.264,
            wanted: 0.495,
            most: 1.016,
        }
    }
}

/// The height of bars for the nominal module, in mm.
pub(crate) fn bars_mm(kind: LabelKind) -> f64 {
    match kind {
        LabelKind::Gtin(GtinKind::Ean8) => 18.23,
        LabelKind::Gtin(GtinKind::Itf14) | LabelKind::Gs1128 => 31.75,
        _ => 22.85,
    }
}

/// Where the digits of a kind are, if they are in groups.
pub(crate) fn groups(kind: LabelKind) -> &'static [Group] {
    match kind {
        LabelKind::Gtin(GtinKind::Ean13) => &EAN13,
        LabelKind::Gtin(GtinKind::UpcA) => &UPCA,
        LabelKind::Gtin(GtinKind::Ean8) => &EAN8,
        LabelKind::Gtin(GtinKind::UpcE) => &UPCE,
        _ => &[],
    }
}

/// The modules of a kind whose bars extend down between the digits.
fn long_stretches(kind: LabelKind) -> &'static [Stretch] {
    match kind {
        LabelKind::Gtin(GtinKind::Ean13) => &LONG_EAN13,
        LabelKind::Gtin(GtinKind::UpcA) => &LONG_UPCA,
        LabelKind::Gtin(GtinKind::Ean8) => &LONG_EAN8,
        LabelKind::Gtin(GtinKind::UpcE) => &LONG_UPCE,
        _ => &[],
    }
}

/// Whether the bar at this module extends down between the digits.
pub(crate) fn is_long(kind: LabelKind, module: u32) -> bool {
    for stretch in long_stretches(kind) {
        if stretch.from <= module && module < stretch.end {
            return true;
        }
    }
    false
}
