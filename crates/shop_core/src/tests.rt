//! Labels of worked articles, and what has none.

use crate::{
    Article, Commons, Drawing, Field, Font, Fonts, Ink, Item, LabelFault, Look, Plan, Texts, draw,
};
use digits_core::Gtin;
use element_core::Year;
use sheet_core::{GtinKind, Label};

const NONE: Texts = Texts {
    name: &[],
    price: &[],
    old_price: &[],
    unit_price: &[],
    deposit: &[],
    best_before: &[],
    batch: &[],
    lines: &[],
};

// Rye
const NAME: &[u32] = &[82, 121, 101];

// 1.20
const PRICE: &[u32] = &[49, 46, 50, 48];

// Nine lines, a letter each.
const NINE: &[u32] = &[
    65, 10, 65, 10, 65, 10, 65, 10, 65, 10, 65, 10, 65, 10, 65, 10, 65,
];

// Half a size wide, and as high as Liberation Sans.
const FONT: Font = Font {
    widths: &[],
    other: 8_192,
    ascent: 15_893,
    descent: 3_769,
    digits: 12_124,
};

// A label of 63.5 by 38.1 mm at 8 dots a millimetre.
const LOOK: Look = Look {
    width: 508,
    height: 304,
    aside: 18.3,
    above: 18.3,
    dots: 8.0,
    module_mm: None,
    bars_mm: None,
    is_price_first: true,
};

fn drawn(
    kind: GtinKind,
    digits: &[u8],
    texts: Texts,
    look: Look,
    font: Font,
) -> Result<Drawing, LabelFault> {
    let (Some(year), Ok(gtin)) = (Year::new(2026), Gtin::read(digits)) else {
        return Err(LabelFault::NoSymbol);
    };
    let article = Article::new(Label::of_gtin(kind, gtin), texts, true)?;
    let item = Item::of(&article, &look)?;
    let fonts = Fonts {
        regular: font,
        bold: font,
    };
    let commons = Commons::of(&[item.measure(&fonts)], &look)?;
    let plan = Plan {
        look,
        fonts,
        commons,
    };
    draw(&item, &plan, year, &mut [0u8; 8_192])
}

fn ean13(texts: Texts, look: Look) -> Result<Drawing, LabelFault> {
    drawn(GtinKind::Ean13, b"9501101530003", texts, look, FONT)
}

/// Why there is no label, if there is none.
fn fault(drawn: Result<Drawing, LabelFault>) -> Option<LabelFault> {
    match drawn {
        Ok(_) => None,
        Err(fault) => Some(fault),
    }
}

/// How many letters of a field a label shows.
fn shown(drawing: &Drawing, field: Field) -> u32 {
    let mut count = 0u32;
    for part in drawing.parts.as_slice() {
        if let Ink::Letters(run) = part.ink {
            if run.field == field {
                count = count.saturating_add(u32::from(run.count));
            }
        }
    }
    count
}

#[test]
fn a_label_shows_its_article(rt: HostRuntime) {
    let texts = Texts {
        name: NAME,
        price: PRICE,
        ..NONE
    };
    for is_price_first in [true, false] {
        let look = Look {
            is_price_first,
            ..LOOK
        };
        let drawn = ean13(texts, look);
        assert!(rt; drawn.is_ok());
        if let Ok(drawing) = drawn {
            // 30 bars, a name, a price, and digits in three groups.
            assert_eq!(rt; drawing.parts.len(), 35);
            assert_eq!(rt; drawing.module, 3);
            assert_eq!(rt; shown(&drawing, Field::Name), 3);
            assert_eq!(rt; shown(&drawing, Field::Price), 4);
            assert_eq!(rt; shown(&drawing, Field::Digits), 13);
        }
    }
}

/// Whether an ellipsis follows letters of a field.
fn goes_on(drawing: &Drawing, field: Field) -> bool {
    for part in drawing.parts.as_slice() {
        if let Ink::Letters(run) = part.ink {
            if run.field == field && run.is_cut {
                return true;
            }
        }
    }
    false
}

#[test]
fn a_long_name_is_cut_on_low_labels_and_the_price_is_whole(rt: HostRuntime) {
    let many = [65u32; 200];
    let texts = Texts {
        name: &many,
        price: PRICE,
        ..NONE
    };
    // The price is beside the bars, above them on a narrower label, and above them on a higher one.
    for (width, height) in [(508, 152), (430, 152), (508, 200)] {
        let look = Look {
            width,
            height,
            aside: 9.6,
            above: 9.6,
            ..LOOK
        };
        let drawn = ean13(texts, look);
        assert!(rt; drawn.is_ok());
        if let Ok(drawing) = drawn {
            assert!(rt; shown(&drawing, Field::Name) >= 30);
            assert!(rt; goes_on(&drawing, Field::Name));
            assert_eq!(rt; shown(&drawing, Field::Price), 4);
        }
    }
}

#[test]
fn what_has_no_label_is_refused_by_name(rt: HostRuntime) {
    let long = [57u32; 40];
    let many = [65u32; 10_000];
    let priced = Texts {
        price: &long,
        ..NONE
    };
    let narrow = Look { width: 430, ..LOOK };
    assert_eq!(rt; fault(ean13(priced, narrow)), Some(LabelFault::NoPlace));
    let named = Texts {
        name: &many,
        ..NONE
    };
    assert_eq!(rt; fault(ean13(named, LOOK)), None);
    let nine = Texts {
        lines: NINE,
        ..NONE
    };
    assert_eq!(rt; fault(ean13(nine, LOOK)), Some(LabelFault::Lines));
    let looks = [
        (
            Look {
                dots: f64::INFINITY,
                ..LOOK
            },
            LabelFault::Measures,
        ),
        (
            Look {
                aside: f64::NAN,
                ..LOOK
            },
            LabelFault::Measures,
        ),
        (
            Look {
                module_mm: Some(9.0),
                ..LOOK
            },
            LabelFault::Module,
        ),
        (
            Look {
                module_mm: Some(0.1),
                ..LOOK
            },
            LabelFault::Module,
        ),
        (
            Look {
                bars_mm: Some(4.9),
                ..LOOK
            },
            LabelFault::Bars,
        ),
        (Look { width: 300, ..LOOK }, LabelFault::TooWide),
        (Look { height: 90, ..LOOK }, LabelFault::NoHeight),
    ];
    for (look, wanted) in looks {
        assert_eq!(rt; fault(ean13(NONE, look)), Some(wanted));
    }
    let upce = drawn(GtinKind::UpcE, b"012345678905", NONE, LOOK, FONT);
    assert_eq!(rt; fault(upce), Some(LabelFault::NoSymbol));
}
