//! What each call puts, against values from outside.

use crate::next::ElementPlace;
use crate::value::{gs1_c_format, gs1_c_read_data};
use crate::{
    gs1_c_date, gs1_c_digit, gs1_c_dots, gs1_c_dots_elements, gs1_c_find, gs1_c_find_dots,
    gs1_c_gtin, gs1_c_label, gs1_c_next, gs1_c_picture, gs1_c_row, gs1_c_row_elements, gs1_c_scan,
    gs1_c_status, gs1_c_text, gs1_c_text_elements, gs1_c_title,
};
use answer_core::Answer;
use std::process::Abort;

// 9501101530003 as EAN-13, its light ends included, at one dot a module, and the same as packed dots.
const WIDTHS: &[u16] = &[
    11, 1, 1, 1, 1, 2, 3, 1, 1, 1, 2, 3, 1, 2, 2, 2, 2, 2, 2, 1, 1, 1, 2, 3, 2, 2, 2, 1, 1, 1, 1,
    1, 1, 1, 2, 3, 1, 1, 4, 1, 1, 3, 2, 1, 1, 3, 2, 1, 1, 3, 2, 1, 1, 1, 4, 1, 1, 1, 1, 1, 7,
];

// The same in a frame of two dark lines.
const FRAMED: &[u16] = &[
    3, 2, 11, 1, 1, 1, 1, 2, 3, 1, 1, 1, 2, 3, 1, 2, 2, 2, 2, 2, 2, 1, 1, 1, 2, 3, 2, 2, 2, 1, 1,
    1, 1, 1, 1, 1, 2, 3, 1, 1, 4, 1, 1, 3, 2, 1, 1, 3, 2, 1, 1, 3, 2, 1, 1, 1, 4, 1, 1, 1, 1, 1, 7,
    2, 3,
];

const DOTS: &[u8] = b"\x00\x15\x8A\x76\x66\x53\x99\x54\xE8\x5C\xB9\x72\x85\x40\x00";

// The header of an image of 160 by 3 dots and its first row, which is light.
const LIGHT: &[u8] = b"P4\n160 3\n\0\0\0\0\0\0\0\0\0\0\0\0\0\0\0\0\0\0\0\0";

/// A call and what it is asked.
#[derive(Clone, Copy)]
enum Asked {
    Gtin(&'static [u8]),
    Digit(&'static [u8]),
    Text(&'static [u8], u16),
    TextElements(&'static [u8], u16),
    Row(&'static [u16], u16),
    RowElements(&'static [u16], u16),
    Find(&'static [u16], u16),
    Dots(&'static [u8], u32, u16),
    DotsElements(&'static [u8], u32, u16),
    Scan(&'static [u8], u16),
    Data(&'static [u8], u16),
    Date(&'static [u8], u16),
    Label(u32, &'static [u8], u16, u16),
}

/// The line of the answer whose line this is.
fn read_back(line: &[u8], year: u16, out: &mut [u8]) -> usize {
    let mut answer = Answer::new();
    gs1_c_read_data(line, year, &mut answer);
    gs1_c_format(&answer, 0, out)
}

/// What the call answers; a label in a cell of three rows, at one dot a module.
fn answer(asked: Asked, out: &mut [u8]) -> usize {
    match asked {
        Asked::Gtin(text) => gs1_c_gtin(text, out),
        Asked::Digit(text) => gs1_c_digit(text, out),
        Asked::Text(text, year) => gs1_c_text(text, year, out),
        Asked::TextElements(text, year) => gs1_c_text_elements(text, year, out),
        Asked::Row(widths, year) => gs1_c_row(widths, year, out),
        Asked::RowElements(widths, year) => gs1_c_row_elements(widths, year, out),
        Asked::Find(widths, year) => gs1_c_find(widths, year, out),
        Asked::Dots(bits, count, year) => gs1_c_dots(bits, count, year, out),
        Asked::DotsElements(bits, count, year) => gs1_c_dots_elements(bits, count, year, out),
        Asked::Scan(text, year) => gs1_c_scan(text, year, out),
        Asked::Data(line, year) => read_back(line, year, out),
        Asked::Date(text, year) => gs1_c_date(text, year, out),
        Asked::Label(kind, text, year, width) => gs1_c_label(kind, text, year, 1, width, 3, out),
    }
}

/// Asserts that these bytes are put.
fn puts<R: Abort>(rt: &R, put: Option<&[u8]>, wanted: &[u8]) {
    assert_eq!(*rt; put, Some(wanted));
}

/// What each call is asked, and its line.
const CASES: &[(Asked, &[u8])] = &[
    (Asked::Gtin(b"9501101530003"), b"gtin 09501101530003"),
    (Asked::Gtin(b"950110153000X"), b"refused 2 NotDigit 12"),
    (Asked::Digit(b"950110153000"), b"digit 3"),
    (Asked::Digit(b""), b"refused 1 Length"),
    (
        Asked::Text(b"10AB\x1D17261231", 2026),
        b"hri (10)AB(17)261231",
    ),
    (
        Asked::Text(b"10AB\x1D17261301", 2026),
        b"refused 9 ValueDate 5",
    ),
    (Asked::Text(b"10AB", 1950), b"refused 42 Words"),
    (Asked::Text(b"235AB", 2026), b"refused 5 UnknownAi 0"),
    (Asked::Text(b"235AB", 0x8000 | 2026), b"hri (235)AB"),
    (Asked::Text(b"10AB", 0x8000 | 1950), b"refused 42 Words"),
    (Asked::Text(b"10AB", 0xFFFF), b"refused 42 Words"),
    (
        Asked::TextElements(b"10A\x1D17261231", 2026),
        b"data 10=A\t17=261231",
    ),
    (
        Asked::TextElements(b"10A(17)261231", 2026),
        b"data 10=A(17)261231",
    ),
    (Asked::TextElements(b"10AB", 1950), b"refused 42 Words"),
    (Asked::Row(WIDTHS, 2026), b"]E0 (01)09501101530003"),
    (Asked::RowElements(WIDTHS, 2026), b"]E0 01=09501101530003"),
    (Asked::RowElements(&[113], 2026), b"refused 19 Blank"),
    (Asked::Row(&[113], 2026), b"refused 19 Blank"),
    (Asked::Row(&[1, 0, 1], 2026), b"refused 18 BadRuns"),
    (Asked::Row(WIDTHS, 2150), b"refused 42 Words"),
    (Asked::Row(FRAMED, 2026), b"refused 20 RunCount"),
    (Asked::Find(WIDTHS, 2026), b"0 61 ]E0 (01)09501101530003\n"),
    (Asked::Find(FRAMED, 2026), b"2 61 ]E0 (01)09501101530003\n"),
    (Asked::Find(&[113], 2026), b""),
    (Asked::Find(&[1, 0, 1], 2026), b"refused 18 BadRuns"),
    (Asked::Find(WIDTHS, 2150), b"refused 42 Words"),
    (Asked::Dots(DOTS, 113, 2026), b"]E0 (01)09501101530003"),
    (Asked::Dots(DOTS, 121, 2026), b"refused 18 BadRuns"),
    (Asked::Dots(&[0; 8192], 65_536, 2026), b"refused 17 TooWide"),
    (Asked::Dots(DOTS, 113, 2150), b"refused 42 Words"),
    (
        Asked::DotsElements(DOTS, 113, 2026),
        b"]E0 01=09501101530003",
    ),
    (Asked::DotsElements(DOTS, 121, 2026), b"refused 18 BadRuns"),
    (Asked::DotsElements(DOTS, 113, 2150), b"refused 42 Words"),
    (
        Asked::Scan(b"]E09501101530003", 2026),
        b"]E0 01=09501101530003",
    ),
    (Asked::Scan(b"]E496385074", 2026), b"]E4 01=00000096385074"),
    (
        Asked::Scan(b"]I109501101530003", 2026),
        b"]I1 01=09501101530003",
    ),
    (
        Asked::Scan(b"]E09501101530004", 2026),
        b"refused 3 CheckDigit",
    ),
    (
        Asked::Scan(b"]C110A(17)261231", 2026),
        b"]C1 10=A(17)261231",
    ),
    (
        Asked::Scan(b"]C110A\x1D17261231", 2026),
        b"]C1 10=A\t17=261231",
    ),
    (Asked::Scan(b"]e010AB", 2026), b"]e0 10=AB"),
    (Asked::Scan(b"]d210AB", 2026), b"]d2 10=AB"),
    (Asked::Scan(b"]Q310AB", 2026), b"]Q3 10=AB"),
    (
        Asked::Data(b"]C1 10=A=B\t17=261231", 2026),
        b"]C1 10=A=B\t17=261231",
    ),
    (
        Asked::Data(b"- 01=09501101530003", 2026),
        b"- 01=09501101530003",
    ),
    (
        Asked::Data(b"refused 3 CheckDigit", 2026),
        b"refused 3 CheckDigit",
    ),
    (
        Asked::Data(b"refused 10 MissingSeparator 190", 2026),
        b"refused 10 MissingSeparator 190",
    ),
    (Asked::Data(b"]C1 235=AB", 2026), b"refused 40 Kind"),
    (Asked::Data(b"data 10=AB", 2026), b"refused 40 Kind"),
    (
        Asked::Data(b"refused 9 CheckDigit", 2026),
        b"refused 40 Kind",
    ),
    (Asked::Data(b"]C1 10=AB", 1950), b"refused 42 Words"),
    (Asked::Scan(b"]J110AB", 2026), b"]J1 10=AB"),
    (Asked::Scan(b"]C1", 2026), b"refused 4 Empty"),
    (Asked::Scan(b"]C017261301", 2026), b"refused 40 Kind"),
    (Asked::Scan(b"]C", 2026), b"refused 40 Kind"),
    (Asked::Scan(b"", 2026), b"refused 40 Kind"),
    (Asked::Scan(b"10AB", 2026), b"refused 40 Kind"),
    (Asked::Scan(b"]C10", 1950), b"refused 42 Words"),
    (Asked::Date(b"17=261231", 2026), b"date 2026-12-31"),
    (Asked::Date(b"11=770101", 2026), b"date 1977-01-01"),
    (Asked::Date(b"15=280200", 2026), b"date 2028-02-29"),
    (
        Asked::Date(b"7003=2612312359", 2026),
        b"date 2026-12-31 23:59:00",
    ),
    (
        Asked::Date(b"8008=26010207", 2026),
        b"date 2026-01-02 07:00:00",
    ),
    (
        Asked::Date(b"8008=260102070809", 2026),
        b"date 2026-01-02 07:08:09",
    ),
    (Asked::Date(b"10=261231", 2026), b"none"),
    (Asked::Date(b"10=A=B", 2026), b"none"),
    (Asked::Date(b"", 2026), b"refused 4 Empty"),
    (Asked::Date(b"17261231", 2026), b"refused 5 UnknownAi 0"),
    (Asked::Date(b"170=261231", 2026), b"refused 5 UnknownAi 0"),
    (Asked::Date(b"17=26123", 2026), b"refused 6 ValueLength 0"),
    (Asked::Date(b"17", 2026), b"refused 6 ValueLength 0"),
    (
        Asked::Date(b"10=A\x1D17", 2026),
        b"refused 7 ValueCharacter 0",
    ),
    (
        Asked::Date(b"01=09501101530004", 2026),
        b"refused 8 ValueCheckDigit 0",
    ),
    (Asked::Date(b"17=270229", 2026), b"refused 9 ValueDate 0"),
    (
        Asked::Date(b"7003=2612002359", 2026),
        b"refused 9 ValueDate 0",
    ),
    (Asked::Date(&[b'1'; 193], 2026), b"refused 11 TooLong"),
    (Asked::Date(b"17=261231", 2150), b"refused 42 Words"),
    (
        Asked::Label(6, b"9501101530003", 2026, 113),
        b"refused 40 Kind",
    ),
    (
        Asked::Label(0, b"9501101530003", 1950, 113),
        b"refused 42 Words",
    ),
    (
        Asked::Label(0, b"9501101530003", 2026, 4097),
        b"refused 25 BadGrid",
    ),
    (
        Asked::Label(0, b"9501101530003", 2026, 112),
        b"refused 27 LabelWidth 0",
    ),
    (
        Asked::Label(4, b"10AB^", 2026, 400),
        b"refused 7 ValueCharacter 0",
    ),
];

#[test]
fn each_call_puts_its_line(rt: HostRuntime) {
    let mut out = [0; 292];
    for &(asked, wanted) in CASES {
        let count = answer(asked, &mut out);
        puts(&rt, out.get(..count), wanted);
    }
}

/// The kinds' numbers, texts, and the first 32 dots of their bars: the left quiet zone, the guard and the first
/// characters.
const KINDS: &[(u32, &[u8], &[u8])] = &[
    (0, b"9501101530003", b"\x00\x15\x8A\x76"),
    (1, b"012345000065", b"\x00\x51\xA6\x49"),
    (2, b"96385074", b"\x01\x45\xAF\x7A"),
    (3, b"012345000065", b"\x00\x56\x64\xDE"),
    (4, b"422528", b"\x00\x34\xE7\xAE"),
    (5, b"09501101530003", b"\x00\x2A\x8E\xE2"),
];

#[test]
fn each_kind_is_drawn_by_its_number(rt: HostRuntime) {
    for &(kind, text, bars) in KINDS {
        let mut out = [255; 69];
        let count = answer(Asked::Label(kind, text, 2026, 160), &mut out);
        // The image fills the buffer.
        puts(&rt, out.get(count..), b"");
        puts(&rt, out.get(..29), LIGHT);
        puts(&rt, out.get(29..33), bars);
    }
}

/// Packed dots, how many they are, a year, and the lines of their symbols.
const PACKED: &[(&[u8], u32, u16, &[u8])] = &[
    (DOTS, 113, 2026, b"0 61 ]E0 (01)09501101530003\n"),
    (DOTS, 0, 2026, b""),
    (DOTS, 121, 2026, b"refused 18 BadRuns"),
    (&[0; 8192], 65_536, 2026, b"refused 17 TooWide"),
    (DOTS, 113, 2150, b"refused 42 Words"),
];

#[test]
fn each_symbol_of_packed_dots_is_told(rt: HostRuntime) {
    let mut out = [0; 304];
    for &(bits, dots, year, wanted) in PACKED {
        let count = gs1_c_find_dots(bits, dots, year, &mut out);
        puts(&rt, out.get(..count), wanted);
    }
}

/// Whether a dot of `DOTS` is dark.
fn is_dark(dot: usize) -> bool {
    match DOTS.get(dot / 8) {
        Some(bits) => (*bits >> (7 - dot % 8)) % 2 == 1,
        None => false,
    }
}

/// Two labels of 113 by 3 dots side by side, whose bars begin 11 dots from the left and end 7 from the right.
#[test]
fn symbols_of_rows_are_told_from_left_to_right(rt: HostRuntime) {
    let mut grey = [255; 678];
    for (place, value) in grey.iter_mut().enumerate() {
        if is_dark(place % 113) {
            *value = 0;
        }
    }
    let mut words = [0; 1492];
    let mut widths = [0; 228];
    let mut out = [0; 800];
    for level in [0, 255] {
        let count = gs1_c_picture(
            &grey,
            226,
            3,
            226,
            level,
            2026,
            &mut words,
            &mut widths,
            &mut out,
        );
        puts(
            &rt,
            out.get(..count),
            b"2816 0 27136 0 27136 768 2816 768 3 ]E0 01=09501101530003\n\
              31744 0 56064 0 56064 768 31744 768 3 ]E0 01=09501101530003\n",
        );
    }
}

/// A label of 226 by 80 dots, two a module, turned by a quarter: a look reads it, and no row.
#[test]
fn symbol_of_a_turned_label_is_told(rt: HostRuntime) {
    let mut grey = [255; 18_080];
    for (place, value) in grey.iter_mut().enumerate() {
        if is_dark(place / 160) {
            *value = 0;
        }
    }
    let mut words = [0; 3114];
    let mut widths = [0; 82];
    let mut out = [0; 400];
    let turned = gs1_c_picture(
        &grey,
        80,
        226,
        80,
        0,
        2026,
        &mut words,
        &mut widths,
        &mut out,
    );
    puts(
        &rt,
        out.get(turned.saturating_sub(22)..turned),
        b"]E0 01=09501101530003\n",
    );
    let by_rows = gs1_c_picture(
        &grey,
        80,
        226,
        80,
        128,
        2026,
        &mut words,
        &mut widths,
        &mut out,
    );
    puts(&rt, out.get(..by_rows), b"none");
}

/// AIs and their titles in the GS1 General Specifications.
const TITLES: &[(&[u8], &[u8])] = &[
    (b"00", b"SSCC"),
    (b"10", b"BATCH/LOT"),
    (b"17", b"USE BY or EXPIRY"),
    (b"240", b"ADDITIONAL ID"),
    (b"3103", b"NET WEIGHT (kg)"),
    (b"3160", b"NET VOLUME (m\xC2\xB3)"),
    (b"37", b"COUNT"),
    (b"400", b"ORDER NUMBER"),
    (b"4309", b"SHIP TO GEO"),
    (b"7003", b"EXPIRY TIME"),
    (b"8005", b"PRICE PER UNIT"),
    (b"99", b"INTERNAL"),
    (b"", b""),
    (b"1", b""),
    (b"100", b""),
    (b"3106", b""),
    (b"9501", b""),
];

#[test]
fn each_ai_has_its_title(rt: HostRuntime) {
    let mut out = [0; 32];
    for &(ai, title) in TITLES {
        let count = gs1_c_title(ai, &mut out);
        puts(&rt, out.get(..count), title);
    }
}

/// Lines and the number of their refusal.
const STATUSES: &[(&[u8], u32)] = &[
    (b"", 0),
    (b"]E0 01=09501101530003", 0),
    (b"refused", 0),
    (b"refused 1 Length", 1),
    (b"refused 9 ValueDate 5", 9),
    (b"refused 10 MissingSeparator 0", 10),
    (b"refused 42 Words", 42),
];

#[test]
fn each_line_has_its_status(rt: HostRuntime) {
    for &(line, status) in STATUSES {
        assert_eq!(rt; gs1_c_status(line), status);
    }
}

/// Lines, and the AI, the value and the rest of their first element.
const FIRST: &[(&[u8], [&[u8]; 3])] = &[
    (b"]C1 10=A=B\t17=261231", [b"10", b"A=B", b"\t17=261231"]),
    (b"\t17=261231", [b"17", b"261231", b""]),
    (
        b"5632 512 ]E0 01=09501101530003\n",
        [b"01", b"09501101530003", b"\n"],
    ),
];

#[test]
fn each_line_has_its_first_element(rt: HostRuntime) {
    for &(line, [ai, value, rest]) in FIRST {
        let mut place = ElementPlace {
            start: 0,
            equals: 0,
            end: 0,
        };
        assert!(rt; gs1_c_next(line, &mut place));
        puts(&rt, line.get(place.start..place.equals), ai);
        puts(&rt, line.get(place.equals + 1..place.end), value);
        puts(&rt, line.get(place.end..), rest);
    }
    let mut none = ElementPlace {
        start: 1,
        equals: 2,
        end: 3,
    };
    assert!(rt; !gs1_c_next(b"refused 3 CheckDigit", &mut none));
    assert_eq!(rt; none.end, 3);
}
