//! Printed labels, images read and written, and readers and writers that fail.
ghost use Rattle.std.specs.Prelude.{◌≡◌, ◌<◌};

use crate::tests::equal::is_equal;
use crate::tests::numbers::gtin_of;
use crate::tests::rows::{ITF14, ITF14_WRONG, year_of};
use code128_code::encode;
use digits_core::{FromReader, ToWriter};
use element_core::Elements;
use scan_core::{Answer, Carrier, Runs, read_row};
use sheet_core::{
    Grid, Label, PbmFault, PrintFault, Sheet, SheetFault, print_pbm, print_sheets, read_pbm,
    write_pbm,
};
use std::alloc::{AllocError, Global};
use std::process::Abort;
use std::test::Fail;
use test_doubles::{Breaking, Narrow};

// An image of ten by two dots, in turn light and dark, with a comment.
const IMAGE: &[u8] = b"P4\n# a\n10 2\n\xAA\x80\x55\x40";

// The printed label of 9501101530003 in a cell of 113 by 3 dots.
const PRINTED: &[u8] = b"P4\n113 3\n\
    \x00\x00\x00\x00\x00\x00\x00\x00\x00\x00\x00\x00\x00\x00\x00\
    \x00\x15\x8A\x76\x66\x53\x99\x54\xE8\x5C\xB9\x72\x85\x40\x00\
    \x00\x00\x00\x00\x00\x00\x00\x00\x00\x00\x00\x00\x00\x00\x00";

// An element string whose symbol has 48 characters, the most of a GS1-128 symbol.
const LONGEST: &str = "91AAAAAAAAAAAAAAAAAAAAAAAAAAAAAAAAAAAAAAAAAAAAAA";

/// The sheets of a file.
fn read(alloc: Global, file: &[u8]) -> Result<Vec<Sheet>, PbmFault> {
    let mut source = FromReader::new(file);
    read_pbm(alloc, &mut source)
}

/// The sheets of a file that has no fault.
fn sheets_in(alloc: Global, file: &[u8]) -> Result<Vec<Sheet>, Fail> {
    Ok(read(alloc, file).ok().ok_or("read")?)
}

/// How many sheets a file has, or the line of its fault.
fn answer(alloc: Global, file: &[u8]) -> Result<String, AllocError> {
    match read(alloc, file) {
        Ok(sheets) => {
            let count = sheets.len();
            format!(in alloc; "{count} sheets")
        }
        Err(fault) => format!(in alloc; "{fault}"),
    }
}

/// That a file has this many sheets, or this fault.
fn answers<R: AllocGlobal + Abort>(rt: &R, file: &[u8], wanted: &str) -> Result<(), Fail> {
    let found = answer(rt.alloc(), file)?;
    is_equal(rt, found.as_str(), wanted);
    Ok(())
}

/// The bytes that sheets are written as.
fn written(alloc: Global, sheets: &[Sheet]) -> Result<Vec<u8>, Fail> {
    let mut sink = ToWriter::new(Vec::new(alloc));
    write_pbm(sheets, &mut sink).ok().ok_or("write")?;
    Ok(sink.into_inner())
}

/// That these are the bytes that are wanted.
fn are_bytes<R: Abort>(rt: &R, found: &Vec<u8>, wanted: &[u8]) {
    is_equal(rt, found.as_slice(), wanted);
}

/// The bytes that labels are printed as, and whether they are.
fn printed(alloc: Global, labels: &[Label], grid: Grid) -> (Vec<u8>, Result<(), PrintFault>) {
    let mut sink = ToWriter::new(Vec::new(alloc));
    let outcome = print_pbm(alloc, labels, grid, &mut sink);
    (sink.into_inner(), outcome)
}

/// The dots of a row of a sheet, dark as 1.
fn row(alloc: Global, sheet: &Sheet, y: u16) -> Result<String, Fail> {
    if y >= sheet.height() {
        return Err(Fail::from("a row of the sheet"));
    }
    let mut text = String::new(alloc);
    for x in 0..sheet.width() {
        text.push(if sheet.dot(x, y) { '1' } else { '0' })?;
    }
    Ok(text)
}

fn elements(text: &str, year: u16) -> Result<Elements, Fail> {
    let year = year_of(year)?;
    Ok(
        Elements::parse(text.as_bytes(), year)
            .ok()
            .ok_or("elements")?,
    )
}

/// The cells of a grid: how wide and high they are, and in how many columns and rows.
#[derive(Clone, Copy)]
struct Shape {
    width: u16,
    height: u16,
    columns: u16,
    rows: u16,
}

/// Row `y` of a cell.
fn row_of_cell(
    alloc: Global,
    sheet: &Sheet,
    grid: &Grid,
    shape: Shape,
    cell: u16,
    y: u16,
) -> Result<Runs, Fail>
    requires width { grid.now.width ≡ shape.width }
    requires height { grid.now.height ≡ shape.height }
    requires columns { grid.now.columns ≡ shape.columns }
    requires rows { grid.now.rows ≡ shape.rows }
{
    if u32::from(sheet.width()) != u32::from(shape.columns) * u32::from(shape.width) {
        return Err(Fail::from("the grid's width"));
    }
    if u32::from(sheet.height()) != u32::from(shape.rows) * u32::from(shape.height) {
        return Err(Fail::from("the grid's height"));
    }
    if u32::from(cell) >= u32::from(shape.columns) * u32::from(shape.rows) {
        return Err(Fail::from("a cell"));
    }
    if y >= shape.height {
        return Err(Fail::from("a row of the cell"));
    }
    Ok(sheet.cell_row(alloc, grid, cell, y).ok().ok_or("row")?)
}

/// The symbology identifier of a carrier.
fn identifier(carrier: Carrier) -> &'static str {
    match carrier {
        Carrier::Ean13 | Carrier::UpcE => "]E0",
        Carrier::Ean8 => "]E4",
        Carrier::Itf14 => "]I1",
        Carrier::Gs1128 => "]C1",
    }
}

/// What a row says that is answered so.
fn told(alloc: Global, answer: &Answer) -> Result<String, AllocError> {
    match answer {
        Answer::Read { carrier, elements } => {
            let mut text = String::from_str(alloc, identifier(*carrier))?;
            text.push(' ')?;
            text.push_str(elements.hri().as_str())?;
            Ok(text)
        }
        Answer::Refused(fault) => fault.to_string(alloc),
    }
}

/// What a row says under a year.
fn line(alloc: Global, runs: &Runs, year: u16) -> Result<String, Fail> {
    let year = year_of(year)?;
    Ok(told(alloc, &read_row(runs, year))?)
}

/// That a row says this under a year.
fn says<R: AllocGlobal + Abort>(rt: &R, runs: &Runs, year: u16, wanted: &str) -> Result<(), Fail> {
    let found = line(rt.alloc(), runs, year)?;
    is_equal(rt, found.as_str(), wanted);
    Ok(())
}

/// A kind of label, in a table of cases.
#[derive(Clone, Copy)]
enum Kind {
    Ean13,
    UpcA,
    Ean8,
    UpcE,
    Itf14,
    Gs1128,
}

/// The label of this kind and these digits, or of this kind and this text in 2026.
fn label_of(kind: Kind, text: &str) -> Result<Label, Fail> {
    let digits = text.as_bytes();
    Ok(match kind {
        Kind::Ean13 => Label::Ean13(gtin_of(digits)?),
        Kind::UpcA => Label::UpcA(gtin_of(digits)?),
        Kind::Ean8 => Label::Ean8(gtin_of(digits)?),
        Kind::UpcE => Label::UpcE(gtin_of(digits)?),
        Kind::Itf14 => Label::Itf14(gtin_of(digits)?),
        Kind::Gs1128 => Label::Gs1128(elements(text, 2026)?),
    })
}

/// The labels of these kinds and texts.
fn labels_of(alloc: Global, texts: &[(Kind, &str)]) -> Result<Vec<Label>, Fail> {
    let mut labels = Vec::new(alloc);
    for &(kind, text) in texts {
        labels.push(label_of(kind, text)?)?;
    }
    Ok(labels)
}

/// The sheets that labels are printed on.
fn sheets_of(alloc: Global, labels: &[Label], grid: Grid) -> Result<Vec<Sheet>, Fail> {
    Ok(print_sheets(alloc, labels, grid).ok().ok_or("print")?)
}

/// The numbers of a grid, in the order in which `Grid::new` takes them.
type Numbers = (u16, u16, u16, u16, u16);

/// The grid of these numbers.
fn grid_of(numbers: Numbers) -> Result<Grid, Fail> {
    let (module, width, height, columns, rows) = numbers;
    let grid = Grid::new(module, width, height, columns, rows);
    Ok(grid.ok().ok_or("grid")?)
}

// A number of 13 digits, one that a UPC-E has, and one of 8 digits.
const NUMBER: &str = "9501101530003";

const SUPPRESSED: &str = "012345000065";

const SHORT: &str = "96385074";

// Four cells in which an EAN-13 fits, or is too wide by a dot.
const WIDE: Numbers = (2, 226, 5, 2, 2);

const NARROW: Numbers = (2, 225, 5, 2, 2);

// One cell in which an EAN-13 fits.
const ONE: Numbers = (1, 113, 3, 1, 1);

/// How many sheets labels are printed on, or the line of their fault.
fn print(alloc: Global, labels: &[Label], grid: Grid) -> Result<String, AllocError> {
    match print_sheets(alloc, labels, grid) {
        Ok(sheets) => {
            let count = sheets.len();
            format!(in alloc; "{count} sheets")
        }
        Err(fault) => format!(in alloc; "{fault}"),
    }
}

/// That labels are printed on this many sheets, or have this fault.
fn prints<R: AllocGlobal + Abort>(
    rt: &R,
    labels: &[Label],
    grid: Grid,
    wanted: &str,
) -> Result<(), Fail> {
    let found = print(rt.alloc(), labels, grid)?;
    is_equal(rt, found.as_str(), wanted);
    Ok(())
}

#[test]
fn refuses_grids_outside_the_limits(_rt: HostRuntime) -> Result<(), Fail> {
    grid_of((1, 113, 3, 1, 1))?;
    grid_of((8, 1024, 256, 16, 64))?;
    let cases: &[(u16, u16, u16, u16, u16)] = &[
        (1, 113, 2, 1, 1),
        (1, 1025, 3, 16, 1),
        (0, 113, 3, 1, 1),
        (9, 113, 20, 1, 1),
        (1, 4097, 3, 1, 1),
        (1, 113, 1025, 1, 1),
        (1, 113, 3, 17, 1),
        (1, 113, 3, 1, 65),
        (1, 113, 257, 1, 64),
    ];
    for &(module, width, height, columns, rows) in cases {
        Grid::new(module, width, height, columns, rows)
            .err()
            .ok_or("bad grid")?;
    }
    Ok(())
}

/// That labels are printed as these bytes.
fn prints_bytes<R: AllocGlobal + Abort>(rt: &R, labels: &[Label], grid: Grid, wanted: &[u8]) {
    let (found, outcome) = printed(rt.alloc(), labels, grid);
    is_equal(rt, outcome, Ok(()));
    are_bytes(rt, &found, wanted);
}

/// That the sheets of labels are written as these bytes.
fn are_written<R: AllocGlobal + Abort>(
    rt: &R,
    labels: &[Label],
    grid: Grid,
    wanted: &[u8],
) -> Result<(), Fail> {
    let alloc = rt.alloc();
    let sheets = sheets_of(alloc, labels, grid)?;
    are_bytes(rt, &written(alloc, sheets.as_slice())?, wanted);
    Ok(())
}

#[test]
fn prints_a_label_as_its_bytes(rt: HostRuntime) -> Result<(), Fail> {
    let labels = [label_of(Kind::Ean13, NUMBER)?];
    let grid = grid_of(ONE)?;
    are_written(&rt, &labels, grid, PRINTED)?;
    prints_bytes(&rt, &labels, grid, PRINTED);
    Ok(())
}

#[test]
fn prints_no_bytes_without_labels(rt: HostRuntime) -> Result<(), Fail> {
    prints_bytes(&rt, &[], grid_of(ONE)?, b"");
    Ok(())
}

#[test]
fn writes_what_it_reads(rt: HostRuntime) -> Result<(), Fail> {
    let alloc = rt.alloc();
    let sheets = sheets_in(alloc, PRINTED)?;
    are_bytes(&rt, &written(alloc, sheets.as_slice())?, PRINTED);
    Ok(())
}

/// That each of these labels alone, in such a grid, is printed, or has this fault.
fn print_alone<R: AllocGlobal + Abort>(
    rt: &R,
    cases: &[(Kind, &str, Numbers, &str)],
) -> Result<(), Fail> {
    for &(kind, text, numbers, wanted) in cases {
        prints(rt, &[label_of(kind, text)?], grid_of(numbers)?, wanted)?;
    }
    Ok(())
}

#[test]
fn prints_ean13_and_upc_labels_that_fit(rt: HostRuntime) -> Result<(), Fail> {
    print_alone(
        &rt,
        &[
            (Kind::Ean13, NUMBER, WIDE, "1 sheets"),
            (Kind::Ean13, NUMBER, NARROW, "refused 27 LabelWidth 0"),
            (Kind::UpcA, SUPPRESSED, WIDE, "1 sheets"),
            (Kind::UpcA, NUMBER, WIDE, "refused 26 LabelKind 0"),
            (Kind::UpcE, SUPPRESSED, WIDE, "1 sheets"),
            (Kind::UpcE, NUMBER, WIDE, "refused 26 LabelKind 0"),
        ],
    )
}

#[test]
fn prints_itf14_and_ean8_labels_that_fit(rt: HostRuntime) -> Result<(), Fail> {
    print_alone(
        &rt,
        &[
            (Kind::Itf14, NUMBER, (1, 155, 3, 1, 1), "1 sheets"),
            (
                Kind::Itf14,
                NUMBER,
                (1, 154, 3, 1, 1),
                "refused 27 LabelWidth 0",
            ),
            (Kind::Itf14, SHORT, (1, 155, 3, 1, 1), "1 sheets"),
            (Kind::Ean8, SHORT, (1, 81, 3, 1, 1), "1 sheets"),
            (Kind::Ean8, NUMBER, WIDE, "refused 26 LabelKind 0"),
        ],
    )
}

#[test]
fn answers_the_first_label_that_is_not_printed(rt: HostRuntime) -> Result<(), Fail> {
    let number = gtin_of(NUMBER.as_bytes())?;
    let labels = [Label::Ean13(number), Label::Ean8(number)];
    prints(&rt, &labels, grid_of(NARROW)?, "refused 27 LabelWidth 0")?;
    prints(&rt, &labels, grid_of(WIDE)?, "refused 26 LabelKind 1")?;
    prints(&rt, &[], grid_of(WIDE)?, "0 sheets")
}

/// That a row of 113 dots has no dark dot.
fn is_light<R: Abort>(rt: &R, row: &Runs) {
    is_equal(rt, row.widths(), [113].as_slice());
}

/// That a row begins with so many light dots, and has so many runs.
fn begins_with<R: Abort>(rt: &R, row: &Runs, left: u16, runs: usize) {
    is_equal(rt, row.widths().first(), Some(&left));
    is_equal(rt, row.widths().len(), runs);
}

/// That of the three rows of a cell the middle one begins with so many light dots and has so many runs, and the others
/// are light.
fn has_bars<R: AllocGlobal + Abort>(
    rt: &R,
    sheet: &Sheet,
    grid: &Grid,
    shape: Shape,
    cell: u16,
    begins: (u16, usize),
) -> Result<(), Fail>
    requires width { grid.now.width ≡ shape.width }
    requires height { grid.now.height ≡ shape.height }
    requires columns { grid.now.columns ≡ shape.columns }
    requires rows { grid.now.rows ≡ shape.rows }
{
    let alloc = rt.alloc();
    let found = row_of_cell(alloc, sheet, grid, shape, cell, 1)?;
    begins_with(rt, &found, begins.0, begins.1);
    is_light(rt, &row_of_cell(alloc, sheet, grid, shape, cell, 0)?);
    is_light(rt, &row_of_cell(alloc, sheet, grid, shape, cell, 2)?);
    Ok(())
}

// The labels of a sheet of four cells and of one cell of the next.
const FIVE: &[(Kind, &str)] = &[
    (Kind::Ean13, NUMBER),
    (Kind::Ean8, SHORT),
    (Kind::UpcE, SUPPRESSED),
    (Kind::Ean13, NUMBER),
    (Kind::UpcA, SUPPRESSED),
];

#[test]
fn fills_sheets_row_by_row(rt: HostRuntime) -> Result<(), Fail> {
    let alloc = rt.alloc();
    let Ok(grid) = Grid::new(1, 113, 3, 2, 2) else {
        return Err(Fail::from("grid"));
    };
    let shape = Shape {
        width: 113,
        height: 3,
        columns: 2,
        rows: 2,
    };
    let labels = labels_of(alloc, FIVE)?;
    let sheets = sheets_of(alloc, labels.as_slice(), grid)?;
    is_equal(&rt, sheets.len(), 2);
    let cases: &[(usize, u16, u16, usize)] = &[
        (0, 0, 11, 61),
        (0, 1, 7, 45),
        (0, 2, 9, 35),
        (0, 3, 11, 61),
        (1, 0, 9, 61),
        (1, 1, 113, 1),
        (1, 3, 113, 1),
    ];
    for &(sheet, cell, left, runs) in cases {
        let sheet = sheets.get(sheet).ok_or("sheet")?;
        has_bars(&rt, sheet, &grid, shape, cell, (left, runs))?;
    }
    Ok(())
}

#[test]
fn a_label_has_its_text(rt: HostRuntime) -> Result<(), Fail> {
    let label = label_of(Kind::Ean8, SHORT)?;
    is_equal(&rt, label.text().as_slice(), b"0100000096385074".as_slice());
    Ok(())
}

/// That row `y` of a sheet has these dots.
fn shows<R: AllocGlobal + Abort>(rt: &R, sheet: &Sheet, y: u16, dots: &str) -> Result<(), Fail> {
    let found = row(rt.alloc(), sheet, y)?;
    is_equal(rt, found.as_str(), dots);
    Ok(())
}

/// That the first row of a sheet has runs of these widths.
fn has_runs<R: AllocGlobal + Abort>(rt: &R, sheet: &Sheet, widths: &[u16]) -> Result<(), Fail> {
    if sheet.height() == 0 {
        return Err(Fail::from("a row of the sheet"));
    }
    let runs = sheet.row(rt.alloc(), 0).ok().ok_or("row")?;
    is_equal(rt, runs.widths(), widths);
    Ok(())
}

/// That a sheet has the dots of `IMAGE`.
fn has_its_dots<R: AllocGlobal + Abort>(rt: &R, sheet: &Sheet) -> Result<(), Fail> {
    is_equal(rt, (sheet.width(), sheet.height()), (10, 2));
    shows(rt, sheet, 0, "1010101010")?;
    shows(rt, sheet, 1, "0101010101")?;
    has_runs(rt, sheet, &[0, 1, 1, 1, 1, 1, 1, 1, 1, 1, 1])
}

/// That a file has one sheet, the one of `IMAGE`.
fn is_image<R: AllocGlobal + Abort>(rt: &R, file: &[u8]) -> Result<(), Fail> {
    let alloc = rt.alloc();
    let sheets = sheets_in(alloc, file)?;
    assert_eq!(*rt; sheets.len(), 1);
    has_its_dots(rt, &sheets[0])?;
    are_bytes(
        rt,
        &written(alloc, sheets.as_slice())?,
        b"P4\n10 2\n\xAA\x80\x55\x40",
    );
    Ok(())
}

#[test]
fn reads_images(rt: HostRuntime) -> Result<(), Fail> {
    is_image(&rt, IMAGE)?;
    is_image(&rt, b"P4\n# a\n10 2\n\xAA\xBF\x55\x40")
}

#[test]
fn counts_the_images_of_a_file(rt: HostRuntime) -> Result<(), Fail> {
    let files: &[(&[u8], &str)] = &[
        (b"", "0 sheets"),
        (b"P1\n# a\n10 2\n\xAA\x80\x55\x40", "refused 28 NotP4"),
        (b"P4\n# a\n10 2\n\xAA\x80\x55", "refused 30 Truncated"),
        (b"P4\n# a\n0 2\n", "refused 31 PbmSize"),
        (b"P4\nx", "refused 29 PbmHeader"),
        (b"P4#a\r1#b\n1\t\x80", "1 sheets"),
        (b"P4 1 1#", "refused 29 PbmHeader"),
        (b"P4 0001 65536 ", "refused 31 PbmSize"),
        (b"P4 65535 65535 abc", "refused 30 Truncated"),
        (b"P4 1 1 \x80P4 1 1 \x00", "2 sheets"),
        (b"P4 1 1 \x80\n", "refused 28 NotP4"),
        (b"P4 1 1 \x80P", "refused 30 Truncated"),
    ];
    for &(file, wanted) in files {
        answers(&rt, file, wanted)?;
    }
    Ok(())
}

/// A file of one dot, whose width has this many zeros before it.
fn zeros(alloc: Global, count: u16) -> Result<Vec<u8>, AllocError> {
    let mut file = Vec::new(alloc);
    file.extend_from_slice(b"P4 ")?;
    for _ in 0..count {
        file.push(b'0')?;
    }
    file.extend_from_slice(b"1 01\n\x80")?;
    Ok(file)
}

/// That the file with so many zeros has so many sheets, or this fault.
fn answers_zeros<R: AllocGlobal + Abort>(rt: &R, count: u16, wanted: &str) -> Result<(), Fail> {
    let file = zeros(rt.alloc(), count)?;
    answers(rt, file.as_slice(), wanted)
}

/// A file of this many sheets of one dot.
fn dots(alloc: Global, count: u16) -> Result<Vec<u8>, AllocError> {
    let mut file = Vec::new(alloc);
    for _ in 0..count {
        file.extend_from_slice(b"P4 1 1 \x80")?;
    }
    Ok(file)
}

#[test]
fn keeps_the_limits_of_files(rt: HostRuntime) -> Result<(), Fail> {
    let alloc = rt.alloc();
    answers_zeros(&rt, 4088, "1 sheets")?;
    answers_zeros(&rt, 4089, "refused 29 PbmHeader")?;
    let mut file = dots(alloc, 4096)?;
    answers(&rt, file.as_slice(), "4096 sheets")?;
    file.push(b'P')?;
    answers(&rt, file.as_slice(), "refused 31 PbmSize")
}

#[test]
fn reads_fronts_of_files(rt: HostRuntime) -> Result<(), Fail> {
    let alloc = rt.alloc();
    let mut twice = IMAGE.to_vec(alloc)?;
    twice.extend_from_slice(IMAGE)?;
    for count in 0..33 {
        let wanted = match count {
            0 => "0 sheets",
            16 => "1 sheets",
            32 => "2 sheets",
            _ => "refused 30 Truncated",
        };
        answers(&rt, &twice[..count], wanted)?;
    }
    Ok(())
}

#[test]
fn answers_a_reader_that_fails(rt: HostRuntime) -> Result<(), Fail> {
    for place in 0..17 {
        let mut source = Breaking::new(&IMAGE[..place]);
        let fault = read_pbm(rt.alloc(), &mut source).err().ok_or("fault")?;
        is_equal(&rt, fault, PbmFault::ReadFault);
    }
    Ok(())
}

/// That this many bytes of `PRINTED` are taken of its sheets where there is room for no more.
fn writes_front<R: AllocGlobal + Abort>(rt: &R, sheets: &[Sheet], room: usize)
    requires { room < 55 }
{
    let mut sink = Narrow::new(rt.alloc(), room);
    let wrote = write_pbm(sheets, &mut sink);
    is_equal(rt, wrote.is_ok(), room == 54);
    is_equal(rt, sink.taken(), &PRINTED[..room]);
}

#[test]
fn writes_fronts_of_files(rt: HostRuntime) -> Result<(), Fail> {
    let alloc = rt.alloc();
    let sheets = sheets_in(alloc, PRINTED)?;
    for room in 0..55 {
        writes_front(&rt, sheets.as_slice(), room);
    }
    Ok(())
}

/// That this many bytes of `PRINTED` are taken where there is room for no more.
fn prints_front<R: AllocGlobal + Abort>(rt: &R, labels: &[Label], grid: Grid, room: usize)
    requires { room < 55 }
{
    let mut sink = Narrow::new(rt.alloc(), room);
    let outcome = print_pbm(rt.alloc(), labels, grid, &mut sink);
    let wanted = if room == 54 {
        Ok(())
    } else {
        Err(PrintFault::WriteFault)
    };
    is_equal(rt, outcome, wanted);
    is_equal(rt, sink.taken(), &PRINTED[..room]);
}

#[test]
fn prints_fronts_of_files(rt: HostRuntime) -> Result<(), Fail> {
    let grid = grid_of(ONE)?;
    let labels = [label_of(Kind::Ean13, NUMBER)?];
    for room in 0..55 {
        prints_front(&rt, &labels, grid, room);
    }
    Ok(())
}

/// That labels are printed as the bytes that their sheets are written as.
fn prints_as_written<R: AllocGlobal + Abort>(
    rt: &R,
    labels: &[Label],
    grid: Grid,
) -> Result<(), Fail> {
    let alloc = rt.alloc();
    let sheets = sheets_of(alloc, labels, grid)?;
    let wanted = written(alloc, sheets.as_slice())?;
    prints_bytes(rt, labels, grid, wanted.as_slice());
    Ok(())
}

#[test]
fn prints_the_bytes_of_sheets(rt: HostRuntime) -> Result<(), Fail> {
    let texts: &[(Kind, &str)] = &[
        (Kind::Gs1128, "10AB\x1d17261231"),
        (Kind::Ean13, NUMBER),
        (Kind::Ean8, SHORT),
        (Kind::UpcE, SUPPRESSED),
        (Kind::Gs1128, "17000229"),
    ];
    // In the last grid several pieces make up the bars of a row of cells.
    let grids: &[Numbers] = &[(1, 250, 3, 1, 1), (2, 400, 12, 3, 3), (3, 683, 200, 2, 1)];
    let labels = labels_of(rt.alloc(), texts)?;
    for &numbers in grids {
        prints_as_written(&rt, labels.as_slice(), grid_of(numbers)?)?;
    }
    Ok(())
}

#[test]
fn reads_itf14_rows(rt: HostRuntime) -> Result<(), Fail> {
    let alloc = rt.alloc();
    let rows: &[(&[u16], &str)] = &[
        (ITF14, "]I1 (01)09501101530003"),
        (ITF14_WRONG, "refused 24 SymbolCheckDigit"),
    ];
    for &(widths, wanted) in rows {
        let mut runs = Runs::of_widths(alloc, widths).ok().ok_or("row")?;
        says(&rt, &runs, 2026, wanted)?;
        runs.reverse();
        says(&rt, &runs, 2026, wanted)?;
    }
    Ok(())
}

#[test]
fn prints_48_characters(rt: HostRuntime) -> Result<(), Fail> {
    let alloc = rt.alloc();
    let Ok(wide) = Grid::new(1, 594, 4, 1, 1) else {
        return Err(Fail::from("wide"));
    };
    let shape = Shape {
        width: 594,
        height: 4,
        columns: 1,
        rows: 1,
    };
    let labels = [label_of(Kind::Gs1128, LONGEST)?];
    is_equal(&rt, labels[0].text().len(), 48);
    let sheets = sheets_of(alloc, &labels, wide)?;
    let sheet = sheets.first().ok_or("sheet")?;
    for y in 1..3 {
        let runs = row_of_cell(alloc, sheet, &wide, shape, 0, y)?;
        let wanted = "]C1 (91)AAAAAAAAAAAAAAAAAAAAAAAAAAAAAAAAAAAAAAAAAAAAAA";
        says(&rt, &runs, 2026, wanted)?;
    }
    Ok(())
}

/// That no byte of labels is printed, for this fault.
fn prints_nothing<R: AllocGlobal + Abort>(rt: &R, labels: &[Label], grid: Grid, fault: SheetFault) {
    let (bytes, outcome) = printed(rt.alloc(), labels, grid);
    is_equal(rt, outcome, Err(PrintFault::Sheet(fault)));
    is_equal(rt, bytes.len(), 0);
}

/// That a text has too many characters for a symbol, and is printed in no cell.
fn is_too_long<R: AllocGlobal + Abort>(rt: &R, text: &str) -> Result<(), Fail> {
    let longer = elements(text, 2026)?;
    encode(&longer).err().ok_or("too many characters")?;
    let wide = grid_of((1, 594, 4, 1, 1))?;
    prints(rt, &[Label::Gs1128(longer)], wide, "refused 26 LabelKind 0")
}

#[test]
fn refuses_49_characters_and_narrow_cells(rt: HostRuntime) -> Result<(), Fail> {
    let narrow = grid_of((1, 593, 4, 1, 1))?;
    let labels = [label_of(Kind::Gs1128, LONGEST)?];
    prints(&rt, &labels, narrow, "refused 27 LabelWidth 0")?;
    prints_nothing(&rt, &labels, narrow, SheetFault::LabelWidth(0));
    is_too_long(&rt, "91AAAAAAAAAAAAAAAAAAAAAAAAAAAAAAAAAAAAAAAAAAAAAAA")
}

/// That each of the eight bar rows of a cell of twelve rows says this in 2026, and the others nothing.
fn rows_say<R: AllocGlobal + Abort>(
    rt: &R,
    sheet: &Sheet,
    grid: &Grid,
    shape: Shape,
    cell: u16,
    wanted: &str,
) -> Result<(), Fail>
    requires width { grid.now.width ≡ shape.width }
    requires height { grid.now.height ≡ shape.height }
    requires columns { grid.now.columns ≡ shape.columns }
    requires rows { grid.now.rows ≡ shape.rows }
{
    for y in 0..12 {
        let runs = row_of_cell(rt.alloc(), sheet, grid, shape, cell, y)?;
        let wanted = if 2 <= y && y < 10 {
            wanted
        } else {
            "refused 19 Blank"
        };
        says(rt, &runs, 2026, wanted)?;
    }
    Ok(())
}

// A label of each kind, and a second of element strings.
const EACH_KIND: &[(Kind, &str)] = &[
    (Kind::Ean13, NUMBER),
    (Kind::UpcA, SUPPRESSED),
    (Kind::Ean8, SHORT),
    (Kind::UpcE, SUPPRESSED),
    (Kind::Gs1128, "10AB\x1d17261231"),
    (Kind::Gs1128, "17000229"),
    (Kind::Itf14, NUMBER),
];

#[test]
fn reads_each_bar_row_as_its_label(rt: HostRuntime) -> Result<(), Fail> {
    let alloc = rt.alloc();
    let Ok(grid) = Grid::new(2, 400, 12, 3, 3) else {
        return Err(Fail::from("grid"));
    };
    let shape = Shape {
        width: 400,
        height: 12,
        columns: 3,
        rows: 3,
    };
    let labels = labels_of(alloc, EACH_KIND)?;
    let sheets = sheets_of(alloc, labels.as_slice(), grid)?;
    let sheet = sheets.first().ok_or("sheet")?;
    let cases: &[(u16, &str)] = &[
        (0, "]E0 (01)09501101530003"),
        (1, "]E0 (01)00012345000065"),
        (2, "]E4 (01)00000096385074"),
        (3, "]E0 (01)00012345000065"),
        (4, "]C1 (10)AB(17)261231"),
        (5, "]C1 (17)000229"),
        (6, "]I1 (01)09501101530003"),
        (7, "refused 19 Blank"),
        (8, "refused 19 Blank"),
    ];
    for &(cell, wanted) in cases {
        rows_say(&rt, sheet, &grid, shape, cell, wanted)?;
    }
    // Under a later reference year the label means a day of 2100, which has no such day.
    let runs = row_of_cell(alloc, sheet, &grid, shape, 5, 5)?;
    says(&rt, &runs, 2060, "refused 9 ValueDate 0")
}
