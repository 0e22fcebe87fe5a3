//! What a person at a terminal is told of a refusal beside its line: why it comes and what to do, as docs/FAULTS.md says
//! it, with which the tests of the commands compare these texts.

use digits_core::RefusalKind;

/// The cause and the remedy of each refusal of a command as a whole, but of its words, of which clap tells.
const REMEDIES: &[(RefusalKind, &str)] = &[
    (
        RefusalKind::Length,
        "a digit is missing or too many: a GTIN has 8, 12, 13 or 14 digits, digit takes 1 to \
         17, and upce takes 8, of which the first is 0: type all digits of the number",
    ),
    (
        RefusalKind::NotDigit,
        "a blank, a hyphen or a letter among the digits; the place is that of the first one: \
         take it out",
    ),
    (
        RefusalKind::CheckDigit,
        "a digit was misread or mistyped: the last digit is not the check digit of the others, \
         or not that of the GTIN-12 that UPC-E digits stand for: read the number again; digit \
         and all digits but the last gives the check digit",
    ),
    (
        RefusalKind::Empty,
        "the field was left empty: type the text",
    ),
    (
        RefusalKind::UnknownAi,
        "no known AI begins here: parentheses, two separators, a digit too many in the value \
         before, or an AI that is not supported: look at the text from this place on, and at \
         the element before it; --ais all accepts AIs beyond the profile",
    ),
    (
        RefusalKind::ValueLength,
        "the value is too short for its AI: it was cut, or has a separator in it; or it has 9 \
         or 11 digits after AI 8008: type the whole value",
    ),
    (
        RefusalKind::ValueCharacter,
        "the value has a byte that its AI does not allow: not a digit, or not one of the 82 \
         characters, which lack the blank, #, $, @ and letters outside ASCII; or two elements \
         run together: take it out, or put ^ between the elements",
    ),
    (
        RefusalKind::ValueCheckDigit,
        "a digit was misread or mistyped: the value's check digit is wrong: read the number \
         again",
    ),
    (
        RefusalKind::ValueDate,
        "there is no such day or time: day, month and year are in another order, it is 29 \
         February of another year, an hour is above 23, or a minute or a second is above 59: \
         write YYMMDD, with 00 for the last day of the month (not in AIs 7003 and 8008), and \
         HHMM or HHMMSS after it; check --year",
    ),
    (
        RefusalKind::MissingSeparator,
        "the value is longer than its AI allows: the separator after it is missing: put ^ \
         after the value if another element follows",
    ),
    (
        RefusalKind::TooLong,
        "the element string has more than 192 bytes: several labels in one field: give each \
         its own line",
    ),
    (
        RefusalKind::TooWide,
        "a row of more than 65,535 dots, or a width above that: scan at a lower resolution",
    ),
    (
        RefusalKind::BadRuns,
        "the row was cut, or it is not a list of widths: numbers of 1 to 5 digits with one \
         space between them, an odd count of them, and 0 only at the ends: write the row as \
         gs1_hub lanes --help says",
    ),
    (
        RefusalKind::BadGrid,
        "the grid is impossible: a cell must be more than two modules high, and a sheet at \
         most 16,384 dots a side; the input is not read: make the cell higher, or the sheet \
         smaller",
    ),
    (
        RefusalKind::LabelKind,
        "there is no such symbol: the GTIN has too many digits for its kind, no UPC-E stands \
         for it, or the element string has more than 48 characters: print it as another kind, \
         or with fewer elements",
    ),
    (
        RefusalKind::LabelWidth,
        "with its quiet zones the label is wider than its cell: make the cell wider, or the \
         module smaller",
    ),
    (
        RefusalKind::NotP4,
        "the file is not a PBM image of the form P4: convert it: pngtopnm and pgmtopbm of \
         netpbm",
    ),
    (
        RefusalKind::PbmHeader,
        "the header has a byte that cannot be there, or more than 4,096 bytes: look at how the \
         file was made",
    ),
    (
        RefusalKind::Truncated,
        "the file was cut: the input ends within an image: take the whole file",
    ),
    (
        RefusalKind::PbmSize,
        "the image is not of the size of the sheets, so the options are those of another grid; \
         or its width or height is 0 or above 65,535, or there are more than 4,096 images: \
         give the options that the sheets were printed with, or cut the image to their size \
         with pamcut; scan fewer images at once",
    ),
    (
        RefusalKind::NoThread,
        "a thread could not be started (lanes, scan, live); live starts none for an input \
         without rows: use fewer workers, or raise the limit of threads",
    ),
    (
        RefusalKind::ReadFault,
        "the input could not be read: check where the input comes from",
    ),
    (
        RefusalKind::WriteFault,
        "the output could not be written; what was written is its beginning: check where the \
         output goes, and run again",
    ),
    (
        RefusalKind::Csv,
        "the record does not have exactly two fields: a comma too many, or none: write the \
         kind, a comma and the text, or the lane, a comma and the widths; put a text with a \
         comma in it between quotation marks",
    ),
    (
        RefusalKind::Kind,
        "there is no such kind: a heading line, a capital letter, a blank, or a kind of the \
         other command: write the kind in small letters without blanks: in check digit, gtin, \
         upce or text; in print ean13, upca, ean8, upce, itf14 or gs1128",
    ),
    (
        RefusalKind::BadLane,
        "there is no such lane: a lane is one or two digits, and less than the number of \
         lanes: count lanes from 0, or ask for more of them",
    ),
    (
        RefusalKind::NoMemory,
        "the system gave no more memory: give the program more memory",
    ),
    (
        RefusalKind::InputSize,
        "the input has more than 16,777,216 bytes, with its line ends: split the input as \
         SCALE.md says, and run the command on each part",
    ),
];

/// Why a command is refused, and what to do.
pub fn remedy(kind: RefusalKind) -> Option<&'static str> {
    let row = REMEDIES.iter().find(|row| row.0 == kind)?;
    Some(row.1)
}
