//! All errors: the one table of their numbers and names, and how they appear in an output line.
ghost use Rattle.std.specs.Prelude.{Some, ◌≡◌};
ghost use Rattle.digits_core.specs.Refusals.{refusal_text, refusal_words};

use std::fmt;

/// The kind of an error. Each has a number, from 1 in this order, and a name. The crate that reports it says more.
#[derive(Clone, Copy, Debug, PartialEq, Eq)]
pub enum RefusalKind {
    /// The length of a text of digits is not allowed.
    Length,
    /// A byte of a text of digits is no digit. The place is that of the first such byte.
    NotDigit,
    /// The last digit is not the check digit of those before it.
    CheckDigit,
    /// There is no element.
    Empty,
    /// There is no AI of the table at the place.
    UnknownAi,
    /// The value of an AI is too short; in a pair, any wrong length.
    ValueLength,
    /// The value has a byte that its part does not allow.
    ValueCharacter,
    /// The value's check digit is wrong.
    ValueCheckDigit,
    /// The value names a day or a time that does not exist.
    ValueDate,
    /// The value is longer than its greatest length.
    MissingSeparator,
    /// An element string has more than 192 bytes.
    TooLong,
    /// Elements have more characters than one symbol can have.
    TooManyCharacters,
    /// The check character of a Code 128 symbol is wrong.
    CheckCharacter,
    /// The first value of a Code 128 symbol is not FNC1.
    NotGs1,
    /// A value of a Code 128 symbol is FNC2, FNC3 or FNC4.
    FunctionCharacter,
    /// A SHIFT has no value 0 to 95 after it.
    CodeSet,
    /// Widths have a sum above 65,535 dots.
    TooWide,
    /// Widths are no row.
    BadRuns,
    /// No dot of a row is dark.
    Blank,
    /// No carrier has as many runs as a row.
    RunCount,
    /// A light end of a row is too narrow.
    QuietZone,
    /// A run of a row is no number of modules.
    Modules,
    /// The modules of a row are no symbol of the carrier.
    Pattern,
    /// The check digit that a symbol shows is not that of its number.
    SymbolCheckDigit,
    /// A grid is outside the limits.
    BadGrid,
    /// The label at the place has no such symbol.
    LabelKind,
    /// The label at the place is wider than its cell.
    LabelWidth,
    /// An image does not begin with `P4`.
    NotP4,
    /// An image has no valid header.
    PbmHeader,
    /// The input ends within an image.
    Truncated,
    /// The size of an image, or the number of images, is outside the limits.
    PbmSize,
    /// The lane of a delivery does not exist, or the delivery came before.
    Stranger,
    /// A number of lanes, of workers, of jobs or of tickets is outside the limits.
    BadCount,
    /// The queue of jobs is full.
    Full,
    /// A lane has issued all its tickets.
    Spent,
    /// A thread could not be started.
    NoThread,
    /// A read failed.
    ReadFault,
    /// A write failed.
    WriteFault,
    /// A record does not have two fields.
    Csv,
    /// There is no such kind of text.
    Kind,
    /// There is no such lane.
    BadLane,
    /// The arguments are not those of a command, or a year is no reference year.
    Words,
    /// Memory was refused.
    NoMemory,
    /// An input, or a line of it, is too long.
    InputSize,
}

impl RefusalKind {
    /// `refused`, the number and the name.
    pub fn words(self) -> &'static str
        ensures { result.now ≡ refusal_words self }
    {
        match self {
            RefusalKind::Length => "refused 1 Length",
            RefusalKind::NotDigit => "refused 2 NotDigit",
            RefusalKind::CheckDigit => "refused 3 CheckDigit",
            RefusalKind::Empty => "refused 4 Empty",
            RefusalKind::UnknownAi => "refused 5 UnknownAi",
            RefusalKind::ValueLength => "refused 6 ValueLength",
            RefusalKind::ValueCharacter => "refused 7 ValueCharacter",
            RefusalKind::ValueCheckDigit => "refused 8 ValueCheckDigit",
            RefusalKind::ValueDate => "refused 9 ValueDate",
            RefusalKind::MissingSeparator => "refused 10 MissingSeparator",
            RefusalKind::TooLong => "refused 11 TooLong",
            RefusalKind::TooManyCharacters => "refused 12 TooManyCharacters",
            RefusalKind::CheckCharacter => "refused 13 CheckCharacter",
            RefusalKind::NotGs1 => "refused 14 NotGs1",
            RefusalKind::FunctionCharacter => "refused 15 FunctionCharacter",
            RefusalKind::CodeSet => "refused 16 CodeSet",
            RefusalKind::TooWide => "refused 17 TooWide",
            RefusalKind::BadRuns => "refused 18 BadRuns",
            RefusalKind::Blank => "refused 19 Blank",
            RefusalKind::RunCount => "refused 20 RunCount",
            RefusalKind::QuietZone => "refused 21 QuietZone",
            RefusalKind::Modules => "refused 22 Modules",
            RefusalKind::Pattern => "refused 23 Pattern",
            RefusalKind::SymbolCheckDigit => "refused 24 SymbolCheckDigit",
            RefusalKind::BadGrid => "refused 25 BadGrid",
            RefusalKind::LabelKind => "refused 26 LabelKind",
            RefusalKind::LabelWidth => "refused 27 LabelWidth",
            RefusalKind::NotP4 => "refused 28 NotP4",
            RefusalKind::PbmHeader => "refused 29 PbmHeader",
            RefusalKind::Truncated => "refused 30 Truncated",
            RefusalKind::PbmSize => "refused 31 PbmSize",
            RefusalKind::Stranger => "refused 32 Stranger",
            RefusalKind::BadCount => "refused 33 BadCount",
            RefusalKind::Full => "refused 34 Full",
            RefusalKind::Spent => "refused 35 Spent",
            RefusalKind::NoThread => "refused 36 NoThread",
            RefusalKind::ReadFault => "refused 37 ReadFault",
            RefusalKind::WriteFault => "refused 38 WriteFault",
            RefusalKind::Csv => "refused 39 Csv",
            RefusalKind::Kind => "refused 40 Kind",
            RefusalKind::BadLane => "refused 41 BadLane",
            RefusalKind::Words => "refused 42 Words",
            RefusalKind::NoMemory => "refused 43 NoMemory",
            RefusalKind::InputSize => "refused 44 InputSize",
        }
    }
}

impl fmt::Display for RefusalKind {
    ghost output = { λ kind. Some (refusal_words kind) };

    fn fmt<W: fmt::Write>(&self, f: &mut fmt::Formatter<W>) -> fmt::Result {
        let words = self.words();
        write!(f, "{words}")
    }
}

/// An error, and its place if it has one.
#[derive(Clone, Copy, Debug, PartialEq, Eq)]
pub struct Refusal {
    /// What is refused.
    pub kind: RefusalKind,
    /// An offset or an index, as the kind of error says.
    pub place: Option<usize>,
}

impl fmt::Display for Refusal {
    ghost output = { λ refusal. Some (refusal_text refusal.kind refusal.place) };

    fn fmt<W: fmt::Write>(&self, f: &mut fmt::Formatter<W>) -> fmt::Result {
        let words = self.kind.words();
        match self.place {
            None => write!(f, "{words}"),
            Some(place) => write!(f, "{words} {place}"),
        }
    }
}
