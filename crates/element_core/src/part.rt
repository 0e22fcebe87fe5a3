//! A part of an element's value.

/// Which bytes a part of a value may have.
#[derive(Clone, Copy, Debug, Default, PartialEq, Eq)]
pub enum PartFormat {
    /// ASCII digits.
    #[default]
    Numeric,
    /// The 82 characters (GS1 General Specifications, section 7.11).
    Alphanumeric,
    /// The 39 characters: `#`, `-`, `/`, digits and capital letters (section 7.11).
    Component,
    /// The 64 characters: `-`, `_`, digits and letters; and `=`, which fills base64url up (section 7.11).
    Base64Url,
    /// Digits and capital letters, as in an IBAN (ISO 13616).
    Capitals,
    /// 0 for no, or 1 for yes.
    YesNo,
    /// How a roll is wound: 0, 1, or 9 if that is not defined.
    Winding,
    /// 0, 1, 2 or 9 (ISO/IEC 5218).
    Sex,
    /// The digit 0.
    Zero,
    /// The hyphen, which stands for a minus.
    Hyphen,
    /// The 64 characters: `-`, `_`, digits and letters.
    Importer,
}

/// What the last bytes of a part check.
#[derive(Clone, Copy, Debug, Default, PartialEq, Eq)]
pub enum Check {
    /// Nothing.
    #[default]
    Unchecked,
    /// The last digit is the check digit of the others (GS1 General Specifications, section 7.9.1).
    Digit,
    /// The last two characters check the others (section 7.9.5).
    Characters,
    /// The third and the fourth check all others, modulo 97 (ISO 13616).
    Iban,
}

/// What else a part must be (GS1 General Specifications, section 3).
#[derive(Clone, Copy, Debug, Default, PartialEq, Eq)]
pub enum Rule {
    /// Anything.
    #[default]
    Free,
    /// A day, YYMMDD: day 00 is the last of its month.
    DayOrMonth,
    /// A day, YYMMDD.
    Day,
    /// A day and a time: YYMMDDHH, YYMMDDHHMM or YYMMDDHHMMSS.
    DayAndTime,
    /// A day and a time, YYMMDDHHMM: day 00 is the last of its month.
    DayOrMonthAndTime,
    /// A day, with or without a time: YYMMDD or YYMMDDHHMM.
    DayPerhapsTime,
    /// A day, or the first and the last of several: YYMMDD or YYMMDDYYMMDD.
    OneOrTwoDays,
    /// A day with all digits of its year, YYYYMMDD.
    LongDay,
    /// Such a day and a time, YYYYMMDDHHMM.
    LongDayAndTime,
    /// A number above 0.
    NonZero,
    /// A number without a leading zero.
    NoLeadingZero,
    /// The number of a piece and of all pieces, two digits each.
    PieceOfTotal,
    /// Which of how many, as `1/3`.
    Position,
    /// Each `%` stands before two hexadecimal digits (RFC 3986, section 2.1).
    Percent,
    /// A latitude in ten millionths of a degree, counted from the South Pole.
    Latitude,
    /// A longitude in ten millionths of a degree, counted to the east.
    Longitude,
    /// A kind of medium: 01 to 10, or 80 to 99.
    Media,
    /// It begins with a GS1 Company Prefix, which has four digits at least.
    CompanyPrefix,
    /// It begins so, and does not consist of digits alone.
    ModelNumber,
}

/// A part of an element's value.
#[derive(Clone, Copy, Debug, Default, PartialEq, Eq)]
pub struct Part {
    /// Which bytes it may have.
    pub format: PartFormat,
    /// How many bytes it has at least.
    pub least: u8,
    /// How many it has at most.
    pub greatest: u8,
    /// If it has more than the least, how many more bytes are added at a time: mostly 1.
    pub step: u8,
    /// What its last bytes check.
    pub check: Check,
    /// What else it must be.
    pub rule: Rule,
}
