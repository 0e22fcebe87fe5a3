//! The parts of values (GS1 General Specifications, section 3.2). tables/ais makes this file of tables/ais.tsv.

use crate::part::{Check, Part, PartFormat, Rule};

/// 1 to 90 of the 64 characters and `=`.
#[rattlefmt::skip]
pub const BASE64_URL_1_90: Part = Part { format: PartFormat::Base64Url, least: 1, greatest: 90, step: 1, check: Check::Unchecked, rule: Rule::Free };

/// 1 to 34 digits and capital letters.
#[rattlefmt::skip]
pub const CAPITALS_1_34: Part = Part { format: PartFormat::Capitals, least: 1, greatest: 34, step: 1, check: Check::Iban, rule: Rule::Free };

/// 1 to 30 of the 39 characters.
#[rattlefmt::skip]
pub const COMPONENT_1_30_COMPANY_PREFIX: Part = Part { format: PartFormat::Component, least: 1, greatest: 30, step: 1, check: Check::Unchecked, rule: Rule::CompanyPrefix };

/// 0 to 1 hyphen.
#[rattlefmt::skip]
pub const HYPHEN_0_1: Part = Part { format: PartFormat::Hyphen, least: 0, greatest: 1, step: 1, check: Check::Unchecked, rule: Rule::Free };

/// 1 of the 64 characters.
#[rattlefmt::skip]
pub const IMPORTER_1: Part = Part { format: PartFormat::Importer, least: 1, greatest: 1, step: 1, check: Check::Unchecked, rule: Rule::Free };

/// 0 to 12 digits.
#[rattlefmt::skip]
pub const N0_12: Part = Part { format: PartFormat::Numeric, least: 0, greatest: 12, step: 1, check: Check::Unchecked, rule: Rule::Free };

/// 1 digits.
#[rattlefmt::skip]
pub const N1: Part = Part { format: PartFormat::Numeric, least: 1, greatest: 1, step: 1, check: Check::Unchecked, rule: Rule::Free };

/// 1 to 4 digits.
#[rattlefmt::skip]
pub const N1_4: Part = Part { format: PartFormat::Numeric, least: 1, greatest: 4, step: 1, check: Check::Unchecked, rule: Rule::Free };

/// 1 to 6 digits.
#[rattlefmt::skip]
pub const N1_6: Part = Part { format: PartFormat::Numeric, least: 1, greatest: 6, step: 1, check: Check::Unchecked, rule: Rule::Free };

/// 1 to 8 digits.
#[rattlefmt::skip]
pub const N1_8: Part = Part { format: PartFormat::Numeric, least: 1, greatest: 8, step: 1, check: Check::Unchecked, rule: Rule::Free };

/// 1 to 10 digits.
#[rattlefmt::skip]
pub const N1_10: Part = Part { format: PartFormat::Numeric, least: 1, greatest: 10, step: 1, check: Check::Unchecked, rule: Rule::Free };

/// 1 to 12 digits.
#[rattlefmt::skip]
pub const N1_12_NO_LEADING_ZERO: Part = Part { format: PartFormat::Numeric, least: 1, greatest: 12, step: 1, check: Check::Unchecked, rule: Rule::NoLeadingZero };

/// 1 to 15 digits.
#[rattlefmt::skip]
pub const N1_15: Part = Part { format: PartFormat::Numeric, least: 1, greatest: 15, step: 1, check: Check::Unchecked, rule: Rule::Free };

/// 2 digits.
#[rattlefmt::skip]
pub const N2: Part = Part { format: PartFormat::Numeric, least: 2, greatest: 2, step: 1, check: Check::Unchecked, rule: Rule::Free };

/// 2 digits.
#[rattlefmt::skip]
pub const N2_MEDIA: Part = Part { format: PartFormat::Numeric, least: 2, greatest: 2, step: 1, check: Check::Unchecked, rule: Rule::Media };

/// 3 digits.
#[rattlefmt::skip]
pub const N3: Part = Part { format: PartFormat::Numeric, least: 3, greatest: 3, step: 1, check: Check::Unchecked, rule: Rule::Free };

/// 3 to 15 digits.
#[rattlefmt::skip]
pub const N3_15_BY_3: Part = Part { format: PartFormat::Numeric, least: 3, greatest: 15, step: 3, check: Check::Unchecked, rule: Rule::Free };

/// 3 digits.
#[rattlefmt::skip]
pub const N3_NON_ZERO: Part = Part { format: PartFormat::Numeric, least: 3, greatest: 3, step: 1, check: Check::Unchecked, rule: Rule::NonZero };

/// 4 digits.
#[rattlefmt::skip]
pub const N4: Part = Part { format: PartFormat::Numeric, least: 4, greatest: 4, step: 1, check: Check::Unchecked, rule: Rule::Free };

/// 4 digits.
#[rattlefmt::skip]
pub const N4_NON_ZERO: Part = Part { format: PartFormat::Numeric, least: 4, greatest: 4, step: 1, check: Check::Unchecked, rule: Rule::NonZero };

/// 4 digits.
#[rattlefmt::skip]
pub const N4_PIECE_OF_TOTAL: Part = Part { format: PartFormat::Numeric, least: 4, greatest: 4, step: 1, check: Check::Unchecked, rule: Rule::PieceOfTotal };

/// 5 digits.
#[rattlefmt::skip]
pub const N5_NON_ZERO: Part = Part { format: PartFormat::Numeric, least: 5, greatest: 5, step: 1, check: Check::Unchecked, rule: Rule::NonZero };

/// 6 digits.
#[rattlefmt::skip]
pub const N6: Part = Part { format: PartFormat::Numeric, least: 6, greatest: 6, step: 1, check: Check::Unchecked, rule: Rule::Free };

/// 6 to 10 digits.
#[rattlefmt::skip]
pub const N6_10_DAY_PERHAPS_TIME: Part = Part { format: PartFormat::Numeric, least: 6, greatest: 10, step: 4, check: Check::Unchecked, rule: Rule::DayPerhapsTime };

/// 6 to 12 digits.
#[rattlefmt::skip]
pub const N6_12_ONE_OR_TWO_DAYS: Part = Part { format: PartFormat::Numeric, least: 6, greatest: 12, step: 6, check: Check::Unchecked, rule: Rule::OneOrTwoDays };

/// 6 digits.
#[rattlefmt::skip]
pub const N6_DATE: Part = Part { format: PartFormat::Numeric, least: 6, greatest: 6, step: 1, check: Check::Unchecked, rule: Rule::DayOrMonth };

/// 6 digits.
#[rattlefmt::skip]
pub const N6_DAY: Part = Part { format: PartFormat::Numeric, least: 6, greatest: 6, step: 1, check: Check::Unchecked, rule: Rule::Day };

/// 8 to 12 digits.
#[rattlefmt::skip]
pub const N8_12_DATE_AND_TIME: Part = Part { format: PartFormat::Numeric, least: 8, greatest: 12, step: 2, check: Check::Unchecked, rule: Rule::DayAndTime };

/// 8 digits.
#[rattlefmt::skip]
pub const N8_LONG_DAY: Part = Part { format: PartFormat::Numeric, least: 8, greatest: 8, step: 1, check: Check::Unchecked, rule: Rule::LongDay };

/// 10 digits.
#[rattlefmt::skip]
pub const N10_DATE_AND_TIME: Part = Part { format: PartFormat::Numeric, least: 10, greatest: 10, step: 1, check: Check::Unchecked, rule: Rule::DayAndTime };

/// 10 digits.
#[rattlefmt::skip]
pub const N10_DAY_OR_MONTH_AND_TIME: Part = Part { format: PartFormat::Numeric, least: 10, greatest: 10, step: 1, check: Check::Unchecked, rule: Rule::DayOrMonthAndTime };

/// 10 digits.
#[rattlefmt::skip]
pub const N10_LATITUDE: Part = Part { format: PartFormat::Numeric, least: 10, greatest: 10, step: 1, check: Check::Unchecked, rule: Rule::Latitude };

/// 10 digits.
#[rattlefmt::skip]
pub const N10_LONGITUDE: Part = Part { format: PartFormat::Numeric, least: 10, greatest: 10, step: 1, check: Check::Unchecked, rule: Rule::Longitude };

/// 12 digits.
#[rattlefmt::skip]
pub const N12_LONG_DAY_AND_TIME: Part = Part { format: PartFormat::Numeric, least: 12, greatest: 12, step: 1, check: Check::Unchecked, rule: Rule::LongDayAndTime };

/// 13 digits.
#[rattlefmt::skip]
pub const N13: Part = Part { format: PartFormat::Numeric, least: 13, greatest: 13, step: 1, check: Check::Unchecked, rule: Rule::Free };

/// 13 digits.
#[rattlefmt::skip]
pub const N13_CHECK: Part = Part { format: PartFormat::Numeric, least: 13, greatest: 13, step: 1, check: Check::Digit, rule: Rule::Free };

/// 14 digits.
#[rattlefmt::skip]
pub const N14_CHECK: Part = Part { format: PartFormat::Numeric, least: 14, greatest: 14, step: 1, check: Check::Digit, rule: Rule::Free };

/// 17 digits.
#[rattlefmt::skip]
pub const N17_CHECK: Part = Part { format: PartFormat::Numeric, least: 17, greatest: 17, step: 1, check: Check::Digit, rule: Rule::Free };

/// 18 digits.
#[rattlefmt::skip]
pub const N18_CHECK: Part = Part { format: PartFormat::Numeric, least: 18, greatest: 18, step: 1, check: Check::Digit, rule: Rule::Free };

/// 1 0, 1, 2 or 9.
#[rattlefmt::skip]
pub const SEX_1: Part = Part { format: PartFormat::Sex, least: 1, greatest: 1, step: 1, check: Check::Unchecked, rule: Rule::Free };

/// 1 0, 1 or 9.
#[rattlefmt::skip]
pub const WINDING_1: Part = Part { format: PartFormat::Winding, least: 1, greatest: 1, step: 1, check: Check::Unchecked, rule: Rule::Free };

/// 0 to 16 of the 82 characters.
#[rattlefmt::skip]
pub const X0_16: Part = Part { format: PartFormat::Alphanumeric, least: 0, greatest: 16, step: 1, check: Check::Unchecked, rule: Rule::Free };

/// 0 to 17 of the 82 characters.
#[rattlefmt::skip]
pub const X0_17: Part = Part { format: PartFormat::Alphanumeric, least: 0, greatest: 17, step: 1, check: Check::Unchecked, rule: Rule::Free };

/// 1 to 2 of the 82 characters.
#[rattlefmt::skip]
pub const X1_2: Part = Part { format: PartFormat::Alphanumeric, least: 1, greatest: 2, step: 1, check: Check::Unchecked, rule: Rule::Free };

/// 1 to 3 of the 82 characters.
#[rattlefmt::skip]
pub const X1_3: Part = Part { format: PartFormat::Alphanumeric, least: 1, greatest: 3, step: 1, check: Check::Unchecked, rule: Rule::Free };

/// 1 to 4 of the 82 characters.
#[rattlefmt::skip]
pub const X1_4: Part = Part { format: PartFormat::Alphanumeric, least: 1, greatest: 4, step: 1, check: Check::Unchecked, rule: Rule::Free };

/// 1 to 9 of the 82 characters.
#[rattlefmt::skip]
pub const X1_9: Part = Part { format: PartFormat::Alphanumeric, least: 1, greatest: 9, step: 1, check: Check::Unchecked, rule: Rule::Free };

/// 1 to 10 of the 82 characters.
#[rattlefmt::skip]
pub const X1_10: Part = Part { format: PartFormat::Alphanumeric, least: 1, greatest: 10, step: 1, check: Check::Unchecked, rule: Rule::Free };

/// 1 to 12 of the 82 characters.
#[rattlefmt::skip]
pub const X1_12: Part = Part { format: PartFormat::Alphanumeric, least: 1, greatest: 12, step: 1, check: Check::Unchecked, rule: Rule::Free };

/// 1 to 20 of the 82 characters.
#[rattlefmt::skip]
pub const X1_20: Part = Part { format: PartFormat::Alphanumeric, least: 1, greatest: 20, step: 1, check: Check::Unchecked, rule: Rule::Free };

/// 1 to 25 of the 82 characters.
#[rattlefmt::skip]
pub const X1_25: Part = Part { format: PartFormat::Alphanumeric, least: 1, greatest: 25, step: 1, check: Check::Unchecked, rule: Rule::Free };

/// 1 to 25 of the 82 characters.
#[rattlefmt::skip]
pub const X1_25_CHECKED_COMPANY_PREFIX: Part = Part { format: PartFormat::Alphanumeric, least: 1, greatest: 25, step: 1, check: Check::Characters, rule: Rule::CompanyPrefix };

/// 1 to 25 of the 82 characters.
#[rattlefmt::skip]
pub const X1_25_CHECKED_MODEL_NUMBER: Part = Part { format: PartFormat::Alphanumeric, least: 1, greatest: 25, step: 1, check: Check::Characters, rule: Rule::ModelNumber };

/// 1 to 27 of the 82 characters.
#[rattlefmt::skip]
pub const X1_27: Part = Part { format: PartFormat::Alphanumeric, least: 1, greatest: 27, step: 1, check: Check::Unchecked, rule: Rule::Free };

/// 1 to 28 of the 82 characters.
#[rattlefmt::skip]
pub const X1_28: Part = Part { format: PartFormat::Alphanumeric, least: 1, greatest: 28, step: 1, check: Check::Unchecked, rule: Rule::Free };

/// 1 to 30 of the 82 characters.
#[rattlefmt::skip]
pub const X1_30: Part = Part { format: PartFormat::Alphanumeric, least: 1, greatest: 30, step: 1, check: Check::Unchecked, rule: Rule::Free };

/// 1 to 30 of the 82 characters.
#[rattlefmt::skip]
pub const X1_30_COMPANY_PREFIX: Part = Part { format: PartFormat::Alphanumeric, least: 1, greatest: 30, step: 1, check: Check::Unchecked, rule: Rule::CompanyPrefix };

/// 1 to 35 of the 82 characters.
#[rattlefmt::skip]
pub const X1_35_PERCENT: Part = Part { format: PartFormat::Alphanumeric, least: 1, greatest: 35, step: 1, check: Check::Unchecked, rule: Rule::Percent };

/// 1 to 40 of the 82 characters.
#[rattlefmt::skip]
pub const X1_40_PERCENT: Part = Part { format: PartFormat::Alphanumeric, least: 1, greatest: 40, step: 1, check: Check::Unchecked, rule: Rule::Percent };

/// 1 to 50 of the 82 characters.
#[rattlefmt::skip]
pub const X1_50: Part = Part { format: PartFormat::Alphanumeric, least: 1, greatest: 50, step: 1, check: Check::Unchecked, rule: Rule::Free };

/// 1 to 70 of the 82 characters.
#[rattlefmt::skip]
pub const X1_70: Part = Part { format: PartFormat::Alphanumeric, least: 1, greatest: 70, step: 1, check: Check::Unchecked, rule: Rule::Free };

/// 1 to 70 of the 82 characters.
#[rattlefmt::skip]
pub const X1_70_PERCENT: Part = Part { format: PartFormat::Alphanumeric, least: 1, greatest: 70, step: 1, check: Check::Unchecked, rule: Rule::Percent };

/// 1 to 90 of the 82 characters.
#[rattlefmt::skip]
pub const X1_90: Part = Part { format: PartFormat::Alphanumeric, least: 1, greatest: 90, step: 1, check: Check::Unchecked, rule: Rule::Free };

/// 1 to 90 of the 82 characters.
#[rattlefmt::skip]
pub const X1_90_PERCENT: Part = Part { format: PartFormat::Alphanumeric, least: 1, greatest: 90, step: 1, check: Check::Unchecked, rule: Rule::Percent };

/// 2 of the 82 characters.
#[rattlefmt::skip]
pub const X2: Part = Part { format: PartFormat::Alphanumeric, least: 2, greatest: 2, step: 1, check: Check::Unchecked, rule: Rule::Free };

/// 3 of the 82 characters.
#[rattlefmt::skip]
pub const X3_POSITION: Part = Part { format: PartFormat::Alphanumeric, least: 3, greatest: 3, step: 1, check: Check::Unchecked, rule: Rule::Position };

/// 1 0 or 1.
#[rattlefmt::skip]
pub const YES_NO_1: Part = Part { format: PartFormat::YesNo, least: 1, greatest: 1, step: 1, check: Check::Unchecked, rule: Rule::Free };

/// 1 0.
#[rattlefmt::skip]
pub const ZERO_1: Part = Part { format: PartFormat::Zero, least: 1, greatest: 1, step: 1, check: Check::Unchecked, rule: Rule::Free };
