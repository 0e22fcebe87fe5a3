//! Laws about symbols. Each is the contract of a function that does nothing.
ghost use Rattle.ean_code.specs.Laws.{EachGtinHasFourteen, EachKindIsOneWay, EachPrinted, EachReplacedDigitIsUnchecked, MeasuresOfKind, OneListOfDigits, OneSpelled, TwoWidths};

/// A symbol shows one list of digits.
pub fn one_list_of_digits()
    ensures { OneListOfDigits }
{}

/// As symbols of a kind, modules have at most one answer.
pub fn one_spelled()
    ensures { OneSpelled }
{}

/// All symbols of a kind have the same number of widths, each of 1 to 4 modules, and of modules: an EAN-13 has 59
/// widths and 95 modules, an EAN-8 43 and 67, a UPC-E 33 and 51, an ITF-14 77 and 135.
pub fn measures_of_kind()
    ensures { MeasuresOfKind }
{}

/// The digits of a symbol stand for fourteen.
pub fn gtins_have_fourteen()
    ensures { EachGtinHasFourteen }
{}

/// No symbol is a symbol of its kind when read backwards.
pub fn kind_is_one_way()
    ensures { EachKindIsOneWay }
{}

/// The check digit detects that one character was replaced by another of its number set: any character of an EAN-13
/// or EAN-8, one of the first five of a UPC-E, any digit of an ITF-14.
pub fn replaced_digit_is_unchecked()
    ensures { EachReplacedDigitIsUnchecked }
{}

/// The definitions draw symbols as they are printed.
pub fn printed_symbols()
    ensures { EachPrinted }
{}

/// Each element of an ITF-14 is one or three modules wide.
pub fn two_widths()
    ensures { TwoWidths }
{}
