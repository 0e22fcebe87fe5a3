//! Laws about the definitions. Each is the contract of a function that does nothing.
ghost use Rattle.scan_core.specs.BeforeItf14.{OtherRowsKeep};
ghost use Rattle.scan_core.specs.Ratios.{EachRatioIsRead};
ghost use Rattle.scan_core.specs.Laws.{DotsDetermine, DotsMakeRow, NeverTooLong, OneAnswer, OneSymbol, ReplacedCharacterIsNoticed, ReplacementIsNoticed, RowOrFault, SymbolMeasures, TurnedDots, TurnedRow};
ghost use Rattle.scan_core.specs.Windows.{SymbolsAreTold, TurnedSymbols, WholeRow};

/// A row shows at most one symbol, and reads as that symbol in one direction only.
pub fn one_symbol()
    ensures { OneSymbol }
{
    ean_code::kind_is_one_way();
    code128_code::one_way();
    code128_code::measures();
}

/// A row has at most one answer. That it has one is the contract of `read_row`.
pub fn one_answer()
    ensures { OneAnswer }
{
    ean_code::one_list_of_digits();
    ean_code::kind_is_one_way();
    code128_code::one_reading();
    code128_code::one_way();
    code128_code::measures();
    element_core::one_list_or_fault();
}

/// A row that is reversed has the same answer.
pub fn turned_row()
    ensures { TurnedRow }
{}

/// The check digit detects that one character was replaced by another of its number set: any character of an EAN-13
/// or EAN-8, one of the first five of a UPC-E, any digit of an ITF-14.
pub fn replacement_is_noticed()
    ensures { ReplacementIsNoticed }
{
    ean_code::replaced_digit_is_unchecked();
}

/// The check character of a Code 128 symbol detects that one start, data or check character was replaced by another.
pub fn replaced_character_is_noticed()
    ensures { ReplacedCharacterIsNoticed }
{
    code128_code::replaced_is_unchecked();
}

/// No row is refused because its text is too long.
pub fn never_too_long()
    ensures { NeverTooLong }
{
    code128_code::said_is_short();
    ean_code::gtins_have_fourteen();
}

/// A symbol has as many widths, and as many modules in total, as its carrier has.
pub fn symbol_measures()
    ensures { SymbolMeasures }
{
    ean_code::measures_of_kind();
    code128_code::measures();
}

/// Widths are a row exactly if they have no error.
pub fn row_or_fault()
    ensures { RowOrFault }
{}

/// A row's dots determine its runs.
pub fn dots_determine()
    ensures { DotsDetermine }
{}

/// All dots, at most 65,535, are those of a row.
pub fn dots_make_row()
    ensures { DotsMakeRow }
{}

/// A row that is reversed has its dots in reverse order.
pub fn turned_dots()
    ensures { TurnedDots }
{}

/// Reading ITF-14 changed the answer only of rows with 77 runs between the light ends.
pub fn other_rows_keep()
    ensures { OtherRowsKeep }
{}

/// An ITF-14 in whole dots is read from either end if its wide elements are 2.25 to 3 times as wide as its narrow
/// ones and its light ends are ten narrow elements wide (GS1 General Specifications, section 5.3).
pub fn each_ratio_is_read()
    ensures { EachRatioIsRead }
{
    ean_code::two_widths();
    ean_code::measures_of_kind();
    element_core::gtin_reads();
}

/// A search finds every symbol of a row, from left to right.
pub fn symbols_are_told()
    ensures { SymbolsAreTold }
{
    one_answer();
}

/// A row that is read as a whole is one of its own symbols.
pub fn whole_row()
    ensures { WholeRow }
{}

/// A row that is reversed has the same symbols, in reverse order if none lies inside another.
pub fn turned_symbols()
    ensures { TurnedSymbols }
{}
