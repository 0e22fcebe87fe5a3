//! Laws about the definitions. Each is the contract of a function that does nothing.

ghost use Rattle.element_core.specs.Days.{DayZero, YearWindow};
ghost use Rattle.element_core.specs.Table.{CountsFirstRows, CountsRows, NoAiBeginsAnother, FirstDigitsDecide, PartsHaveOneLength};
ghost use Rattle.element_core.specs.Elements.{CanonicalReads, DatedElements, EachText, GtinReads, OneListOrFault, PairsDiffer, ProfileWithin, ReadAsBefore, TimedElements, TimedInProfile};
ghost use Rattle.element_core.specs.Pairs.{FaultlessPairs, PairLengths, PairsAsTexts, UnknownPairs};
ghost use Rattle.element_core.specs.Fronts.{ReadsPieces};

/// No AI of the table is the beginning of another.
pub fn no_ai_begins_another()
    ensures { NoAiBeginsAnother }
{}

/// There are 536 AIs; 407 of them are in the profile.
pub fn counts_rows()
    ensures { CountsRows }
{}

/// The first two digits of an AI determine whether its length is predefined.
pub fn first_digits_decide()
    ensures { FirstDigitsDecide }
{}

/// A text is one list of elements or has one first error, never both.
pub fn one_list_or_fault()
    ensures { OneListOrFault }
{}

/// The canonical text of a list is an element string of this list, and the shortest.
pub fn canonical_reads()
    ensures { CanonicalReads }
{}

/// Different lists of elements have different pairs, so the pairs determine the elements.
pub fn pairs_differ()
    ensures { PairsDiffer }
{}

/// The element of a GTIN reads back from its text, under each reference year.
pub fn gtin_reads()
    ensures { GtinReads }
{}

/// Each text is a list of elements or has a first error.
pub fn each_text()
    ensures { EachText }
{}

/// Joined pieces (AI, value, and at most one separator, which stands after each piece that is neither
/// predefined nor the last) are what is read of a text from the left, element by element.
pub fn reads_pieces()
    ensures { ReadsPieces }
{}

/// All parts of a value except the last have a fixed length. A part that names a day is the only part of its value,
/// and has the digits of its rule.
pub fn parts_have_one_length()
    ensures { PartsHaveOneLength }
{}

/// A year of two digits means the only year with these last two digits from 49 years before the reference year to 50
/// years after it.
pub fn year_window()
    ensures { YearWindow }
{}

/// Day 00 is the last day of its month.
pub fn day_zero()
    ensures { DayZero }
{}

/// An element has a date exactly if its AI is one of a day.
pub fn dated_elements()
    ensures { DatedElements }
{}

/// An element has a time exactly if its AI is one of a time. In the profile these are 7003 and 8008.
pub fn timed_elements()
    ensures every { TimedElements }
    ensures profile { TimedInProfile }
{}

/// The table of the first edition had neither AI 7003 nor 8008 nor 405 others. Each text that it read still reads as
/// the same list.
pub fn read_as_before()
    ensures lists { ReadAsBefore }
    ensures table { CountsFirstRows }
{}

/// A text that the profile accepts reads as the same list with every AI.
pub fn profile_within()
    ensures { ProfileWithin }
{}

/// Pairs have no fault exactly if they are the elements of their canonical text.
pub fn faultless_pairs()
    ensures { FaultlessPairs }
{}

/// The error of a pair: first its AI, then the length of its value, then the error of the text of both.
pub fn pair_faults()
    ensures unknown { UnknownPairs }
    ensures lengths { PairLengths }
    ensures texts { PairsAsTexts }
{}
