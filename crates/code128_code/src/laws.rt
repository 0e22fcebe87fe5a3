//! Laws about the definitions. Each is the contract of a function that does nothing.
ghost use Rattle.std.specs.Prelude.{List, ℕ};
ghost use Rattle.code128_code.specs.Laws.{CodedIsSaid, CodedIsShort, Measures, ModulesSay, OneReading, OneWay, PrintedIsSaid, ReplacedIsUnchecked, SaidIsShort, TextOrFault};
ghost use Rattle.code128_code.specs.declared.code_set.CodeSet.{CodeSet};

/// A symbol has one start character, one list of data values and one check character.
pub fn one_reading()
    ensures { OneReading }
{}

/// No symbol is a symbol when read backwards.
pub fn one_way()
    ensures { OneWay }
{}

/// A symbol of k start, data and check characters, k from 3 to 98, has 6k + 7 widths of 11k + 13
/// modules, and its outer bars are two modules wide.
pub fn measures()
    ensures { Measures }
{}

/// If one start, data or check character of a symbol with the right check character is replaced by another, the check
/// character is wrong.
pub fn replaced_is_unchecked()
    ensures { ReplacedIsUnchecked }
{}

/// The values of a symbol mean a text exactly if its modules are the GS1-128 symbol of that text.
pub fn modules_say()
    ensures { ModulesSay }
{}

/// The values that encode a text mean that text.
pub fn coded_is_said()
    ensures { CodedIsSaid }
{}

/// The symbol that is drawn for a text is the GS1-128 symbol of that text.
pub fn printed_is_said()
    ensures { PrintedIsSaid }
{}

/// The values that encode an element string are at most as many as its bytes.
pub fn coded_is_short()
    ensures { CodedIsShort }
{}

/// Each value means at most two bytes.
pub fn said_is_short()
    ensures { SaidIsShort }
{}

/// Values have a text exactly if each has a meaning in turn. Otherwise they have the error of the first that has
/// none.
pub fn text_or_fault()
    ensures { (set : CodeSet) (values : List ℕ) → TextOrFault set values }
{}
