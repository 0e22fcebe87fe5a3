//! Laws about the definitions. Each is the contract of a function that does nothing.
ghost use Rattle.digits_core.specs.Laws.{GtinsAreChecked, OneFirstSpelling};

/// A text without a fault shows 14 digits, the last of which is the check digit of the others.
pub fn gtins_are_checked()
    ensures { GtinsAreChecked }
{}

/// By the first line of the zero-suppression table that has it, a GTIN has at most one spelling.
pub fn one_first_spelling()
    ensures { OneFirstSpelling }
{}
