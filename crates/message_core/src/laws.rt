//! Laws about the definitions. Each is the contract of a function that does nothing.
ghost use Rattle.message_core.specs.Laws.{CodesAreRead, KeyPartIs, OneMessage, OneMessageLine, PairsSayElements, UpceIsExpanded};

use digits_core::gtins_are_checked;
use element_core::{faultless_pairs, gtin_reads, one_list_or_fault, pairs_differ};

/// A message has one meaning.
pub fn one_message()
    ensures { OneMessage }
{
    one_list_or_fault();
}

/// A message has one line.
pub fn one_message_line()
    ensures { OneMessageLine }
{
    one_list_or_fault();
}

/// Messages with the same line of pairs have the same elements behind the same identifier, or the same error.
pub fn pairs_say_elements()
    ensures { PairsSayElements }
{
    gtins_are_checked();
    gtin_reads();
    faultless_pairs();
    pairs_differ();
}

/// Behind `]E0`, the digit 0, six digits and their check digit mean the GTIN that they abbreviate.
pub fn upce_is_expanded()
    ensures { UpceIsExpanded }
{}

/// A path has at most one part that is a key with its value and, up to the end, its qualifiers, whatever comes before
/// it.
pub fn key_part_is()
    ensures { KeyPartIs }
{}

/// A percent-encoded text decodes to the text that was encoded.
pub fn codes_are_read()
    ensures { CodesAreRead }
{}
