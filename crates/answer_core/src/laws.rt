//! Laws about the definitions. Each is the contract of a function that does nothing.
ghost use Rattle.answer_core.specs.Laws.{AnswersTellOne, LinesTell, LinkReads, MessageLines, RefusedLines, RowLines, ScanReads, StringLines};
ghost use Rattle.answer_core.specs.Texts.{OnePrintedLine, PrintedRead};

use element_core::faultless_pairs;
use message_core::{codes_are_read, key_part_is};

/// An answer stands for one list of elements.
pub fn answers_tell_one()
    ensures { AnswersTellOne }
{}

/// The line of an answer has the elements of the answer.
pub fn lines_tell()
    ensures { LinesTell }
{}

/// The line of an answer with an error is that of the error.
pub fn refused_lines()
    ensures { RefusedLines }
{}

/// The line of the answer to a text of a scanner is the line of its message.
pub fn message_lines()
    ensures { MessageLines }
{}

/// The line of the answer to an element string is the line of the string.
pub fn string_lines()
    ensures { StringLines }
{}

/// The text that a scanner sends for elements reads back as these elements, behind its identifier.
pub fn scan_reads()
    ensures { ScanReads }
{
    faultless_pairs();
}

/// The link of elements reads back as the same elements, each as often.
pub fn link_reads()
    ensures { LinkReads }
{
    codes_are_read();
    key_part_is();
}

/// The line of the answer to a row is the line of the row.
pub fn row_lines()
    ensures { RowLines }
{}

/// The human-readable text of elements reads back as these elements, unless a value has an AI of the table in
/// parentheses.
pub fn printed_is_read()
    ensures read { PrintedRead }
    ensures one { OnePrintedLine }
{
    faultless_pairs();
}
