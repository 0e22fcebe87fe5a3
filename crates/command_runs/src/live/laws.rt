//! Laws about the lines of a live input. Each is the contract of a function that does nothing.
ghost use Rattle.command_runs.specs.live.Laws.{LinesAreRecords, LinesAreReport};

use csv_records::messages_are_no_rows;

/// In a plain text (`IsPlain`: no byte order mark in front, no quote, and carriage returns only at line ends), the
/// records that `csv` reads are the lines that are not empty, without the carriage return at their end, split at
/// their commas.
pub fn lines_are_records()
    ensures { LinesAreRecords }
{}

/// If each record of a plain text is a row, no line is too long and no lane has more rows than numbers, then `live`
/// answers each row with one line, in the order of the records. Lane by lane, these lines are the report that `lanes`
/// writes. This is for the human-readable form, the only one that `lanes` has.
pub fn lines_are_report()
    ensures { LinesAreReport }
{
    messages_are_no_rows();
}
