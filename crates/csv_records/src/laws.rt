//! Laws about records and the messages of scanners. Each is the contract of a function that does nothing.
//! specs/Laws.antt states it; the comment there must agree with the one here.
ghost use Rattle.csv_records.specs.Laws.{MessagesAreNoRows, UpceAsChecked};

/// No message of a scanner is a row: as a field of widths it is refused with `BadRuns`.
pub fn messages_are_no_rows()
    ensures { MessagesAreNoRows }
{}

/// Eight digits behind `]E0` have the GTIN, or the refusal, that `check` gives them as a UPC-E.
pub fn upce_as_checked()
    ensures { UpceAsChecked }
{}
