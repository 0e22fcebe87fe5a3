//! The records of `check`, and their lines.
ghost use Rattle.std.specs.Prelude.{◌≡◌, ◌↔◌, true, false, IfErr, IfOk, IsErrOf, string_bytes};
ghost use Rattle.csv_records.specs.check.Checks.{check_meaning, check_report};
ghost use Rattle.csv_records.specs.input.Records.{Refuses, Takes};

use crate::check::answer::{kind_named, line_of};
use crate::input::fault::{RecordFault, RecordRefusal, RecordsFault};
use crate::input::records::{Intake, read_input, two_fields};
use csv::ByteRecord;
use digits_core::Source;
use element_core::{Line, Year};
use std::alloc::Global;
use std::fmt::Write;

/// The records to be checked, each with a kind and a text, by a reference year.
#[derive(Clone, Copy)]
struct CheckRecords {
    year: Year,
}

impl Intake for CheckRecords {
    type Item = Line;

    type Made = String;

    ghost means = { λ records. check_meaning records.year };

    ghost makes = { λ records answers lines. string_bytes lines ≡ check_report answers };

    fn take(&self, lines: &mut String, fields: &ByteRecord) -> Result<(), RecordRefusal> {
        let (name, text) = two_fields(fields).ok_or(RecordFault::Csv)?;
        let kind = kind_named(name).ok_or(RecordFault::Kind)?;
        let line = line_of(kind, text, self.year);
        writeln!(lines, "{line}")?;
        Ok(())
    }
}

/// The lines for the texts of a source, in order. The clauses are those of `read_input`.
///
/// A CSV record must have two fields: the name of a kind, which `kind_named` knows, and a text of this kind. An error
/// of the text is its line; it does not refuse the record.
pub fn check_lines<S: Source>(
    alloc: Global,
    year: Year,
    source: &mut S,
) -> Result<String, RecordsFault>
    ensures ok { IfOk result (λ lines. Takes (check_meaning year)
        (λ answers. string_bytes lines ≡ check_report answers) (S.left source.old) (S.left source.new)) }
    ensures refused { IfErr result
        (Refuses (check_meaning year) (S.left source.old) (S.left source.new)) }
    ensures fault { S.failed source.old ≡ false
        → (IsErrOf result RecordsFault.ReadFault ↔ (S.failed source.new ≡ true)) }
{
    let mut lines = String::new(alloc);
    read_input(alloc, &CheckRecords { year }, &mut lines, source)?;
    Ok(lines)
}
