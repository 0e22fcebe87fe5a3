//! The records of `print`, and their labels.
ghost use Rattle.std.specs.Prelude.{◌≡◌, ◌↔◌, true, false, IfErr, IfOk, IsErrOf};
ghost use Rattle.csv_records.specs.input.Records.{Refuses, Takes};
ghost use Rattle.csv_records.specs.print.Labels.{print_meaning};

use crate::input::fault::{RecordRefusal, RecordsFault};
use crate::input::records::{Intake, read_input};
use crate::print::label_record::label_of;
use csv::ByteRecord;
use digits_core::Source;
use element_core::Year;
use sheet_core::Label;
use std::alloc::Global;

/// The records to be printed. Element strings follow a reference year.
#[derive(Clone, Copy)]
struct LabelRecords {
    year: Year,
}

impl Intake for LabelRecords {
    type Item = Label;

    type Made = Vec<Label>;

    ghost means = { λ records. print_meaning records.year };

    ghost makes = { λ records items labels. labels.items ≡ items };

    fn take(&self, labels: &mut Vec<Label>, fields: &ByteRecord) -> Result<(), RecordRefusal> {
        let label = label_of(fields, self.year)?;
        if labels.push(label).is_err() {
            return Err(RecordRefusal::NoMemory);
        }
        Ok(())
    }
}

/// The labels of a source, in order. The clauses are those of `read_input`.
///
/// The source gives CSV records of two fields: a kind, `ean13`, `upca`, `ean8`, `upce` or `itf14` with a GTIN, or
/// `gs1128` with an element string. tables/kinds writes the kinds with a GTIN.
pub fn read_labels<S: Source>(
    alloc: Global,
    year: Year,
    source: &mut S,
) -> Result<Vec<Label>, RecordsFault>
    ensures ok { IfOk result (λ labels. Takes (print_meaning year)
        (λ items. labels.items ≡ items) (S.left source.old) (S.left source.new)) }
    ensures refused { IfErr result
        (Refuses (print_meaning year) (S.left source.old) (S.left source.new)) }
    ensures fault { S.failed source.old ≡ false
        → (IsErrOf result RecordsFault.ReadFault ↔ (S.failed source.new ≡ true)) }
{
    let mut labels = Vec::new(alloc);
    read_input(alloc, &LabelRecords { year }, &mut labels, source)?;
    Ok(labels)
}
