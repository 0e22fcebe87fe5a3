//! Labels in records: a kind and a text.
ghost use Rattle.std.specs.Prelude.{None, Some, ◌≡◌, IfErr, IfOk, OnOk};
ghost use Rattle.csv.specs.Records.{fields_of};
ghost use Rattle.digits_core.specs.Digits.{digits_of, padded};
ghost use Rattle.digits_core.specs.Gtins.{gtin_fault};
ghost use Rattle.csv_records.specs.print.Labels.{IsLabelAs, of_digits, print_meaning};

use crate::input::fault::RecordFault;
use crate::input::records::two_fields;
use csv::ByteRecord;
use digits_core::Gtin;
use element_core::Year;
use message_core::read_spelled;
use sheet_core::{Label, LabelKind};

/// The GTIN whose digits a field has. An error of the digits becomes one of the record.
fn gtin_in(field: &[u8]) -> Result<Gtin, RecordFault>
    ensures ok { IfOk result (λ gtin. gtin ≡ padded (digits_of field.now)) }
    ensures taken { OnOk result (gtin_fault field.now ≡ None) }
    ensures refused { IfErr result (λ f. of_digits (gtin_fault field.now) ≡ Some f) }
{
    Gtin::read(field).map_err(RecordFault::Digits)
}

/// The label of a field, of this kind.
fn label_as(kind: LabelKind, field: &[u8], year: Year) -> Result<Label, RecordFault>
    ensures { IsLabelAs year kind field.now result }
{
    match kind {
        LabelKind::Gtin(kind) => Ok(Label::of_gtin(kind, gtin_in(field)?)),
        LabelKind::Gs1128 => match read_spelled(field, year) {
            Ok(elements) => Ok(Label::Gs1128(elements)),
            Err(fault) => Err(RecordFault::Elements(fault)),
        },
    }
}

/// The label of a record.
pub fn label_of(fields: &ByteRecord, year: Year) -> Result<Label, RecordFault>
    ensures { print_meaning year (fields_of fields.now) result }
{
    let (name, field) = two_fields(fields).ok_or(RecordFault::Csv)?;
    let kind = LabelKind::named(name).ok_or(RecordFault::Kind)?;
    label_as(kind, field, year)
}
