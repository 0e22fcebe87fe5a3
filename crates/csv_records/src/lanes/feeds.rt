//! Records of lanes: the lane, and its row.
ghost use Rattle.std.specs.Prelude.{None, Some, Ok, Err, [], ◌≡◌, ◌<◌, ◌∷◌, ◌++◌, List, ℕ, false, IfNone, IfOk, IfSome};
ghost use Rattle.csv.specs.Records.{fields_of};
ghost use Rattle.csv_records.specs.lanes.Feeds.{is_lane, lanes_meaning};
ghost use Rattle.csv_records.specs.input.Reading.{HasRead};
ghost use Rattle.csv_records.specs.input.Records.{Fields, records_of};
ghost use Rattle.csv_records.specs.lanes.Widths.{number_in};
ghost use Rattle.csv_records.specs.declared.input.fault.RecordFault.{RecordFault};

use crate::input::fault::{RecordFault, RecordRefusal};
use crate::input::records::{Records, two_fields};
use crate::lanes::widths::{number_in, read_runs};
use csv::ByteRecord;
use scan_core::{RowPool, Runs};

/// The lane in a field.
pub fn lane_in(field: &[u8], lanes: u8) -> Option<u8>
    ensures some { IfSome result (λ lane. number_in 2 field.now ≡ Some lane) }
    ensures low { IfSome result (λ lane. lane < lanes) }
    ensures none { IfNone result (is_lane lanes field.now ≡ false) }
{
    match number_in(field, 2) {
        Some(lane) if lane < u32::from(lanes) => Some(lane as u8),
        _ => None,
    }
}

/// The lane of a record and its row. `read_fields` of command_runs reads the two fields of a line in the same order.
pub fn read_record(
    pool: &mut RowPool,
    lanes: u8,
    fields: &ByteRecord,
) -> Result<(u8, Runs), RecordRefusal>
    ensures row { IfOk result (λ row. lanes_meaning lanes (fields_of fields.now) (Ok row)) }
    ensures low { IfOk result (λ row. row.0 < lanes) }
    ensures refused { (f : RecordFault) → result ≡ Err (RecordRefusal.Record f)
        → lanes_meaning lanes (fields_of fields.now) (Err f) }
{
    let (first, second) = two_fields(fields).ok_or(RecordFault::Csv)?;
    let lane = lane_in(first, lanes).ok_or(RecordFault::BadLane)?;
    let runs = read_runs(pool, second)?;
    Ok((lane, runs))
}

/// Reads the next record and returns its lane and its row. None at the end. The clauses `more` and `end` are those of
/// `Records::read`, with the clauses of `read_record` about the fields.
pub fn next_row(
    pool: &mut RowPool,
    lanes: u8,
    records: &mut Records,
) -> Result<Option<(u8, Runs)>, RecordRefusal>
    requires { (bytes : List ℕ) × (rows : List Fields) × HasRead bytes records.old rows }
    ensures low { IfOk result (λ next. IfSome next (λ row. row.0 < lanes)) }
    ensures more { IfOk result (λ next. IfSome next (λ row. (bytes : List ℕ) (rows : List Fields) → HasRead bytes records.old rows
        → (fields : Fields) × HasRead bytes records.new (rows ++ fields ∷ []) × lanes_meaning lanes fields (Ok row))) }
    ensures refused { (f : RecordFault) → result ≡ Err (RecordRefusal.Record f) → (bytes : List ℕ) (rows : List Fields) → HasRead bytes records.old rows
        → (fields : Fields) × HasRead bytes records.new (rows ++ fields ∷ []) × lanes_meaning lanes fields (Err f) }
    ensures end { result ≡ Ok None → (bytes : List ℕ) (rows : List Fields) → HasRead bytes records.old rows → rows ≡ records_of bytes }
{
    if !records.read()? {
        return Ok(None);
    }
    let row = read_record(pool, lanes, &records.last)?;
    Ok(Some(row))
}
