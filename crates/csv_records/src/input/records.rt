//! The records of an input, one after another.
ghost use Rattle.std.specs.Prelude.{None, Some, [], ◌≡◌, ◌≢◌, ◌∷◌, ◌++◌, ◌↔◌, ◌≤◌, List, Option, length, true, false, IfErr, IfNone, IfSome, IsErrOf, OnOk};
ghost use Rattle.csv.specs.Records.{fields_of};
ghost use Rattle.csv_records.specs.input.Records.{AreItems, Meaning, Refuses, Takes, records_of};
ghost use Rattle.csv_records.specs.inner.Refusals.{NamesFirst};
ghost use Rattle.csv_records.specs.declared.input.fault.RecordFault.{RecordFault};

use crate::input::fault::{RecordRefusal, RecordsFault};
use csv::{ByteRecord, ErrorKind, Reader, ReaderBuilder};
use digits_core::{Source, read_all};
use std::alloc::Global;
use std::io::Cursor;

/// How many bytes a command reads at most: `most_bytes` in specs/. The limit bounds the memory and the time of a
/// command; tests/sizes/run prints both for inputs of this size. page/lists.js, bindings/python/noriladle/_lists.py,
/// tables/remedies.tsv, docs/HUB.md and tests/ repeat it.
pub const INPUT_LIMIT: usize = 16_777_216;

/// What a command makes of records.
pub trait Intake {
    /// The meaning of a record for it.
    type Item;
    /// What it makes of the items.
    type Made;

    // A record means this item, or has this error.
    ghost means: { Self → Meaning Self.Item };
    // This is what it makes of these items.
    ghost makes: { Self → List Self.Item → Self.Made → Type 0 };

    /// Takes one more record.
    fn take(&self, made: &mut Self::Made, fields: &ByteRecord) -> Result<(), RecordRefusal>
        requires { (items : List Self.Item) × makes self.now items made.old }
        ensures taken { OnOk result ((item : Self.Item) × means self.now (fields_of fields.now) (Ok item)
            × ((items : List Self.Item) → makes self.now items made.old
            → makes self.now (items ++ item ∷ []) made.new)) }
        ensures refused { (f : RecordFault) → result ≡ Err (RecordRefusal.Record f)
            → means self.now (fields_of fields.now) (Err f) };
}

/// The fields of a record that has two.
pub fn two_fields(fields: &ByteRecord) -> Option<(&[u8], &[u8])>
    ensures some { IfSome result (λ p. fields_of fields.now ≡ p.0.now ∷ p.1.now ∷ []) }
    ensures none { IfNone result (length (fields_of fields.now) ≢ 2) }
{
    if fields.len() != 2 {
        return None;
    }
    Some((fields.get(0)?, fields.get(1)?))
}

/// The records of bytes, which it reads one after another.
#[derive(Drop)]
pub struct Records {
    reader: Reader<Cursor<Vec<u8>>>,
    /// The record that was read last. Its memory is reused for each record.
    pub last: ByteRecord,
}

impl Records {
    ghost use Rattle.std.specs.Prelude.{[], ◌≡◌, ◌∷◌, ◌++◌, List, Ok, ℕ, false, true, IfErr};
    ghost use Rattle.csv.specs.Records.{fields_of};
    ghost use Rattle.csv_records.specs.input.Reading.{HasRead};
    ghost use Rattle.csv_records.specs.input.Records.{Fields, records_of};
    ghost use Rattle.csv_records.specs.declared.input.fault.RecordRefusal.{RecordRefusal};

    /// The records of these bytes, before the first is read.
    pub fn new(alloc: Global, bytes: Vec<u8>) -> Records
        ensures { HasRead bytes.items result [] }
    {
        // With `flexible`, a record may have any number of fields. A record without exactly two gets the error `Csv`.
        let reader = ReaderBuilder::new()
            .has_headers(false)
            .flexible(true)
            .from_reader(alloc, Cursor::new(bytes));
        Records {
            reader,
            last: ByteRecord::new(alloc),
        }
    }

    /// Reads the next record. Returns false at the end.
    pub fn read(&mut self) -> Result<bool, RecordRefusal>
        requires { (bytes : List ℕ) × (rows : List Fields) × HasRead bytes self.old rows }
        ensures more { result ≡ Ok true → (bytes : List ℕ) (rows : List Fields) → HasRead bytes self.old rows
            → HasRead bytes self.new (rows ++ fields_of self.new.last ∷ []) }
        ensures end { result ≡ Ok false → (bytes : List ℕ) (rows : List Fields) → HasRead bytes self.old rows → rows ≡ records_of bytes }
        ensures refused { IfErr result (λ refusal. refusal ≡ RecordRefusal.NoMemory) }
    {
        match self.reader.read_byte_record(&mut self.last) {
            Ok(is_found) => Ok(is_found),
            Err(error) => match error.into_kind() {
                // A `Cursor` never fails, so any answer for `Io` will do.
                ErrorKind::OutOfMemory | ErrorKind::Io(_) => Err(RecordRefusal::NoMemory),
                // The other kinds are about UTF-8, typed values and numbers of fields, which `flexible` allows to
                // differ.
                _ => unreachable!(),
            },
        }
    }
}

/// Takes the records of the bytes, in order, up to the first with an error.
pub fn read_records<I: Intake>(
    alloc: Global,
    intake: &I,
    made: &mut I::Made,
    bytes: Vec<u8>,
) -> Result<(), RecordsFault>
    requires start { I.makes intake.now [] made.old }
    requires few { length bytes.items ≤ INPUT_LIMIT }
    ensures ok { OnOk result ((items : List I.Item) × AreItems (I.means intake.now) (records_of bytes.items) items
        × I.makes intake.now items made.new) }
    ensures refused { IfErr result (NamesFirst (I.means intake.now) (records_of bytes.items)) }
{
    let mut records = Records::new(alloc, bytes);
    // The loop never reaches the bound: by the lemma `read_few` there is at most one more record than there are
    // bytes.
    'each: for index in 0..usize::MAX {
        match records.read() {
            Ok(true) => {}
            Ok(false) => return Ok(()),
            Err(_) => return Err(RecordsFault::NoMemory),
        }
        match intake.take(made, &records.last) {
            Ok(()) => {}
            Err(refusal) => return Err(refusal.at(index)),
        }
    }
    unreachable!()
}

/// Takes the records of a source. `check_lines` and `read_labels` have its clauses, each for its own intake.
pub fn read_input<I: Intake, S: Source>(
    alloc: Global,
    intake: &I,
    made: &mut I::Made,
    source: &mut S,
) -> Result<(), RecordsFault>
    requires { I.makes intake.now [] made.old }
    ensures ok { OnOk result (Takes (I.means intake.now)
        (λ items. I.makes intake.now items made.new) (S.left source.old) (S.left source.new)) }
    ensures refused { IfErr result
        (Refuses (I.means intake.now) (S.left source.old) (S.left source.new)) }
    ensures fault { S.failed source.old ≡ false
        → (IsErrOf result RecordsFault.ReadFault ↔ (S.failed source.new ≡ true)) }
{
    let bytes = read_all(alloc, source, INPUT_LIMIT)?;
    read_records(alloc, intake, made, bytes)
}
