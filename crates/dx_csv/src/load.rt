// A table of constants, read from its bytes.
ghost use Rattle.std.specs.Prelude.{◌≡◌, ◌<◌, ◌+◌, ◌-◌, ◌^◌, ◌↔◌, ◌++◌, ◌∷◌, [], ℕ, List, length, slice_index_or, true, false, IsTrue, IfOk, IfErr, IfSome, OnOk, MatchOption};
ghost use Rattle.csv.specs.Records.{fields_of, AllText};
ghost use Rattle.dx_model.specs.Values.{constants};
ghost use Rattle.dx_csv.specs.Fields.{AreFields, HaveFields, fields_in};
ghost use Rattle.dx_csv.specs.Table.{FirstDifference, HasTableFault, AreTableRecords, table_records};

use crate::fault::{RowFault, RowKind};
use crate::fields::{Fields, Texts};
use crate::plain::plain_fields;
use crate::records::Records;
use csv::ByteRecord;
use dx_base::{Text, TextMade, no_number_left};
use dx_model::{Row, Value};
use std::alloc::{AllocError, Global};

fn same_bytes(a: &[u8], b: &[u8]) -> bool
    ensures { IsTrue result ↔ (a.now ≡ b.now) }
{
    a == b
}

// The first place at which the fields and the columns differ.
fn first_difference(given: &ByteRecord, columns: &[Text]) -> Option<u32>
    requires { length columns.now < 2 ^ 32 - 1 }
    ensures { MatchOption result (fields_of given.now ≡ columns.now) (FirstDifference (fields_of given.now) columns.now) }
{
    for i in 0..columns.len() {
        let Some(field) = given.get(i) else {
            return Some(i as u32);
        };
        if !same_bytes(field, columns[i].bytes()) {
            return Some(i as u32);
        }
    }
    if given.len() == columns.len() {
        None
    } else {
        Some(columns.len() as u32)
    }
}

// Reads the header, which is the columns.
fn read_header(alloc: Global, records: &mut Records, columns: &[Text]) -> Result<(), RowFault>
    requires { length columns.now < 2 ^ 32 - 1 }
    ensures header { OnOk result (records.old ≡ columns.now ∷ records.new) }
    ensures fault { IfErr result (HasTableFault records.old columns.now) }
{
    let mut header = ByteRecord::new(alloc);
    if !records.next(&mut header)? {
        return Err(RowFault::Bad(RowKind::NoHeader));
    }
    match first_difference(&header, columns) {
        Some(place) => Err(RowFault::Bad(RowKind::Header(place))),
        None => Ok(()),
    }
}

// The records under the header, which is the columns.
fn records_under<'a>(
    alloc: Global,
    bytes: &'a [u8],
    columns: &[Text],
) -> Result<Records<'a>, RowFault>
    requires { length columns.now < 2 ^ 32 - 1 }
    ensures under { IfOk result (λ under. table_records bytes.now ≡ columns.now ∷ under) }
    ensures fault { IfErr result (HasTableFault (table_records bytes.now) columns.now) }
{
    let mut records = Records::new(alloc, bytes);
    read_header(alloc, &mut records, columns)?;
    Ok(records)
}

// The field at a place.
fn field_at(given: &ByteRecord, place: usize) -> &[u8]
    requires { place < length (fields_of given.now) }
    ensures { result.now ≡ slice_index_or (fields_of given.now) place [] }
{
    match given.get(place) {
        Some(field) => field,
        None => unreachable!(),
    }
}

// The row of a record's fields, if each is a text.
fn row_of(alloc: Global, given: &ByteRecord) -> Result<Option<Row>, AllocError>
    ensures text { IfOk result (λ o. MatchOption o (¬ (AllText (fields_of given.now))) (λ row. AllText (fields_of given.now))) }
    ensures row { IfOk result (λ o. IfSome o (λ row. row ≡ constants (fields_of given.now))) }
{
    let mut row = Row::new(alloc);
    for i in 0..given.len() {
        match Text::from_bytes(alloc, field_at(given, i)) {
            Ok(text) => row.push(Value::Const(text))?,
            Err(TextMade::NotUtf8) => return Ok(None),
            Err(TextMade::Memory) => return Err(AllocError),
        }
    }
    Ok(Some(row))
}

// Puts the fields of a record after the others, if each is a text.
fn push_record(fields: &mut Fields, given: &ByteRecord) -> Result<bool, AllocError>
    ensures text { IfOk result (λ whole. whole ≡ true → AllText (fields_of given.now)) }
    ensures not_text { IfOk result (λ whole. whole ≡ false → ¬ (AllText (fields_of given.now))) }
    ensures pushed { (old : List (List ℕ)) → HaveFields fields.old old
        → IfOk result (λ whole. whole ≡ true → HaveFields fields.new (old ++ fields_of given.now)) }
{
    for i in 0..given.len() {
        let Ok(text) = str::from_utf8(field_at(given, i)) else {
            return Ok(false);
        };
        fields.push(text)?;
    }
    Ok(true)
}

// The number of the next record.
fn next_number(number: u64) -> Result<u64, AllocError>
    ensures { IfOk result (λ next. next ≡ number + 1) }
{
    match number.checked_add(1) {
        Some(next) => Ok(next),
        None => Err(no_number_left(number)),
    }
}

// The texts of the fields of the records that are left, and how many records there are.
fn fields_under(
    alloc: Global,
    records: &mut Records,
    columns: &[Text],
) -> Result<(Texts, u32), RowFault>
    ensures rows { IfOk result (λ read. AreFields (columns.now ∷ records.old) columns.now read.0 read.1) }
    ensures fault { IfErr result (HasTableFault (columns.now ∷ records.old) columns.now) }
{
    let mut record = ByteRecord::new(alloc);
    let mut fields = Fields::new(alloc);
    let mut number = 0u64;
    'under: while records.next(&mut record)? {
        number = next_number(number)?;
        if record.len() != columns.len() {
            return Err(RowFault::Bad(RowKind::Width(number)));
        }
        if !push_record(&mut fields, &record)? {
            return Err(RowFault::Bad(RowKind::NotText(number)));
        }
    }
    Ok(read_texts(alloc, fields, number)?)
}

/// The texts of a table's fields under the header, record by record, and how many records there are. They are read straight
/// from the bytes if each stands as it is or whole in quotes.
pub(crate) fn read_fields(
    alloc: Global,
    bytes: &[u8],
    columns: &[Text],
) -> Result<(Texts, u32), RowFault>
    requires { length columns.now < 2 ^ 32 - 1 }
    ensures rows { IfOk result (λ read. AreFields (table_records bytes.now) columns.now read.0 read.1) }
    ensures fault { IfErr result (HasTableFault (table_records bytes.now) columns.now) }
{
    let mut records = records_under(alloc, bytes, columns)?;
    match plain_fields(alloc, bytes, columns.len())? {
        Some((fields, count)) => Ok(read_texts(alloc, fields, count)?),
        None => fields_under(alloc, &mut records, columns),
    }
}

// The fields as texts, and the number of records as it is stored.
fn read_texts(alloc: Global, fields: Fields, count: u64) -> Result<(Texts, u32), AllocError>
    requires { HaveFields fields (fields_in fields) }
    ensures texts { IfOk result (λ read. read.0 ≡ fields_in fields) }
    ensures count { IfOk result (λ read. read.1 ≡ count) }
{
    let Ok(stored) = u32::try_from(count) else {
        return Err(no_number_left(count));
    };
    let texts = fields.into_texts(alloc)?;
    Ok((texts, stored))
}

// The rows of the records that are left.
fn rows_under(alloc: Global, records: &mut Records, columns: &[Text]) -> Result<Vec<Row>, RowFault>
    ensures rows { IfOk result (λ rows. AreTableRecords (columns.now ∷ records.old) columns.now rows.items) }
    ensures fault { IfErr result (HasTableFault (columns.now ∷ records.old) columns.now) }
{
    let mut record = ByteRecord::new(alloc);
    let mut rows = Vec::new(alloc);
    let mut number = 0u64;
    'under: while records.next(&mut record)? {
        number = next_number(number)?;
        if record.len() != columns.len() {
            return Err(RowFault::Bad(RowKind::Width(number)));
        }
        let Some(row) = row_of(alloc, &record)? else {
            return Err(RowFault::Bad(RowKind::NotText(number)));
        };
        rows.push(row)?;
    }
    Ok(rows)
}

/// Reads the rows of a table: a record of the columns, and then for each row a record of the texts of its constants.
///
/// The first record at fault is told; of one record, the number of its fields before its texts.
///
/// # Errors
///
/// `Bad` with the fault of the first record at fault. `Memory` if there is no memory.
pub fn load_table(alloc: Global, bytes: &[u8], columns: &[Text]) -> Result<Vec<Row>, RowFault>
    requires { length columns.now < 2 ^ 32 - 1 }
    ensures rows { IfOk result (λ rows. AreTableRecords (table_records bytes.now) columns.now rows.items) }
    ensures fault { IfErr result (HasTableFault (table_records bytes.now) columns.now) }
{
    let mut records = records_under(alloc, bytes, columns)?;
    rows_under(alloc, &mut records, columns)
}
