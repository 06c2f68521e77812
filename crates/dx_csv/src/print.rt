// The text of records and of tables.
ghost use Rattle.std.specs.Prelude.{◌≡◌, ◌<◌, ◌++◌, ◌∷◌, [], ℕ, List, IfOk, IsUtf8, OnOk, length, map};
ghost use Rattle.csv.specs.Records.{AllText};
ghost use Rattle.dx_instance.specs.Shown.{NumbersBelow, shown_row};
ghost use Rattle.dx_instance.specs.Stored.{rows_of, table_at};
ghost use Rattle.dx_instance.specs.ValueText.{value_text_of};
ghost use Rattle.dx_csv.specs.Lines.{HavePrinted};
ghost use Rattle.dx_csv.specs.Print.{HasNoMark, IsTableText, records_text, records_of_table};

use crate::lines::Lines;
use dx_base::{Items, Text};
use dx_instance::{Instance, Numbers};
use std::alloc::{AllocError, Global};

// How many bytes a field of a table mostly takes.
const USUAL_BYTES: usize = 8;

// Prints one record more.
fn print_record(lines: &mut Lines, fields: &[Text]) -> Result<(), AllocError>
    ensures printed { (records : List (List (List ℕ))) → HavePrinted lines.old records []
        → OnOk result (HavePrinted lines.new (records ++ fields.now ∷ []) []) }
    ensures texts { OnOk result (AllText fields.now) }
{
    for text in fields {
        lines.field(text.bytes())?;
    }
    lines.end()
}

// Prints a row of numbers as one record more, the texts of the values under them.
fn print_row(lines: &mut Lines, numbers: &Numbers, row: &[u32]) -> Result<(), AllocError>
    requires { NumbersBelow (length numbers.now.symbols) row.now }
    ensures printed { (records : List (List (List ℕ))) → HavePrinted lines.old records []
        → OnOk result (HavePrinted lines.new (records ++ map value_text_of (shown_row numbers.now.symbols row.now) ∷ []) []) }
    ensures texts { OnOk result (AllText (map value_text_of (shown_row numbers.now.symbols row.now))) }
{
    for number in row {
        lines.value(numbers.value(*number))?;
    }
    lines.end()
}

// The text of these bytes, which are UTF-8.
fn text_of(alloc: Global, bytes: Vec<u8>) -> Result<Text, AllocError>
    requires { IsUtf8 bytes.items }
    ensures { IfOk result (λ t. t ≡ bytes.items) }
{
    match String::from_utf8(bytes) {
        Ok(text) => Text::from_string(alloc, text),
        Err(_) => unreachable!(),
    }
}

/// Prints the records, each ended by a line feed. They may have different numbers of fields; one without fields is
/// printed as one empty field.
///
/// # Errors
///
/// `AllocError` if there is no memory.
pub fn print_records(alloc: Global, records: &[Items<Text>]) -> Result<Text, AllocError>
    ensures { IfOk result (λ t. t ≡ records_text records.now) }
{
    text_of(alloc, print_records_bytes(alloc, records)?)
}

/// The bytes of what `print_records` prints.
///
/// # Errors
///
/// `AllocError` if there is no memory.
pub fn print_records_bytes(alloc: Global, records: &[Items<Text>]) -> Result<Vec<u8>, AllocError>
    ensures text { IfOk result (λ bytes. bytes.items ≡ records_text records.now) }
    ensures utf8 { IfOk result (λ bytes. IsUtf8 bytes.items) }
{
    let mut lines = Lines::new(alloc);
    for record in records {
        print_record(&mut lines, record.items())?;
    }
    Ok(lines.into_bytes())
}

// The text of the columns and of a table's rows, in the order that they have.
fn lines_of(
    alloc: Global,
    columns: &[Text],
    instance: &Instance,
    table: u32,
) -> Result<Vec<u8>, AllocError>
    requires { table < length instance.now }
    ensures text { IfOk result (λ bytes. bytes.items ≡ records_text (records_of_table columns.now (rows_of instance.now table))) }
    ensures utf8 { IfOk result (λ bytes. IsUtf8 bytes.items) }
{
    let numbers = instance.numbers();
    let mut lines = Lines::new(alloc);
    let cells = (numbers.count(table) as usize).saturating_mul(columns.len());
    lines.make_room(cells.saturating_mul(USUAL_BYTES));
    print_record(&mut lines, columns)?;
    for place in 0..numbers.count(table) {
        print_row(&mut lines, &numbers, numbers.row(table, place))?;
    }
    Ok(lines.into_bytes())
}

/// Prints a table: a record of its columns, and then for each row, ascending, a record of the texts of its values.
///
/// # Errors
///
/// `AllocError` if there is no memory.
pub fn print_table(
    alloc: Global,
    columns: &[Text],
    instance: &Instance,
    table: u32,
) -> Result<Text, AllocError>
    requires table { table < length instance.now }
    requires width { length columns.now ≡ (table_at instance.now table).width }
    requires no_mark { HasNoMark columns.now }
    ensures text { IfOk result (λ t. IsTableText columns.now (rows_of instance.now table) t) }
{
    text_of(alloc, print_table_bytes(alloc, columns, instance, table)?)
}

/// The bytes of what `print_table` prints.
///
/// # Errors
///
/// `AllocError` if there is no memory.
pub fn print_table_bytes(
    alloc: Global,
    columns: &[Text],
    instance: &Instance,
    table: u32,
) -> Result<Vec<u8>, AllocError>
    requires table { table < length instance.now }
    requires width { length columns.now ≡ (table_at instance.now table).width }
    requires no_mark { HasNoMark columns.now }
    ensures text { IfOk result (λ bytes. IsTableText columns.now (rows_of instance.now table) bytes.items) }
    ensures utf8 { IfOk result (λ bytes. IsUtf8 bytes.items) }
{
    // What holds of the tables of each instance.
    prove!(table < instance.tables());
    if instance.is_ascending(table) {
        return lines_of(alloc, columns, instance, table);
    }
    print_sorted(alloc, columns, instance, table)
}

// Prints a table, its rows sorted first.
fn print_sorted(
    alloc: Global,
    columns: &[Text],
    instance: &Instance,
    table: u32,
) -> Result<Vec<u8>, AllocError>
    requires table { table < length instance.now }
    requires width { length columns.now ≡ (table_at instance.now table).width }
    requires no_mark { HasNoMark columns.now }
    ensures text { IfOk result (λ bytes. IsTableText columns.now (rows_of instance.now table) bytes.items) }
    ensures utf8 { IfOk result (λ bytes. IsUtf8 bytes.items) }
{
    let sorted = instance.sorted()?;
    prove!(table < sorted.tables());
    lines_of(alloc, columns, &sorted, table)
}
