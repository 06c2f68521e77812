// A flat root: its file is a table.
ghost use Rattle.std.specs.Prelude.{◌≡◌, ◌+◌, ◌<◌, length, IfOk, IfErr};
ghost use Rattle.dx_base.specs.Members.{Each};
ghost use Rattle.dx_schema.specs.Tables.{schema_table, tables_of};
ghost use Rattle.dx_instance.specs.Numbers.{Extends};
ghost use Rattle.dx_instance.specs.Shown.{NumbersBelow};
ghost use Rattle.dx_used.specs.Used.{marks_at};
ghost use Rattle.dx_csv.specs.Blanks.{IsTableUsed};
ghost use Rattle.dx_csv.specs.Table.{table_records};
ghost use Rattle.clio_source.specs.Source.{ReadState, flat, loading, named_by};
ghost use Rattle.clio_source.specs.Fitting.{GivesTo, Holds, UnusedAreBlank, NotRead, ReadFits, rows_shown};

use crate::fault::{RowsFault, SourceRefusal};
use crate::reading::{Reading, cells_after, too_many_cells};
use dx_base::{Items, Text};
use dx_csv::{RowFault, load_into};
use dx_instance::{Gathered, Rows};
use dx_schema::Schema;
use dx_stages::Stop;
use std::alloc::Global;

// The marks of a table.
fn marks_of(used: &[Items<bool>], table: u32) -> &[bool]
    ensures { result.now ≡ marks_at used.now table }
{
    match used.get(table as usize) {
        Some(marks) => marks.items(),
        None => &[],
    }
}

// The rows of a file's bytes.
fn rows_of_bytes(
    alloc: Global,
    bytes: &[u8],
    schema: &Schema,
    root: u32,
    used: &[bool],
    file: Text,
    symbols: &mut Gathered,
) -> Result<Rows, Stop<SourceRefusal>>
    requires { root < length (tables_of schema.now) }
    ensures rows { IfOk result (λ rows. IsTableUsed used.now (table_records bytes.now) (schema_table schema.now root).columns
        (rows_shown symbols.new rows)) }
    ensures width { IfOk result (λ rows. rows.width ≡ length (schema_table schema.now root).columns) }
    ensures below { IfOk result (λ rows. Each rows.rows (NumbersBelow (length symbols.new))) }
    ensures grows { Extends symbols.old symbols.new }
    ensures fault { IfErr result (NotRead flat schema.now root bytes.now file) }
{
    match load_into(alloc, bytes, schema.columns(root), used, symbols) {
        Ok(rows) => Ok(rows),
        Err(RowFault::Bad(kind)) => Err(Stop::Refused(SourceRefusal::Rows {
            file,
            fault: RowsFault::Csv(kind),
        })),
        Err(RowFault::Memory) => Err(Stop::Memory),
    }
}

/// Reads a flat root from the bytes of its table, after what was read before it. Of columns that are not used nothing is
/// kept.
pub(crate) fn load_table(
    alloc: Global,
    before: Reading,
    schema: &Schema,
    root: u32,
    used: &[Items<bool>],
    bytes: &[u8],
    file: Text,
) -> Result<Reading, Stop<SourceRefusal>>
    requires root { root < length (tables_of schema.now) }
    requires file { file ≡ named_by flat (schema_table schema.now root).name }
    requires fit { ReadFits schema.now root before }
    ensures fit { IfOk result (ReadFits schema.now (root + 1)) }
    ensures read { (q : ReadState) → Holds used.now before q → GivesTo used.now (loading flat schema.now root) (q, bytes.now) result }
    ensures blank { UnusedAreBlank used.now schema.now before → IfOk result (UnusedAreBlank used.now schema.now) }
{
    let mut reading = before;
    let marks = marks_of(used, root);
    let symbols = &mut reading.symbols;
    let rows = rows_of_bytes(alloc, bytes, schema, root, marks, file, symbols)?;
    let Some(cells_left) = cells_after(reading.cells_left, rows.count(), schema.width(root)) else {
        return Err(Stop::Refused(too_many_cells()));
    };
    reading.tables.push(rows)?;
    reading.bytes_left = reading.bytes_left.saturating_sub(bytes.len() as u64);
    reading.cells_left = cells_left;
    Ok(reading)
}
