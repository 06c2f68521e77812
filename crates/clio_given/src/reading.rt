// What was read so far of the given files, and one table more.
ghost use Rattle.std.specs.Prelude.{◌≡◌, ◌+◌, ◌<◌, length, map, IfOk, IfErr};
ghost use Rattle.dx_base.specs.Members.{Each};
ghost use Rattle.dx_stages.specs.Running.{Gives};
ghost use Rattle.dx_schema.specs.Forest.{Forest};
ghost use Rattle.dx_schema.specs.Tables.{schema_table, tables_of};
ghost use Rattle.dx_instance.specs.Numbers.{Extends};
ghost use Rattle.dx_instance.specs.Shown.{NumbersBelow, shown_row};
ghost use Rattle.clio_given.specs.Given.{SayRows, given_name, given_loading, none_read, too_many_given_cells};
ghost use Rattle.clio_given.specs.Reading.{GivenIsNotRead, GivenReadFits, read_of, shown_result};

use crate::values::{NoValues, rows_of};
use clio_source::{Reading, RowsFault, SourceRefusal, cells_after};
use dx_base::limits::GIVEN_CELLS;
use dx_base::{Count, Limit, Text};
use dx_csv::{RowFault, load_table};
use dx_instance::{Gathered, Rows};
use dx_schema::Schema;
use dx_stages::Stop;
use std::alloc::Global;

/// Nothing was read, and so many bytes may come.
pub(crate) fn at_start(alloc: Global, bytes_left: u64) -> Reading
    ensures fit { (f : Forest) → GivenReadFits f 0 result }
    ensures read { read_of result ≡ none_read bytes_left }
{
    Reading {
        symbols: Gathered::new(alloc),
        tables: Vec::new(alloc),
        bytes_left,
        cells_left: GIVEN_CELLS,
    }
}

// The given rows have too many cells.
fn too_many_cells() -> SourceRefusal
    ensures { result ≡ too_many_given_cells }
{
    SourceRefusal::Limit(Limit {
        what: Count::GivenCells,
        number: GIVEN_CELLS,
    })
}

// The rows of a file's bytes.
fn rows_of_bytes(
    alloc: Global,
    bytes: &[u8],
    schema: &Schema,
    table: u32,
    file: Text,
    symbols: &mut Gathered,
) -> Result<Rows, Stop<SourceRefusal>>
    requires { table < length (tables_of schema.now) }
    ensures rows { IfOk result (λ rows. SayRows schema.now table bytes.now (map (shown_row symbols.new) rows.rows)) }
    ensures width { IfOk result (λ rows. rows.width ≡ length (schema_table schema.now table).columns) }
    ensures below { IfOk result (λ rows. Each rows.rows (NumbersBelow (length symbols.new))) }
    ensures grows { Extends symbols.old symbols.new }
    ensures fault { IfErr result (GivenIsNotRead schema.now table bytes.now file) }
{
    let records = match load_table(alloc, bytes, schema.columns(table)) {
        Ok(records) => records,
        Err(RowFault::Bad(kind)) => {
            let fault = RowsFault::Csv(kind);
            return Err(Stop::Refused(SourceRefusal::Rows { file, fault }));
        }
        Err(RowFault::Memory) => return Err(Stop::Memory),
    };
    match rows_of(alloc, schema.width(table), &records, symbols) {
        Ok(rows) => Ok(rows),
        Err(NoValues::Record(record)) => {
            let fault = RowsFault::Value(record);
            Err(Stop::Refused(SourceRefusal::Rows { file, fault }))
        }
        Err(NoValues::Memory) => Err(Stop::Memory),
    }
}

/// Reads a table from the bytes of its file, after what was read before it.
pub(crate) fn load_given(
    alloc: Global,
    before: Reading,
    schema: &Schema,
    table: u32,
    bytes: &[u8],
    file: Text,
) -> Result<Reading, Stop<SourceRefusal>>
    requires table { table < length (tables_of schema.now) }
    requires file { file ≡ given_name (schema_table schema.now table).name }
    requires fit { GivenReadFits schema.now table before }
    ensures fit { IfOk result (GivenReadFits schema.now (table + 1)) }
    ensures read { Gives (given_loading schema.now table) (read_of before, bytes.now) (shown_result result) }
{
    let mut reading = before;
    let rows = rows_of_bytes(alloc, bytes, schema, table, file, &mut reading.symbols)?;
    let Some(cells_left) = cells_after(reading.cells_left, rows.count(), schema.width(table)) else {
        return Err(Stop::Refused(too_many_cells()));
    };
    reading.tables.push(rows)?;
    reading.bytes_left = reading.bytes_left.saturating_sub(bytes.len() as u64);
    reading.cells_left = cells_left;
    Ok(reading)
}
