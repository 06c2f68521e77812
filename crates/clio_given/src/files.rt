// The given files of a schema's tables.
ghost use Rattle.std.specs.Prelude.{◌≡◌, ◌+◌, ◌<◌, ◌≤◌, length, IfOk};
ghost use Rattle.dx_stages.specs.Running.{Ran};
ghost use Rattle.dx_schema.specs.Tables.{tables_of};
ghost use Rattle.clio_given.specs.Given.{given_files_stages, given_stages, none_read, given_reading};
ghost use Rattle.clio_given.specs.Reading.{GivenReadFits, read_of, shown_result};

use crate::names::given_name;
use crate::reading::{at_start, load_given};
use clio_source::{Reading, RowsFault, SourceRefusal, too_many_bytes};
use dx_base::limits::TABLES;
use dx_instance::Instance;
use dx_ports::Inputs;
use dx_schema::Schema;
use dx_stages::{Stop, fetch};
use std::alloc::Global;

// Reads a table's file, after what was read before it.
fn read_table<I: Inputs>(
    alloc: Global,
    inputs: &mut I,
    schema: &Schema,
    table: u32,
    before: Reading,
) -> Result<Reading, Stop<SourceRefusal>>
    requires table { table < length (tables_of schema.now) }
    requires fit { GivenReadFits schema.now table before }
    ensures fit { IfOk result (GivenReadFits schema.now (table + 1)) }
    ensures read { Ran (given_reading schema.now table) (read_of before) (shown_result result)
        (I.state inputs.old) (I.state inputs.new) }
{
    let name = given_name(alloc, schema.name(table))?;
    let absent = SourceRefusal::Rows {
        file: name.copy()?,
        fault: RowsFault::Absent,
    };
    let bytes = fetch(
        alloc,
        inputs,
        name.copy()?,
        before.bytes_left,
        absent,
        too_many_bytes(),
    )?;
    load_given(alloc, before, schema, table, bytes.items(), name)
}

// Reads the files of all tables.
fn read_files<I: Inputs>(
    alloc: Global,
    inputs: &mut I,
    schema: &Schema,
    bytes_left: u64,
) -> Result<Reading, Stop<SourceRefusal>>
    ensures fit { IfOk result (GivenReadFits schema.now (length (tables_of schema.now))) }
    ensures few { length (tables_of schema.now) ≤ TABLES }
    ensures read { Ran (given_files_stages schema.now) (none_read bytes_left) (shown_result result)
        (I.state inputs.old) (I.state inputs.new) }
{
    prove!(schema.tables() as u64 <= TABLES);
    let mut so_far = at_start(alloc, bytes_left);
    for table in 0..schema.tables() {
        so_far = read_table(alloc, inputs, schema, table, so_far)?;
    }
    Ok(so_far)
}

/// The given target that the files `given/<table>.csv` of a schema's tables hold: of each record a row, of each field the value whose
/// text it is.
///
/// # Errors
///
/// For each table in order: its file is absent, passes what is left of so many bytes, is no table of its columns, has a record with a
/// field that is no value's text, or its rows pass what is left of 1,000,000 cells. A read that failed, and out of memory, may come at
/// any file.
pub fn read_given<I: Inputs>(
    alloc: Global,
    inputs: &mut I,
    schema: &Schema,
    bytes_left: u64,
) -> Result<Instance, Stop<SourceRefusal>>
    ensures { Ran given_stages (record { schema = schema.now; bytes_left = bytes_left }) result
        (I.state inputs.old) (I.state inputs.new) }
{
    let reading = read_files(alloc, inputs, schema, bytes_left)?;
    Ok(Instance::from_gathered(alloc, reading.symbols, reading.tables)?)
}
