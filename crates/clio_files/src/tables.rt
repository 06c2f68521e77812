// The tables of an instance as files.
ghost use Rattle.std.specs.Prelude.{◌≡◌, ◌<◌, IfOk, OnOk, length, map};
ghost use Rattle.dx_base.specs.Members.{Each};
ghost use Rattle.dx_schema.specs.Tables.{schema_widths, schema_table, tables_of};
ghost use Rattle.dx_instance.specs.Stored.{rows_of, widths};
ghost use Rattle.dx_csv.specs.Print.{HasNoMark};
ghost use Rattle.clio_files.specs.Files.{IsTableFile, printed_view};
ghost use Rattle.clio_files.specs.Printing.{AddsTables};

use crate::printed::Printed;
use clio_source::file_name;
use dx_base::File;
use dx_csv::print_table_bytes;
use dx_instance::Instance;
use dx_schema::Schema;
use std::alloc::{AllocError, Global};

// The file of a table, under its name with this in front.
fn table_file(
    alloc: Global,
    front: &str,
    schema: &Schema,
    instance: &Instance,
    table: u32,
) -> Result<Printed, AllocError>
    requires table { table < length (tables_of schema.now) }
    requires widths { widths instance.now ≡ schema_widths schema.now }
    requires no_mark { HasNoMark (schema_table schema.now table).columns }
    ensures { IfOk result (λ p. IsTableFile front.now (schema_table schema.now table) (rows_of instance.now table) (printed_view p)) }
{
    // The call tells that no row stands twice.
    prove!(table < instance.tables());
    let bytes = print_table_bytes(alloc, schema.columns(table), instance, table)?;
    Ok(Printed {
        file: File {
            name: file_name(alloc, front, schema.name(table))?,
            bytes,
        },
        count: u64::from(instance.count(table)),
    })
}

/// Adds the files of an instance's tables, in order, under their names with this in front.
pub(crate) fn push_tables(
    alloc: Global,
    front: &str,
    schema: &Schema,
    instance: &Instance,
    files: &mut Vec<Printed>,
) -> Result<(), AllocError>
    requires widths { widths instance.now ≡ schema_widths schema.now }
    requires no_marks { Each (tables_of schema.now) (λ t. HasNoMark t.columns) }
    ensures { OnOk result (AddsTables front.now (tables_of schema.now) instance.now (map printed_view files.old.items)
        (map printed_view files.new.items)) }
{
    for table in 0..schema.tables() {
        files.push(table_file(alloc, front, schema, instance, table)?)?;
    }
    Ok(())
}
