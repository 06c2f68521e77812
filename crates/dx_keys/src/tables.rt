// Tables of numbers with what determines what in them.
ghost use Rattle.std.specs.Prelude.{◌≡◌, ◌<◌, IfOk, length, map};
ghost use Rattle.dx_model.specs.Tables.{table_of};
ghost use Rattle.dx_schema.specs.Tables.{key_determinations, model_tables, schema_table, tables_of};
ghost use Rattle.dx_keys.specs.Numbers.{TablesWithin, determination_of};

use dx_base::Items;
use dx_chase::{Columns, NumberTable, counted};
use dx_instance::Rows;
use dx_schema::Schema;
use std::alloc::{AllocError, Global};

// A copy of numbers.
fn copied(alloc: Global, numbers: &[u32]) -> Result<Items<u32>, AllocError>
    ensures { IfOk result (λ copy. copy ≡ numbers.now) }
{
    let mut copy = Vec::with_capacity(alloc, numbers.len())?;
    copy.extend_from_slice(numbers)?;
    Ok(Items::from_vec(copy))
}

// What the keys of a table determine: each determines all columns.
fn keys_as_columns(alloc: Global, schema: &Schema, table: u32) -> Result<Items<Columns>, AllocError>
    requires { table < length (tables_of schema.now) }
    ensures { IfOk result (λ all. map determination_of all ≡ key_determinations (schema_table schema.now table)) }
{
    let width = schema.width(table);
    let mut all = Items::new(alloc);
    for key in schema.keys_of(table) {
        all.push(Columns {
            left: copied(alloc, key.columns.items())?,
            right: Items::from_vec(counted(alloc, width)?),
        })?;
    }
    Ok(all)
}

/// The determinations of a table: its keys, each of which determines all columns, and then its dependencies.
///
/// # Errors
///
/// `AllocError` if there is no memory.
pub fn determinations(
    alloc: Global,
    schema: &Schema,
    table: u32,
) -> Result<Items<Columns>, AllocError>
    requires { table < length (tables_of schema.now) }
    ensures { IfOk result (λ all. map determination_of all ≡ (table_of (model_tables schema.now) table).determinations) }
{
    let mut all = keys_as_columns(alloc, schema, table)?;
    for dep in schema.deps_of(table) {
        all.push(Columns {
            left: copied(alloc, dep.columns.items())?,
            right: copied(alloc, dep.decides.items())?,
        })?;
    }
    Ok(all)
}

/// The rows of each table, with its determinations.
///
/// # Errors
///
/// `AllocError` if there is no memory.
pub fn number_tables<'a>(
    alloc: Global,
    schema: &Schema,
    tables: &'a [Rows],
) -> Result<Vec<NumberTable<'a>>, AllocError>
    requires { length tables.now ≡ length (tables_of schema.now) }
    ensures { IfOk result (λ all. TablesWithin (model_tables schema.now) tables.now all.items) }
{
    let mut all = Vec::new(alloc);
    for table in 0..schema.tables() {
        let columns = determinations(alloc, schema, table)?;
        all.push(NumberTable::new(&tables[table as usize], columns))?;
    }
    Ok(all)
}
