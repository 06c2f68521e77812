// What determines what in a table.
ghost use Rattle.std.specs.Prelude.{◌≡◌, ◌<◌, IfOk, length, map};
ghost use Rattle.std.specs.List.{range_with_len};
ghost use Rattle.dx_schema.specs.Tables.{determinations_of, schema_table, tables_of};
ghost use Rattle.dx_fails.specs.Shown.{as_determination};

use dx_schema::Schema;
use std::alloc::{AllocError, Global};

/// Columns of a table that determine columns of it.
#[derive(Clone, Copy)]
pub(crate) struct Determines<'a> {
    pub left: &'a [u32],
    pub right: &'a [u32],
}

/// The columns of a table with this width.
///
/// # Errors
///
/// `AllocError` if there is no memory.
#[tactic(auto, using(dx_base::proofs::Ranges::range_more))]
pub(crate) fn all_columns(alloc: Global, width: u32) -> Result<Vec<u32>, AllocError>
    ensures { IfOk result (λ all. all.items ≡ range_with_len 0 width) }
{
    let mut all = Vec::with_capacity(alloc, width as usize)?;
    for column in 0..width {
        all.push(column)?;
    }
    Ok(all)
}

/// The determinations of a table, all of whose columns are given: its keys, and then its dependencies.
///
/// # Errors
///
/// `AllocError` if there is no memory.
pub(crate) fn determinations<'a>(
    alloc: Global,
    schema: &'a Schema,
    table: u32,
    all: &'a [u32],
) -> Result<Vec<Determines<'a>>, AllocError>
    requires table { table < length (tables_of schema.now) }
    requires all { all.now ≡ range_with_len 0 (length (schema_table schema.now table).columns) }
    ensures { IfOk result (λ found. map as_determination found.items ≡ determinations_of (schema_table schema.now table)) }
{
    let mut found = Vec::new(alloc);
    for key in schema.keys_of(table) {
        found.push(Determines {
            left: key.columns.items(),
            right: all,
        })?;
    }
    for dep in schema.deps_of(table) {
        found.push(Determines {
            left: dep.columns.items(),
            right: dep.decides.items(),
        })?;
    }
    Ok(found)
}
