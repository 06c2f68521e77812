// What rows of a table have in some columns.
ghost use Rattle.std.specs.Prelude.{◌≡◌, ◌<◌, [], ◌∷◌, ℕ, IfOk, length};
ghost use Rattle.dx_base.specs.Members.{◌∈◌};
ghost use Rattle.dx_model.specs.Tables.{values_in};
ghost use Rattle.dx_instance.specs.Places.{row_at};
ghost use Rattle.dx_instance.specs.Stored.{rows_of, table_at, without_rows};
ghost use Rattle.dx_fails.specs.Shown.{AreShadows, IsWidth};

use dx_instance::{Instance, Row, copy_value};
use std::alloc::{AllocError, Global};

// An instance of one table for the values of rows in these columns.
fn no_shadows(alloc: Global, columns: &[u32]) -> Result<Instance, AllocError>
    requires { IsWidth (length columns.now) }
    ensures { IfOk result (λ I. I ≡ without_rows (length columns.now ∷ [])) }
{
    let mut widths = Vec::new(alloc);
    widths.push(columns.len() as u32)?;
    Instance::new(alloc, widths)
}

/// The values of the row at a place in these columns.
///
/// # Errors
///
/// `AllocError` if there is no memory.
pub(crate) fn shadow_of(
    alloc: Global,
    instance: &Instance,
    table: u32,
    columns: &[u32],
    place: u32,
) -> Result<Row, AllocError>
    requires table { table < length instance.now }
    requires place { place < length (rows_of instance.now table) }
    requires columns { (c : ℕ) → c ∈ columns.now → c < (table_at instance.now table).width }
    ensures { IfOk result (λ row. row ≡ values_in columns.now (row_at instance.now table place)) }
{
    let mut row = Row::new(alloc);
    for column in columns {
        row.push(copy_value(instance.cell(table, place, *column))?)?;
    }
    Ok(row)
}

/// What the rows of a table have in these columns, each once, as an instance of one table.
///
/// # Errors
///
/// `AllocError` if there is no memory.
pub(crate) fn shadows(
    alloc: Global,
    instance: &Instance,
    table: u32,
    columns: &[u32],
) -> Result<Instance, AllocError>
    requires table { table < length instance.now }
    requires columns { (c : ℕ) → c ∈ columns.now → c < (table_at instance.now table).width }
    requires wide { IsWidth (length columns.now) }
    ensures { IfOk result (AreShadows instance.now table columns.now) }
{
    // The call tells what holds of the tables of each instance.
    prove!(table < instance.tables());
    let mut all = no_shadows(alloc, columns)?;
    for place in 0..instance.count(table) {
        let row = shadow_of(alloc, instance, table, columns, place)?;
        all.add(0, row)?;
    }
    Ok(all)
}
