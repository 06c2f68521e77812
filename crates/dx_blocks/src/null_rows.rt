// The numbers of nulls, and the rows that hold them.
ghost use Rattle.std.specs.Prelude.{◌<◌, ◌≤◌, ◌+◌, IfNone, IfOk, IfSome, OnOk, length};
ghost use Rattle.dx_base.specs.Members.{◌∈◌, Each};
ghost use Rattle.dx_instance.specs.Numbers.{ValuesAscend};
ghost use Rattle.dx_blocks.specs.NullRows.{HasNullRows, IsFirstNull};

use crate::numbered::At;
use dx_instance::Numbers;
use dx_model::Value;
use std::alloc::{AllocError, Global};

/// The number of the first null, or how many symbols there are.
pub fn first_null(numbers: &Numbers<'_>) -> u32
    requires { ValuesAscend numbers.now.symbols }
    ensures { IsFirstNull numbers.now result }
{
    for number in 0..numbers.len() {
        if let Value::Null(_) = numbers.value(number) {
            return number;
        }
    }
    numbers.len()
}

/// The first number of a row from `first` on.
pub fn null_in(row: &[u32], first: u32) -> Option<u32>
    ensures none { IfNone result (Each row.now (λ n. n < first)) }
    ensures some { IfSome result (λ n. (n ∈ row.now) × (first ≤ n)) }
{
    row.iter().copied().find(|number| *number >= first)
}

// The rows of a table that hold nulls, after those of the tables before it.
fn push_rows(
    numbers: &Numbers<'_>,
    first: u32,
    table: u32,
    rows: &mut Vec<At>,
) -> Result<(), AllocError>
    requires table { table < length numbers.now.tables }
    requires before { HasNullRows numbers.now first table 0 rows.old.items }
    ensures { OnOk result (HasNullRows numbers.now first (table + 1) 0 rows.new.items) }
{
    for place in 0..numbers.count(table) {
        if let Some(_) = null_in(numbers.row(table, place), first) {
            rows.push(At { table, place })?;
        }
    }
    Ok(())
}

/// The rows that hold nulls, by tables and places.
///
/// # Errors
///
/// `AllocError` if there is no memory.
pub fn null_rows(alloc: Global, numbers: &Numbers<'_>, first: u32) -> Result<Vec<At>, AllocError>
    ensures { IfOk result (λ rows. HasNullRows numbers.now first (length numbers.now.tables) 0 rows.items) }
{
    let mut rows = Vec::new(alloc);
    for table in 0..numbers.tables() {
        push_rows(numbers, first, table, &mut rows)?;
    }
    Ok(rows)
}
