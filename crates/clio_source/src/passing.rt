// The rows that pass conditions.
ghost use Rattle.std.specs.Prelude.{◌≡◌, ◌<◌, IfOk, length, slice_get};
ghost use Rattle.dx_funcs.specs.Judging.{Decides, tested};
ghost use Rattle.dx_instance.specs.Shown.{NumbersBelow, numbers_of_table, shown_row};
ghost use Rattle.dx_used.specs.Passing.{fact_passes, value_passes};
ghost use Rattle.clio_source.specs.Kept.{AllTestsListed, IsPassing, IsListedTest, row_passes, rows_kept};

use dx_base::Text;
use dx_funcs::{Meaning, Tests};
use dx_instance::{Instance, Numbers, Rows, Value};
use dx_lines::Condition;
use std::alloc::{AllocError, Global};

// Whether what is in the column of a condition passes its test.
fn column_passes<P, M>(
    numbers: &Numbers<'_>,
    row: &[u32],
    condition: &Condition,
    tests: &Tests<P, M>,
) -> Result<bool, AllocError>
where
    P: Fn(u32, &Text) -> Result<bool, AllocError>,
    M: Meaning,
    requires decides { Decides P.Fn M.passes tests.now }
    requires listed { IsListedTest (tested tests.now) condition.now.code }
    requires below { NumbersBelow (length numbers.now.symbols) row.now }
    ensures { IfOk result (λ b. b ≡ value_passes M.passes condition.now.code
        (slice_get (shown_row numbers.now.symbols row.now) condition.now.place.column)) }
{
    let Some(number) = row.get(condition.place.column as usize) else {
        return Ok(false);
    };
    match numbers.value(*number) {
        Value::Const(text) => tests.check(condition.code, text),
        Value::Null(_) => Ok(false),
    }
}

// Whether a row of a table passes a condition.
fn passes_one<P, M>(
    numbers: &Numbers<'_>,
    table: u32,
    row: &[u32],
    condition: &Condition,
    tests: &Tests<P, M>,
) -> Result<bool, AllocError>
where
    P: Fn(u32, &Text) -> Result<bool, AllocError>,
    M: Meaning,
    requires decides { Decides P.Fn M.passes tests.now }
    requires listed { IsListedTest (tested tests.now) condition.now.code }
    requires below { NumbersBelow (length numbers.now.symbols) row.now }
    ensures { IfOk result (λ b. b ≡ fact_passes M.passes
        (record { table = table; row = shown_row numbers.now.symbols row.now }) condition.now) }
{
    if table == condition.place.table {
        column_passes(numbers, row, condition, tests)
    } else {
        Ok(true)
    }
}

// Whether a row of a table passes each condition.
fn passes_each<P, M>(
    numbers: &Numbers<'_>,
    table: u32,
    row: &[u32],
    conditions: &[Condition],
    tests: &Tests<P, M>,
) -> Result<bool, AllocError>
where
    P: Fn(u32, &Text) -> Result<bool, AllocError>,
    M: Meaning,
    requires decides { Decides P.Fn M.passes tests.now }
    requires listed { AllTestsListed (tested tests.now) conditions.now }
    requires below { NumbersBelow (length numbers.now.symbols) row.now }
    ensures { IfOk result (λ b. b ≡ row_passes M.passes conditions.now numbers.now.symbols table row.now) }
{
    for condition in conditions {
        if !passes_one(numbers, table, row, condition, tests)? {
            return Ok(false);
        }
    }
    Ok(true)
}

// The rows of a table that pass.
fn rows_passing<P, M>(
    alloc: Global,
    numbers: &Numbers<'_>,
    table: u32,
    conditions: &[Condition],
    tests: &Tests<P, M>,
) -> Result<Rows, AllocError>
where
    P: Fn(u32, &Text) -> Result<bool, AllocError>,
    M: Meaning,
    requires decides { Decides P.Fn M.passes tests.now }
    requires listed { AllTestsListed (tested tests.now) conditions.now }
    requires table { table < length numbers.now.tables }
    ensures { IfOk result (λ rows. rows ≡ rows_kept (row_passes M.passes conditions.now numbers.now.symbols table)
        (numbers_of_table numbers.now.tables table)) }
{
    let mut rows = Rows::new(alloc, numbers.width(table));
    for place in 0..numbers.count(table) {
        let row = numbers.row(table, place);
        if passes_each(numbers, table, row, conditions, tests)? {
            rows.push(row)?;
        }
    }
    Ok(rows)
}

// An instance of the rows that pass.
fn instance_passing<P, M>(
    alloc: Global,
    rows: &Instance,
    conditions: &[Condition],
    tests: &Tests<P, M>,
) -> Result<Instance, AllocError>
where
    P: Fn(u32, &Text) -> Result<bool, AllocError>,
    M: Meaning,
    requires decides { Decides P.Fn M.passes tests.now }
    requires listed { AllTestsListed (tested tests.now) conditions.now }
    ensures { IfOk result (IsPassing M.passes conditions.now rows.now) }
{
    let numbers = rows.numbers();
    let mut tables = Vec::new(alloc);
    for table in 0..numbers.tables() {
        tables.push(rows_passing(alloc, &numbers, table, conditions, tests)?)?;
    }
    Instance::from_rows(alloc, numbers.copy_symbols(alloc)?, tables)
}

/// The rows of an instance that pass each condition on their table. Without conditions they are all kept as they are.
pub(crate) fn passing_rows<P, M>(
    alloc: Global,
    rows: Instance,
    conditions: &[Condition],
    tests: &Tests<P, M>,
) -> Result<Instance, AllocError>
where
    P: Fn(u32, &Text) -> Result<bool, AllocError>,
    M: Meaning,
    requires decides { Decides P.Fn M.passes tests.now }
    requires listed { AllTestsListed (tested tests.now) conditions.now }
    ensures { IfOk result (IsPassing M.passes conditions.now rows) }
{
    if conditions.is_empty() {
        return Ok(rows);
    }
    instance_passing(alloc, &rows, conditions, tests)
}
