// A clash of rows of numbers, by values.
ghost use Rattle.std.specs.Prelude.{◌≡◌, ◌<◌, ◌⊎◌, IfOk, length};
ghost use Rattle.std.specs.declared.cmp.Ordering.TheVariants.{Greater};
ghost use Rattle.dx_model.specs.Values.{row_cmp};
ghost use Rattle.dx_chase.specs.Joins.{nth, demand_at};
ghost use Rattle.dx_chase.specs.Rows.{IsRowDemand, determination_columns};
ghost use Rattle.dx_keys.specs.Numbers.{CanRead, CanReadDemand, IsClashByValues, row_read};

use crate::answers::Clash;
use crate::reading::{read_row, read_steps};
use dx_chase::{ClashAt, Demands, NumberTable, RowsChased};
use dx_instance::{Row, Symbols};
use std::alloc::{AllocError, Global};
use std::cmp::Ordering;

// The row of a demand, each number at its root.
fn demand_row(
    alloc: Global,
    symbols: &Symbols,
    tables: &[NumberTable<'_>],
    found: &RowsChased<'_, '_>,
    i: u64,
) -> Result<Row, AllocError>
    requires { CanReadDemand symbols.now tables.now found.now.chased.roots found.now.demands i }
    ensures { IfOk result (λ row. row ≡ row_read symbols.now tables.now found.now.chased.roots (demand_at found.now.demands i)) }
{
    let demand = found.demands.asked(i);
    let table = &tables[demand.table as usize];
    let roots = found.chased.roots.items();
    read_row(alloc, symbols, roots, table.row(demand.row))
}

// The column at a place on the right of a demand.
fn column_at(tables: &[NumberTable<'_>], demands: &Demands<'_, '_>, i: u64, place: usize) -> u32
    requires demand { IsRowDemand tables.now (demand_at demands.now i) }
    requires inside { i < length demands.now }
    requires place { place < length (demand_at demands.now i).right }
    ensures { result ≡ nth (determination_columns tables.now (demand_at demands.now i).table
        (demand_at demands.now i).determination).right place }
{
    let demand = demands.asked(i);
    let table = &tables[demand.table as usize];
    let all = table.determinations();
    let columns = all[demand.determination as usize].right.items();
    columns[place]
}

// Two rows, the lesser first.
fn in_order(one: Row, other: Row) -> (Row, Row)
    ensures rows { ((result.0 ≡ one) × (result.1 ≡ other)) ⊎ ((result.0 ≡ other) × (result.1 ≡ one)) }
    ensures order { ¬ (row_cmp result.0 result.1 ≡ Greater) }
{
    match one.cmp(&other) {
        Ordering::Greater => (other, one),
        Ordering::Less => (one, other),
        Ordering::Equal => (one, other),
    }
}

/// A clash by values.
///
/// # Errors
///
/// `AllocError` if there is no memory.
pub fn read_clash(
    alloc: Global,
    symbols: &Symbols,
    tables: &[NumberTable<'_>],
    found: &RowsChased<'_, '_>,
    place: ClashAt,
) -> Result<Clash, AllocError>
    requires { CanRead symbols.now tables.now found.now place }
    ensures { IfOk result (IsClashByValues symbols.now tables.now found.now place) }
{
    let demands = &found.demands;
    let demand = demands.asked(place.one);
    let steps = read_steps(alloc, symbols, found.chased.steps.items())?;
    let one = demand_row(alloc, symbols, tables, found, place.one)?;
    let other = demand_row(alloc, symbols, tables, found, place.other)?;
    let (left, right) = in_order(one, other);
    Ok(Clash {
        steps,
        table: demand.table,
        key: demand.determination,
        left,
        right,
        column: column_at(tables, demands, place.one, place.column),
    })
}
