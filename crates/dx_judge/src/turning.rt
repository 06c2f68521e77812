// An instance with the columns of its tables in another order: those with more values first.
ghost use Rattle.std.specs.Prelude.{◌≡◌, ◌<◌, IfOk, OnOk, length};
ghost use Rattle.dx_base.specs.Members.{Each};
ghost use Rattle.dx_instance.specs.Shown.{numbers_of_table};
ghost use Rattle.dx_judge.specs.Turning.{OrdersColumns, TablesTurned, IsColumnOrder, IsTableTurned, IsTurnedOne, row_turned};

use dx_base::Items;
use dx_instance::{Instance, Numbers, Rows};
use std::alloc::{AllocError, Global};

/// An instance, and the same facts with their values in other orders, with an index of each column: rows are looked up by the first
/// column whose value is known, and columns with many values come first.
#[derive(Drop)]
pub(crate) struct Turned<'a> {
    pub plain: &'a Instance,
    pub orders: Vec<Items<u32>>,
    pub instance: Instance,
}

// How many numbers stand in a column, which is a matter of time alone. `met` has for each number the last stamp with which it was met.
fn count_numbers(numbers: &Numbers<'_>, table: u32, column: u32, stamp: u32, met: &mut [u32]) -> u32
    requires table { table < length numbers.now.tables }
    requires column { column < (numbers_of_table numbers.now.tables table).width }
{
    let mut count = 0u32;
    for place in 0..numbers.count(table) {
        let number = numbers.row(table, place)[column as usize];
        if let Some(last) = met.get_mut(number as usize) {
            if *last != stamp {
                *last = stamp;
                count = count.saturating_add(1);
            }
        }
    }
    count
}

// The columns of a table: those with more values first.
fn order_of(
    alloc: Global,
    numbers: &Numbers<'_>,
    table: u32,
    met: &mut [u32],
) -> Result<Items<u32>, AllocError>
    requires { table < length numbers.now.tables }
    ensures { IfOk result (IsColumnOrder (numbers_of_table numbers.now.tables table).width) }
{
    met.fill(u32::MAX);
    let width = numbers.width(table);
    let mut ranked = Vec::with_capacity(alloc, width as usize)?;
    for column in 0..width {
        let count = count_numbers(numbers, table, column, column, met);
        ranked.push((u32::MAX - count, column))?;
    }
    ranked.sort_unstable();
    let mut order = Items::new(alloc);
    for (_, column) in ranked.iter() {
        order.push(*column)?;
    }
    Ok(order)
}

// Such an order for each table.
fn orders_of(alloc: Global, numbers: &Numbers<'_>) -> Result<Vec<Items<u32>>, AllocError>
    ensures { IfOk result (λ orders. OrdersColumns numbers.now.tables orders.items) }
{
    let mut met = vec![in alloc; u32::MAX; numbers.len() as usize]?;
    let mut orders = Vec::new(alloc);
    for table in 0..numbers.tables() {
        orders.push(order_of(alloc, numbers, table, &mut met)?)?;
    }
    Ok(orders)
}

// The numbers of a row in this order, in place of what `turned` has.
fn turn_row(row: &[u32], order: &[u32], turned: &mut Vec<u32>) -> Result<(), AllocError>
    requires { Each order.now (λ c. c < length row.now) }
    ensures { OnOk result (turned.new.items ≡ row_turned order.now row.now) }
{
    turned.clear();
    for column in order {
        turned.push(row[*column as usize])?;
    }
    Ok(())
}

// The rows of a table, with their numbers in this order.
fn turn_table(
    alloc: Global,
    numbers: &Numbers<'_>,
    table: u32,
    order: &[u32],
) -> Result<Rows, AllocError>
    requires table { table < length numbers.now.tables }
    requires order { Each order.now (λ c. c < (numbers_of_table numbers.now.tables table).width) }
    requires long { length order.now ≡ (numbers_of_table numbers.now.tables table).width }
    ensures { IfOk result (IsTableTurned order.now (numbers_of_table numbers.now.tables table)) }
{
    let mut rows = Rows::new(alloc, numbers.width(table));
    let mut turned = Vec::new(alloc);
    for place in 0..numbers.count(table) {
        turn_row(numbers.row(table, place), order, &mut turned)?;
        rows.push(&turned)?;
    }
    Ok(rows)
}

// The rows of each table, with their numbers in its order.
fn turn_tables(
    alloc: Global,
    numbers: &Numbers<'_>,
    orders: &[Items<u32>],
) -> Result<Vec<Rows>, AllocError>
    requires { OrdersColumns numbers.now.tables orders.now }
    ensures { IfOk result (λ tables. TablesTurned orders.now numbers.now.tables tables.items) }
{
    let mut tables = Vec::new(alloc);
    for table in 0..numbers.tables() {
        let order = orders[table as usize].items();
        tables.push(turn_table(alloc, numbers, table, order)?)?;
    }
    Ok(tables)
}

// Makes an index of each column.
fn index_all(instance: &mut Instance) -> Result<(), AllocError>
    ensures { OnOk result (instance.new ≡ instance.old) }
{
    for table in 0..instance.tables() {
        for column in 0..instance.width(table) {
            instance.index(table, column)?;
        }
    }
    Ok(())
}

/// The instance, and the same with other orders of columns.
///
/// # Errors
///
/// `AllocError` if there is no memory.
pub(crate) fn turn<'a>(alloc: Global, plain: &'a Instance) -> Result<Turned<'a>, AllocError>
    ensures plain { IfOk result (λ t. t.plain.now ≡ plain.now) }
    ensures turned { IfOk result IsTurnedOne }
{
    let numbers = plain.numbers();
    let orders = orders_of(alloc, &numbers)?;
    let tables = turn_tables(alloc, &numbers, &orders)?;
    let mut instance = Instance::from_rows(alloc, numbers.copy_symbols(alloc)?, tables)?;
    index_all(&mut instance)?;
    Ok(Turned {
        plain,
        orders,
        instance,
    })
}
