// The order of the members of objects.
ghost use Rattle.std.specs.Prelude.{◌≡◌, ◌+◌, ◌<◌, ◌≤◌, ◌^◌, ◌++◌, length, suc, true, IfOk, OnOk};
ghost use Rattle.dx_base.specs.declared.limits.TheConstants.{TABLES};
ghost use Rattle.dx_schema.specs.Tables.{count};
ghost use Rattle.dx_json.specs.Nesting.{own_from};
ghost use Rattle.dx_json.specs.Orders.{HasRoot, IsReadyRoot, all_slots, order_of as order_at, orders_of, slot_put, slots_of, with_cells, with_inner};
ghost use Rattle.dx_json.specs.Standing.{Stand};

use dx_base::{Items, Text};
use dx_instance::Instance;
use dx_schema::{SetTree, Trees};
use std::alloc::{AllocError, Global};
use std::collections::BTreeMap;

/// Where the value of a member comes from.
#[derive(Clone, Copy)]
pub enum Source {
    /// The cell in the column with this number.
    Cell(u32),
    /// The rows of the inner set at this place, whose table has this number.
    Inner(usize, u32),
}

/// The members of the objects of a set, ascending by name, each with where its value comes from.
pub type Order = BTreeMap<String, Source>;

// Puts a member.
fn put(alloc: Global, name: &Text, source: Source, order: &mut Order) -> Result<(), AllocError>
    ensures { OnOk result (slots_of order.new.entries ≡ slot_put name.now source (slots_of order.old.entries)) }
{
    let name = String::from_str(alloc, name.as_str())?;
    order.insert(name, source)?;
    Ok(())
}

// Puts a member for each of these columns, of which the first has this number.
fn put_columns(
    alloc: Global,
    columns: &Items<Text>,
    first: u32,
    width: u32,
    order: &mut Order,
) -> Result<(), AllocError>
    requires { first + length columns.now ≤ width }
    ensures { OnOk result (slots_of order.new.entries ≡ with_cells columns.now first (slots_of order.old.entries)) }
{
    let mut number = first;
    for column in columns.items() {
        put(alloc, column, Source::Cell(number), order)?;
        number += 1;
    }
    Ok(())
}

// Puts a member for each of these inner sets, of which the first has this table.
fn put_sets(alloc: Global, sets: &Trees, first: u32, order: &mut Order) -> Result<(), AllocError>
    requires few { count sets.now < TABLES }
    requires room { first + count sets.now < 2 ^ 32 }
    ensures { OnOk result (slots_of order.new.entries ≡ with_inner sets.now 0 first (slots_of order.old.entries)) }
{
    let mut table = first;
    let mut place = 0usize;
    for tree in sets.items() {
        put(alloc, &tree.name, Source::Inner(place, table), order)?;
        place += 1;
        table += 1 + tree.inner.count();
    }
    Ok(())
}

// The first of the declared columns.
fn first_own(tree: &SetTree, is_inner: bool) -> u32
    ensures { result ≡ own_from tree.now.inner is_inner }
{
    let up = if tree.inner.is_empty() { 0 } else { 1 };
    if is_inner { up + 1 } else { up }
}

// The members of the objects of a set, whose table has this number and this width.
fn order_of(
    alloc: Global,
    tree: &SetTree,
    is_inner: bool,
    table: u32,
    width: u32,
) -> Result<Order, AllocError>
    requires columns { own_from tree.now.inner is_inner + length tree.now.label.columns ≤ width }
    requires few { count tree.now.inner < TABLES }
    requires room { table + suc (count tree.now.inner) < 2 ^ 32 }
    ensures { IfOk result (λ o. slots_of o.entries ≡ order_at tree.now.label tree.now.inner is_inner table) }
{
    let mut order = BTreeMap::new(alloc);
    let first = first_own(tree, is_inner);
    put_columns(alloc, &tree.columns, first, width, &mut order)?;
    put_sets(alloc, &tree.inner, table + 1, &mut order)?;
    Ok(order)
}

// Pushes the orders of these inner sets, of which the first has this table, and of theirs, table by table.
fn push_orders(
    alloc: Global,
    instance: &Instance,
    sets: &Trees,
    first: u32,
    orders: &mut Vec<Order>,
) -> Result<(), AllocError>
    requires stand { Stand instance.now first sets.now }
    requires few { count sets.now < TABLES }
    requires room { first + count sets.now < 2 ^ 32 }
    ensures { OnOk result (all_slots orders.new.items ≡ all_slots orders.old.items ++ orders_of sets.now first) }
{
    let mut table = first;
    for tree in sets.items() {
        let order = order_of(alloc, tree, true, table, instance.width(table))?;
        orders.push(order)?;
        push_orders(alloc, instance, &tree.inner, table + 1, orders)?;
        table += 1 + tree.inner.count();
    }
    Ok(())
}

// So many empty orders.
fn empty_orders(alloc: Global, number: u32) -> Result<Vec<Order>, AllocError>
    ensures { IfOk result (λ v. length v.items ≡ number) }
{
    let mut orders = Vec::new(alloc);
    for _ in 0..number {
        orders.push(BTreeMap::new(alloc))?;
    }
    Ok(orders)
}

/// The orders of a root and of its inner sets, each at its table's number; those of the tables before are empty.
pub fn root_orders(
    alloc: Global,
    instance: &Instance,
    tree: &SetTree,
    root: u32,
) -> Result<Vec<Order>, AllocError>
    requires { HasRoot instance.now root tree.now }
    ensures { IfOk result (λ v. IsReadyRoot instance.now (all_slots v.items) root tree.now) }
{
    let mut orders = empty_orders(alloc, root)?;
    let order = order_of(alloc, tree, false, root, instance.width(root))?;
    orders.push(order)?;
    push_orders(alloc, instance, &tree.inner, root + 1, &mut orders)?;
    Ok(orders)
}
