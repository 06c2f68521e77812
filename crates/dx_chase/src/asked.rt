// Demands as numbers: rows stay as they lie.
ghost use Rattle.std.specs.Prelude.{◌≡◌, ◌<◌, ◌≤◌, ◌+◌, IfOk, OnOk, length};
ghost use Rattle.dx_base.specs.Members.{Each};
ghost use Rattle.dx_chase.specs.Joins.{demand_at};
ghost use Rattle.dx_chase.specs.Parts.{LieFrom, demands_in, chase_part_at, picked};
ghost use Rattle.dx_chase.specs.Repeats.{PartsAndIndex, columns_listed};
ghost use Rattle.dx_chase.specs.Rows.{AddsRows, AddsTable, DemandsOfRows, ColumnsFit, determination_columns, determination_count, number_row, row_count};

use crate::index::Index;
use crate::members::append;
use crate::numbers::NumberList;
use crate::tables::{Columns, NumberTable};
use dx_base::no_number_left;
use std::alloc::{AllocError, Global};
use std::marker::Model;

/// The demands of the rows of a table for one determination: the number of the first of them.
#[derive(Clone, Copy, PartialEq, Eq)]
pub struct Part {
    pub first: u64,
    pub table: u32,
    pub determination: u32,
}

/// What all rows owe to the determinations of their tables: a demand is a number. A contract sees the list of the demands.
#[derive(Drop)]
pub struct Demands<'a, 't> {
    tables: &'a [NumberTable<'t>],
    parts: Vec<Part>,
    count: u64,
}

impl<'a, 't> Model for Demands<'a, 't> {
    ghost use Rattle.std.specs.Prelude.{List};
    ghost use Rattle.dx_chase.specs.Demands.{Demand};
    ghost use Rattle.dx_chase.specs.Parts.{AreParts, demands_in};

    ghost Value = { List Demand };

    ghost view = { λ d. demands_in d.tables.now d.parts.items };

    ghost invariant = { λ d. AreParts d.tables.now d.parts.items d.count };
}

/// A demand as it lies: the numbers of its row, lent, and the columns on its left and on its right.
#[derive(Clone, Copy)]
pub struct Asked<'a> {
    pub table: u32,
    pub determination: u32,
    pub row: u32,
    pub numbers: &'a [u32],
    pub left: &'a [u32],
    pub right: &'a [u32],
}

// A place as a short number.
fn short(place: usize) -> Result<u32, AllocError>
    ensures { IfOk result (λ x. x ≡ place) }
{
    let Ok(x) = u32::try_from(place) else {
        return Err(no_number_left(place as u64));
    };
    Ok(x)
}

// So many and some more.
fn sum(count: u64, more: u32) -> Result<u64, AllocError>
    ensures { IfOk result (λ x. x ≡ count + more) }
{
    let Some(all) = count.checked_add(u64::from(more)) else {
        return Err(no_number_left(count));
    };
    Ok(all)
}

fn row_total(tables: &[NumberTable<'_>], table: u32) -> u32
    requires { table < length tables.now }
    ensures { result ≡ row_count tables.now table }
{
    let found = &tables[table as usize];
    found.count()
}

fn determination_total(tables: &[NumberTable<'_>], table: u32) -> usize
    requires { table < length tables.now }
    ensures { result ≡ determination_count tables.now table }
{
    let found = &tables[table as usize];
    found.determinations().len()
}

fn row_of<'a>(tables: &'a [NumberTable<'_>], table: u32, row: u32) -> &'a [u32]
    requires table { table < length tables.now }
    requires row { row < row_count tables.now table }
    ensures { result.now ≡ number_row tables.now table row }
{
    let found = &tables[table as usize];
    found.row(row)
}

fn columns_of<'a>(tables: &'a [NumberTable<'_>], table: u32, determination: u32) -> &'a Columns
    requires table { table < length tables.now }
    requires determination { determination < determination_count tables.now table }
    ensures { result.now ≡ determination_columns tables.now table determination }
{
    let found = &tables[table as usize];
    let all = found.determinations();
    &all[determination as usize]
}

// The part of a demand: the last one that does not begin after it.
fn part_of(parts: &[Part], i: u64) -> usize
    requires some { 0 < length parts.now }
    requires from { (chase_part_at parts.now 0).first ≤ i }
    ensures inside { result < length parts.now }
    ensures from { (chase_part_at parts.now result).first ≤ i }
    ensures to { result + 1 < length parts.now → i < (chase_part_at parts.now (result + 1)).first }
{
    let mut low = 0;
    let mut high = parts.len();
    'finding: while high - low > 1 {
        let middle = low + (high - low) / 2;
        if parts[middle].first <= i {
            low = middle;
        } else {
            high = middle;
        }
    }
    low
}

impl<'a, 't> Demands<'a, 't> {
    /// How many demands there are.
    pub fn len(&self) -> u64
        ensures { result ≡ length self.now }
    {
        self.count
    }

    /// A demand, lent.
    pub fn asked(&self, i: u64) -> Asked<'a>
        requires { i < length self.now }
        ensures table { result.table ≡ (demand_at self.now i).table }
        ensures determination { result.determination ≡ (demand_at self.now i).determination }
        ensures row { result.row ≡ (demand_at self.now i).row }
        ensures left { picked result.numbers.now result.left.now ≡ (demand_at self.now i).left }
        ensures right { picked result.numbers.now result.right.now ≡ (demand_at self.now i).right }
        ensures left_in { Each result.left.now (λ k. k < length result.numbers.now) }
        ensures right_in { Each result.right.now (λ k. k < length result.numbers.now) }
    {
        let parts = self.parts.as_slice();
        let part = parts[part_of(parts, i)];
        let tables = self.tables;
        let columns = columns_of(tables, part.table, part.determination);
        let _few = row_total(tables, part.table);
        let row = (i - part.first) as u32;
        Asked {
            table: part.table,
            determination: part.determination,
            row,
            numbers: row_of(tables, part.table, row),
            left: columns.left.items(),
            right: columns.right.items(),
        }
    }
}

// What all rows of a table owe to a determination, after the demands below `count`. How many demands there are then.
fn add_rows(
    tables: &[NumberTable<'_>],
    table: u32,
    determination: u32,
    parts: &mut Vec<Part>,
    count: u64,
) -> Result<u64, AllocError>
    requires table { table < length tables.now }
    requires determination { determination < determination_count tables.now table }
    requires lie { LieFrom tables.now 0 parts.old.items count }
    ensures adds { OnOk result (AddsRows tables.now table determination (demands_in tables.now parts.old.items)
        (demands_in tables.now parts.new.items)) }
    ensures lie { IfOk result (LieFrom tables.now 0 parts.new.items) }
{
    let end = sum(count, row_total(tables, table))?;
    parts.push(Part {
        first: count,
        table,
        determination,
    })?;
    Ok(end)
}

// The columns of a determination as one list.
fn column_list(alloc: Global, columns: &Columns) -> Result<NumberList, AllocError>
    ensures { IfOk result (λ all. all ≡ columns_listed columns.now) }
{
    let left = columns.left.items();
    let mut all = NumberList::new(alloc);
    all.push(short(left.len())?)?;
    append(&mut all, left)?;
    append(&mut all, columns.right.items())?;
    Ok(all)
}

// The same as `add_rows`, but nothing for a determination that repeats one that is there.
fn add_unless_there(
    alloc: Global,
    tables: &[NumberTable<'_>],
    table: u32,
    determination: u32,
    there: &mut Index,
    parts: &mut Vec<Part>,
    count: u64,
) -> Result<u64, AllocError>
    requires table { table < length tables.now }
    requires determination { determination < determination_count tables.now table }
    requires parts { PartsAndIndex tables.now table parts.old.items there.old count }
    ensures adds { OnOk result (AddsRows tables.now table determination (demands_in tables.now parts.old.items)
        (demands_in tables.now parts.new.items)) }
    ensures parts { IfOk result (PartsAndIndex tables.now table parts.new.items there.new) }
{
    let columns = column_list(alloc, columns_of(tables, table, determination))?;
    match there.find(&columns) {
        Some(_) => Ok(count),
        None => {
            let end = add_rows(tables, table, determination, parts, count)?;
            there.set(columns, u64::from(determination))?;
            Ok(end)
        }
    }
}

// What all rows of a table owe, after the demands below `count`. How many demands there are then.
fn add_table(
    alloc: Global,
    tables: &[NumberTable<'_>],
    table: u32,
    parts: &mut Vec<Part>,
    count: u64,
) -> Result<u64, AllocError>
    requires table { table < length tables.now }
    requires lie { LieFrom tables.now 0 parts.old.items count }
    ensures adds { OnOk result (AddsTable tables.now table (demands_in tables.now parts.old.items)
        (demands_in tables.now parts.new.items)) }
    ensures lie { IfOk result (LieFrom tables.now 0 parts.new.items) }
{
    let total = determination_total(tables, table);
    let mut there = Index::with_capacity(alloc, 0)?;
    let mut end = count;
    for d in 0..total {
        let determination = short(d)?;
        end = add_unless_there(alloc, tables, table, determination, &mut there, parts, end)?;
    }
    Ok(end)
}

/// What all rows owe to the determinations of their tables.
///
/// # Errors
///
/// `AllocError` if there is no memory.
pub fn demands_of<'a, 't>(
    alloc: Global,
    tables: &'a [NumberTable<'t>],
) -> Result<Demands<'a, 't>, AllocError>
    requires { ColumnsFit tables.now }
    ensures { IfOk result (DemandsOfRows tables.now) }
{
    let mut parts = Vec::new(alloc);
    let mut count = 0u64;
    for t in 0..tables.len() {
        let table = short(t)?;
        count = add_table(alloc, tables, table, &mut parts, count)?;
    }
    Ok(Demands {
        tables,
        parts,
        count,
    })
}
