// A table of numbers: its first rows ascend and are found by binary search, those after them by their keys.
ghost use Rattle.std.specs.Prelude.{◌≡◌, ◌≤◌, ◌<◌, ◌-◌, ◌^◌, [], IfOk, IfSome, OnErr, MatchBool, length, map, take, drop};
ghost use Rattle.std.specs.Bool.{OnTrue};
ghost use Rattle.dx_base.specs.Members.{Each, ◌∈◌};
ghost use Rattle.dx_instance.specs.Shown.{NumbersBelow, renumbered};
ghost use Rattle.dx_instance.specs.Cells.{IsPlaceOf, IsPut, NumbersAscend, row_key, numbers_at, with_numbers};
ghost use Rattle.dx_instance.specs.Chains.{AreChains};
ghost use Rattle.dx_instance.specs.Indexes.{IsNextWithNumber};

use crate::cells::Rows;
use crate::chains::Chains;
use crate::column_index::ColumnIndex;
use std::alloc::{AllocError, Global};
use std::cmp::Ordering;
use std::marker::Model;

/// Rows of numbers. A contract sees their width and their list.
#[derive(Drop)]
pub struct Table {
    sorted: u32,
    rows: Rows,
    chains: Chains,
    indexes: Vec<ColumnIndex>,
}

impl Model for Table {
    ghost use Rattle.dx_instance.specs.Cells.{NumberTable};
    ghost use Rattle.dx_instance.specs.Chains.{TableParts};

    ghost Value = { NumberTable };

    ghost view = { λ t. t.rows };

    ghost invariant = { λ t. TableParts t.sorted t.rows.rows t.chains t.indexes.items };
}

// The number by which a row is looked up.
fn row_key(row: &[u32]) -> u64
    ensures { result ≡ row_key row.now }
{
    let mut key = 7u64;
    for number in row {
        key = key
            .wrapping_mul(0x9E37_79B9_7F4A_7C15)
            .wrapping_add(*number as u64);
    }
    key
}

// The place of a row among the first, which ascend.
fn find_sorted(rows: &Rows, sorted: u32, row: &[u32]) -> Option<u32>
    requires some { sorted ≤ length rows.now.rows }
    requires ascend { NumbersAscend (take sorted rows.now.rows) }
    ensures { IsPlaceOf (take sorted rows.now.rows) rows.now.rows row.now result }
{
    let mut low = 0u32;
    let mut high = sorted;
    while low < high {
        let middle = low + (high - low) / 2;
        match rows.row(middle).cmp(&row) {
            Ordering::Less => low = middle + 1,
            Ordering::Greater => high = middle,
            Ordering::Equal => return Some(middle),
        }
    }
    None
}

// The place of a row among those after them.
fn find_later(rows: &Rows, sorted: u32, chains: &Chains, row: &[u32]) -> Option<u32>
    requires some { sorted ≤ length rows.now.rows }
    requires few { length rows.now.rows < 2 ^ 32 }
    requires chained { AreChains chains.now (map row_key (drop sorted rows.now.rows)) }
    ensures { IsPlaceOf (drop sorted rows.now.rows) rows.now.rows row.now result }
{
    let mut code = chains.last(row_key(row));
    while code != 0 {
        let place = sorted + (code - 1);
        if rows.row(place) == row {
            return Some(place);
        }
        code = chains.earlier(code - 1);
    }
    None
}

// The index of a column, if there is one.
fn index_of(indexes: &[ColumnIndex], column: u32) -> Option<&ColumnIndex>
    ensures { IfSome result (λ x. (x.now ∈ indexes.now) × (x.now.column ≡ column)) }
{
    indexes.iter().find(|index| index.column == column)
}

// The least place from `from` on whose row has the number in the column, row by row.
fn next_in(rows: &Rows, column: u32, number: u32, from: u32) -> Option<u32>
    requires { column < rows.now.width }
    ensures { IsNextWithNumber rows.now.rows column number from result }
{
    (from..rows.count()).find(|place| rows.row(*place)[column as usize] == number)
}

impl Table {
    /// A table without rows.
    pub fn new(alloc: Global, width: u32) -> Table
        ensures { result ≡ record { width = width; rows = [] } }
    {
        Table {
            sorted: 0,
            rows: Rows::new(alloc, width),
            chains: Chains::new(alloc),
            indexes: Vec::new(alloc),
        }
    }

    /// A table of these rows, which ascend.
    pub fn from_sorted(alloc: Global, rows: Rows) -> Table
        requires ascend { NumbersAscend rows.rows }
        ensures { result ≡ rows }
    {
        Table {
            sorted: rows.count(),
            rows,
            chains: Chains::new(alloc),
            indexes: Vec::new(alloc),
        }
    }

    pub fn width(&self) -> u32
        ensures { result ≡ self.now.width }
    {
        self.rows.width()
    }

    pub fn count(&self) -> u32
        ensures { result ≡ length self.now.rows }
    {
        self.rows.count()
    }

    /// The numbers of a row, lent.
    pub fn row(&self, place: u32) -> &[u32]
        requires { place < length self.now.rows }
        ensures row { result.now ≡ numbers_at self.now.rows place }
        ensures width { length result.now ≡ self.now.width }
    {
        self.rows.row(place)
    }

    /// The place of a row, if it is there.
    pub fn find(&self, row: &[u32]) -> Option<u32>
        ensures { IsPlaceOf self.now.rows self.now.rows row.now result }
    {
        if let Some(place) = find_sorted(&self.rows, self.sorted, row) {
            return Some(place);
        }
        find_later(&self.rows, self.sorted, &self.chains, row)
    }

    /// One row more, if it is new. Answers whether it is new.
    pub fn add(&mut self, row: &[u32]) -> Result<bool, AllocError>
        requires width { length row.now ≡ self.old.width }
        requires room { length self.old.rows < 2 ^ 32 - 1 }
        ensures is_new { IfOk result (λ b. MatchBool b (¬ (row.now ∈ self.old.rows)) (row.now ∈ self.old.rows)) }
        ensures added { IfOk result (λ b. MatchBool b (self.new ≡ with_numbers self.old row.now) (self.new ≡ self.old)) }
        ensures err { OnErr result (self.new ≡ self.old) }
    {
        if let Some(_) = self.find(row) {
            return Ok(false);
        }
        self.indexes.clear();
        self.rows.push_keyed(row, &mut self.chains, row_key(row))?;
        Ok(true)
    }

    /// The table of these rows: they are put in order, each once.
    ///
    /// # Errors
    ///
    /// `AllocError` if there is no memory.
    pub fn from_rows(alloc: Global, rows: Rows) -> Result<Table, AllocError>
        ensures { IfOk result (IsPut rows) }
    {
        let rows = rows.into_order(alloc)?;
        prove!((rows.count() as u64) < 4_294_967_296);
        Ok(Table::from_sorted(alloc, rows))
    }

    /// The rows alone.
    pub fn into_rows(self) -> Rows
        ensures { result ≡ self }
    {
        self.rows
    }

    /// A copy of the rows.
    ///
    /// # Errors
    ///
    /// `AllocError` if there is no memory.
    pub fn rows_copy(&self, alloc: Global) -> Result<Rows, AllocError>
        ensures { IfOk result (λ r. r ≡ self.now) }
    {
        self.rows.copy(alloc)
    }

    /// The rows with other numbers: `images` has one for each number.
    ///
    /// # Errors
    ///
    /// `AllocError` if there is no memory.
    pub fn renumbered(&self, alloc: Global, images: &[u32]) -> Result<Rows, AllocError>
        requires { Each self.now.rows (NumbersBelow (length images.now)) }
        ensures { IfOk result (λ r. r ≡ renumbered images.now self.now) }
    {
        self.rows.renumbered(alloc, images)
    }

    /// Whether the rows are known to ascend.
    pub fn is_ascending(&self) -> bool
        ensures { OnTrue result (NumbersAscend self.now.rows) }
    {
        self.sorted == self.rows.count()
    }

    /// Makes an index of a column, if there is none. Nothing else changes.
    ///
    /// # Errors
    ///
    /// `AllocError` if there is no memory.
    pub fn index(&mut self, alloc: Global, column: u32) -> Result<(), AllocError>
        requires { column < self.old.width }
        ensures { self.new ≡ self.old }
    {
        if index_of(&self.indexes, column).is_none() {
            let index = ColumnIndex::new(alloc, &self.rows, column)?;
            self.indexes.push(index)?;
        }
        Ok(())
    }

    /// Whether the column has an index.
    pub fn has_index(&self, column: u32) -> bool {
        index_of(&self.indexes, column).is_some()
    }

    /// The place of the first of these columns that has an index, and else 0.
    pub fn indexed_among(&self, columns: &[u32]) -> usize
        requires { 0 < length columns.now }
        ensures { result < length columns.now }
    {
        for i in 0..columns.len() {
            if index_of(&self.indexes, columns[i]).is_some() {
                return i;
            }
        }
        0
    }

    /// The least place from `from` on whose row has the number in the column.
    pub fn next_with(&self, column: u32, number: u32, from: u32) -> Option<u32>
        requires { column < self.now.width }
        ensures { IsNextWithNumber self.now.rows column number from result }
    {
        match index_of(&self.indexes, column) {
            Some(index) => index.next(number, from),
            None => next_in(&self.rows, column, number, from),
        }
    }
}
