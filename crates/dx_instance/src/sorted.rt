// Instances whose symbols are in order.
ghost use Rattle.std.specs.Prelude.{◌≡◌, ◌<◌, ◌-◌, ◌^◌, ℕ, IfOk, OnOk, length, map, slice_index};
ghost use Rattle.std.specs.List.{AllZip};
ghost use Rattle.dx_base.specs.Members.{Each};
ghost use Rattle.dx_instance.specs.Stored.{IsSorting};
ghost use Rattle.dx_instance.specs.Cells.{IsPut};
ghost use Rattle.dx_instance.specs.Numbers.{ValuesAscend};
ghost use Rattle.dx_instance.specs.Shown.{NumberRowsFit, PartsFit, numbers_of_table, renumbered, shown_tables};

use crate::cells::Rows;
use crate::gathered::Gathered;
use crate::numbers::Numbers;
use crate::ordering::Ordered;
use crate::symbols::Symbols;
use crate::table::Table;
use std::alloc::{AllocError, Global};
use std::marker::Model;

/// An instance whose symbols are in order, so that numbers compare as their values. A contract sees its symbols and its
/// tables of numbers.
#[derive(Drop)]
pub struct Sorted {
    symbols: Symbols,
    tables: Vec<Table>,
}

impl Model for Sorted {
    ghost use Rattle.dx_instance.specs.Numbers.{ValuesAscend};
    ghost use Rattle.dx_instance.specs.Shown.{NumberedInstance, PartsFit};

    ghost Value = { NumberedInstance };

    ghost view = { λ s. record { symbols = s.symbols; tables = s.tables.items } };

    ghost invariant = { λ s. PartsFit s.symbols s.tables.items × ValuesAscend s.symbols };
}

// Tables of rows, which are put in order.
fn put_all(alloc: Global, tables: Vec<Rows>) -> Result<Vec<Table>, AllocError>
    ensures { IfOk result (λ all. AllZip IsPut tables.items all.items) }
{
    let mut all = Vec::with_capacity(alloc, tables.len())?;
    for rows in tables {
        all.push(Table::from_rows(alloc, rows)?)?;
    }
    Ok(all)
}

// An instance of rows whose symbols are in order.
fn of_ordered(alloc: Global, symbols: Symbols, tables: Vec<Rows>) -> Result<Sorted, AllocError>
    requires ascend { ValuesAscend symbols }
    requires fit { Each tables.items (NumberRowsFit (length symbols)) }
    requires few { length tables.items < 2 ^ 32 - 1 }
    ensures { IfOk result (λ s. IsSorting (shown_tables symbols tables.items) (shown_tables s.symbols s.tables)) }
{
    prove!(symbols.len() < 4_294_967_296);
    let tables = put_all(alloc, tables)?;
    Ok(Sorted { symbols, tables })
}

// The rows with other numbers.
fn all_renumbered(alloc: Global, tables: Vec<Rows>, ranks: &[u32]) -> Result<Vec<Rows>, AllocError>
    requires { Each tables.items (NumberRowsFit (length ranks.now)) }
    ensures { IfOk result (λ all. all.items ≡ map (renumbered ranks.now) tables.items) }
{
    let mut all = Vec::with_capacity(alloc, tables.len())?;
    for rows in tables {
        all.push(rows.into_renumbered(ranks))?;
    }
    Ok(all)
}

// An instance of rows with ranks in place of their numbers.
fn of_ranks(alloc: Global, ordered: Ordered, tables: Vec<Rows>) -> Result<Sorted, AllocError>
    requires ascend { ValuesAscend ordered.symbols }
    requires within { (n : ℕ) → n < length ordered.ranks.items → slice_index ordered.ranks.items n < length ordered.symbols }
    requires fit { Each tables.items (NumberRowsFit (length ordered.ranks.items)) }
    requires few { length tables.items < 2 ^ 32 - 1 }
    ensures { IfOk result (λ s. IsSorting (shown_tables ordered.symbols (map (renumbered ordered.ranks.items) tables.items)) (shown_tables s.symbols s.tables)) }
{
    let Ordered { symbols, ranks } = ordered;
    let ranked = all_renumbered(alloc, tables, &ranks)?;
    of_ordered(alloc, symbols, ranked)
}

impl Sorted {
    /// An instance of these rows of numbers, which `symbols` give their values: the rows of each table ascend, each once.
    ///
    /// # Errors
    ///
    /// `AllocError` if there is no memory.
    pub(crate) fn from_rows(
        alloc: Global,
        symbols: Symbols,
        tables: Vec<Rows>,
    ) -> Result<Sorted, AllocError>
        requires fit { Each tables.items (NumberRowsFit (length symbols)) }
        requires few { length tables.items < 2 ^ 32 - 1 }
        ensures { IfOk result (λ s. IsSorting (shown_tables symbols tables.items) (shown_tables s.symbols s.tables)) }
    {
        if symbols.is_ordered() {
            return of_ordered(alloc, symbols, tables);
        }
        of_ranks(alloc, symbols.into_order(alloc)?, tables)
    }

    /// The same of values as they were read.
    ///
    /// # Errors
    ///
    /// `AllocError` if there is no memory.
    pub(crate) fn from_gathered(
        alloc: Global,
        values: Gathered,
        tables: Vec<Rows>,
    ) -> Result<Sorted, AllocError>
        requires fit { Each tables.items (NumberRowsFit (length values)) }
        requires few { length tables.items < 2 ^ 32 - 1 }
        ensures { IfOk result (λ s. IsSorting (shown_tables values tables.items) (shown_tables s.symbols s.tables)) }
    {
        of_ranks(alloc, values.into_order(alloc)?, tables)
    }

    /// The symbols and the tables.
    pub(crate) fn into_parts(self) -> (Symbols, Vec<Table>)
        ensures symbols { result.0 ≡ self.symbols }
        ensures tables { result.1.items ≡ self.tables }
        ensures fit { PartsFit self.symbols self.tables }
    {
        let Sorted { symbols, tables } = self;
        (symbols, tables)
    }

    // How many columns the table has.
    fn width(&self, table: usize) -> u32
        requires { table < length self.now.tables }
        ensures { result ≡ (numbers_of_table self.now.tables table).width }
    {
        self.tables[table].width()
    }

    // Makes an index of a column.
    fn index(&mut self, alloc: Global, table: usize, column: u32) -> Result<(), AllocError>
        requires table { table < length self.old.tables }
        requires column { column < (numbers_of_table self.old.tables table).width }
        ensures { self.new ≡ self.old }
    {
        self.tables[table].index(alloc, column)
    }

    /// Makes an index of each column, so that rows with a number in it are found at once. Nothing else changes.
    ///
    /// # Errors
    ///
    /// `AllocError` if there is no memory.
    pub fn index_all(&mut self, alloc: Global) -> Result<(), AllocError>
        ensures { OnOk result (self.new ≡ self.old) }
    {
        for table in 0..self.tables.len() {
            for column in 0..self.width(table) {
                self.index(alloc, table, column)?;
            }
        }
        Ok(())
    }

    /// The numbers under which the values stand, lent.
    pub fn numbers(&self) -> Numbers<'_>
        ensures symbols { result.symbols ≡ self.now.symbols }
        ensures tables { result.tables ≡ self.now.tables }
        ensures ascend { ValuesAscend self.now.symbols }
        ensures fit { PartsFit self.now.symbols self.now.tables }
    {
        Numbers::new(&self.symbols, &self.tables)
    }
}
