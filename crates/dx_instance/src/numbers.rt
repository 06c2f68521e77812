// An instance seen as tables of numbers.
ghost use Rattle.std.specs.Prelude.{◌≡◌, ◌<◌, ◌≤◌, ℕ, IfOk, length};
ghost use Rattle.std.specs.Bool.{OnTrue};
ghost use Rattle.dx_instance.specs.Cells.{IsPlaceOf, numbers_at};
ghost use Rattle.dx_instance.specs.Indexes.{IsNextWithNumber};
ghost use Rattle.dx_instance.specs.Numbers.{IsConstant, IsNumberOf, IsSomeNull, ValuesAscend, value_of};
ghost use Rattle.dx_instance.specs.Shown.{NumbersBelow, PartsFit, numbers_of_table};

use crate::symbols::Symbols;
use crate::table::Table;
use dx_model::Value;
use std::alloc::{AllocError, Global};
use std::marker::Model;

/// The numbers of an instance, lent: its symbols, and for each table its rows of numbers. Two numbers are equal if and
/// only if their values are.
#[derive(Drop)]
pub struct Numbers<'a> {
    symbols: &'a Symbols,
    tables: &'a [Table],
}

impl<'a> Model for Numbers<'a> {
    ghost use Rattle.dx_instance.specs.Shown.{NumberedInstance, PartsFit};

    ghost Value = { NumberedInstance };

    ghost view = { λ n. record { symbols = n.symbols.now; tables = n.tables.now } };

    ghost invariant = { λ n. PartsFit n.symbols.now n.tables.now };
}

impl<'a> Numbers<'a> {
    pub(crate) fn new(symbols: &'a Symbols, tables: &'a [Table]) -> Numbers<'a>
        requires { PartsFit symbols.now tables.now }
        ensures symbols { result.symbols ≡ symbols.now }
        ensures tables { result.tables ≡ tables.now }
    {
        Numbers { symbols, tables }
    }

    /// How many symbols there are.
    pub fn len(&self) -> u32
        ensures len { result ≡ length self.now.symbols }

        // What holds of all numbers.
        ensures fit { PartsFit self.now.symbols self.now.tables }
    {
        self.symbols.len() as u32
    }

    /// Whether the symbols are known to be in order. Then numbers compare as their values.
    pub fn is_ordered(&self) -> bool
        ensures { OnTrue result (ValuesAscend self.now.symbols) }
    {
        self.symbols.is_ordered()
    }

    /// The value under a number, lent.
    pub fn value(&self, number: u32) -> &'a Value
        requires { number < length self.now.symbols }
        ensures { result.now ≡ value_of self.now.symbols number }
    {
        let symbols = self.symbols;
        symbols.value(number as u64)
    }

    /// The number of a value, if it has one.
    pub fn find(&self, value: &Value) -> Option<u32>
        ensures { IsNumberOf self.now.symbols value.now result }
    {
        match self.symbols.find(value) {
            Some(number) => Some(number as u32),
            None => None,
        }
    }

    /// If the symbols are in order, the number of the first null: all smaller numbers are those of constants, and it and all
    /// greater ones those of nulls. If there are no nulls, how many symbols there are.
    pub fn first_null(&self) -> u32
        ensures within { result ≤ length self.now.symbols }
        ensures constants { ValuesAscend self.now.symbols → (n : ℕ) → n < result → IsConstant (value_of self.now.symbols n) }
        ensures nulls { ValuesAscend self.now.symbols → (n : ℕ) → result ≤ n → n < length self.now.symbols
            → IsSomeNull (value_of self.now.symbols n) }
    {
        self.symbols.first_null() as u32
    }

    /// How many tables there are.
    pub fn tables(&self) -> u32
        ensures { result ≡ length self.now.tables }
    {
        self.tables.len() as u32
    }

    /// How many columns the table has.
    pub fn width(&self, table: u32) -> u32
        requires { table < length self.now.tables }
        ensures { result ≡ (numbers_of_table self.now.tables table).width }
    {
        self.tables[table as usize].width()
    }

    /// How many rows the table has.
    pub fn count(&self, table: u32) -> u32
        requires { table < length self.now.tables }
        ensures { result ≡ length (numbers_of_table self.now.tables table).rows }
    {
        self.tables[table as usize].count()
    }

    /// The numbers of a row, lent.
    pub fn row(&self, table: u32, place: u32) -> &'a [u32]
        requires table { table < length self.now.tables }
        requires place { place < length (numbers_of_table self.now.tables table).rows }
        ensures row { result.now ≡ numbers_at (numbers_of_table self.now.tables table).rows place }
        ensures width { length result.now ≡ (numbers_of_table self.now.tables table).width }
        ensures below { NumbersBelow (length self.now.symbols) result.now }
    {
        let tables = self.tables;
        tables[table as usize].row(place)
    }

    /// The place of a row, if it is there.
    pub fn find_row(&self, table: u32, row: &[u32]) -> Option<u32>
        requires { table < length self.now.tables }
        ensures { IsPlaceOf (numbers_of_table self.now.tables table).rows (numbers_of_table self.now.tables table).rows row.now result }
    {
        self.tables[table as usize].find(row)
    }

    /// Whether the column has an index, so that `next_with` need not go through the rows.
    pub fn has_index(&self, table: u32, column: u32) -> bool
        requires { table < length self.now.tables }
    {
        self.tables[table as usize].has_index(column)
    }

    /// The least place from `from` on whose row has this number in this column. It goes by the index of the column, if it
    /// has one, or else through the rows. It takes no memory.
    pub fn next_with(&self, table: u32, column: u32, number: u32, from: u32) -> Option<u32>
        requires table { table < length self.now.tables }
        requires column { column < (numbers_of_table self.now.tables table).width }
        ensures { IsNextWithNumber (numbers_of_table self.now.tables table).rows column number from result }
    {
        self.tables[table as usize].next_with(column, number, from)
    }

    /// A copy of the symbols.
    ///
    /// # Errors
    ///
    /// `AllocError` if there is no memory.
    pub fn copy_symbols(&self, alloc: Global) -> Result<Symbols, AllocError>
        ensures { IfOk result (λ s. s ≡ self.now.symbols) }
    {
        self.symbols.copy(alloc)
    }
}
