// Instances: for each table a width and distinct rows, whose values stand as numbers.
ghost use Rattle.std.specs.Prelude.{◌≡◌, ◌↔◌, ◌<◌, ◌≤◌, ◌-◌, ◌^◌, ℕ, List, length, map, Some, slice_get, slice_index, IsTrue, IfOk, OnErr, IfSome, MatchBool};
ghost use Rattle.std.specs.Bool.{OnTrue};
ghost use Rattle.dx_base.specs.Members.{Distinct, Each, ◌∈◌, ◌≈◌};
ghost use Rattle.dx_model.specs.Values.{FactsAscend, RowsAscend};
ghost use Rattle.dx_instance.specs.Stored.{AddsRow, IsSorting, facts, rows_of, table_at, without_rows};
ghost use Rattle.dx_instance.specs.Images.{AreImages, IsImage, IsImageNumber};
ghost use Rattle.dx_instance.specs.Numbers.{ValuesDiffer, Extends, value_of};
ghost use Rattle.dx_instance.specs.Shown.{NumbersBelow, NumbersFit, PartsFit, NumberRowsFit, Shows, renumbered, shown_row, shown_tables};
ghost use Rattle.dx_instance.specs.Places.{AreFirsts, HasValues, IsFirstWith, row_at, rows_with, value_at};

use crate::cells::Rows;
use crate::fact_order::facts_in_order;
use crate::firsts::first_places;
use crate::gathered::Gathered;
use crate::null_map::NullMap;
use crate::numbers::Numbers;
use crate::sorted::Sorted;
use crate::symbols::Symbols;
use crate::table::Table;
use dx_model::{Fact, Row, Value, copy_value};
use std::alloc::{AllocError, Global};
use std::marker::Model;

/// For each table a width and distinct rows in order of adding. Tables, their rows and their columns are counted from 0.
#[derive(Drop)]
pub struct Instance {
    alloc: Global,
    symbols: Symbols,
    tables: Vec<Table>,
}

impl Model for Instance {
    ghost use Rattle.std.specs.Prelude.{List};
    ghost use Rattle.dx_instance.specs.Stored.{TableRows};
    ghost use Rattle.dx_instance.specs.Shown.{PartsFit, shown_tables};

    ghost Value = { List TableRows };

    ghost view = { λ I. shown_tables I.symbols I.tables.items };

    ghost invariant = { λ I. PartsFit I.symbols I.tables.items };
}

// The number of a value, which goes last in the symbols if it is new.
fn interned(symbols: &mut Symbols, value: &Value) -> Result<u32, AllocError>
    requires apart { ValuesDiffer symbols.old }
    requires few { length symbols.old < 2 ^ 32 }
    ensures within { IfOk result (λ n. n < length symbols.new) }
    ensures number { IfOk result (λ n. value_of symbols.new n ≡ value.now) }
    ensures grows { Extends symbols.old symbols.new }
    ensures apart { ValuesDiffer symbols.new }
    ensures few { length symbols.new < 2 ^ 32 }
{
    if let Some(number) = symbols.find(value) {
        return Ok(number as u32);
    }
    let number = symbols.intern(copy_value(value)?)?;
    Ok(number as u32)
}

// The numbers of values, of which new ones go last in the symbols.
fn interned_all(
    alloc: Global,
    symbols: &mut Symbols,
    values: &[Value],
) -> Result<Vec<u32>, AllocError>
    requires apart { ValuesDiffer symbols.old }
    requires few { length symbols.old < 2 ^ 32 }
    ensures shows { IfOk result (λ numbers. Shows symbols.new numbers.items values.now) }
    ensures grows { Extends symbols.old symbols.new }
    ensures apart { ValuesDiffer symbols.new }
    ensures few { length symbols.new < 2 ^ 32 }
{
    let mut numbers = Vec::with_capacity(alloc, values.len())?;
    for value in values {
        numbers.push(interned(symbols, value)?)?;
    }
    Ok(numbers)
}

// The number of what each value becomes.
fn images_of(
    alloc: Global,
    symbols: &Symbols,
    map: &NullMap,
    into: &mut Symbols,
) -> Result<Vec<u32>, AllocError>
    requires apart { ValuesDiffer into.old }
    requires few { length into.old < 2 ^ 32 }
    ensures images { IfOk result (λ images. AreImages map.now symbols.now into.new images.items (length symbols.now)) }
    ensures apart { ValuesDiffer into.new }
    ensures few { length into.new < 2 ^ 32 }
{
    let mut images = Vec::with_capacity(alloc, symbols.len() as usize)?;
    for number in 0..symbols.len() {
        images.push(interned(into, map.image(symbols.value(number)))?)?;
    }
    Ok(images)
}

// The number of what the value under a number becomes, if it has one. Constants, and nulls that stay, keep theirs.
fn image_number(symbols: &Symbols, map: &NullMap, number: u64) -> Option<u64>
    requires { number < length symbols.now }
    ensures { IfSome result (IsImageNumber map.now symbols.now number) }
{
    match symbols.value(number) {
        Value::Const(_) => Some(number),
        Value::Null(null) => match map.get(null) {
            Some(value) => symbols.find(value),
            None => Some(number),
        },
    }
}

// The number of what each value becomes, if each has one among the same symbols.
fn images_among(
    alloc: Global,
    symbols: &Symbols,
    map: &NullMap,
) -> Result<Option<Vec<u32>>, AllocError>
    ensures { IfOk result (λ o. IfSome o (λ images. AreImages map.now symbols.now symbols.now images.items (length symbols.now))) }
{
    let mut images = Vec::with_capacity(alloc, symbols.len() as usize)?;
    for number in 0..symbols.len() {
        let Some(image) = image_number(symbols, map, number) else {
            return Ok(None);
        };
        images.push(image as u32)?;
    }
    Ok(Some(images))
}

// The rows of tables with other numbers.
fn row_images(alloc: Global, tables: &[Table], images: &[u32]) -> Result<Vec<Rows>, AllocError>
    requires { Each tables.now (NumbersFit (length images.now)) }
    ensures { IfOk result (λ all. all.items ≡ map (renumbered images.now) tables.now) }
{
    let mut all = Vec::with_capacity(alloc, tables.len())?;
    for table in tables {
        all.push(table.renumbered(alloc, images)?)?;
    }
    Ok(all)
}

// The instance with other numbers of the same symbols in place of each number. Rows that still ascend are not sorted.
fn image_by(
    alloc: Global,
    symbols: &Symbols,
    tables: &[Table],
    images: &[u32],
) -> Result<Instance, AllocError>
    requires fit { PartsFit symbols.now tables.now }
    requires long { length images.now ≡ length symbols.now }
    requires within { (n : ℕ) → n < length symbols.now → slice_index images.now n < length symbols.now }
    ensures { IfOk result (IsSorting (shown_tables symbols.now (map (renumbered images.now) tables.now))) }
{
    let rows = row_images(alloc, tables, images)?;
    Instance::from_rows(alloc, symbols.copy(alloc)?, rows)
}

// Copies of the rows of tables.
fn row_copies(alloc: Global, tables: &[Table]) -> Result<Vec<Rows>, AllocError>
    ensures { IfOk result (λ all. all.items ≡ tables.now) }
{
    let mut all = Vec::with_capacity(alloc, tables.len())?;
    for table in tables {
        all.push(table.rows_copy(alloc)?)?;
    }
    Ok(all)
}

// The rows of tables.
fn rows_alone(alloc: Global, tables: Vec<Table>) -> Result<Vec<Rows>, AllocError>
    ensures { IfOk result (λ all. all.items ≡ tables.items) }
{
    let mut all = Vec::with_capacity(alloc, tables.len())?;
    for table in tables {
        all.push(table.into_rows())?;
    }
    Ok(all)
}

impl Instance {
    /// An instance without rows, with a table for each of these widths. Each table has at least one column.
    ///
    /// # Errors
    ///
    /// `AllocError` if there is no memory.
    pub fn new(alloc: Global, widths: Vec<u32>) -> Result<Instance, AllocError>
        requires some { Each widths.items (λ w. 1 ≤ w) }
        requires few { length widths.items < 2 ^ 32 - 1 }
        ensures { IfOk result (λ I. I ≡ without_rows widths.items) }
    {
        let mut tables = Vec::new(alloc);
        for width in widths.as_slice() {
            tables.push(Table::new(alloc, *width))?;
        }
        Ok(Instance {
            alloc,
            symbols: Symbols::new(alloc),
            tables,
        })
    }

    /// One row more, if it is new; a row that is there changes nothing. Answers whether it is new.
    ///
    /// # Errors
    ///
    /// `AllocError` if there is no memory: the instance stays as it was.
    pub fn add(&mut self, table: u32, row: Row) -> Result<bool, AllocError>
        requires table { table < length self.old }
        requires width { length row ≡ (table_at self.old table).width }
        requires room { length (rows_of self.old table) < 2 ^ 32 - 1 }
        ensures is_new { IfOk result (λ b. MatchBool b (¬ (row ∈ rows_of self.old table)) (row ∈ rows_of self.old table)) }
        ensures added { IfOk result (λ b. MatchBool b (AddsRow self.old self.new table row) (self.new ≡ self.old)) }
        ensures err { OnErr result (self.new ≡ self.old) }
    {
        let numbers = interned_all(self.alloc, &mut self.symbols, row.items())?;
        self.tables[table as usize].add(&numbers)
    }

    /// How many tables there are.
    pub fn tables(&self) -> u32
        ensures number { result ≡ length self.now }

        // What holds of every instance.
        ensures widths { Each self.now (λ t. 1 ≤ t.width) }
        ensures rows { Each self.now (λ t. Each t.rows (λ r. length r ≡ t.width)) }
        ensures distinct { Each self.now (λ t. Distinct t.rows) }
        ensures few { Each self.now (λ t. length t.rows < 2 ^ 32) }
    {
        self.tables.len() as u32
    }

    /// The numbers under which the values stand, lent.
    pub fn numbers(&self) -> Numbers<'_>
        ensures shown { shown_tables result.symbols result.tables ≡ self.now }
        ensures fit { PartsFit result.symbols result.tables }
    {
        Numbers::new(&self.symbols, &self.tables)
    }

    /// How many columns the table has.
    pub fn width(&self, table: u32) -> u32
        requires { table < length self.now }
        ensures { result ≡ (table_at self.now table).width }
    {
        self.tables[table as usize].width()
    }

    /// How many rows the table has.
    pub fn count(&self, table: u32) -> u32
        requires { table < length self.now }
        ensures { result ≡ length (rows_of self.now table) }
    {
        self.tables[table as usize].count()
    }

    /// The value in a column of a row, lent.
    pub fn cell(&self, table: u32, place: u32, column: u32) -> &Value
        requires table { table < length self.now }
        requires place { place < length (rows_of self.now table) }
        requires column { column < (table_at self.now table).width }
        ensures { result.now ≡ value_at self.now table place column }
    {
        let number = self.tables[table as usize].row(place)[column as usize];
        self.symbols.value(number as u64)
    }

    // Whether the row at this place has these values in these columns.
    fn has_values(&self, table: u32, columns: &[u32], values: &[Value], place: u32) -> bool
        requires table { table < length self.now }
        requires place { place < length (rows_of self.now table) }
        requires columns { (c : ℕ) → c ∈ columns.now → c < (table_at self.now table).width }
        requires lengths { length columns.now ≡ length values.now }
        ensures { IsTrue result ↔ HasValues self.now table columns.now values.now place }
    {
        columns.iter().zip(values).all(|(column, value)| self.cell(table, place, *column).is(value))
    }

    // The same, row by row.
    fn scan_columns(&self, table: u32, columns: &[u32], values: &[Value], from: u32) -> Option<u32>
        requires table { table < length self.now }
        requires columns { (c : ℕ) → c ∈ columns.now → c < (table_at self.now table).width }
        requires lengths { length columns.now ≡ length values.now }
        ensures { IsFirstWith self.now table columns.now values.now from result }
    {
        (from..self.count(table)).find(|place| self.has_values(table, columns, values, *place))
    }

    /// Makes an index of a column, so that `with_columns` and `count_with` need not go through all rows. Nothing else
    /// changes. It serves until a row is added to the table.
    ///
    /// # Errors
    ///
    /// `AllocError` if there is no memory.
    pub fn index(&mut self, table: u32, column: u32) -> Result<(), AllocError>
        requires table { table < length self.old }
        requires column { column < (table_at self.old table).width }
        ensures { self.new ≡ self.old }
    {
        self.tables[table as usize].index(self.alloc, column)
    }

    /// Which of these columns to go by: the first that has an index, and else the first. It takes no memory.
    pub fn indexed_among(&self, table: u32, columns: &[u32]) -> usize
        requires table { table < length self.now }
        requires some { 0 < length columns.now }
        ensures { result < length columns.now }
    {
        self.tables[table as usize].indexed_among(columns)
    }

    /// The least place from `from` on whose row has these values in these columns. It goes by the first of the columns
    /// that has an index, or else through the rows. It takes no memory.
    pub fn with_columns(
        &self,
        table: u32,
        columns: &[u32],
        values: &[Value],
        from: u32,
    ) -> Option<u32>
        requires table { table < length self.now }
        requires columns { (c : ℕ) → c ∈ columns.now → c < (table_at self.now table).width }
        requires lengths { length columns.now ≡ length values.now }
        ensures { IsFirstWith self.now table columns.now values.now from result }
    {
        if columns.len() == 0 {
            return self.scan_columns(table, columns, values, from);
        }
        let rows = &self.tables[table as usize];
        let at = rows.indexed_among(columns);
        let Some(number) = self.symbols.find(&values[at]) else {
            return None;
        };
        let mut next = from;
        while let Some(place) = rows.next_with(columns[at], number as u32, next) {
            if self.has_values(table, columns, values, place) {
                return Some(place);
            }
            next = place + 1;
        }
        None
    }

    /// For each row of a table the place of the first that has its values in these columns. It goes once through the rows,
    /// whatever stands in them.
    ///
    /// # Errors
    ///
    /// `AllocError` if there is no memory.
    pub fn firsts(&self, table: u32, columns: &[u32]) -> Result<Vec<u32>, AllocError>
        requires table { table < length self.now }
        requires columns { (c : ℕ) → c ∈ columns.now → c < (table_at self.now table).width }
        requires few { length columns.now < 2 ^ 32 }
        ensures { IfOk result (λ places. AreFirsts self.now table columns.now places.items) }
    {
        let rows = &self.tables[table as usize];
        let places = first_places(self.alloc, rows, columns)?;
        Ok(places)
    }

    /// How many rows have this value in this column. It takes no memory.
    pub fn count_with(&self, table: u32, column: u32, value: &Value) -> u32
        requires table { table < length self.now }
        requires column { column < (table_at self.now table).width }
        ensures { result ≡ rows_with self.now table column value.now }
    {
        let Some(number) = self.symbols.find(value) else {
            return 0;
        };
        let rows = &self.tables[table as usize];
        let mut count = 0u32;
        let mut next = 0u32;
        while let Some(place) = rows.next_with(column, number as u32, next) {
            count += 1;
            next = place + 1;
        }
        count
    }

    // Whether the rows of each table are known to ascend.
    fn all_ascend(&self) -> bool
        ensures { OnTrue result ((t : ℕ) → RowsAscend (rows_of self.now t)) }
    {
        (0..self.tables()).all(|table| self.is_ascending(table))
    }

    // The facts: table by table, the rows as they stand.
    fn stored_facts(&self) -> Result<Vec<Fact>, AllocError>
        ensures { IfOk result (λ v. v.items ≡ facts self.now) }
    {
        let mut all = Vec::new(self.alloc);
        for table in 0..self.tables() {
            for place in 0..self.count(table) {
                let row = self.row_copy(table, place)?;
                all.push(Fact { table, row })?;
            }
        }
        Ok(all)
    }

    /// The facts, ascending, each once. They are sorted only if the rows of some table are not known to ascend.
    ///
    /// # Errors
    ///
    /// `AllocError` if there is no memory.
    pub fn facts(&self) -> Result<Vec<Fact>, AllocError>
        ensures ascend { IfOk result (λ v. FactsAscend v.items) }
        ensures same { IfOk result (λ v. v.items ≈ facts self.now) }
    {
        let all = self.stored_facts()?;
        if self.all_ascend() {
            return Ok(all);
        }
        Ok(facts_in_order(all))
    }

    /// A copy of a row.
    ///
    /// # Errors
    ///
    /// `AllocError` if there is no memory.
    pub fn row_copy(&self, table: u32, place: u32) -> Result<Row, AllocError>
        requires table { table < length self.now }
        requires place { place < length (rows_of self.now table) }
        ensures at { IfOk result (λ row. slice_get (rows_of self.now table) place ≡ Some row) }
        ensures row { IfOk result (λ row. row ≡ row_at self.now table place) }
    {
        shown_values(
            self.alloc,
            &self.symbols,
            self.tables[table as usize].row(place),
        )
    }

    // An instance whose symbols are in order, as any.
    fn of_sorted(alloc: Global, sorted: Sorted) -> Instance
        ensures { result ≡ shown_tables sorted.symbols sorted.tables }
    {
        let (symbols, tables) = sorted.into_parts();
        Instance {
            alloc,
            symbols,
            tables,
        }
    }

    /// An instance of these rows of numbers, which `symbols` give their values: the rows of each table ascend, each once.
    ///
    /// # Errors
    ///
    /// `AllocError` if there is no memory.
    pub fn from_rows(
        alloc: Global,
        symbols: Symbols,
        tables: Vec<Rows>,
    ) -> Result<Instance, AllocError>
        requires fit { Each tables.items (NumberRowsFit (length symbols)) }
        requires few { length tables.items < 2 ^ 32 - 1 }
        ensures { IfOk result (IsSorting (shown_tables symbols tables.items)) }
    {
        let sorted = Sorted::from_rows(alloc, symbols, tables)?;
        Ok(Instance::of_sorted(alloc, sorted))
    }

    /// The same of values as they were read.
    ///
    /// # Errors
    ///
    /// `AllocError` if there is no memory.
    pub fn from_gathered(
        alloc: Global,
        values: Gathered,
        tables: Vec<Rows>,
    ) -> Result<Instance, AllocError>
        requires fit { Each tables.items (NumberRowsFit (length values)) }
        requires few { length tables.items < 2 ^ 32 - 1 }
        ensures { IfOk result (IsSorting (shown_tables values tables.items)) }
    {
        let sorted = Sorted::from_gathered(alloc, values, tables)?;
        Ok(Instance::of_sorted(alloc, sorted))
    }

    /// An instance with the same facts, the rows of each table ascending.
    ///
    /// # Errors
    ///
    /// `AllocError` if there is no memory.
    pub fn sorted(&self) -> Result<Instance, AllocError>
        ensures { IfOk result (IsSorting self.now) }
    {
        let symbols = self.symbols.copy(self.alloc)?;
        let tables = row_copies(self.alloc, &self.tables)?;
        Instance::from_rows(self.alloc, symbols, tables)
    }

    /// The same as `sorted`, of an instance that is given away. Nothing is copied.
    ///
    /// # Errors
    ///
    /// `AllocError` if there is no memory.
    pub fn into_sorted(self) -> Result<Instance, AllocError>
        ensures { IfOk result (IsSorting self) }
    {
        let alloc = self.alloc;
        Ok(Instance::of_sorted(alloc, self.into_order()?))
    }

    /// The same with its symbols in order.
    ///
    /// # Errors
    ///
    /// `AllocError` if there is no memory.
    pub fn into_order(self) -> Result<Sorted, AllocError>
        ensures { IfOk result (λ s. IsSorting self (shown_tables s.symbols s.tables)) }
    {
        let Instance {
            alloc,
            symbols,
            tables,
        } = self;
        let tables = rows_alone(alloc, tables)?;
        Sorted::from_rows(alloc, symbols, tables)
    }

    /// Whether the rows of the table are known to ascend. It takes no time.
    pub fn is_ascending(&self, table: u32) -> bool
        requires { table < length self.now }
        ensures { OnTrue result (RowsAscend (rows_of self.now table)) }
    {
        self.symbols.is_ordered() && self.tables[table as usize].is_ascending()
    }

    // The image with symbols of its own.
    fn map_anew(&self, map: &NullMap) -> Result<Instance, AllocError>
        ensures { IfOk result (IsImage map.now self.now) }
    {
        let mut symbols = Symbols::new(self.alloc);
        let images = images_of(self.alloc, &self.symbols, map, &mut symbols)?;
        let tables = row_images(self.alloc, &self.tables, &images)?;
        Instance::from_rows(self.alloc, symbols, tables)
    }

    /// The image under the map. The rows of each table ascend. Mostly what each value becomes stands in the instance already:
    /// then the values are shared with it.
    ///
    /// # Errors
    ///
    /// `AllocError` if there is no memory.
    pub fn map_by(&self, map: &NullMap) -> Result<Instance, AllocError>
        ensures { IfOk result (IsImage map.now self.now) }
    {
        let found = images_among(self.alloc, &self.symbols, map)?;
        let Some(images) = found else {
            return self.map_anew(map);
        };
        image_by(self.alloc, &self.symbols, &self.tables, &images)
    }

    /// Whether the row is in the table. It takes no memory.
    pub fn contains(&self, table: u32, row: &Row) -> bool
        requires { table < length self.now }
        ensures { IsTrue result ↔ (row.now ∈ rows_of self.now table) }
    {
        let values = row.items();
        if values.len() > 64 {
            return self.scan(table, values);
        }
        let mut buffer = [0u32; 64];
        let numbers = &mut buffer[..values.len()];
        if !find_all(&self.symbols, values, numbers) {
            return false;
        }
        self.tables[table as usize].find(numbers).is_some()
    }

    // Whether the row is in the table, row by row.
    fn scan(&self, table: u32, values: &[Value]) -> bool
        requires { table < length self.now }
        ensures { IsTrue result ↔ (values.now ∈ rows_of self.now table) }
    {
        for place in 0..self.count(table) {
            if shows(
                &self.symbols,
                self.tables[table as usize].row(place),
                values,
            ) {
                return true;
            }
        }
        false
    }
}

// The numbers of values, if each has one.
fn find_all(symbols: &Symbols, values: &[Value], numbers: &mut [u32]) -> bool
    requires few { length symbols.now < 2 ^ 32 }
    requires lengths { length values.now ≡ length numbers.old }
    ensures { MatchBool result (Shows symbols.now numbers.new values.now) ((ns : List ℕ) → ¬ (Shows symbols.now ns values.now)) }
{
    for i in 0..values.len() {
        let Some(number) = symbols.find(&values[i]) else {
            return false;
        };
        numbers[i] = number as u32;
    }
    true
}

// Whether the numbers show these values.
fn shows(symbols: &Symbols, numbers: &[u32], values: &[Value]) -> bool
    requires { NumbersBelow (length symbols.now) numbers.now }
    ensures { IsTrue result ↔ (shown_row symbols.now numbers.now ≡ values.now) }
{
    if numbers.len() != values.len() {
        return false;
    }
    for i in 0..numbers.len() {
        if !symbols.value(numbers[i] as u64).is(&values[i]) {
            return false;
        }
    }
    true
}

// A row of the values that the numbers show.
fn shown_values(alloc: Global, symbols: &Symbols, numbers: &[u32]) -> Result<Row, AllocError>
    requires { NumbersBelow (length symbols.now) numbers.now }
    ensures { IfOk result (λ row. row ≡ shown_row symbols.now numbers.now) }
{
    let mut row = Row::new(alloc);
    for number in numbers {
        row.push(copy_value(symbols.value(*number as u64))?)?;
    }
    Ok(row)
}
