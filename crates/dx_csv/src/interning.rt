// The fields of a table as rows of numbers.
ghost use Rattle.std.specs.Prelude.{◌≡◌, ◌*◌, ◌+◌, ◌<◌, ◌^◌, ◌-◌, IfOk, IfErr, OnOk, length, map};
ghost use Rattle.dx_base.specs.Members.{Each};
ghost use Rattle.dx_model.specs.declared.values.Value.TheVariants.{Const};
ghost use Rattle.dx_instance.specs.Numbers.{Extends, value_of};
ghost use Rattle.dx_instance.specs.Shown.{NumbersBelow, shown_row};
ghost use Rattle.dx_csv.specs.Blanks.{NumbersOfTexts, ColumnsSettled, HasBlank, IsTableUsed, OthersStay, constants_used, is_used};
ghost use Rattle.dx_csv.specs.Fields.{records_in};
ghost use Rattle.dx_csv.specs.Table.{HasTableFault, table_records};

use crate::fault::RowFault;
use crate::fields::Texts;
use crate::load::read_fields;
use crate::repeats::Repeats;
use dx_base::Text;
use dx_instance::{Gathered, Rows};
use dx_model::Value;
use std::alloc::{AllocError, Global};

// Whether a column is used.
fn is_used(used: &[bool], column: u32) -> bool
    ensures { result ≡ is_used used.now column }
{
    match used.get(column as usize) {
        Some(mark) => *mark,
        None => true,
    }
}

// The number of the empty constant, if some column is not used.
fn intern_blank(alloc: Global, used: &[bool], symbols: &mut Gathered) -> Result<u32, AllocError>
    ensures blank { IfOk result (HasBlank used.now symbols.new) }
    ensures grows { Extends symbols.old symbols.new }
{
    if used.contains(&false) {
        let number = symbols.put(Value::Const(Text::from_str(alloc, "")?))?;
        return Ok(number as u32);
    }
    Ok(0)
}

// A number for the constant of a text: one that it has, if it is looked for and remembered, and else a new one.
fn number_for(text: Text, looks: bool, symbols: &mut Gathered) -> Result<u32, AllocError>
    ensures within { IfOk result (λ n. n < length symbols.new) }
    ensures number { IfOk result (λ n. value_of symbols.new n ≡ Const text) }
    ensures grows { Extends symbols.old symbols.new }
{
    let value = Value::Const(text);
    if looks {
        return Ok(symbols.put(value)? as u32);
    }
    Ok(symbols.push(value)? as u32)
}

// The texts of a table: so many records, each of so many texts.
#[derive(Drop)]
struct Grid<'a> {
    texts: &'a Texts,
    width: u32,
    count: u32,
    ghost whole: { length texts.now ≡ count * width },
}

impl<'a> Grid<'a> {
    // Puts numbers of a column's texts into its cells. Texts that come often are looked for.
    fn intern_column(
        &self,
        column: u32,
        symbols: &mut Gathered,
        cells: &mut Vec<u32>,
    ) -> Result<(), AllocError>
        requires column { column < self.now.width }
        requires cells { length cells.old.items ≡ self.now.count * self.now.width }
        ensures size { length cells.new.items ≡ length cells.old.items }
        ensures numbered { OnOk result
            (NumbersOfTexts symbols.new self.now.texts.now self.now.width column cells.new.items self.now.count) }
        ensures others { OnOk result (OthersStay self.now.width column cells.old.items cells.new.items) }
        ensures grows { Extends symbols.old symbols.new }
    {
        let mut repeats = Repeats::new();
        for row in 0..self.count as usize {
            let place = row * self.width as usize + column as usize;
            let before = symbols.len();
            let text = self.texts.at(place)?;
            let looks = repeats.are_likely(row, &text);
            let number = number_for(text, looks, symbols)?;
            repeats.note(u64::from(number) < before);
            cells[place] = number;
        }
        Ok(())
    }

    // The same, unless the column is not used: its cells stay.
    fn settle_column(
        &self,
        used: &[bool],
        column: u32,
        symbols: &mut Gathered,
        cells: &mut Vec<u32>,
    ) -> Result<(), AllocError>
        requires column { column < self.now.width }
        requires cells { length cells.old.items ≡ self.now.count * self.now.width }
        requires settled { ColumnsSettled used.now symbols.old self.now.texts.now self.now.width self.now.count cells.old.items (column + 1) }
        ensures size { length cells.new.items ≡ length cells.old.items }
        ensures settled { OnOk result
            (ColumnsSettled used.now symbols.new self.now.texts.now self.now.width self.now.count cells.new.items column) }
        ensures grows { Extends symbols.old symbols.new }
    {
        if !is_used(used, column) {
            return Ok(());
        }
        self.intern_column(column, symbols, cells)
    }

    // The rows of the records. Their numbers are found column by column, from the last one on: the first columns are mostly
    // those whose values are all different, and come when those of the others are remembered.
    fn rows(&self, alloc: Global, used: &[bool], symbols: &mut Gathered) -> Result<Rows, AllocError>
        ensures shown { IfOk result (λ rows. map (shown_row symbols.new) rows.rows ≡ map (constants_used used.now)
            (records_in self.now.count self.now.width self.now.texts.now)) }
        ensures below { IfOk result (λ rows. Each rows.rows (NumbersBelow (length symbols.new))) }
        ensures width { IfOk result (λ rows. rows.width ≡ self.now.width) }
        ensures grows { Extends symbols.old symbols.new }
    {
        let blank = intern_blank(alloc, used, symbols)?;
        let mut cells = vec![in alloc; blank; self.texts.len()]?;
        for settled in 0..self.width {
            let column = self.width - 1 - settled;
            self.settle_column(used, column, symbols, &mut cells)?;
        }
        Ok(Rows::of_cells(self.width, self.count, cells))
    }
}

/// Reads the rows of a table as `load_table` does, with the same faults, and gives each constant a number: those that
/// are new go last among the symbols, and all others keep their numbers. The constants of a table share one buffer.
///
/// The marks say which columns are used; a column without a mark is. Of a constant in another column nothing is kept: it
/// has the number of the empty one.
///
/// # Errors
///
/// `Bad` with the fault of the first record at fault. `Memory` if there is no memory, the table has 2^32 bytes or rows or
/// more, or no number is left. Constants of the table may be among the symbols then.
pub fn load_into(
    alloc: Global,
    bytes: &[u8],
    columns: &[Text],
    used: &[bool],
    symbols: &mut Gathered,
) -> Result<Rows, RowFault>
    requires { length columns.now < 2 ^ 32 - 1 }
    ensures rows { IfOk result (λ rows. IsTableUsed used.now (table_records bytes.now) columns.now
        (map (shown_row symbols.new) rows.rows)) }
    ensures width { IfOk result (λ rows. rows.width ≡ length columns.now) }
    ensures below { IfOk result (λ rows. Each rows.rows (NumbersBelow (length symbols.new))) }
    ensures fault { IfErr result (HasTableFault (table_records bytes.now) columns.now) }
    ensures grows { Extends symbols.old symbols.new }
{
    let read = read_fields(alloc, bytes, columns)?;
    let grid = Grid {
        texts: &read.0,
        width: columns.len() as u32,
        count: read.1,
    };
    let rows = grid.rows(alloc, used, symbols)?;
    Ok(rows)
}
