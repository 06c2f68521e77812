// Values and their texts, and rows out of lines.
ghost use Rattle.std.specs.Prelude.{◌≡◌, IfOk};
ghost use Rattle.dx_schema.specs.Tables.{schema_widths};
ghost use Rattle.dx_instance.specs.Stored.{widths};

use dx_base::Text;
use dx_instance::{
    Gathered, Instance, Ordered, Row, Symbols, Value, copy_value, value_read, value_text,
};
use dx_schema::Schema;
use std::alloc::{AllocError, Global};

/// Texts with the values as which they are read, and the texts of these.
pub const VALUES: &str = "?0.10.4294967295
=> Null(NullId { rule: 0, var: 10, row: 4294967295 }) ?0.10.4294967295

??0.0.0
=> Const(\"?0.0.0\") ??0.0.0


=> Const(\"\") 

?0.0.0
=> Null(NullId { rule: 0, var: 0, row: 0 }) ?0.0.0

a?
=> Const(\"a?\") a?

?
=> none

?0.0
=> none

?0.0.00
=> none

?0.0.4294967296
=> none";

/// Values as they are read, with `|` between them; then the rank of each, and the distinct values in order.
pub const GATHERED: &str = "b|a|b|?0.0.0|a|aa|longer than eight|longer than eight|b
=> 2 0 2 4 0 1 3 3 2 = a|aa|b|longer than eight|?0.0.0|

a\0|a|a\0\0|a\0
=> 1 0 2 1 = a|a\0|a\0\0|

12345678|123456789|12345678|1234567|12345678\0|123456789
=> 1 3 1 0 2 3 = 1234567|12345678|12345678\0|123456789|

one text of many|one text of more|one text of many|one text of man
=> 1 2 1 0 = one text of man|one text of many|one text of more|

?0.0.1|?0.0.0|?0.0.1
=> 1 0 1 = ?0.0.0|?0.0.1|";

/// The values of texts with `|` between them, each second one taken as new, and the number of each.
fn gathered(alloc: Global, cells: &str) -> Result<(Gathered, Vec<u64>), AllocError> {
    let mut values = Gathered::new(alloc);
    let mut numbers = Vec::new(alloc);
    for (place, cell) in cells.split('|').enumerate() {
        if let Some(value) = value_read(alloc, &Text::from_str(alloc, cell)?)? {
            if place % 2 == 0 {
                numbers.push(values.put(value)?)?;
            } else {
                numbers.push(values.push(value)?)?;
            }
        }
    }
    Ok((values, numbers))
}

/// The texts of symbols, each with `|` after it.
fn texts(alloc: Global, symbols: &Symbols) -> Result<String, AllocError> {
    let mut told = String::new(alloc);
    for number in 0..symbols.len() {
        told.push_str(value_text(alloc, symbols.value(number))?.as_str())?;
        told.push_str("|")?;
    }
    Ok(told)
}

/// The ranks of values that are put in order, and the values.
pub fn ranked(alloc: Global, cells: &str) -> Result<String, AllocError> {
    let (values, numbers) = gathered(alloc, cells)?;
    let Ordered { symbols, ranks } = values.into_order(alloc)?;
    let mut told = String::new(alloc);
    for number in &numbers {
        if let Some(rank) = ranks.get(*number as usize) {
            told.push_str(format!(in alloc; "{rank} ")?.as_str())?;
        }
    }
    told.push_str("= ")?;
    told.push_str(texts(alloc, &symbols)?.as_str())?;
    Ok(told)
}

/// A value, and the text of its copy.
fn told(alloc: Global, value: &Value) -> Result<String, AllocError> {
    let copy = copy_value(value)?;
    format!(in alloc; "{value:?} {}", value_text(alloc, &copy)?)
}

/// The value of a text, and the text of its copy.
pub fn read(alloc: Global, text: &str) -> Result<String, AllocError> {
    let text = Text::from_str(alloc, text)?;
    match value_read(alloc, &text)? {
        Some(value) => told(alloc, &value),
        None => String::from_str(alloc, "none"),
    }
}

/// The row of the texts of its values with `|` between them.
fn row(alloc: Global, cells: &str) -> Result<Row, AllocError> {
    let mut row = Row::new(alloc);
    for cell in cells.split('|') {
        if let Some(value) = value_read(alloc, &Text::from_str(alloc, cell)?)? {
            row.push(value)?;
        }
    }
    Ok(row)
}

/// Adds a row, if it is as wide as the table of this number.
fn add_row(instance: &mut Instance, table: u32, row: Row) -> Result<(), AllocError>
    ensures { widths instance.new ≡ widths instance.old }
{
    if table >= instance.tables()
        || row.len() != u64::from(instance.width(table))
        || instance.count(table) >= 1000
    {
        return Ok(());
    }
    instance.add(table, row)?;
    Ok(())
}

/// Adds the row of a line, if it is as wide as its table.
fn add_line(alloc: Global, instance: &mut Instance, line: &str) -> Result<(), AllocError>
    ensures { widths instance.new ≡ widths instance.old }
{
    let (table, cells) = line.split_once("|").unwrap_or(("", ""));
    match table.parse::<u32>() {
        Ok(table) => add_row(instance, table, row(alloc, cells)?),
        Err(_) => Ok(()),
    }
}

/// The rows of lines, each the number of a table and the texts of its values with `|` between them.
pub fn instance_of(alloc: Global, schema: &Schema, rows: &str) -> Result<Instance, AllocError>
    ensures { IfOk result (λ I. widths I ≡ schema_widths schema.now) }
{
    let mut instance = Instance::new(alloc, schema.widths(alloc)?)?;
    for line in rows.lines() {
        add_line(alloc, &mut instance, line)?;
    }
    Ok(instance)
}
