// An instance as rows of numbers that compare as their values.
ghost use Rattle.std.specs.Prelude.{◌≡◌, ◌<◌, IfOk, length, map};
ghost use Rattle.dx_model.specs.declared.values.Value.TheVariants.{Const};
ghost use Rattle.dx_instance.specs.Numbers.{IsOrdering, ValuesAscend};
ghost use Rattle.dx_instance.specs.Shown.{PartsFit, numbers_of_table, renumbered};
ghost use Rattle.dx_keys.specs.Numbers.{AreValues, IsNumbering};

use dx_chase::counted;
use dx_instance::{Instance, Numbers, Ordered, Rows, Symbols, Value};
use std::alloc::{AllocError, Global};

/// Values in order, each under its place, of which the first are constants; and for each table its rows of numbers.
#[derive(Drop)]
pub struct Numbering {
    pub symbols: Symbols,
    pub constants: u32,
    pub tables: Vec<Rows>,
}

// The symbols in order.
fn symbols_in_order(alloc: Global, numbers: &Numbers) -> Result<Ordered, AllocError>
    ensures { IfOk result (λ o. IsOrdering numbers.now.symbols o.symbols o.ranks.items) }
{
    let symbols = numbers.copy_symbols(alloc)?;
    if numbers.is_ordered() {
        let ranks = counted(alloc, numbers.len())?;
        return Ok(Ordered { symbols, ranks });
    }
    symbols.into_order(alloc)
}

// How many of the symbols are constants.
fn count_constants(symbols: &Symbols) -> u32
    requires { ValuesAscend symbols.now }
    ensures { AreValues result symbols.now }
{
    let count = symbols.len();
    for number in 0..count {
        match symbols.value(number) {
            Value::Null(_) => return number as u32,
            Value::Const(_) => {}
        }
    }
    count as u32
}

// The rows of a table.
fn rows_copied(alloc: Global, numbers: &Numbers, table: u32) -> Result<Rows, AllocError>
    requires { table < length numbers.now.tables }
    ensures { IfOk result (λ rows. rows ≡ numbers_of_table numbers.now.tables table) }
{
    let mut rows = Rows::new(alloc, numbers.width(table));
    for place in 0..numbers.count(table) {
        rows.push(numbers.row(table, place))?;
    }
    Ok(rows)
}

// The rows of all tables, with ranks in the place of numbers.
fn ranked(alloc: Global, numbers: &Numbers, ranks: &[u32]) -> Result<Vec<Rows>, AllocError>
    requires fit { PartsFit numbers.now.symbols numbers.now.tables }
    requires ranks { length ranks.now ≡ length numbers.now.symbols }
    ensures { IfOk result (λ all. all.items ≡ map (renumbered ranks.now) numbers.now.tables) }
{
    let mut all = Vec::new(alloc);
    for table in 0..numbers.tables() {
        let rows = rows_copied(alloc, numbers, table)?;
        all.push(rows.renumbered(alloc, ranks)?)?;
    }
    Ok(all)
}

/// Numbers the values of an instance, which goes.
///
/// # Errors
///
/// `AllocError` if there is no memory.
pub fn number(alloc: Global, instance: Instance) -> Result<Numbering, AllocError>
    ensures { IfOk result (IsNumbering instance) }
{
    // The call tells what holds of the tables of each instance.
    prove!((instance.tables() as u64) < 1 << 32);
    let numbers = instance.numbers();
    let Ordered { symbols, ranks } = symbols_in_order(alloc, &numbers)?;
    let constants = count_constants(&symbols);
    let tables = ranked(alloc, &numbers, &ranks)?;
    Ok(Numbering {
        symbols,
        constants,
        tables,
    })
}
