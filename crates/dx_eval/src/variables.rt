// The cells of a match step as variables: cells that are to be equal have one variable.
ghost use Rattle.std.specs.Prelude.{◌≡◌, ◌<◌, ◌^◌, ◌+◌, IfOk, map};
ghost use Rattle.std.specs.List.{range_with_len};
ghost use Rattle.dx_base.specs.Members.{◌∈◌, Each};
ghost use Rattle.dx_schema.specs.Names.{table_names_of};
ghost use Rattle.dx_script.specs.Fits.{CellFits, EqualFits};
ghost use Rattle.dx_script.specs.Names.{table_names};
ghost use Rattle.dx_eval.specs.Variables.{SeparateVariables, AreVariables, WideAliases, IsUnified, renamed, variable_of};

use crate::names::{column_number, table_width};
use dx_base::{Items, Text, no_number_left};
use dx_schema::Schema;
use dx_script::{CellRef, Equal};
use std::alloc::{AllocError, Global};

/// For each alias the variable of each of its cells. The variables are those below `count`.
#[derive(Drop)]
pub(crate) struct Variables {
    pub(crate) rows: Vec<Items<u32>>,
    pub(crate) count: u32,
}

// Numbers from `first` on.
fn fresh(alloc: Global, first: u32, count: u32) -> Result<Items<u32>, AllocError>
    requires { first + count < 2 ^ 32 }
    ensures { IfOk result (λ row. row ≡ range_with_len first count) }
{
    let mut row = Items::new(alloc);
    for i in 0..count {
        row.push(first + i)?;
    }
    Ok(row)
}

// A variable of its own for each cell.
fn separate(alloc: Global, source: &Schema, sources: &[Text]) -> Result<Variables, AllocError>
    requires { Each sources.now (λ name. name ∈ table_names (table_names_of source.now)) }
    ensures { IfOk result (λ v. SeparateVariables (table_names_of source.now) sources.now v.rows.items v.count) }
{
    let mut rows = Vec::new(alloc);
    let mut count = 0u32;
    for name in sources {
        let width = table_width(source, name);
        if width >= u32::MAX - count {
            return Err(no_number_left(u64::from(count) + u64::from(width)));
        }
        rows.push(fresh(alloc, count, width)?)?;
        count += width;
    }
    Ok(Variables { rows, count })
}

// What stands in the place of a variable, if the variable `gone` becomes `kept`, and `last` becomes `gone`.
fn other_name(x: u32, kept: u32, gone: u32, last: u32) -> u32
    ensures { result ≡ renamed kept gone last x }
{
    if x == gone {
        kept
    } else if x == last {
        gone
    } else {
        x
    }
}

// The row with the other names.
fn row_renamed(
    alloc: Global,
    row: &[u32],
    kept: u32,
    gone: u32,
    last: u32,
) -> Result<Items<u32>, AllocError>
    ensures { IfOk result (λ new. new ≡ map (renamed kept gone last) row.now) }
{
    let mut new = Items::new(alloc);
    for x in row {
        new.push(other_name(*x, kept, gone, last))?;
    }
    Ok(new)
}

// The rows with the other names.
fn rows_renamed(
    alloc: Global,
    rows: &[Items<u32>],
    kept: u32,
    gone: u32,
    last: u32,
) -> Result<Vec<Items<u32>>, AllocError>
    ensures { IfOk result (λ new. new.items ≡ map (map (renamed kept gone last)) rows.now) }
{
    let mut new = Vec::new(alloc);
    for row in rows {
        new.push(row_renamed(alloc, row.items(), kept, gone, last)?)?;
    }
    Ok(new)
}

// The variable of a cell.
pub(crate) fn variable_of_cell(
    source: &Schema,
    sources: &[Text],
    rows: &[Items<u32>],
    cell: &CellRef,
) -> u32
    requires named { Each sources.now (λ name. name ∈ table_names (table_names_of source.now)) }
    requires fits { CellFits (table_names_of source.now) sources.now cell.now }
    requires wide { WideAliases (table_names_of source.now) sources.now rows.now }
    ensures { result ≡ variable_of (table_names_of source.now) sources.now rows.now cell.now }
{
    let alias = cell.alias as usize;
    let column = column_number(source, &sources[alias], &cell.column);
    rows[alias].items()[column as usize]
}

impl Variables {
    // Two variables become one. The last variable takes the place of the one that is gone.
    fn join(self, alloc: Global, x: u32, y: u32) -> Result<Variables, AllocError>
        requires first { x < self.count }
        requires second { y < self.count }
        ensures { IfOk result (λ v. IsUnified x y self.rows.items v.rows.items self.count v.count) }
    {
        if x == y {
            return Ok(self);
        }
        let last = self.count - 1;
        let rows = rows_renamed(alloc, &self.rows, x.min(y), x.max(y), last)?;
        Ok(Variables { rows, count: last })
    }

    /// The variables of a match step: cells have one variable exactly if they have one text wherever the cells that are to
    /// be equal have.
    ///
    /// # Errors
    ///
    /// `AllocError` if there is no memory, or there are more cells than have numbers.
    pub(crate) fn of_step(
        alloc: Global,
        source: &Schema,
        sources: &[Text],
        equal: &[Equal],
    ) -> Result<Variables, AllocError>
        requires named { Each sources.now (λ name. name ∈ table_names (table_names_of source.now)) }
        requires fit { Each equal.now (EqualFits (table_names_of source.now) sources.now) }
        ensures { IfOk result (λ v. AreVariables (table_names_of source.now) sources.now equal.now v.rows.items v.count) }
    {
        let mut variables = separate(alloc, source, sources)?;
        for one in equal {
            let left = variable_of_cell(source, sources, &variables.rows, &one.left);
            let right = variable_of_cell(source, sources, &variables.rows, &one.right);
            variables = variables.join(alloc, left, right)?;
        }
        Ok(variables)
    }
}
