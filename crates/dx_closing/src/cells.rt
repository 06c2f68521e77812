// The cells of an atom.
ghost use Rattle.std.specs.Prelude.{◌≡◌, ◌+◌, ◌<◌, ◌^◌, IfOk, OnOk, length};
ghost use Rattle.dx_model.specs.declared.rules.Cell.TheVariants.{Ex};
ghost use Rattle.dx_model.specs.Solutions.{cells_in};
ghost use Rattle.dx_model.specs.Tables.{AllInside};
ghost use Rattle.dx_logical.specs.Filled.{row_with_fresh, fresh_below, given_item};
ghost use Rattle.dx_closing.specs.Closing.{has_cells, cells_are_one};

use dx_model::{Cell, copy_cell};
use std::alloc::{AllocError, Global};

/// Whether two cells are one.
fn is_same_cell(a: &Cell, b: &Cell) -> bool
    ensures { result ≡ cells_are_one a.now b.now }
{
    match (a, b) {
        (Cell::Var(x), Cell::Var(y)) => *x == *y,
        (Cell::Ex(v), Cell::Ex(w)) => *v == *w,
        (Cell::Lit(s), Cell::Lit(t)) => *s == *t,
        _ => false,
    }
}

/// Copies of the cells of a row.
pub fn copy_row(alloc: Global, row: &[Cell]) -> Result<Vec<Cell>, AllocError>
    ensures { IfOk result (λ copy. copy.items ≡ row.now) }
{
    let mut copy = Vec::new(alloc);
    for cell in row {
        copy.push(copy_cell(cell)?)?;
    }
    Ok(copy)
}

/// Copies of the cells of a row in these columns.
pub fn chosen_cells(alloc: Global, columns: &[u32], row: &[Cell]) -> Result<Vec<Cell>, AllocError>
    requires { AllInside columns.now (length row.now) }
    ensures { IfOk result (λ chosen. chosen.items ≡ cells_in columns.now row.now) }
{
    let mut chosen = Vec::new(alloc);
    for column in columns {
        chosen.push(copy_cell(&row[*column as usize])?)?;
    }
    Ok(chosen)
}

/// Whether a row has these cells in these columns.
pub fn has_chosen(row: &[Cell], columns: &[u32], cells: &[Cell]) -> bool
    requires pairs { length columns.now ≡ length cells.now }
    requires within { AllInside columns.now (length row.now) }
    ensures { result ≡ has_cells row.now columns.now cells.now }
{
    for (place, column) in columns.iter().enumerate() {
        if !is_same_cell(&row[*column as usize], &cells[place]) {
            return false;
        }
    }
    true
}

/// A copy of the cell that is given for a column.
fn given_cell(columns: &[u32], cells: &[Cell], column: u32) -> Result<Option<Cell>, AllocError>
    requires { length columns.now ≡ length cells.now }
    ensures { IfOk result (λ cell. cell ≡ given_item columns.now cells.now column) }
{
    for (place, known) in columns.iter().enumerate() {
        if *known == column {
            return Ok(Some(copy_cell(&cells[place])?));
        }
    }
    Ok(None)
}

/// The cells of a row: those that are given, and fresh existential variables.
pub fn filled_cells(
    alloc: Global,
    columns: &[u32],
    cells: &[Cell],
    width: u32,
    next: &mut u32,
) -> Result<Vec<Cell>, AllocError>
    requires pairs { length columns.now ≡ length cells.now }
    requires room { next.old + width < 2 ^ 32 }
    ensures row { IfOk result (λ row. row.items ≡ row_with_fresh Ex next.old columns.now cells.now width) }
    ensures next { OnOk result (next.new ≡ next.old + fresh_below columns.now cells.now width) }
{
    let mut row = Vec::new(alloc);
    for column in 0..width {
        match given_cell(columns, cells, column)? {
            Some(cell) => row.push(cell)?,
            None => {
                row.push(Cell::Ex(*next))?;
                *next += 1;
            }
        }
    }
    Ok(row)
}
