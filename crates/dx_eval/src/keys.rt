// Keys by which the partners of tuples are looked up.
ghost use Rattle.std.specs.Prelude.{◌≡◌, ◌↔◌, ◌<◌, IfOk, OnOk, IsTrue, length};
ghost use Rattle.dx_base.specs.Members.{◌∈◌, Each};
ghost use Rattle.dx_instance.specs.Cells.{NumbersAscend};
ghost use Rattle.dx_eval.specs.Keeping.{AreKeys, column_numbers, other_columns, own_columns};

use dx_base::no_number_left;
use dx_instance::Rows;
use dx_script::Test;
use std::alloc::{AllocError, Global};
use std::cmp::Ordering;

/// The columns of the other tuple that tests compare.
pub(crate) fn columns_of_other(alloc: Global, tests: &[Test]) -> Result<Vec<u32>, AllocError>
    ensures { IfOk result (λ v. v.items ≡ other_columns tests.now) }
{
    let mut columns = Vec::new(alloc);
    for test in tests {
        if let Test::Columns { other, .. } = test {
            columns.push(*other)?;
        }
    }
    Ok(columns)
}

/// The columns of the tuple's own with which they are compared.
pub(crate) fn columns_of_own(alloc: Global, tests: &[Test]) -> Result<Vec<u32>, AllocError>
    ensures { IfOk result (λ v. v.items ≡ own_columns tests.now) }
{
    let mut columns = Vec::new(alloc);
    for test in tests {
        if let Test::Columns { own, .. } = test {
            columns.push(*own)?;
        }
    }
    Ok(columns)
}

/// Puts the numbers in these columns of a row in the buffer.
pub(crate) fn gather(row: &[u32], columns: &[u32], buffer: &mut Vec<u32>) -> Result<(), AllocError>
    requires { Each columns.now (λ c. c < length row.now) }
    ensures { OnOk result (buffer.new.items ≡ column_numbers columns.now row.now) }
{
    buffer.clear();
    for column in columns {
        buffer.push(row[*column as usize])?;
    }
    Ok(())
}

/// What the rows have in these columns, ascending and each once.
///
/// # Errors
///
/// `AllocError` if there is no memory, or there are more columns than have numbers.
pub(crate) fn keys_of(alloc: Global, rows: &Rows, columns: &[u32]) -> Result<Rows, AllocError>
    requires { Each columns.now (λ c. c < rows.now.width) }
    ensures keys { IfOk result (λ keys. AreKeys columns.now rows.now.rows keys.rows) }

    // What holds of all rows.
    ensures wide { Each rows.now.rows (λ r. length r ≡ rows.now.width) }
{
    let count = rows.count();
    if columns.len() > u32::MAX as usize {
        return Err(no_number_left(columns.len() as u64));
    }
    let mut keys = Rows::new(alloc, columns.len() as u32);
    let mut buffer = Vec::new(alloc);
    for place in 0..count {
        gather(rows.row(place), columns, &mut buffer)?;
        keys.push(&buffer)?;
    }
    keys.in_order(alloc)
}

/// Whether the row is among rows that ascend.
pub(crate) fn has_row(rows: &Rows, row: &[u32]) -> bool
    requires { NumbersAscend rows.now.rows }
    ensures { IsTrue result ↔ (row.now ∈ rows.now.rows) }
{
    let mut low = 0u32;
    let mut high = rows.count();
    while low < high {
        let middle = low + (high - low) / 2;
        match rows.row(middle).cmp(&row) {
            Ordering::Less => low = middle + 1,
            Ordering::Greater => high = middle,
            Ordering::Equal => return true,
        }
    }
    false
}
