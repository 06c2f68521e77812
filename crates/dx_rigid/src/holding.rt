// Whether the numbers in all rows are marked.
ghost use Rattle.std.specs.Prelude.{◌≡◌, ◌<◌, ℕ, EachIndex, false, true, length, slice_index, slice_index_or};
ghost use Rattle.std.specs.Bool.{OnTrue};
ghost use Rattle.dx_instance.specs.Cells.{numbers_at};
ghost use Rattle.dx_rigid.specs.Alone.{number_rows};

use dx_instance::Numbers;

// Whether a number is marked.
fn is_marked(marks: &[bool], number: u32) -> bool
    ensures { result ≡ slice_index_or marks.now number false }
{
    match marks.get(number as usize) {
        None => false,
        Some(mark) => *mark,
    }
}

/// Whether each number of a row is marked.
pub(crate) fn row_holds_marked(row: &[u32], marks: &[bool]) -> bool
    ensures { OnTrue result (EachIndex row.now (λ c. slice_index_or marks.now (slice_index row.now c) false ≡ true)) }
{
    row.iter().all(|number| is_marked(marks, *number))
}

// Whether each number in a table is marked.
fn table_holds_marked(numbers: &Numbers<'_>, table: u32, marks: &[bool]) -> bool
    requires { table < length numbers.now.tables }
    ensures { OnTrue result ((p : ℕ) → p < length (number_rows numbers.now table)
        → EachIndex (numbers_at (number_rows numbers.now table) p)
        (λ c. slice_index_or marks.now (slice_index (numbers_at (number_rows numbers.now table) p) c) false ≡ true)) }
{
    (0..numbers.count(table)).all(|place| row_holds_marked(numbers.row(table, place), marks))
}

/// Whether each number in a row is marked.
pub(crate) fn hold_marked(numbers: &Numbers<'_>, marks: &[bool]) -> bool
    ensures { OnTrue result ((t p : ℕ) → t < length numbers.now.tables → p < length (number_rows numbers.now t)
        → EachIndex (numbers_at (number_rows numbers.now t) p)
        (λ c. slice_index_or marks.now (slice_index (numbers_at (number_rows numbers.now t) p) c) false ≡ true)) }
{
    (0..numbers.tables()).all(|table| table_holds_marked(numbers, table, marks))
}
