// The nulls of an instance whose symbols are in order, by a mark for each number of a null.
ghost use Rattle.std.specs.Prelude.{◌≡◌, ◌↔◌, ℕ, List, ◌+◌, ◌<◌, ◌≤◌, ◌++◌, IfOk, length};
ghost use Rattle.std.specs.List.{concat};
ghost use Rattle.dx_base.specs.Members.{◌∈◌};
ghost use Rattle.dx_model.specs.Values.{NullsAscend};
ghost use Rattle.dx_instance.specs.Numbers.{ValuesAscend, value_of, IsConstant};
ghost use Rattle.dx_instance.specs.Shown.{NumbersBelow, numbers_of_table, shown_tables};
ghost use Rattle.dx_instance.specs.Stored.{facts};
ghost use Rattle.clio_files.specs.Marks.{AreMarks, IsMarked, IsNull, table_numbers};
ghost use Rattle.clio_files.specs.Sheets.{AreTargetNulls};

use dx_instance::Numbers;
use dx_model::{NullId, Value};
use std::alloc::{AllocError, Global};

// The number from which on the symbols are nulls.
fn first_null(target: &Numbers) -> u32
    requires { ValuesAscend target.now.symbols }
    ensures within { result ≤ length target.now.symbols }
    ensures constants { (k : ℕ) → k < result → IsConstant (value_of target.now.symbols k) }
    ensures nulls { (k : ℕ) → result ≤ k → k < length target.now.symbols → IsNull (value_of target.now.symbols k) }
{
    let mut low = 0u32;
    let mut high = target.len();
    while low < high {
        let middle = low + (high - low) / 2;
        match target.value(middle) {
            Value::Const(_) => low = middle + 1,
            Value::Null(_) => high = middle,
        }
    }
    low
}

// Marks the numbers of a row that are at least `first`.
fn mark_row(first: u32, row: &[u32], marks: &mut Vec<bool>)
    requires { NumbersBelow (first + length marks.old.items) row.now }
    ensures many { length marks.new.items ≡ length marks.old.items }
    ensures marked { (seen : List ℕ) → AreMarks first seen marks.old.items → AreMarks first (seen ++ row.now) marks.new.items }
{
    for number in row {
        if *number >= first {
            marks[(*number - first) as usize] = true;
        }
    }
}

// Marks the numbers of a table that are at least `first`.
fn mark_table(target: &Numbers, table: u32, first: u32, marks: &mut Vec<bool>)
    requires table { table < length target.now.tables }
    requires many { first + length marks.old.items ≡ length target.now.symbols }
    ensures many { length marks.new.items ≡ length marks.old.items }
    ensures marked { (seen : List ℕ) → AreMarks first seen marks.old.items
        → AreMarks first (seen ++ concat (numbers_of_table target.now.tables table).rows) marks.new.items }
{
    for place in 0..target.count(table) {
        mark_row(first, target.row(table, place), marks);
    }
}

// A mark for each number from `first` on: whether it is in a table. If there are none, no table is read.
fn marks_of(alloc: Global, target: &Numbers, first: u32) -> Result<Vec<bool>, AllocError>
    requires { first ≤ length target.now.symbols }
    ensures many { IfOk result (λ marks. first + length marks.items ≡ length target.now.symbols) }
    ensures marked { IfOk result (λ marks. AreMarks first (table_numbers target.now.tables) marks.items) }
{
    let mut marks = vec![in alloc; false; (target.len() - first) as usize]?;
    if marks.is_empty() {
        return Ok(marks);
    }
    for table in 0..target.tables() {
        mark_table(target, table, first, &mut marks);
    }
    Ok(marks)
}

// The nulls of the marked numbers. They ascend, since their numbers do.
fn marked_nulls(
    alloc: Global,
    target: &Numbers,
    first: u32,
    marks: &[bool],
) -> Result<Vec<NullId>, AllocError>
    requires ascend { ValuesAscend target.now.symbols }
    requires many { first + length marks.now ≡ length target.now.symbols }
    ensures ascend { IfOk result (λ ns. NullsAscend ns.items) }
    ensures members { IfOk result (λ ns. (n : NullId) → (n ∈ ns.items) ↔ IsMarked target.now.symbols first marks.now n) }
{
    let _few = target.len();
    let mut nulls = Vec::with_capacity(alloc, marks.len())?;
    for place in 0..marks.len() {
        if marks[place] {
            if let Value::Null(null) = target.value(first + place as u32) {
                nulls.push(*null)?;
            }
        }
    }
    Ok(nulls)
}

/// The nulls of tables of numbers whose symbols are in order, ascending, each once.
///
/// # Errors
///
/// `AllocError` if there is no memory.
pub(crate) fn nulls_by_marks(alloc: Global, target: &Numbers) -> Result<Vec<NullId>, AllocError>
    requires { ValuesAscend target.now.symbols }
    ensures { IfOk result (λ ns. AreTargetNulls (facts (shown_tables target.now.symbols target.now.tables)) ns.items) }
{
    let first = first_null(target);
    let marks = marks_of(alloc, target, first)?;
    marked_nulls(alloc, target, first, &marks)
}
