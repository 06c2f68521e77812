// The nulls of an instance.
ghost use Rattle.std.specs.Prelude.{◌≡◌, ◌↔◌, ◌<◌, ◌++◌, IfOk, OnOk, length, flat_map};
ghost use Rattle.dx_base.specs.Members.{◌∈◌};
ghost use Rattle.dx_model.specs.Instances.{nulls_in};
ghost use Rattle.dx_model.specs.Values.{NullsAscend};
ghost use Rattle.dx_instance.specs.Shown.{NumbersBelow, shown_row, shown_tables};
ghost use Rattle.dx_instance.specs.Stored.{facts, rows_of};
ghost use Rattle.clio_files.specs.Sheets.{AreTargetNulls};

use crate::marks::nulls_by_marks;
use dx_instance::{Instance, Numbers};
use dx_model::{NullId, Value};
use std::alloc::{AllocError, Global};

// The nulls of a row of numbers.
fn push_row(target: &Numbers, row: &[u32], nulls: &mut Vec<NullId>) -> Result<(), AllocError>
    requires { NumbersBelow (length target.now.symbols) row.now }
    ensures { OnOk result (nulls.new.items ≡ nulls.old.items ++ nulls_in (shown_row target.now.symbols row.now)) }
{
    for number in row {
        if let Value::Null(null) = target.value(*number) {
            nulls.push(*null)?;
        }
    }
    Ok(())
}

// The nulls of a table.
fn push_table(target: &Numbers, table: u32, nulls: &mut Vec<NullId>) -> Result<(), AllocError>
    requires { table < length target.now.tables }
    ensures { OnOk result (nulls.new.items
        ≡ nulls.old.items ++ flat_map nulls_in (rows_of (shown_tables target.now.symbols target.now.tables) table)) }
{
    for place in 0..target.count(table) {
        push_row(target, target.row(table, place), nulls)?;
    }
    Ok(())
}

// Nulls in order, each once.
fn ascending(nulls: Vec<NullId>) -> Result<Vec<NullId>, AllocError>
    ensures ascend { IfOk result (λ ns. NullsAscend ns.items) }
    ensures members { IfOk result (λ ns. (n : NullId) → (n ∈ ns.items) ↔ (n ∈ nulls.items)) }
{
    let mut sorted = nulls;
    sorted.sort()?;
    sorted.dedup();
    Ok(sorted)
}

// The nulls of tables of numbers, from a list of all of them: for symbols that are not in order.
fn nulls_by_list(alloc: Global, target: &Numbers) -> Result<Vec<NullId>, AllocError>
    ensures { IfOk result (λ ns. AreTargetNulls (facts (shown_tables target.now.symbols target.now.tables)) ns.items) }
{
    let mut nulls = Vec::new(alloc);
    for table in 0..target.tables() {
        push_table(target, table, &mut nulls)?;
    }
    ascending(nulls)
}

/// The nulls of an instance, ascending, each once.
///
/// # Errors
///
/// Out of memory.
pub fn nulls_of(alloc: Global, target: &Instance) -> Result<Vec<NullId>, AllocError>
    ensures { IfOk result (λ ns. AreTargetNulls (facts target.now) ns.items) }
{
    let numbers = target.numbers();
    if numbers.is_ordered() {
        nulls_by_marks(alloc, &numbers)
    } else {
        nulls_by_list(alloc, &numbers)
    }
}
