// Labels of nulls by their numbers: two nulls have one label exactly if rows connect them.
ghost use Rattle.std.specs.Prelude.{◌-◌, ◌≤◌, IfOk, length};
ghost use Rattle.dx_base.specs.Members.{◌∈◌, Each};
ghost use Rattle.dx_blocks.specs.Forest.{IsForest};
ghost use Rattle.dx_blocks.specs.Labels.{AreLabels, JoinsAll, JoinsRow};
ghost use Rattle.dx_blocks.specs.Numbered.{IsRowIn, fact_of};
ghost use Rattle.dx_blocks.specs.NullRows.{IsFirstNull, facts_of, nulls_from, row_numbers};

use crate::forest::{flatten, join, singles};
use crate::null_rows::null_in;
use crate::numbered::At;
use dx_instance::Numbers;
use std::alloc::{AllocError, Global};

// Makes one tree of those of the nulls of a row, of which one has the number `one`.
fn join_row(numbers: &Numbers<'_>, first: u32, at: At, one: u32, parents: &mut [usize])
    requires first { IsFirstNull numbers.now first }
    requires one { (one ∈ row_numbers numbers.now at) × (first ≤ one) }
    requires forest { IsForest (length numbers.now.symbols - first) parents.old }
    ensures { JoinsRow (nulls_from numbers.now first) (fact_of numbers.now at).row parents.old parents.new }
{
    let row = numbers.row(at.table, at.place);
    for number in row {
        if *number >= first {
            join(parents, (one - first) as usize, (*number - first) as usize);
        }
    }
}

// Makes one tree of those of the nulls of each row.
fn join_all(numbers: &Numbers<'_>, first: u32, rows: &[At], parents: &mut [usize])
    requires first { IsFirstNull numbers.now first }
    requires rows { Each rows.now (IsRowIn numbers.now) }
    requires forest { IsForest (length numbers.now.symbols - first) parents.old }
    ensures { JoinsAll (facts_of numbers.now rows.now) (nulls_from numbers.now first) parents.old parents.new }
{
    for at in rows {
        if let Some(one) = null_in(numbers.row(at.table, at.place), first) {
            join_row(numbers, first, *at, one, parents);
        }
    }
}

/// The label of each null from `first` on: the least place of those that are connected with it.
///
/// # Errors
///
/// `AllocError` if there is no memory.
pub fn number_labels(
    alloc: Global,
    numbers: &Numbers<'_>,
    first: u32,
    rows: &[At],
) -> Result<Vec<usize>, AllocError>
    requires first { IsFirstNull numbers.now first }
    requires rows { Each rows.now (IsRowIn numbers.now) }
    ensures { IfOk result (λ labels. AreLabels (facts_of numbers.now rows.now) (nulls_from numbers.now first) labels.items) }
{
    let mut labels = singles(alloc, (numbers.len() - first) as usize)?;
    join_all(numbers, first, rows, &mut labels);
    flatten(&mut labels);
    Ok(labels)
}
