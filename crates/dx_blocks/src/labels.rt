// Labels of nulls: two nulls have one label exactly if facts connect them.
ghost use Rattle.std.specs.Prelude.{IfOk, length};
ghost use Rattle.dx_blocks.specs.Nulls.{AreNulls, KnowsNulls, StandsIn};
ghost use Rattle.dx_blocks.specs.Forest.{IsForest};
ghost use Rattle.dx_blocks.specs.Labels.{AreLabels, JoinsAll, JoinsRow};

use crate::forest::{flatten, join, singles};
use crate::nulls::{first_place, place_of};
use dx_model::{Fact, NullId, Value};
use std::alloc::{AllocError, Global};

// Makes one tree of those of the nulls of a row, of which one stands at the place `first`.
fn join_row(nulls: &[NullId], row: &[Value], first: usize, parents: &mut [usize])
    requires known { KnowsNulls nulls.now row.now }
    requires first { StandsIn nulls.now row.now first }
    requires forest { IsForest (length nulls.now) parents.old }
    ensures { JoinsRow nulls.now row.now parents.old parents.new }
{
    for value in row {
        if let Value::Null(null) = value {
            join(parents, first, place_of(nulls, null));
        }
    }
}

// Makes one tree of those of the nulls of each fact.
fn join_all(facts: &[Fact], nulls: &[NullId], parents: &mut [usize])
    requires nulls { AreNulls facts.now nulls.now }
    requires forest { IsForest (length nulls.now) parents.old }
    ensures { JoinsAll facts.now nulls.now parents.old parents.new }
{
    for fact in facts {
        let row = fact.row.items();
        if let Some(first) = first_place(nulls, row) {
            join_row(nulls, row, first, parents);
        }
    }
}

/// The label of each null, by its place: the least place of those that are connected with it.
///
/// # Errors
///
/// `AllocError` if there is no memory.
pub fn labels_of(alloc: Global, facts: &[Fact], nulls: &[NullId]) -> Result<Vec<usize>, AllocError>
    requires { AreNulls facts.now nulls.now }
    ensures { IfOk result (λ labels. AreLabels facts.now nulls.now labels.items) }
{
    let mut labels = singles(alloc, nulls.len())?;
    join_all(facts, nulls, &mut labels);
    flatten(&mut labels);
    Ok(labels)
}
