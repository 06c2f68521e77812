// The nulls of facts, and their places in a list.
ghost use Rattle.std.specs.Prelude.{◌≡◌, ◌<◌, ◌++◌, IfOk, IfNone, IfSome, OnOk, length};
ghost use Rattle.dx_base.specs.Members.{◌∈◌};
ghost use Rattle.dx_model.specs.declared.values.NullId.{NullId};
ghost use Rattle.dx_model.specs.declared.values.Value.TheVariants.{Null};
ghost use Rattle.dx_model.specs.Values.{NullsAscend, null_at};
ghost use Rattle.dx_blocks.specs.Nulls.{AreNulls, KnowsNulls, StandsIn, row_nulls};

use dx_model::{Fact, NullId, Value};
use std::alloc::{AllocError, Global};

// The nulls of a row.
fn push_nulls(row: &[Value], nulls: &mut Vec<NullId>) -> Result<(), AllocError>
    ensures { OnOk result (nulls.new.items ≡ nulls.old.items ++ row_nulls row.now) }
{
    for value in row {
        if let Value::Null(null) = value {
            nulls.push(*null)?;
        }
    }
    Ok(())
}

/// The nulls of facts, ascending, each once.
///
/// # Errors
///
/// `AllocError` if there is no memory.
pub fn nulls_of(alloc: Global, facts: &[Fact]) -> Result<Vec<NullId>, AllocError>
    ensures { IfOk result (λ ns. AreNulls facts.now ns.items) }
{
    let mut nulls = Vec::new(alloc);
    for fact in facts {
        push_nulls(fact.row.items(), &mut nulls)?;
    }
    nulls.sort_unstable();
    nulls.dedup();
    Ok(nulls)
}

/// The place of a null in an ascending list that has it.
pub fn place_of(nulls: &[NullId], null: &NullId) -> usize
    requires ascend { NullsAscend nulls.now }
    requires known { null.now ∈ nulls.now }
    ensures within { result < length nulls.now }
    ensures is { null_at nulls.now result ≡ null.now }
{
    match nulls.binary_search(null) {
        Ok(place) => place,
        Err(_) => unreachable!(),
    }
}

/// The place of the first null of a row, if it holds one.
pub fn first_place(nulls: &[NullId], row: &[Value]) -> Option<usize>
    requires { KnowsNulls nulls.now row.now }
    ensures none { IfNone result ((n : NullId) → ¬ (Null n ∈ row.now)) }
    ensures some { IfSome result (StandsIn nulls.now row.now) }
{
    for value in row {
        if let Value::Null(null) = value {
            return Some(place_of(nulls, null));
        }
    }
    None
}
