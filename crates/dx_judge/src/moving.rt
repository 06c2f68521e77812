// Whether facts move into an instance.
ghost use Rattle.std.specs.Prelude.{◌≡◌, ◌↔◌, IfOk, IsTrue};
ghost use Rattle.dx_base.specs.Members.{◌⊆◌, Each};
ghost use Rattle.dx_model.specs.declared.values.NullId.{NullId as Id};
ghost use Rattle.dx_model.specs.declared.values.Value.TheVariants.{Null};
ghost use Rattle.dx_instance.specs.Stored.{facts, HasTableIn};
ghost use Rattle.dx_judge.specs.Open.{CanMove, IsGround};
ghost use Rattle.dx_judge.specs.Turning.{IsTurnedOne};

use crate::asking::{atoms_of, can_stand};
use crate::turning::Turned;
use dx_base::no_number_left;
use dx_blocks::nulls_of;
use dx_instance::Instance;
use dx_model::{Fact, Value};
use std::alloc::{AllocError, Global};

// Whether the value is no null.
fn is_no_null(value: &Value) -> bool
    ensures { IsTrue result ↔ ((n : Id) → ¬ (value.now ≡ Null n)) }
{
    match value {
        Value::Const(_) => true,
        Value::Null(_) => false,
    }
}

/// Whether no null stands in the row.
pub(crate) fn is_ground(row: &[Value]) -> bool
    ensures { IsTrue result ↔ IsGround row.now }
{
    row.iter().all(|value| is_no_null(value))
}

// Whether no null stands in any of the facts.
fn are_ground(from: &[Fact]) -> bool
    ensures { IsTrue result ↔ Each from.now (λ f. IsGround f.row) }
{
    from.iter().all(|fact| is_ground(fact.row.items()))
}

// Whether each of the facts is in the instance.
fn are_there(from: &[Fact], into: &Instance) -> bool
    requires { Each from.now (HasTableIn into.now) }
    ensures { IsTrue result ↔ (from.now ⊆ facts into.now) }
{
    from.iter().all(|fact| into.contains(fact.table, &fact.row))
}

// Whether something moves these facts into the instance, by the solver.
fn is_solved(alloc: Global, from: &[Fact], into: &Turned<'_>) -> Result<bool, AllocError>
    requires fit { Each from.now (HasTableIn into.now.plain.now) }
    requires turned { IsTurnedOne into.now }
    ensures { IfOk result (λ can. IsTrue can ↔ CanMove from.now (facts into.now.plain.now)) }
{
    let nulls = nulls_of(alloc, from)?;
    if nulls.len() > u32::MAX as usize {
        return Err(no_number_left(nulls.len() as u64));
    }
    // The call tells what holds of the tables of each instance.
    prove!((into.plain.tables() as u64) < 1 << 32);
    let numbers = into.instance.numbers();
    match atoms_of(alloc, from, &into.orders, &nulls, &numbers)? {
        None => Ok(false),
        Some(atoms) => can_stand(alloc, &numbers, &atoms, nulls.len()),
    }
}

/// Whether something moves these facts into the instance: without nulls they are looked up, and else the solver is asked.
///
/// # Errors
///
/// `AllocError` if there is no memory, or there are more nulls than have numbers.
pub(crate) fn moves_into(
    alloc: Global,
    from: &[Fact],
    into: &Turned<'_>,
) -> Result<bool, AllocError>
    requires fit { Each from.now (HasTableIn into.now.plain.now) }
    requires turned { IsTurnedOne into.now }
    ensures { IfOk result (λ can. IsTrue can ↔ CanMove from.now (facts into.now.plain.now)) }
{
    if are_ground(from) {
        return Ok(are_there(from, into.plain));
    }
    is_solved(alloc, from, into)
}
