// Whether an instance maps into another: facts without nulls are looked up, the others go block by block.
ghost use Rattle.std.specs.Prelude.{◌≡◌, ◌↔◌, ◌<◌, IfOk, IsTrue, length};
ghost use Rattle.dx_base.specs.Members.{◌∈◌, Each};
ghost use Rattle.dx_model.specs.Instances.{MapsInto};
ghost use Rattle.dx_instance.specs.Stored.{facts, rows_of, widths};
ghost use Rattle.dx_judge.specs.Open.{BlocksMove, IsGround};
ghost use Rattle.dx_judge.specs.Turning.{IsTurnedOne};

use crate::moving::{is_ground, moves_into};
use crate::turning::{Turned, turn};
use dx_blocks::blocks;
use dx_instance::Instance;
use dx_model::Row;
use std::alloc::{AllocError, Global};

// Whether the row is in the other instance, if it has no nulls.
fn stays(row: &Row, into: &Instance, table: u32) -> bool
    requires { table < length into.now }
    ensures { IsTrue result ↔ (IsGround row.now → row.now ∈ rows_of into.now table) }
{
    if is_ground(row.items()) {
        return into.contains(table, row);
    }
    true
}

// Whether each row of a table without nulls is in the other instance.
fn ground_rows_stay(from: &Instance, into: &Instance, table: u32) -> Result<bool, AllocError>
    requires table { table < length from.now }
    requires other { table < length into.now }
    ensures { IfOk result (λ stay. IsTrue stay ↔ Each (rows_of from.now table) (λ r. IsGround r → r ∈ rows_of into.now table)) }
{
    for place in 0..from.count(table) {
        let row = from.row_copy(table, place)?;
        if !stays(&row, into, table) {
            return Ok(false);
        }
    }
    Ok(true)
}

// Whether each fact without nulls is in the other instance.
fn ground_facts_stay(from: &Instance, into: &Instance) -> Result<bool, AllocError>
    requires { widths from.now ≡ widths into.now }
    ensures { IfOk result (λ stay. IsTrue stay ↔ Each (facts from.now) (λ f. IsGround f.row → f ∈ facts into.now)) }
{
    for table in 0..from.tables() {
        if !ground_rows_stay(from, into, table)? {
            return Ok(false);
        }
    }
    Ok(true)
}

// Whether each block moves into the other instance.
fn blocks_move(alloc: Global, from: &Instance, into: &Turned<'_>) -> Result<bool, AllocError>
    requires widths { widths from.now ≡ widths into.now.plain.now }
    requires turned { IsTurnedOne into.now }
    ensures { IfOk result (BlocksMove (facts from.now) (facts into.now.plain.now)) }
{
    // The call tells what holds of the tables of each instance.
    prove!((from.tables() as u64) < 1 << 32);
    let all = blocks(alloc, from)?;
    for block in &all {
        if !moves_into(alloc, block.facts.items(), into)? {
            return Ok(false);
        }
    }
    Ok(true)
}

/// Whether there is a homomorphism from an instance into another with as wide tables.
///
/// # Errors
///
/// `AllocError` if there is no memory, or there are more values than have numbers.
pub(crate) fn maps_into(alloc: Global, from: &Instance, into: &Instance) -> Result<bool, AllocError>
    requires { widths from.now ≡ widths into.now }
    ensures { IfOk result (λ can. IsTrue can ↔ MapsInto (facts from.now) (facts into.now)) }
{
    if !ground_facts_stay(from, into)? {
        return Ok(false);
    }
    let turned = turn(alloc, into)?;
    blocks_move(alloc, from, &turned)
}
