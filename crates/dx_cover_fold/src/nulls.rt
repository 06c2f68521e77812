// The nulls of all places.
ghost use Rattle.std.specs.Prelude.{◌≡◌, ◌↔◌, ◌⊎◌, ◌<◌, ◌≤◌, ◌^◌, IfOk, OnOk, length, max};
ghost use Rattle.dx_base.specs.Members.{◌∈◌};
ghost use Rattle.dx_model.specs.declared.values.NullId.{NullId as AnyNull};
ghost use Rattle.dx_model.specs.Rules.{cells_of};
ghost use Rattle.dx_model.specs.Covers.{after_existential};
ghost use Rattle.dx_cover_fold.specs.Matched.{matched_tuples};
ghost use Rattle.dx_cover_fold.specs.Folding.{IsNullFor, IsNullOf, IsPlaceNull};

use crate::matched::Matched;
use dx_model::{Atom, Cell, NullId, Rule};
use std::alloc::{AllocError, Global};

/// The number after the existential variables of a row of cells, and at least a number.
fn after(cells: &[Cell], least: u64) -> u64
    requires { least ≤ 2 ^ 32 }
    ensures number { result ≡ max least (after_existential cells.now) }
    ensures low { result ≤ 2 ^ 32 }
{
    let mut next = least;
    for cell in cells {
        if let Cell::Ex(number) = cell {
            next = next.max(u64::from(*number) + 1);
        }
    }
    next
}

/// How many existential variables atoms have: one more than the greatest.
fn existential_count(atoms: &[Atom]) -> u64
    ensures number { result ≡ after_existential (cells_of atoms.now) }
    ensures low { result ≤ 2 ^ 32 }
{
    let mut next = 0;
    for atom in atoms {
        next = after(atom.cells.items(), next);
    }
    next
}

/// Adds the nulls of an existential variable of a rule, one for each of its places, in their order.
fn push_nulls_for(nulls: &mut Vec<NullId>, rule: u32, var: u32, rows: u32) -> Result<(), AllocError>
    ensures { OnOk result ((n : AnyNull) → (n ∈ nulls.new.items) ↔ ((n ∈ nulls.old.items) ⊎ IsNullFor rule var rows n)) }
{
    for row in 0..rows {
        nulls.push(NullId { rule, var, row })?;
    }
    Ok(())
}

/// Adds the nulls of a rule at all of its places, variable by variable.
fn push_nulls_of(
    nulls: &mut Vec<NullId>,
    rule: u32,
    rows: u32,
    count: u64,
) -> Result<(), AllocError>
    requires { count ≤ 2 ^ 32 }
    ensures { OnOk result ((n : AnyNull) → (n ∈ nulls.new.items) ↔ ((n ∈ nulls.old.items) ⊎ IsNullOf rule rows count n)) }
{
    for var in 0..count {
        push_nulls_for(nulls, rule, var as u32, rows)?;
    }
    Ok(())
}

/// The nulls of all places, in ascending order.
pub(crate) fn place_nulls(
    alloc: Global,
    rules: &[Rule],
    matches: &Matched<'_>,
) -> Result<Vec<NullId>, AllocError>
    requires few { length rules.now < 2 ^ 32 }
    requires one { length matches.now.tables ≡ length rules.now }
    ensures { IfOk result (λ v. (n : AnyNull) → (n ∈ v.items) ↔ IsPlaceNull rules.now (matched_tuples matches.now) n) }
{
    let mut nulls = Vec::new(alloc);
    for rule in 0..rules.len() {
        let rows = matches.places(rule as u32);
        let count = existential_count(rules[rule].conclusion.items());
        push_nulls_of(&mut nulls, rule as u32, rows, count)?;
    }
    Ok(nulls)
}
