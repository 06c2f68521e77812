ghost use Rattle.std.specs.Prelude.{◌≡◌, ◌<◌, IfOk, OnOk, ℕ};
ghost use Rattle.dx_base.specs.Members.{◌∈◌};
ghost use Rattle.dx_model.specs.declared.rules.Cell.TheVariants.{Ex as ExCell};
ghost use Rattle.dx_model.specs.Rules.{cells_of, exported, with_number};
ghost use Rattle.dx_model.specs.Covers.{after_existential};
ghost use Rattle.dx_cover.specs.Variables.{existential_count, variables_onto};

use dx_model::{Cell, Rule};
use std::alloc::{AllocError, Global};

/// Puts a number in its place, if it isn't there.
pub(crate) fn add_number(found: &mut Vec<u32>, number: u32) -> Result<(), AllocError>
    ensures { OnOk result (found.new.items ≡ with_number number found.old.items) }
{
    for i in 0..found.len() {
        if number == found[i] {
            return Ok(());
        }
        if number < found[i] {
            found.insert(i, number)?;
            return Ok(());
        }
    }
    found.push(number)?;
    Ok(())
}

/// Puts the variables of these cells in their places.
pub(crate) fn add_variables(found: &mut Vec<u32>, cells: &[Cell]) -> Result<(), AllocError>
    ensures { OnOk result (found.new.items ≡ variables_onto cells.now found.old.items) }
{
    let mut left = cells.len();
    while left > 0 {
        left -= 1;
        if let Cell::Var(number) = &cells[left] {
            add_number(found, *number)?;
        }
    }
    Ok(())
}

/// The exported variables of a rule, ascending.
pub fn exported(alloc: Global, rule: &Rule) -> Result<Vec<u32>, AllocError>
    ensures { IfOk result (λ v. v.items ≡ exported rule.now) }
{
    let mut found = Vec::new(alloc);
    let atoms = rule.conclusion.items();
    let mut left = atoms.len();
    while left > 0 {
        left -= 1;
        add_variables(&mut found, atoms[left].cells.items())?;
    }
    Ok(found)
}

/// How many existential variables these cells and those after them have: one more than the greatest.
pub(crate) fn existential_onto(cells: &[Cell], after: u32) -> u32
    requires { (v : ℕ) → ExCell v ∈ cells.now → v < 4294967295 }
    ensures { result ≡ existential_count cells.now after }
{
    let mut count = after;
    let mut left = cells.len();
    while left > 0 {
        left -= 1;
        if let Cell::Ex(number) = &cells[left] {
            if *number >= count {
                count = *number + 1;
            }
        }
    }
    count
}

/// How many existential variables a rule has.
pub(crate) fn existentials(rule: &Rule) -> u32
    requires { (v : ℕ) → ExCell v ∈ cells_of rule.now.conclusion → v < 4294967295 }
    ensures { result ≡ after_existential (cells_of rule.now.conclusion) }
{
    let atoms = rule.conclusion.items();
    let mut count = 0;
    let mut left = atoms.len();
    while left > 0 {
        left -= 1;
        count = existential_onto(atoms[left].cells.items(), count);
    }
    count
}
