// The variables that a rule exports.
ghost use Rattle.std.specs.Prelude.{◌≡◌, ◌++◌, IfOk, OnOk};
ghost use Rattle.dx_model.specs.Rules.{exported as exported_of};
ghost use Rattle.dx_tgd.specs.Variables.{variables_in};

use dx_model::{Cell, Rule};
use std::alloc::{AllocError, Global};

/// Adds the variables that stand in these cells, in order.
fn push_variables(cells: &[Cell], variables: &mut Vec<u32>) -> Result<(), AllocError>
    ensures { OnOk result (variables.new.items ≡ variables.old.items ++ variables_in cells.now) }
{
    for cell in cells {
        if let Cell::Var(x) = cell {
            variables.push(*x)?;
        }
    }
    Ok(())
}

/// The variables that stand in the conclusion, ascending.
///
/// # Errors
///
/// `AllocError` if there is no memory.
pub fn exported(alloc: Global, rule: &Rule) -> Result<Vec<u32>, AllocError>
    ensures { IfOk result (λ v. v.items ≡ exported_of rule.now) }
{
    let mut variables = Vec::new(alloc);
    for atom in rule.conclusion.items() {
        push_variables(atom.cells.items(), &mut variables)?;
    }
    variables.sort()?;
    variables.dedup();
    Ok(variables)
}
