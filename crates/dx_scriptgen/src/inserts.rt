// The insert steps of rules.
ghost use Rattle.std.specs.Prelude.{◌≡◌, ◌<◌, ◌++◌, IfOk, OnOk, eqb, length, map};
ghost use Rattle.std.specs.List.{position_or_len};
ghost use Rattle.dx_base.specs.Members.{Each};
ghost use Rattle.dx_model.specs.declared.rules.Rule.{Rule as RuleValue};
ghost use Rattle.dx_model.specs.Rules.{exported as exported_of};
ghost use Rattle.dx_schema.specs.Tables.{tables_of};
ghost use Rattle.dx_schema.specs.Names.{table_names_of};
ghost use Rattle.dx_script.specs.Generated.{inserts_of, out_of as out_for};

use dx_base::Items;
use dx_model::{Atom, Cell, Rule};
use dx_schema::Schema;
use dx_script::{Out, Step};
use std::alloc::{AllocError, Global};

/// The place of a number in a list, or its length if it isn't there.
pub(crate) fn position(numbers: &[u32], number: u32) -> u32
    requires { length numbers.now < 4294967296 }
    ensures { result ≡ position_or_len (eqb number) numbers.now }
{
    for place in 0..numbers.len() {
        if number == numbers[place] {
            return place as u32;
        }
    }
    numbers.len() as u32
}

/// What a cell of the conclusion puts in, by the exported variables.
fn out_of(variables: &[u32], cell: &Cell) -> Result<Out, AllocError>
    requires { length variables.now < 4294967296 }
    ensures { IfOk result (λ o. (d : RuleValue) → variables.now ≡ exported_of d → o ≡ out_for d cell.now) }
{
    match cell {
        Cell::Var(variable) => Ok(Out::Column(position(variables, *variable))),
        Cell::Ex(variable) => Ok(Out::Skolem(*variable)),
        Cell::Lit(text) => Ok(Out::Literal(text.copy()?)),
    }
}

/// What the cells of a conclusion atom put in.
fn outs_of(alloc: Global, variables: &[u32], cells: &[Cell]) -> Result<Items<Out>, AllocError>
    requires { length variables.now < 4294967296 }
    ensures { IfOk result (λ outs. (d : RuleValue) → variables.now ≡ exported_of d → outs ≡ map (out_for d) cells.now) }
{
    let mut outs = Items::new(alloc);
    for cell in cells {
        outs.push(out_of(variables, cell)?)?;
    }
    Ok(outs)
}

/// Adds the insert steps of a rule.
pub(crate) fn push_inserts(
    alloc: Global,
    steps: &mut Items<Step>,
    target: &Schema,
    kept: bool,
    number: u32,
    rule: &Rule,
    variables: &[u32],
) -> Result<(), AllocError>
    requires tables { Each rule.now.conclusion (λ a. a.table < length (tables_of target.now)) }
    requires variables { variables.now ≡ exported_of rule.now }
    requires few { length variables.now < 4294967296 }
    ensures { OnOk result (steps.new ≡ steps.old ++ inserts_of (table_names_of target.now) kept number rule.now) }
{
    for atom in rule.conclusion.items() {
        steps.push(Step::InsertRows {
            table: target.name(atom.table).copy()?,
            rule: number,
            kept,
            cells: outs_of(alloc, variables, atom.cells.items())?,
        })?;
    }
    Ok(())
}
