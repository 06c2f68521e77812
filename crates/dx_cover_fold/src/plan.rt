// Cells are planned: where in a row the numbers by which their values are compared are found.
ghost use Rattle.std.specs.Prelude.{IfOk};
ghost use Rattle.std.specs.List.{AllZip};
ghost use Rattle.dx_model.specs.declared.rules.Cell.TheVariants.{Var as VarCell};
ghost use Rattle.dx_cover_fold.specs.Codes.{IsPlanned};

use crate::matched::Matched;
use crate::number_at::NumberAt;
use dx_base::Text;
use dx_model::{Cell, Value};
use std::alloc::{AllocError, Global};

/// The column of a variable, or else the number of the empty text.
fn plan_variable(
    alloc: Global,
    matches: &Matched<'_>,
    variables: &[u32],
    width: u32,
    variable: u32,
) -> Result<NumberAt, AllocError>
    ensures { IfOk result (IsPlanned matches.now.symbols variables.now width (VarCell variable)) }
{
    for i in 0..variables.len().min(width as usize) {
        if variable == variables[i] {
            return Ok(NumberAt::Column(i as u32));
        }
    }
    let nothing = Value::Const(Text::from_str(alloc, "")?);
    Ok(NumberAt::Fixed(matches.code(&nothing)))
}

/// The plan of a cell.
fn plan_cell(
    alloc: Global,
    matches: &Matched<'_>,
    variables: &[u32],
    width: u32,
    cell: &Cell,
) -> Result<NumberAt, AllocError>
    ensures { IfOk result (IsPlanned matches.now.symbols variables.now width cell.now) }
{
    match cell {
        Cell::Var(x) => plan_variable(alloc, matches, variables, width, *x),
        Cell::Ex(_) => Ok(NumberAt::Fixed(matches.outside())),
        Cell::Lit(text) => Ok(NumberAt::Fixed(matches.code(&Value::Const(text.copy()?)))),
    }
}

/// The plans of cells, for rows of this width with the numbers of these variables.
pub(crate) fn plan_cells(
    alloc: Global,
    matches: &Matched<'_>,
    variables: &[u32],
    width: u32,
    cells: &[Cell],
) -> Result<Vec<NumberAt>, AllocError>
    ensures { IfOk result (λ plan. AllZip (IsPlanned matches.now.symbols variables.now width) cells.now plan.items) }
{
    let mut plan = Vec::with_capacity(alloc, cells.len())?;
    for cell in cells {
        plan.push(plan_cell(alloc, matches, variables, width, cell)?)?;
    }
    Ok(plan)
}
