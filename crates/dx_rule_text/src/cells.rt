// The text of cells.
ghost use Rattle.std.specs.Prelude.{◌≡◌, ◌++◌, OnOk, map, string_bytes};
ghost use Rattle.dx_rule_text.specs.Printed.{cell_text, separated};

use crate::strings::push_string;
use dx_model::Cell;
use std::alloc::AllocError;
use std::fmt::Write;

fn push_cell(cell: &Cell, out: &mut String) -> Result<(), AllocError>
    ensures { OnOk result (string_bytes out.new ≡ string_bytes out.old ++ cell_text cell.now) }
{
    match cell {
        Cell::Var(number) => write!(out, "x{number}")?,
        Cell::Ex(number) => write!(out, "y{number}")?,
        Cell::Lit(text) => push_string(text.as_str(), out)?,
    }
    Ok(())
}

// Cells, parted by a comma and a space.
pub fn push_cells(cells: &[Cell], out: &mut String) -> Result<(), AllocError>
    ensures { OnOk result (string_bytes out.new ≡ string_bytes out.old ++ separated (map cell_text cells.now)) }
{
    let Some((cell, others)) = cells.split_first() else {
        return Ok(());
    };
    push_cell(cell, out)?;
    for other in others {
        out.push_str(", ")?;
        push_cell(other, out)?;
    }
    Ok(())
}
