// The images of exported variables.
ghost use Rattle.std.specs.Prelude.{◌≡◌, IfOk, map};
ghost use Rattle.dx_model.specs.Covers.{image_of};
ghost use Rattle.dx_cover_fold.specs.Found.{images_by};

use dx_cover::exported;
use dx_model::{Cell, CellMap, Rule, copy_cell};
use std::alloc::{AllocError, Global};

/// The cell that a list of images gives for a variable of a list.
fn image_in(variables: &[u32], images: &[Cell], variable: u32) -> Result<Cell, AllocError>
    ensures { IfOk result (λ c. c ≡ image_of variables.now images.now variable) }
{
    for i in 0..variables.len().min(images.len()) {
        if variable == variables[i] {
            return copy_cell(&images[i]);
        }
    }
    Ok(Cell::Ex(0))
}

/// The cells that a list of images gives for each variable of a list.
fn images_in(alloc: Global, variables: &[u32], images: &[Cell]) -> Result<Vec<Cell>, AllocError>
    ensures { IfOk result (λ v. v.items ≡ map (image_of variables.now images.now) variables.now) }
{
    let mut cells = Vec::new(alloc);
    for variable in variables {
        cells.push(image_in(variables, images, *variable)?)?;
    }
    Ok(cells)
}

/// The images of a rule's exported variables under a cell map.
pub(crate) fn images_of(
    alloc: Global,
    rule: &Rule,
    cell_map: &CellMap,
) -> Result<Vec<Cell>, AllocError>
    ensures { IfOk result (λ v. v.items ≡ images_by rule.now cell_map.now) }
{
    let variables = exported(alloc, rule)?;
    images_in(alloc, &variables, cell_map.exported.items())
}
