// The numbers of existential variables.
ghost use Rattle.std.specs.Prelude.{◌≡◌, ◌<◌, ◌*◌, flat_map};
ghost use Rattle.dx_base.specs.declared.limits.TheConstants.{OCCURRENCES, COLUMNS};
ghost use Rattle.dx_base.specs.Members.{Each};
ghost use Rattle.dx_model.specs.Rules.{existential_in, existentials};
ghost use Rattle.dx_closing.specs.Closing.{above};

use dx_model::{Atom, Cell};

/// The least number from `next` on that is above those of the row's existential variables. These are below 4,096: 64
/// atoms with 64 cells each have no more.
fn above_row(next: u32, row: &[Cell]) -> u32
    requires { Each (flat_map existential_in row.now) (λ v. v < OCCURRENCES * COLUMNS) }
    ensures { result ≡ above next (flat_map existential_in row.now) }
{
    let mut above = next;
    for cell in row {
        if let Cell::Ex(variable) = cell {
            above = above.max(*variable + 1);
        }
    }
    above
}

/// The least number that is above those of all existential variables. These are below 4,096: 64 atoms with 64 cells
/// each have no more.
pub fn above_all(atoms: &[Atom]) -> u32
    requires { Each (existentials atoms.now) (λ v. v < OCCURRENCES * COLUMNS) }
    ensures { result ≡ above 0 (existentials atoms.now) }
{
    let mut above = 0;
    for atom in atoms {
        above = above_row(above, atom.cells.items());
    }
    above
}
