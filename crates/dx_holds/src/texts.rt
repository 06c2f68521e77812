// The texts of variables. A tuple has a text for each variable of the atoms, ascending.
ghost use Rattle.std.specs.Prelude.{◌≡◌, [], ◌∷◌, ◌++◌, List, length};
ghost use Rattle.dx_base.specs.Members.{◌∈◌};
ghost use Rattle.dx_model.specs.declared.rules.Cell.{Cell as AnyCell};
ghost use Rattle.dx_model.specs.declared.rules.Cell.TheVariants.{Var};
ghost use Rattle.dx_model.specs.Rules.{cells_of, variables};
ghost use Rattle.dx_holds.specs.Least.{IsLeast};
ghost use Rattle.dx_holds.specs.Searching.{texts};

use dx_base::Text;
use dx_model::{Atom, Cell};

/// The lesser of two variables, of which only one that is at least `from` counts.
fn lesser(least: Option<u32>, variable: u32, from: u64) -> Option<u32>
    ensures { (cells : List AnyCell) (c : AnyCell) → c ≡ Var variable → IsLeast cells from least → IsLeast (cells ++ c ∷ []) from result }
{
    if (variable as u64) < from {
        return least;
    }
    let Some(other) = least else {
        return Some(variable);
    };
    if other <= variable {
        return least;
    }
    Some(variable)
}

/// The least variable of cells, and of those before them.
fn least_with(start: Option<u32>, cells: &[Cell], from: u64) -> Option<u32>
    ensures { (before : List AnyCell) → IsLeast before from start → IsLeast (before ++ cells.now) from result }
{
    let mut least = start;
    for cell in cells {
        if let Cell::Var(variable) = cell {
            least = lesser(least, *variable, from);
        }
    }
    least
}

/// The least variable of the atoms that is at least `from`.
fn least_variable(atoms: &[Atom], from: u64) -> Option<u32>
    ensures { IsLeast (cells_of atoms.now) from result }
{
    let mut least = None;
    for atom in atoms {
        least = least_with(least, atom.cells.items(), from);
    }
    least
}

/// The text of a variable of the atoms.
pub(crate) fn text_for<'a>(atoms: &[Atom], tuple: &'a [Text], variable: u32) -> &'a Text
    requires known { Var variable ∈ cells_of atoms.now }
    requires tuple { length tuple.now ≡ length (variables (cells_of atoms.now)) }
    ensures { result.now ≡ texts atoms.now tuple.now variable }
{
    let mut from = 0u64;
    for i in 0..tuple.len() {
        let Some(next) = least_variable(atoms, from) else {
            unreachable!()
        };
        if next == variable {
            return &tuple[i];
        }
        from = next as u64 + 1;
    }
    unreachable!()
}
