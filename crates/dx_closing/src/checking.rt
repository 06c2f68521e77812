// Whether a conclusion can be closed.
ghost use Rattle.std.specs.Prelude.{◌↔◌, ℕ, IfSome, IsSome, IsTrue, flat_map};
ghost use Rattle.dx_base.specs.Members.{Each};
ghost use Rattle.dx_model.specs.Solutions.{AtomFits};
ghost use Rattle.dx_model.specs.Fitting.{AreNumbered, ByFirstAppearance};
ghost use Rattle.dx_model.specs.Rules.{existential_in};
ghost use Rattle.dx_schema.specs.Tables.{model_tables};

use dx_model::{Atom, Cell};
use dx_schema::Schema;

/// Whether an atom is of a table of the target, with a cell for each of its columns.
fn fits(atom: &Atom, target: &Schema) -> bool
    ensures { IsTrue result ↔ AtomFits (model_tables target.now) atom.now }
{
    atom.table < target.tables() && atom.cells.len() == u64::from(target.width(atom.table))
}

/// Whether all atoms are of tables of the target, with a cell for each column.
fn all_fit(atoms: &[Atom], target: &Schema) -> bool
    ensures { IsTrue result ↔ Each atoms.now (AtomFits (model_tables target.now)) }
{
    atoms.iter().all(|atom| fits(atom, target))
}

/// The number after those of the row's existential variables, if `next` is the first that has not appeared. None
/// if one of them skips a number.
fn number_after(next: u64, row: &[Cell]) -> Option<u64>
    ensures some { IfSome result (λ m. ByFirstAppearance next (flat_map existential_in row.now) m) }
    ensures none { IsSome result ↔ ((m : ℕ) × ByFirstAppearance next (flat_map existential_in row.now) m) }
{
    let mut after = next;
    for cell in row {
        if let Cell::Ex(variable) = cell {
            let number = u64::from(*variable);
            if number > after {
                return None;
            }
            if number == after {
                after += 1;
            }
        }
    }
    Some(after)
}

/// Whether the existential variables are numbered by first appearance.
fn are_numbered(atoms: &[Atom]) -> bool
    ensures { IsTrue result ↔ AreNumbered atoms.now }
{
    let mut next = 0;
    for atom in atoms {
        match number_after(next, atom.cells.items()) {
            Some(after) => next = after,
            None => return false,
        }
    }
    true
}

/// Whether a rule with this conclusion can be given to [`close`](crate::close): its atoms are of tables of the target,
/// with a cell for each column, and its existential variables are numbered by first appearance.
pub fn can_be_closed(conclusion: &[Atom], target: &Schema) -> bool
    ensures { IsTrue result ↔ ((Each conclusion.now (AtomFits (model_tables target.now))) × AreNumbered conclusion.now) }
{
    all_fit(conclusion, target) && are_numbered(conclusion)
}
