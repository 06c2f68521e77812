// Single cells.
ghost use Rattle.std.specs.Prelude.{◌≡◌};
ghost use Rattle.dx_model.specs.Covers.{same_cell};

use dx_model::Cell;

/// Whether two cells are one.
pub(crate) fn is_same_cell(a: &Cell, b: &Cell) -> bool
    ensures { result ≡ same_cell a.now b.now }
{
    match (a, b) {
        (Cell::Var(x), Cell::Var(y)) => *x == *y,
        (Cell::Ex(v), Cell::Ex(w)) => *v == *w,
        (Cell::Lit(t), Cell::Lit(u)) => t == u,
        _ => false,
    }
}
