// Atoms for which none of the others can be chosen, so that no cell map is left.
ghost use Rattle.std.specs.Prelude.{◌≡◌, false, true, [], length};
ghost use Rattle.dx_base.specs.Members.{Each};
ghost use Rattle.dx_model.specs.declared.rules.Rule.{Rule as RuleValue};
ghost use Rattle.dx_cover.specs.Partners.{HasNoChoice, IsExcluded, NeverMeet};
ghost use Rattle.dx_cover.specs.Search.{MeetInWidths, maps_under};

use crate::search::{first_is, has_met, is_allowed};
use dx_model::{Atom, Cell, Meeting};

/// Whether the cell can't meet this one any more: it may not, or has met another.
pub(crate) fn never_meets(cell: &Cell, met: &Cell, bound: &[Meeting]) -> bool
    ensures { result ≡ true → NeverMeet bound.now cell.now met.now }
{
    if !is_allowed(cell, met) {
        return true;
    }
    has_met(cell, bound) && !first_is(cell, bound, met)
}

/// Whether the other atom can't be chosen any more.
pub(crate) fn is_excluded(atom: &Atom, other: &Atom, bound: &[Meeting]) -> bool
    requires { length atom.now.cells ≡ length other.now.cells }
    ensures { result ≡ true → IsExcluded bound.now atom.now other.now }
{
    let cells = atom.cells.items();
    let others = other.cells.items();
    cells
        .iter()
        .zip(others)
        .any(|(cell, met)| never_meets(cell, met, bound))
}

/// Whether one of the others may still be chosen for the atom.
pub(crate) fn has_partner(atom: &Atom, others: &[Atom], bound: &[Meeting]) -> bool
    requires { Each others.now (λ b. atom.now.table ≡ b.table → length atom.now.cells ≡ length b.cells) }
    ensures { result ≡ false → HasNoChoice bound.now others.now atom.now }
{
    others.iter().any(|other| atom.table == other.table && !is_excluded(atom, other, bound))
}

/// Whether one of the others may still be chosen for each of the rest. If not, no cell map begins with these meetings.
pub(crate) fn have_partners(rest: &[Atom], others: &[Atom], bound: &[Meeting]) -> bool
    requires { MeetInWidths rest.now others.now }
    ensures { result ≡ false → (i : RuleValue) → maps_under i bound.now rest.now others.now ≡ [] }
{
    rest.iter().all(|atom| has_partner(atom, others, bound))
}
