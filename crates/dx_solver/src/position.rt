// Variables where they stand.
ghost use Rattle.std.specs.Prelude.{◌≡◌, ◌<◌, List, MatchOption, length};
ghost use Rattle.dx_solver.specs.Domains.{choice_count, term_at};
ghost use Rattle.dx_solver.specs.Terms.{Term-set};
ghost use Rattle.dx_solver.specs.declared.atom.Term.TheVariants.{Variable};
ghost use Rattle.dx_solver.specs.declared.domain.Domain.{Domain as Left};

use crate::atom::{PatternAtom, Term};

/// A variable where it stands: in a column of an atom.
#[derive(Drop)]
pub(crate) struct Position<'a> {
    pub atom: &'a PatternAtom,
    pub column: usize,
    pub variable: u32,
    ghost within: { column < length atom.now.terms },
    ghost stands: { term_at atom.now.terms column ≡ Variable variable } by { Term-set _ _ },
}

impl<'a> Position<'a> {
    /// The variable in a column of an atom, if one stands there.
    pub(crate) fn of(atom: &'a PatternAtom, column: usize) -> Option<Position<'a>>
        requires { column < length atom.now.terms }
        ensures { MatchOption result ((ds : List Left) → choice_count ds (term_at atom.now.terms column) ≡ 1)
            (λ p. (p.atom.now ≡ atom.now) × (p.column ≡ column)) }
    {
        match atom.terms.items()[column] {
            Term::Number(_) => None,
            Term::Variable(variable) => Some(Position {
                atom,
                column,
                variable,
            }),
        }
    }
}
