// Atoms: rows with variables.
ghost use Rattle.std.specs.Prelude.{◌≡◌, ◌++◌, ◌∷◌, [], OnErr, OnOk};

use smallvec::SmallVec;
use std::alloc::{AllocError, Global};
use std::marker::Model;

/// What stands in a cell of an atom: a number, or a variable that is to get one.
#[derive(Clone, Copy)]
pub enum Term {
    Number(u32),
    Variable(u32),
}

impl Default for Term {
    fn default() -> Term {
        Term::Number(0)
    }
}

/// The terms of an atom, of which four lie inline. A contract sees their list.
#[derive(Drop)]
pub struct Terms {
    terms: SmallVec<Term, 4>,
}

impl Model for Terms {
    ghost use Rattle.std.specs.Prelude.{List};
    ghost use Rattle.dx_solver.specs.declared.atom.Term.{Term as Cell};

    ghost Value = { List Cell };

    ghost view = { λ t. t.terms.items };
}

impl Terms {
    /// No terms.
    pub fn new(alloc: Global) -> Terms
        ensures { result ≡ [] }
    {
        Terms {
            terms: SmallVec::new(alloc),
        }
    }

    /// One term more, at the end.
    ///
    /// # Errors
    ///
    /// `AllocError` if there is no memory: the terms stay as they were.
    pub fn push(&mut self, term: Term) -> Result<(), AllocError>
        ensures ok { OnOk result (self.new ≡ self.old ++ term ∷ []) }
        ensures err { OnErr result (self.new ≡ self.old) }
    {
        self.terms.push(term)?;
        Ok(())
    }

    /// The terms in order, lent.
    pub fn items(&self) -> &[Term]
        ensures { result.now ≡ self.now }
    {
        self.terms.as_slice()
    }
}

/// A row of a table, in which variables may stand.
#[derive(Drop)]
pub struct PatternAtom {
    pub table: u32,
    pub terms: Terms,
}
