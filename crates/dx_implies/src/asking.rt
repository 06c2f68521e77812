// The conclusion of a rule as a question: whether its atoms are rows of an instance.
ghost use Rattle.std.specs.Prelude.{◌<◌, ◌≤◌, ℕ, IfOk, MatchOption};
ghost use Rattle.std.specs.List.{AllZip};
ghost use Rattle.dx_base.specs.Members.{◌∈◌, Each};
ghost use Rattle.dx_model.specs.Following.{frozen_text as frozen_text_of};
ghost use Rattle.dx_model.specs.Rules.{cells_of};
ghost use Rattle.dx_model.specs.declared.values.Value.TheVariants.{Const};
ghost use Rattle.dx_solver.specs.declared.atom.PatternAtom.{PatternAtom as AtomOf};
ghost use Rattle.dx_solver.specs.declared.atom.Term.TheVariants.{Variable};
ghost use Rattle.dx_implies.specs.Asking.{HasNowhere, IsNowhere, SaysAtom, SaysCell, SaysText};

use crate::freezing::frozen_text;
use dx_base::Text;
use dx_instance::Numbers;
use dx_model::{Atom, Cell, Value};
use dx_solver::{PatternAtom, Term, Terms};
use std::alloc::{AllocError, Global};

/// The number of a text, if it has one.
fn number_term(text: Text, numbers: &Numbers<'_>) -> Option<Term>
    ensures { MatchOption result (¬ (Const text ∈ numbers.now.symbols)) (SaysText numbers.now.symbols text) }
{
    match numbers.find(&Value::Const(text)) {
        None => None,
        Some(number) => Some(Term::Number(number)),
    }
}

/// The term that says what a cell does, with the prefix and the digits of x as the text of variable x. There is none if no
/// number stands for its text.
fn term_of(
    alloc: Global,
    cell: &Cell,
    prefix: &Text,
    numbers: &Numbers<'_>,
) -> Result<Option<Term>, AllocError>
    ensures { IfOk result (λ o. MatchOption o (IsNowhere numbers.now.symbols (frozen_text_of prefix.now) cell.now)
        (SaysCell numbers.now.symbols (frozen_text_of prefix.now) cell.now)) }
{
    match cell {
        Cell::Ex(variable) => Ok(Some(Term::Variable(*variable))),
        Cell::Var(variable) => Ok(number_term(frozen_text(alloc, prefix, *variable)?, numbers)),
        Cell::Lit(text) => Ok(number_term(text.copy()?, numbers)),
    }
}

/// The terms of cells, unless no number stands for the text of one.
fn terms_of(
    alloc: Global,
    cells: &[Cell],
    prefix: &Text,
    numbers: &Numbers<'_>,
) -> Result<Option<Terms>, AllocError>
    ensures { IfOk result (λ o. MatchOption o (HasNowhere numbers.now.symbols (frozen_text_of prefix.now) cells.now)
        (AllZip (SaysCell numbers.now.symbols (frozen_text_of prefix.now)) cells.now)) }
{
    let mut terms = Terms::new(alloc);
    for cell in cells {
        let Some(term) = term_of(alloc, cell, prefix, numbers)? else {
            return Ok(None);
        };
        terms.push(term)?;
    }
    Ok(Some(terms))
}

/// The atoms of numbers that say what atoms do, unless no number stands for the text of a cell.
pub(crate) fn atoms_of(
    alloc: Global,
    atoms: &[Atom],
    prefix: &Text,
    numbers: &Numbers<'_>,
) -> Result<Option<Vec<PatternAtom>>, AllocError>
    ensures { IfOk result (λ o. MatchOption o (HasNowhere numbers.now.symbols (frozen_text_of prefix.now) (cells_of atoms.now))
        (λ all. AllZip (SaysAtom numbers.now.symbols (frozen_text_of prefix.now)) atoms.now all.items)) }
{
    let mut all = Vec::with_capacity(alloc, atoms.len())?;
    for atom in atoms {
        let Some(terms) = terms_of(alloc, atom.cells.items(), prefix, numbers)? else {
            return Ok(None);
        };
        all.push(PatternAtom {
            table: atom.table,
            terms,
        })?;
    }
    Ok(Some(all))
}

/// The greater of two numbers.
fn greater(a: usize, b: usize) -> usize
    ensures first { a ≤ result }
    ensures second { b ≤ result }
{
    if a < b { b } else { a }
}

/// The greater of a number and those after the variables of an atom.
fn above_terms(terms: &[Term], least: usize) -> usize
    ensures least { least ≤ result }
    ensures above { (v : ℕ) → Variable v ∈ terms.now → v < result }
{
    let mut above = least;
    for term in terms {
        if let Term::Variable(variable) = term {
            above = greater(above, *variable as usize + 1);
        }
    }
    above
}

/// A number above the variables of atoms.
pub(crate) fn above_atoms(atoms: &[PatternAtom]) -> usize
    ensures { Each atoms.now (λ (p : AtomOf). (v : ℕ) → Variable v ∈ p.terms → v < result) }
{
    let mut above = 0;
    for atom in atoms {
        above = above_terms(atom.terms.items(), above);
    }
    above
}
