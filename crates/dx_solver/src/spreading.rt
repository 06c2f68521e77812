// Cutting until nothing changes.
ghost use Rattle.std.specs.Prelude.{◌≡◌, ◌≤◌, ◌^◌, ℕ, IfOk, length, true};
ghost use Rattle.dx_base.specs.Members.{Each};
ghost use Rattle.dx_solver.specs.Domains.{Keeps, weight};
ghost use Rattle.dx_solver.specs.Questions.{FitsAtom, HasImageRow};

use crate::atom::{PatternAtom, Term};
use crate::cutting::{cut, has_known};
use crate::domain::Domain;
use crate::linked::count_of;
use crate::question::Question;
use std::alloc::{AllocError, Global};
use std::mem::swap;

/// A work list: atoms that are to be looked at again, those that came last after all others; the one that is looked at now; and
/// for each variable the atoms that it stands in and how often one of them could be no row. All of it is a matter of time alone.
#[derive(Drop)]
pub(crate) struct Agenda {
    waiting: Vec<usize>,
    later: Vec<usize>,
    is_waiting: Vec<bool>,
    atoms_of: Vec<Vec<usize>>,
    failures: Vec<u32>,
    current: usize,
}

impl Agenda {
    /// Nothing to be done yet.
    ///
    /// # Errors
    ///
    /// `AllocError` if there is no memory.
    pub(crate) fn new(
        alloc: Global,
        atoms: &[PatternAtom],
        variables: usize,
    ) -> Result<Agenda, AllocError> {
        let mut atoms_of = Vec::with_capacity(alloc, variables)?;
        for _ in 0..variables {
            atoms_of.push(Vec::new(alloc))?;
        }
        for place in 0..atoms.len() {
            note_atom(&mut atoms_of, atoms[place].terms.items(), place)?;
        }
        Ok(Agenda {
            waiting: Vec::new(alloc),
            later: Vec::new(alloc),
            is_waiting: vec![in alloc; false; atoms.len()]?,
            atoms_of,
            failures: vec![in alloc; 0; variables]?,
            current: 0,
        })
    }

    // An atom more to be looked at.
    fn add(&mut self, atom: usize) -> Result<(), AllocError> {
        if let Some(waits) = self.is_waiting.get_mut(atom) {
            if !*waits {
                *waits = true;
                self.later.push(atom)?;
            }
        }
        Ok(())
    }

    // The atoms of a variable.
    fn add_atoms_of(&mut self, variable: u32) -> Result<(), AllocError> {
        for place in 0..count_of(&self.atoms_of, variable) {
            if let Some(atom) = self.atom_of(variable, place) {
                self.add(atom)?;
            }
        }
        Ok(())
    }

    // The atoms of a variable but the one that is looked at now.
    fn add_others_of(&mut self, variable: u32) -> Result<(), AllocError> {
        for place in 0..count_of(&self.atoms_of, variable) {
            if let Some(atom) = self.atom_of(variable, place) {
                if atom != self.current {
                    self.add(atom)?;
                }
            }
        }
        Ok(())
    }

    // One of the atoms that a variable stands in.
    fn atom_of(&self, variable: u32, place: usize) -> Option<usize> {
        match self.atoms_of.get(variable as usize) {
            None => None,
            Some(atoms) => atoms.get(place).copied(),
        }
    }

    /// For each variable, how often an atom with it could be no row.
    pub(crate) fn failures(&self) -> &[u32] {
        &self.failures
    }

    // An atom with these terms could be no row.
    fn blame(&mut self, terms: &[Term]) {
        for term in terms {
            if let Term::Variable(variable) = term {
                if let Some(count) = self.failures.get_mut(*variable as usize) {
                    *count = count.saturating_add(1);
                }
            }
        }
    }

    // Nothing to be done.
    fn clear(&mut self) {
        for _ in 0..self.is_waiting.len() {
            if let None = self.next() {
                return;
            }
        }
    }

    // The atoms with a term of which one number is left, or those without.
    fn add_all(
        &mut self,
        atoms: &[PatternAtom],
        domains: &[Domain],
        known: bool,
    ) -> Result<(), AllocError> {
        for place in 0..atoms.len() {
            if has_known(domains, atoms[place].terms.items()) == known {
                self.add(place)?;
            }
        }
        Ok(())
    }

    // The atoms of a variable are to be looked at, or all: those of which something is known come first.
    fn begin(
        &mut self,
        changed: Option<u32>,
        atoms: &[PatternAtom],
        domains: &[Domain],
    ) -> Result<(), AllocError> {
        if let Some(variable) = changed {
            return self.add_atoms_of(variable);
        }
        self.add_all(atoms, domains, false)?;
        self.add_all(atoms, domains, true)
    }

    // The next atom to be looked at.
    fn next(&mut self) -> Option<usize> {
        if self.waiting.len() == 0 {
            swap(&mut self.waiting, &mut self.later);
        }
        let atom = self.waiting.pop()?;
        if let Some(waits) = self.is_waiting.get_mut(atom) {
            *waits = false;
        }
        self.current = atom;
        Some(atom)
    }
}

// Notes that the atom at a place has the variables among these terms.
fn note_atom(
    atoms_of: &mut Vec<Vec<usize>>,
    terms: &[Term],
    place: usize,
) -> Result<(), AllocError> {
    for term in terms {
        if let Term::Variable(variable) = term {
            if let Some(atoms) = atoms_of.get_mut(*variable as usize) {
                atoms.push(place)?;
            }
        }
    }
    Ok(())
}

// Cuts by one atom. The other atoms of the variables that changed are to be looked at again.
fn spread_one(
    alloc: Global,
    question: &Question<'_, '_>,
    agenda: &mut Agenda,
    domains: &mut Vec<Domain>,
    atom: &PatternAtom,
) -> Result<bool, AllocError>
    requires { FitsAtom question.now.numbers.now.tables (length domains.old.items) atom.now }
    ensures kept { IfOk result (λ alive. (a : ℕ → ℕ) → Keeps domains.old.items a
        → HasImageRow question.now.numbers.now.tables question.now.taken.now a atom.now → (alive ≡ true) × Keeps domains.new.items a) }
    ensures many { IfOk result (λ _. length domains.new.items ≡ length domains.old.items) }
    ensures lighter { IfOk result (λ _. weight (2 ^ 32) domains.new.items ≤ weight (2 ^ 32) domains.old.items) }
{
    let mut changed = Vec::new(alloc);
    let alive = cut(alloc, question, domains, atom, &mut changed)?;
    for variable in &changed {
        agenda.add_others_of(*variable)?;
    }
    Ok(alive)
}

/// Cuts until nothing changes. Says whether each atom can be a row.
///
/// # Errors
///
/// `AllocError` if there is no memory.
pub(crate) fn spread(
    alloc: Global,
    question: &Question<'_, '_>,
    agenda: &mut Agenda,
    domains: &mut Vec<Domain>,
    changed: Option<u32>,
) -> Result<bool, AllocError>
    requires { Each question.now.atoms.now (FitsAtom question.now.numbers.now.tables (length domains.old.items)) }
    ensures kept { IfOk result (λ alive. (a : ℕ → ℕ) → Keeps domains.old.items a
        → Each question.now.atoms.now (HasImageRow question.now.numbers.now.tables question.now.taken.now a)
        → (alive ≡ true) × Keeps domains.new.items a) }
    ensures many { IfOk result (λ _. length domains.new.items ≡ length domains.old.items) }
    ensures lighter { IfOk result (λ _. weight (2 ^ 32) domains.new.items ≤ weight (2 ^ 32) domains.old.items) }
{
    let atoms = question.atoms;
    agenda.begin(changed, atoms, domains.as_slice())?;
    for _ in 0..u64::MAX {
        let Some(place) = agenda.next() else {
            return Ok(true);
        };
        if place >= atoms.len() {
            return Ok(true);
        }
        let alive = spread_one(alloc, question, agenda, domains, &atoms[place])?;
        if !alive {
            agenda.blame(atoms[place].terms.items());
            agenda.clear();
            return Ok(false);
        }
    }
    Ok(true)
}
