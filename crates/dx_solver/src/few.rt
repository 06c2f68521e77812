// A search of all of a question with few atoms.
ghost use Rattle.std.specs.Prelude.{◌≡◌, ◌<◌, ℕ, IfOk, length, map, slice_index};
ghost use Rattle.dx_base.specs.Members.{Each};
ghost use Rattle.dx_solver.specs.Domains.{Keeps, term_at};
ghost use Rattle.dx_solver.specs.Finding.{FindsNumbers};
ghost use Rattle.dx_solver.specs.Questions.{FitsAtom, Solves, number_under};

use crate::atom::{PatternAtom, Term};
use crate::cutting::is_known;
use crate::domain::Domain;
use crate::judging::answer_at;
use crate::node::copies;
use crate::question::Question;
use crate::rows::next_candidate;
use std::alloc::{AllocError, Global};

/// What a search found: numbers for the variables, that there are none, or neither within its steps.
#[derive(Drop)]
pub(crate) enum Found {
    Answer(Vec<u32>),
    Nothing,
    Unknown,
}

/// Up to how many atoms are searched in this way.
const MOST: usize = 12;

/// How many steps that may take.
const STEPS: u32 = 400;

/// Which atoms have rows, and how many steps are left: a matter of time alone.
#[derive(Drop)]
struct Progress {
    is_placed: Vec<bool>,
    steps: u32,
}

// How many of an atom's numbers are known; more than any atom has if all are.
fn known_count(domains: &[Domain], terms: &[Term]) -> usize {
    let mut known = 0usize;
    for term in terms {
        if is_known(domains, *term) {
            known = known.saturating_add(1);
        }
    }
    if known == terms.len() {
        return usize::MAX;
    }
    known
}

impl Progress {
    // One step less. Says whether one was left.
    fn step(&mut self) -> bool {
        if self.steps == 0 {
            return false;
        }
        self.steps -= 1;
        true
    }

    // Notes whether an atom has a row.
    fn mark(&mut self, place: usize, placed: bool) {
        if let Some(mark) = self.is_placed.get_mut(place) {
            *mark = placed;
        }
    }

    // Of the atoms without a row the first of which most is known.
    fn next(&self, domains: &[Domain], atoms: &[PatternAtom]) -> Option<usize> {
        let mut best = None;
        let mut most = 0;
        for place in 0..atoms.len() {
            if let Some(false) = self.is_placed.get(place) {
                let known = known_count(domains, atoms[place].terms.items());
                if best.is_none() || known > most {
                    best = Some(place);
                    most = known;
                }
            }
        }
        best
    }
}

// Gives a term a number, if it is a variable.
fn fix(domains: &mut Vec<Domain>, term: Term, number: u32)
    ensures many { length domains.new.items ≡ length domains.old.items }
    ensures kept { (a : ℕ → ℕ) → Keeps domains.old.items a → number_under a term ≡ number → Keeps domains.new.items a }
{
    if let Term::Variable(variable) = term {
        let place = variable as usize;
        if place < domains.len() {
            domains[place] = Domain::One(number);
        }
    }
}

// Gives the term in a column the number that stands there, if it is a variable.
fn fix_at(domains: &mut Vec<Domain>, terms: &[Term], row: &[u32], column: usize)
    requires width { length terms.now ≡ length row.now }
    requires column { column < length row.now }
    ensures many { length domains.new.items ≡ length domains.old.items }
    ensures kept { (a : ℕ → ℕ) → Keeps domains.old.items a → number_under a (term_at terms.now column) ≡ slice_index row.now column
        → Keeps domains.new.items a }
{
    fix(domains, terms[column], row[column]);
}

// The domains if an atom with these terms becomes a row.
fn fixed(
    alloc: Global,
    domains: &[Domain],
    terms: &[Term],
    row: &[u32],
) -> Result<Vec<Domain>, AllocError>
    requires { length terms.now ≡ length row.now }
    ensures many { IfOk result (λ ds. length ds.items ≡ length domains.now) }
    ensures kept { IfOk result (λ ds. (a : ℕ → ℕ) → Keeps domains.now a → row.now ≡ map (number_under a) terms.now → Keeps ds.items a) }
{
    let mut all = copies(alloc, domains)?;
    for column in 0..row.len() {
        fix_at(&mut all, terms, row, column);
    }
    Ok(all)
}

// What is found if each atom has a row.
fn found_at(
    alloc: Global,
    question: &Question<'_, '_>,
    domains: &[Domain],
) -> Result<Found, AllocError>
    requires fits { Each question.now.atoms.now (FitsAtom question.now.numbers.now.tables (length question.now.known.now)) }
    requires many { length domains.now ≡ length question.now.known.now }
    ensures { IfOk result (FindsNumbers (Solves question.now.numbers.now.tables question.now.taken.now question.now.atoms.now
        question.now.known.now) domains.now (length question.now.known.now)) }
{
    match answer_at(alloc, question, domains)? {
        Some(xs) => Ok(Found::Answer(xs)),
        None => Ok(Found::Unknown),
    }
}

// Makes the atoms that have no rows rows, in each way.
fn place_left(
    alloc: Global,
    question: &Question<'_, '_>,
    domains: &[Domain],
    progress: &mut Progress,
    depth: usize,
) -> Result<Found, AllocError>
    requires fits { Each question.now.atoms.now (FitsAtom question.now.numbers.now.tables (length question.now.known.now)) }
    requires many { length domains.now ≡ length question.now.known.now }
    ensures { IfOk result (FindsNumbers (Solves question.now.numbers.now.tables question.now.taken.now question.now.atoms.now
        question.now.known.now) domains.now (length question.now.known.now)) }
{
    if depth == 0 || !progress.step() {
        return Ok(Found::Unknown);
    }
    let atoms = question.atoms;
    let Some(place) = progress.next(domains, atoms) else {
        return found_at(alloc, question, domains);
    };
    if place >= atoms.len() {
        return Ok(Found::Unknown);
    }
    progress.mark(place, true);
    let atom = &atoms[place];
    let mut next = 0;
    while let Some(at) = next_candidate(question, domains, atom, next) {
        let row = question.numbers.row(atom.table, at);
        let below = fixed(alloc, domains, atom.terms.items(), row)?;
        let found = place_left(alloc, question, &below, progress, depth - 1)?;
        match found {
            Found::Nothing => {}
            other => return Ok(other),
        }
        prove!(at < question.numbers.count(atom.table));
        next = at + 1;
    }
    progress.mark(place, false);
    Ok(Found::Nothing)
}

/// Searches all of a question, if it has few atoms and that takes few steps.
///
/// # Errors
///
/// `AllocError` if there is no memory.
pub(crate) fn search_few(
    alloc: Global,
    question: &Question<'_, '_>,
    domains: &[Domain],
) -> Result<Found, AllocError>
    requires fits { Each question.now.atoms.now (FitsAtom question.now.numbers.now.tables (length question.now.known.now)) }
    requires many { length domains.now ≡ length question.now.known.now }
    ensures { IfOk result (FindsNumbers (Solves question.now.numbers.now.tables question.now.taken.now question.now.atoms.now
        question.now.known.now) domains.now (length question.now.known.now)) }
{
    let count = question.atoms.len();
    if count > MOST {
        return Ok(Found::Unknown);
    }
    let mut progress = Progress {
        is_placed: vec![in alloc; false; count]?,
        steps: STEPS,
    };
    place_left(alloc, question, domains, &mut progress, count + 1)
}
