// A plain search with few steps: small and easy questions end here.
ghost use Rattle.std.specs.Prelude.{◌≡◌, IfOk, length};
ghost use Rattle.dx_base.specs.Members.{Each};
ghost use Rattle.dx_solver.specs.Questions.{FitsAtom};

use crate::atom::{PatternAtom, Term};
use crate::domain::Domain;
use crate::question::Question;
use crate::rows::next_candidate;
use std::alloc::{AllocError, Global};

/// A row that an atom was made, and how many variables had got their numbers before.
#[derive(Clone, Copy)]
struct Step {
    place: u32,
    before: usize,
}

/// The steps, and the variables that got their numbers in them.
#[derive(Drop)]
struct Trail {
    steps: Vec<Step>,
    variables: Vec<u32>,
}

// Gives the variables of an atom, of which nothing is known yet, the numbers of a row.
fn bind(
    domains: &mut Vec<Domain>,
    trail: &mut Trail,
    terms: &[Term],
    row: &[u32],
) -> Result<(), AllocError>
    ensures { length domains.new.items ≡ length domains.old.items }
{
    for (term, number) in terms.iter().zip(row) {
        if let Term::Variable(variable) = term {
            if let Some(domain) = domains.get_mut(*variable as usize) {
                if let Domain::Any = domain {
                    *domain = Domain::One(*number);
                    trail.variables.push(*variable)?;
                }
            }
        }
    }
    Ok(())
}

// Takes the numbers of the last step back, and gives the place after its row.
fn back(domains: &mut Vec<Domain>, trail: &mut Trail) -> Option<u32>
    ensures { length domains.new.items ≡ length domains.old.items }
{
    let step = trail.steps.pop()?;
    for _ in step.before..trail.variables.len() {
        if let Some(variable) = trail.variables.pop() {
            if let Some(domain) = domains.get_mut(variable as usize) {
                *domain = Domain::Any;
            }
        }
    }
    Some(step.place.saturating_add(1))
}

// Makes an atom the next row from a place on, or else takes the last step back. Gives the place to go on from.
fn advance(
    question: &Question<'_, '_>,
    domains: &mut Vec<Domain>,
    trail: &mut Trail,
    atom: &PatternAtom,
    from: u32,
) -> Result<Option<u32>, AllocError>
    requires { FitsAtom question.now.numbers.now.tables (length domains.old.items) atom.now }
    ensures { length domains.new.items ≡ length domains.old.items }
{
    match next_candidate(question, domains, atom, from) {
        None => Ok(back(domains, trail)),
        Some(place) => {
            let before = trail.variables.len();
            let row = question.numbers.row(atom.table, place);
            bind(domains, trail, atom.terms.items(), row)?;
            trail.steps.push(Step { place, before })?;
            Ok(Some(0))
        }
    }
}

/// Gives variables of which nothing is known numbers, so that atoms become rows in this order. Says whether it came to the end
/// of it within so many steps: a matter of time alone, since the answer is looked at again.
///
/// # Errors
///
/// `AllocError` if there is no memory.
pub(crate) fn place_all(
    alloc: Global,
    question: &Question<'_, '_>,
    domains: &mut Vec<Domain>,
    order: &[usize],
    limit: usize,
) -> Result<bool, AllocError>
    requires { Each question.now.atoms.now (FitsAtom question.now.numbers.now.tables (length domains.old.items)) }
    ensures { IfOk result (λ _. length domains.new.items ≡ length domains.old.items) }
{
    let atoms = question.atoms;
    let mut trail = Trail {
        steps: Vec::new(alloc),
        variables: Vec::new(alloc),
    };
    let mut from = 0;
    for _ in 0..limit {
        let Some(place) = order.get(trail.steps.len()) else {
            return Ok(true);
        };
        if *place >= atoms.len() {
            return Ok(false);
        }
        match advance(question, domains, &mut trail, &atoms[*place], from)? {
            None => return Ok(false),
            Some(next) => from = next,
        }
    }
    Ok(false)
}
