// Cutting what variables can still become by the rows that an atom can be.
ghost use Rattle.std.specs.Prelude.{◌≡◌, ◌<◌, ◌≤◌, ◌^◌, ℕ, IfOk, length, true, slice_index_or};
ghost use Rattle.dx_base.specs.Members.{◌∈◌, Each};
ghost use Rattle.dx_instance.specs.Shown.{numbers_of_table};
ghost use Rattle.dx_solver.specs.Domains.{DomainHas, IsBranched, IsImageRow, Keeps, domain_size, weight};
ghost use Rattle.dx_solver.specs.Questions.{FitsAtom, HasImageRow};
ghost use Rattle.dx_solver.specs.declared.domain.Domain.TheVariants.{Any};

use crate::atom::{PatternAtom, Term};
use crate::domain::Domain;
use crate::node::Node;
use crate::position::Position;
use crate::question::Question;
use crate::rows::{candidates, numbers_in};
use std::alloc::{AllocError, Global};

// Gives a variable a domain, if that is smaller than the one that it has. Says whether it was.
fn narrow(domains: &mut Vec<Domain>, variable: u32, domain: Domain) -> bool
    requires { variable < length domains.old.items }
    ensures kept { (a : ℕ → ℕ) → Keeps domains.old.items a → DomainHas domain (a variable) → Keeps domains.new.items a }
    ensures many { length domains.new.items ≡ length domains.old.items }
    ensures lighter { weight (2 ^ 32) domains.new.items ≤ weight (2 ^ 32) domains.old.items }
    ensures less { domain_size (2 ^ 32) domain < domain_size (2 ^ 32) (slice_index_or domains.old.items variable Any)
        → weight (2 ^ 32) domains.new.items < weight (2 ^ 32) domains.old.items }
{
    if domain.size() >= domains[variable as usize].size() {
        return false;
    }
    domains[variable as usize] = domain;
    true
}

// Whether a list of so many numbers is worth its memory: what is known is to be made shorter, and the rest is to be short.
fn is_wanted(domain: &Domain, count: usize, longest: usize) -> bool {
    match domain {
        Domain::Any => count <= longest,
        Domain::One(_) => false,
        Domain::Many(_) => true,
    }
}

// Cuts the domain of a variable to the numbers that stand in its column at these places. Says whether it got smaller.
fn cut_at(
    alloc: Global,
    question: &Question<'_, '_>,
    domains: &mut Vec<Domain>,
    position: &Position<'_>,
    places: &[u32],
) -> Result<bool, AllocError>
    requires fits { FitsAtom question.now.numbers.now.tables (length domains.old.items) position.now.atom.now }
    requires within { Each places.now (λ p. p < length
        (numbers_of_table question.now.numbers.now.tables position.now.atom.now.table).rows) }
    ensures kept { IfOk result (λ _. (a : ℕ → ℕ) (p : ℕ) → Keeps domains.old.items a → p ∈ places.now
        → IsImageRow question.now.numbers.now.tables question.now.taken.now a position.now.atom.now p → Keeps domains.new.items a) }
    ensures many { IfOk result (λ _. length domains.new.items ≡ length domains.old.items) }
    ensures lighter { IfOk result (λ _. weight (2 ^ 32) domains.new.items ≤ weight (2 ^ 32) domains.old.items) }
{
    let variable = position.variable;
    let longest = question.longest();
    if !is_wanted(&domains[variable as usize], places.len(), longest) {
        return Ok(false);
    }
    let table = position.atom.table;
    let numbers = numbers_in(alloc, question.numbers, table, position.column, places)?;
    let domain = Domain::of(numbers);
    Ok(narrow(domains, variable, domain))
}

/// Up to how many rows a table is gone through for an atom of which no number is known, though some variable has a list.
const NARROW: u32 = 64;

/// Whether one number is left of a term.
pub(crate) fn is_known(domains: &[Domain], term: Term) -> bool {
    match term {
        Term::Number(_) => true,
        Term::Variable(variable) => match domains.get(variable as usize) {
            Some(Domain::One(_)) => true,
            _ => false,
        },
    }
}

/// Whether one number is left of one of the terms.
pub(crate) fn has_known(domains: &[Domain], terms: &[Term]) -> bool {
    terms.iter().any(|term| is_known(domains, *term))
}

// Whether some variable has a list of numbers.
fn is_listed(domains: &[Domain]) -> bool {
    domains
        .iter()
        .any(|domain| matches!(domain, Domain::Many(_)))
}

// Whether the atom waits: to find its rows takes a look at each row of a large table, and some variable has a list, so that a
// number of that is tried first.
fn waits(question: &Question<'_, '_>, domains: &[Domain], atom: &PatternAtom) -> bool
    requires { atom.now.table < length question.now.numbers.now.tables }
{
    question.numbers.count(atom.table) > NARROW
        && !has_known(domains, atom.terms.items())
        && is_listed(domains)
}

/// Cuts the domains of an atom's variables to the numbers that they have in rows that the atom can be. Says whether there is
/// such a row, and adds the variables that changed to a list.
///
/// # Errors
///
/// `AllocError` if there is no memory.
pub(crate) fn cut(
    alloc: Global,
    question: &Question<'_, '_>,
    domains: &mut Vec<Domain>,
    atom: &PatternAtom,
    changed: &mut Vec<u32>,
) -> Result<bool, AllocError>
    requires { FitsAtom question.now.numbers.now.tables (length domains.old.items) atom.now }
    ensures kept { IfOk result (λ alive. (a : ℕ → ℕ) → Keeps domains.old.items a
        → HasImageRow question.now.numbers.now.tables question.now.taken.now a atom.now → (alive ≡ true) × Keeps domains.new.items a) }
    ensures many { IfOk result (λ _. length domains.new.items ≡ length domains.old.items) }
    ensures lighter { IfOk result (λ _. weight (2 ^ 32) domains.new.items ≤ weight (2 ^ 32) domains.old.items) }
{
    if waits(question, domains.as_slice(), atom) {
        return Ok(true);
    }
    let places = candidates(alloc, question, domains.as_slice(), atom)?;
    let rows = places.as_slice();
    if rows.len() == 0 {
        return Ok(false);
    }
    for column in 0..question.numbers.width(atom.table) {
        if let Some(position) = Position::of(atom, column as usize) {
            if cut_at(alloc, question, domains, &position, rows)? {
                changed.push(position.variable)?;
            }
        }
    }
    Ok(true)
}

/// A node in which a variable that could be anything has the numbers that it has in rows that an atom with it can be.
///
/// # Errors
///
/// `AllocError` if there is no memory.
pub(crate) fn list(
    alloc: Global,
    question: &Question<'_, '_>,
    node: &Node,
    position: &Position<'_>,
    nodes: &mut Vec<Node>,
) -> Result<(), AllocError>
    requires fits { FitsAtom question.now.numbers.now.tables (length node.now.domains.items) position.now.atom.now }
    requires unknown { slice_index_or node.now.domains.items position.now.variable Any ≡ Any }
    ensures { IfOk result (λ _. IsBranched
        (λ a. HasImageRow question.now.numbers.now.tables question.now.taken.now a position.now.atom.now)
        node.now nodes.old.items nodes.new.items) }
{
    let atom = position.atom;
    let places = candidates(alloc, question, node.domains.as_slice(), atom)?;
    let rows = places.as_slice();
    let numbers = numbers_in(alloc, question.numbers, atom.table, position.column, rows)?;
    let domain = Domain::of(numbers);
    let listed = node.with(alloc, position.variable, domain)?;
    nodes.push(listed)?;
    Ok(())
}
