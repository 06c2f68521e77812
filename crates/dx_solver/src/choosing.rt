// The variable that is tried next.
ghost use Rattle.std.specs.Prelude.{◌≡◌, ◌<◌, ◌≤◌, ◌^◌, IfOk, MatchOption, length, slice_index_or};
ghost use Rattle.dx_base.specs.Members.{Each};
ghost use Rattle.dx_solver.specs.Domains.{IsBound, IsBranched, IsFreeTerm, choice_count, domain_size, term_at};
ghost use Rattle.dx_solver.specs.Questions.{FitsAtom, HasImageRow};
ghost use Rattle.dx_solver.specs.declared.domain.Domain.TheVariants.{Any};

use crate::atom::{PatternAtom, Term};
use crate::cutting::list;
use crate::domain::Domain;
use crate::node::{Node, fork};
use crate::position::Position;
use crate::question::Question;
use std::alloc::{AllocError, Global};

/// A term: the place of its atom, and its column.
#[derive(Clone, Copy)]
pub(crate) struct Choice {
    pub atom: usize,
    pub column: usize,
}

// How many numbers a term can still have.
fn choices_of(domains: &[Domain], term: Term) -> u64
    ensures { result ≡ choice_count domains.now term }
{
    match term {
        Term::Number(_) => 1,
        Term::Variable(variable) => match domains.get(variable as usize) {
            None => 1 << 32,
            Some(domain) => domain.size(),
        },
    }
}

// The first column of a term that has two numbers or more left.
fn free_column(domains: &[Domain], terms: &[Term]) -> Option<usize>
    ensures { MatchOption result (Each terms.now (λ t. choice_count domains.now t ≤ 1))
        (λ c. (c < length terms.now) × (1 < choice_count domains.now (term_at terms.now c))) }
{
    terms.iter().position(|term| choices_of(domains, *term) > 1)
}

// What it costs to try a term: the numbers that it can still have, over how often an atom with it could be no row.
fn cost_of(domains: &[Domain], failures: &[u32], term: Term) -> u64 {
    let failed = match term {
        Term::Number(_) => 0,
        Term::Variable(variable) => match failures.get(variable as usize) {
            None => 0,
            Some(count) => *count,
        },
    };
    choices_of(domains, term).saturating_mul(1 << 20) / (failed as u64 + 1)
}

// The first column from `free` on of a term of the least cost, of those that have two numbers or more left.
fn least_column(domains: &[Domain], failures: &[u32], terms: &[Term], free: usize) -> usize
    requires within { free < length terms.now }
    requires free { 1 < choice_count domains.now (term_at terms.now free) }
    ensures within { result < length terms.now }
    ensures free { 1 < choice_count domains.now (term_at terms.now result) }
{
    let mut best = free;
    let mut least = cost_of(domains, failures, terms[free]);
    for column in free..terms.len() {
        let count = choices_of(domains, terms[column]);
        let cost = cost_of(domains, failures, terms[column]);
        if count > 1 && cost < least {
            best = column;
            least = cost;
        }
    }
    best
}

// A term of the least cost, of those in an atom that have two numbers or more left.
fn choose_in(domains: &[Domain], failures: &[u32], atom: &PatternAtom) -> Option<usize>
    ensures { MatchOption result (IsBound domains.now atom.now)
        (λ c. (c < length atom.now.terms) × (1 < choice_count domains.now (term_at atom.now.terms c))) }
{
    match free_column(domains, atom.terms.items()) {
        None => None,
        Some(free) => Some(least_column(domains, failures, atom.terms.items(), free)),
    }
}

// The first atom with such a term.
fn first_choice(domains: &[Domain], failures: &[u32], atoms: &[PatternAtom]) -> Option<Choice>
    ensures { MatchOption result (Each atoms.now (IsBound domains.now)) (λ c. IsFreeTerm atoms.now domains.now c.atom c.column) }
{
    for atom in 0..atoms.len() {
        if let Some(column) = choose_in(domains, failures, &atoms[atom]) {
            return Some(Choice { atom, column });
        }
    }
    None
}

// The first choice of the least cost, from this one on.
fn least_choice(
    domains: &[Domain],
    failures: &[u32],
    atoms: &[PatternAtom],
    first: Choice,
) -> Choice
    requires { IsFreeTerm atoms.now domains.now first.atom first.column }
    ensures { IsFreeTerm atoms.now domains.now result.atom result.column }
{
    let mut best = first;
    let mut least = cost_of(
        domains,
        failures,
        atoms[first.atom].terms.items()[first.column],
    );
    for atom in first.atom..atoms.len() {
        if let Some(column) = choose_in(domains, failures, &atoms[atom]) {
            let cost = cost_of(domains, failures, atoms[atom].terms.items()[column]);
            if cost < least {
                best = Choice { atom, column };
                least = cost;
            }
        }
    }
    best
}

/// A term that has two numbers or more left: the first with the fewest numbers for each time that an atom with its variable
/// could be no row.
pub(crate) fn choose(domains: &[Domain], failures: &[u32], atoms: &[PatternAtom]) -> Option<Choice>
    ensures { MatchOption result (Each atoms.now (IsBound domains.now)) (λ c. IsFreeTerm atoms.now domains.now c.atom c.column) }
{
    match first_choice(domains, failures, atoms) {
        None => None,
        Some(first) => Some(least_choice(domains, failures, atoms, first)),
    }
}

// Nodes in which less is left of a variable, where it stands.
fn split_at(
    alloc: Global,
    question: &Question<'_, '_>,
    node: &Node,
    position: &Position<'_>,
    nodes: &mut Vec<Node>,
) -> Result<(), AllocError>
    requires fits { FitsAtom question.now.numbers.now.tables (length node.now.domains.items) position.now.atom.now }
    requires below { position.now.variable < length node.now.domains.items }
    requires many { 1 < domain_size (2 ^ 32) (slice_index_or node.now.domains.items position.now.variable Any) }
    ensures { IfOk result (λ _. IsBranched
        (λ a. HasImageRow question.now.numbers.now.tables question.now.taken.now a position.now.atom.now)
        node.now nodes.old.items nodes.new.items) }
{
    let variable = position.variable;
    match &node.domains[variable as usize] {
        Domain::One(_) => Ok(()),
        Domain::Any => list(alloc, question, node, position, nodes),
        Domain::Many(values) => fork(alloc, node, variable, values, nodes),
    }
}

/// Nodes in which less is left of the term that was chosen.
///
/// # Errors
///
/// `AllocError` if there is no memory.
pub(crate) fn split(
    alloc: Global,
    question: &Question<'_, '_>,
    node: &Node,
    choice: Choice,
    nodes: &mut Vec<Node>,
) -> Result<(), AllocError>
    requires fits { Each question.now.atoms.now (FitsAtom question.now.numbers.now.tables (length node.now.domains.items)) }
    requires free { IsFreeTerm question.now.atoms.now node.now.domains.items choice.atom choice.column }
    ensures { IfOk result (λ _. IsBranched (λ a. Each question.now.atoms.now
        (HasImageRow question.now.numbers.now.tables question.now.taken.now a)) node.now nodes.old.items nodes.new.items) }
{
    let atoms = question.atoms;
    let atom = &atoms[choice.atom];
    match Position::of(atom, choice.column) {
        None => Ok(()),
        Some(position) => split_at(alloc, question, node, &position, nodes),
    }
}
