// Numbers for variables.
ghost use Rattle.std.specs.Prelude.{◌≡◌, ℕ, IfOk, IfSome, MatchOption, None, Some, length, slice_index_or};
ghost use Rattle.std.specs.Bool.{OnTrue};
ghost use Rattle.dx_base.specs.Members.{Each};
ghost use Rattle.dx_solver.specs.Domains.{DomainHas, IsBranched, Keeps};
ghost use Rattle.dx_solver.specs.Questions.{FitsAtom, Solves, HasImageRow, answered};

use crate::atom::PatternAtom;
use crate::choosing::{choose, split};
use crate::domain::Domain;
use crate::few::{Found, search_few};
use crate::forward::place_all;
use crate::judging::answer_at;
use crate::linked::linked_order;
use crate::node::Node;
use crate::question::Question;
use crate::rows::next_candidate;
use crate::spreading::{Agenda, spread};
use crate::taken::Taken;
use dx_instance::Numbers;
use std::alloc::{AllocError, Global};

// Cuts what is left at a node. If all is bound, the answer, if that is one; or else nodes in its place.
fn expand(
    alloc: Global,
    question: &Question<'_, '_>,
    agenda: &mut Agenda,
    node: Node,
    nodes: &mut Vec<Node>,
) -> Result<Option<Vec<u32>>, AllocError>
    requires fits { Each question.now.atoms.now (FitsAtom question.now.numbers.now.tables (length question.now.known.now)) }
    requires many { length node.domains.items ≡ length question.now.known.now }
    ensures long { IfOk result (λ o. IfSome o (λ xs. length xs.items ≡ length question.now.known.now)) }
    ensures exact { IfOk result (λ o. MatchOption o
        (IsBranched (Solves question.now.numbers.now.tables question.now.taken.now question.now.atoms.now question.now.known.now)
        node nodes.old.items nodes.new.items)
        (λ xs. Solves question.now.numbers.now.tables question.now.taken.now question.now.atoms.now question.now.known.now
        (answered xs.items))) }
{
    let mut cut = node;
    let alive = spread(alloc, question, agenda, &mut cut.domains, cut.changed)?;
    if !alive {
        return Ok(None);
    }
    let left = cut.domains.as_slice();
    match choose(left, agenda.failures(), question.atoms) {
        None => answer_at(alloc, question, left),
        Some(choice) => {
            split(alloc, question, &cut, choice, nodes)?;
            Ok(None)
        }
    }
}

// Goes through the nodes below one, depth first.
fn search(
    alloc: Global,
    question: &Question<'_, '_>,
    root: Node,
) -> Result<Option<Vec<u32>>, AllocError>
    requires fits { Each question.now.atoms.now (FitsAtom question.now.numbers.now.tables (length question.now.known.now)) }
    requires many { length root.domains.items ≡ length question.now.known.now }
    ensures long { IfOk result (λ o. IfSome o (λ xs. length xs.items ≡ length question.now.known.now)) }
    ensures exact { IfOk result (λ o. MatchOption o
        ((a : ℕ → ℕ) → Keeps root.domains.items a
        → ¬ (Solves question.now.numbers.now.tables question.now.taken.now question.now.atoms.now question.now.known.now a))
        (λ xs. Solves question.now.numbers.now.tables question.now.taken.now question.now.atoms.now question.now.known.now
        (answered xs.items))) }
{
    let mut agenda = Agenda::new(alloc, question.atoms, question.known.len())?;
    let mut nodes = Vec::new(alloc);
    nodes.push(root)?;
    while let Some(node) = nodes.pop() {
        let answer = expand(alloc, question, &mut agenda, node, &mut nodes)?;
        match answer {
            Some(xs) => return Ok(Some(xs)),
            None => {}
        }
    }
    Ok(None)
}

// What is known of a variable.
fn known_domain(known: Option<u32>) -> Domain
    ensures { (n : ℕ) → ((m : ℕ) → known ≡ Some m → n ≡ m) → DomainHas result n }
{
    match known {
        None => Domain::Any,
        Some(number) => Domain::One(number),
    }
}

// What is known of the variables.
fn known_domains(alloc: Global, known: &[Option<u32>]) -> Result<Vec<Domain>, AllocError>
    ensures many { IfOk result (λ ds. length ds.items ≡ length known.now) }
    ensures keeps { IfOk result (λ ds. (a : ℕ → ℕ) → ((v n : ℕ) → slice_index_or known.now v None ≡ Some n → a v ≡ n)
        → Keeps ds.items a) }
{
    let mut domains = Vec::with_capacity(alloc, known.len())?;
    for variable in 0..known.len() {
        domains.push(known_domain(known[variable]))?;
    }
    Ok(domains)
}

// Whether the first atom can be no row.
fn is_hopeless(question: &Question<'_, '_>, domains: &[Domain]) -> bool
    requires { Each question.now.atoms.now (FitsAtom question.now.numbers.now.tables (length domains.now)) }
    ensures { OnTrue result ((a : ℕ → ℕ) → Keeps domains.now a
        → ¬ (Each question.now.atoms.now (HasImageRow question.now.numbers.now.tables question.now.taken.now a))) }
{
    let atoms = question.atoms;
    if atoms.len() == 0 {
        return false;
    }
    let place = 0;
    match next_candidate(question, domains, &atoms[place], 0) {
        None => true,
        Some(_) => false,
    }
}

/// Up to how many atoms a plain search is tried first.
const FEW: usize = 100_000;

// What a plain search with few steps finds, if it does.
fn guess(alloc: Global, question: &Question<'_, '_>) -> Result<Option<Vec<u32>>, AllocError>
    requires { Each question.now.atoms.now (FitsAtom question.now.numbers.now.tables (length question.now.known.now)) }
    ensures long { IfOk result (λ o. IfSome o (λ xs. length xs.items ≡ length question.now.known.now)) }
    ensures exact { IfOk result (λ o. IfSome o (λ xs. Solves question.now.numbers.now.tables question.now.taken.now
        question.now.atoms.now question.now.known.now (answered xs.items))) }
{
    let count = question.atoms.len();
    if count > FEW {
        return Ok(None);
    }
    let mut domains = known_domains(alloc, question.known)?;
    let order = linked_order(alloc, question.atoms, question.known)?;
    if !place_all(alloc, question, &mut domains, &order, 1_000 + 4 * count)? {
        return Ok(None);
    }
    answer_at(alloc, question, &domains)
}

/// Numbers for the variables, of which those that are known have theirs, so that each atom becomes a row that is not taken
/// out; or `None` exactly if there are no such numbers.
///
/// # Errors
///
/// `AllocError` if there is no memory.
pub fn solve(
    alloc: Global,
    numbers: &Numbers<'_>,
    taken: &Taken,
    atoms: &[PatternAtom],
    known: &[Option<u32>],
) -> Result<Option<Vec<u32>>, AllocError>
    requires { Each atoms.now (FitsAtom numbers.now.tables (length known.now)) }
    ensures long { IfOk result (λ o. IfSome o (λ xs. length xs.items ≡ length known.now)) }
    ensures exact { IfOk result (λ o. MatchOption o
        ((a : ℕ → ℕ) → ¬ (Solves numbers.now.tables taken.now atoms.now known.now a))
        (λ xs. Solves numbers.now.tables taken.now atoms.now known.now (answered xs.items))) }
{
    let question = Question {
        numbers,
        taken,
        atoms,
        known,
    };
    let domains = known_domains(alloc, known)?;
    let found = search_few(alloc, &question, &domains)?;
    match found {
        Found::Answer(xs) => return Ok(Some(xs)),
        Found::Nothing => return Ok(None),
        Found::Unknown => {}
    }
    if is_hopeless(&question, domains.as_slice()) {
        return Ok(None);
    }
    if let Some(xs) = guess(alloc, &question)? {
        return Ok(Some(xs));
    }
    let root = Node {
        domains,
        changed: None,
    };
    search(alloc, &question, root)
}
