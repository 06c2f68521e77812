// Whether numbers for the variables are an answer.
ghost use Rattle.std.specs.Prelude.{◌≡◌, ◌↔◌, ◌<◌, ℕ, IfOk, IfSome, IsTrue, MatchOption, None, length, map, slice_index_or};
ghost use Rattle.dx_base.specs.Members.{Each};
ghost use Rattle.dx_instance.specs.Shown.{numbers_of_table};
ghost use Rattle.dx_solver.specs.Domains.{IsBound, IsImageRow, IsLeftNumber, Keeps, term_at};
ghost use Rattle.dx_solver.specs.Questions.{FitsAtom, Solves, HasImageRow, answered, number_under};
ghost use Rattle.dx_solver.specs.declared.domain.Domain.TheVariants.{Any};

use crate::atom::{PatternAtom, Term};
use crate::domain::Domain;
use crate::question::Question;
use crate::rows::{Key, next_place};
use std::alloc::{AllocError, Global};

// The number that a variable has if at most one is left.
fn number_left(known: Option<u32>, domain: &Domain) -> u32
    ensures { IsLeftNumber known domain.now result }
{
    if let Some(number) = known {
        return number;
    }
    match domain {
        Domain::Any => 0,
        Domain::One(number) => *number,
        Domain::Many(values) => match values.items().first() {
            Some(number) => *number,
            None => 0,
        },
    }
}

// The number of a term.
fn number_at(xs: &[u32], term: Term) -> u32
    ensures { result ≡ number_under (answered xs.now) term }
{
    match term {
        Term::Number(number) => number,
        Term::Variable(variable) => match xs.get(variable as usize) {
            None => 0,
            Some(number) => *number,
        },
    }
}

// Whether these terms become this row.
fn is_row(xs: &[u32], terms: &[Term], row: &[u32]) -> bool
    requires { length terms.now ≡ length row.now }
    ensures { IsTrue result ↔ (row.now ≡ map (number_under (answered xs.now)) terms.now) }
{
    terms
        .iter()
        .zip(row)
        .all(|(term, number)| number_at(xs, *term) == *number)
}

// Whether the row at a place is not taken out, and is what the atom becomes.
fn is_image(question: &Question<'_, '_>, xs: &[u32], atom: &PatternAtom, place: u32) -> bool
    requires table { atom.now.table < length question.now.numbers.now.tables }
    requires width { length atom.now.terms ≡ (numbers_of_table question.now.numbers.now.tables atom.now.table).width }
    requires place { place < length (numbers_of_table question.now.numbers.now.tables atom.now.table).rows }
    ensures { IsTrue result
        ↔ IsImageRow question.now.numbers.now.tables question.now.taken.now (answered xs.now) atom.now place }
{
    if question.taken.has(atom.table, place) {
        return false;
    }
    let row = question.numbers.row(atom.table, place);
    is_row(xs, atom.terms.items(), row)
}

// The number in the first column, by which rows are looked up.
fn first_key(xs: &[u32], terms: &[Term]) -> Option<Key>
    ensures { IfSome result (λ k. (k.column < length terms.now)
        × (number_under (answered xs.now) (term_at terms.now k.column) ≡ k.number)) }
{
    match terms.first() {
        None => None,
        Some(term) => Some(Key {
            column: 0,
            number: number_at(xs, *term),
        }),
    }
}

// Whether the atom becomes a row that is not taken out, if rows are looked at one by one.
fn stands_among(question: &Question<'_, '_>, xs: &[u32], atom: &PatternAtom) -> bool
    requires table { atom.now.table < length question.now.numbers.now.tables }
    requires width { length atom.now.terms ≡ (numbers_of_table question.now.numbers.now.tables atom.now.table).width }
    ensures { IsTrue result ↔ HasImageRow question.now.numbers.now.tables question.now.taken.now (answered xs.now) atom.now }
{
    let numbers = question.numbers;
    let key = first_key(xs, atom.terms.items());
    let mut next = 0;
    while let Some(place) = next_place(numbers, atom.table, key, next) {
        if is_image(question, xs, atom, place) {
            return true;
        }
        prove!(place < numbers.count(atom.table));
        next = place + 1;
    }
    false
}

// The row that terms become.
fn row_of(alloc: Global, xs: &[u32], terms: &[Term]) -> Result<Vec<u32>, AllocError>
    ensures { IfOk result (λ row. row.items ≡ map (number_under (answered xs.now)) terms.now) }
{
    let mut row = Vec::with_capacity(alloc, terms.len())?;
    for term in terms {
        row.push(number_at(xs, *term))?;
    }
    Ok(row)
}

// Whether the atom becomes a row that is not taken out. The same row can be there a second time if it is.
fn stands(
    alloc: Global,
    question: &Question<'_, '_>,
    xs: &[u32],
    atom: &PatternAtom,
) -> Result<bool, AllocError>
    requires table { atom.now.table < length question.now.numbers.now.tables }
    requires width { length atom.now.terms ≡ (numbers_of_table question.now.numbers.now.tables atom.now.table).width }
    ensures { IfOk result (λ b. IsTrue b
        ↔ HasImageRow question.now.numbers.now.tables question.now.taken.now (answered xs.now) atom.now) }
{
    let row = row_of(alloc, xs, atom.terms.items())?;
    match question.numbers.find_row(atom.table, row.as_slice()) {
        None => Ok(false),
        Some(place) => {
            if !question.taken.has(atom.table, place) {
                return Ok(true);
            }
            Ok(stands_among(question, xs, atom))
        }
    }
}

/// Whether each atom becomes such a row.
///
/// # Errors
///
/// `AllocError` if there is no memory.
pub(crate) fn all_stand(
    alloc: Global,
    question: &Question<'_, '_>,
    xs: &[u32],
) -> Result<bool, AllocError>
    requires { Each question.now.atoms.now (FitsAtom question.now.numbers.now.tables (length question.now.known.now)) }
    ensures { IfOk result (λ b. IsTrue b
        ↔ Each question.now.atoms.now (HasImageRow question.now.numbers.now.tables question.now.taken.now (answered xs.now))) }
{
    let atoms = question.atoms;
    for atom in atoms {
        let is_there = stands(alloc, question, xs, atom)?;
        if !is_there {
            return Ok(false);
        }
    }
    Ok(true)
}

/// For each variable the number that is known, or the one that is left of it.
///
/// # Errors
///
/// `AllocError` if there is no memory.
pub(crate) fn numbers_left(
    alloc: Global,
    question: &Question<'_, '_>,
    domains: &[Domain],
) -> Result<Vec<u32>, AllocError>
    requires { length domains.now ≡ length question.now.known.now }
    ensures many { IfOk result (λ xs. length xs.items ≡ length question.now.known.now) }
    ensures left { IfOk result (λ xs. (v : ℕ) → v < length question.now.known.now
        → IsLeftNumber (slice_index_or question.now.known.now v None) (slice_index_or domains.now v Any) (answered xs.items v)) }
{
    let known = question.known;
    let mut all = Vec::with_capacity(alloc, known.len())?;
    for variable in 0..known.len() {
        all.push(number_left(known[variable], &domains[variable]))?;
    }
    Ok(all)
}

/// The numbers that are left of variables, if they are an answer. If one is left of each variable in an atom, no others are.
///
/// # Errors
///
/// `AllocError` if there is no memory.
pub(crate) fn answer_at(
    alloc: Global,
    question: &Question<'_, '_>,
    domains: &[Domain],
) -> Result<Option<Vec<u32>>, AllocError>
    requires fits { Each question.now.atoms.now (FitsAtom question.now.numbers.now.tables (length question.now.known.now)) }
    requires many { length domains.now ≡ length question.now.known.now }
    ensures long { IfOk result (λ o. IfSome o (λ xs. length xs.items ≡ length question.now.known.now)) }
    ensures exact { IfOk result (λ o. MatchOption o
        (Each question.now.atoms.now (IsBound domains.now) → (a : ℕ → ℕ) → Keeps domains.now a
        → ¬ (Solves question.now.numbers.now.tables question.now.taken.now question.now.atoms.now question.now.known.now a))
        (λ xs. Solves question.now.numbers.now.tables question.now.taken.now question.now.atoms.now question.now.known.now
        (answered xs.items))) }
{
    let xs = numbers_left(alloc, question, domains)?;
    let is_answer = all_stand(alloc, question, &xs)?;
    if is_answer {
        return Ok(Some(xs));
    }
    Ok(None)
}
