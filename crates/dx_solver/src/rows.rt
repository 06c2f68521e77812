// Rows that an atom can be.
ghost use Rattle.std.specs.Prelude.{◌≡◌, ◌<◌, ◌≤◌, ◌^◌, ℕ, IfOk, IfSome, false, true, length, map, slice_index};
ghost use Rattle.std.specs.Bool.{OnTrue};
ghost use Rattle.dx_base.specs.Members.{◌∈◌, Each};
ghost use Rattle.dx_instance.specs.Indexes.{number_in};
ghost use Rattle.dx_instance.specs.Shown.{numbers_of_table};
ghost use Rattle.dx_solver.specs.Domains.{IsImageRow, IsNextImage, IsNextPlace, Keeps, term_at};
ghost use Rattle.dx_solver.specs.Questions.{FitsAtom, number_under};

use crate::atom::{PatternAtom, Term};
use crate::domain::Domain;
use crate::question::Question;
use dx_instance::Numbers;
use std::alloc::{AllocError, Global};

/// A column by which rows are looked up, with the number that is in it.
#[derive(Clone, Copy)]
pub(crate) struct Key {
    pub column: u32,
    pub number: u32,
}

// The number that a term must have, if one is left alone.
fn number_of(domains: &[Domain], term: Term) -> Option<u32>
    ensures { IfSome result (λ n. (a : ℕ → ℕ) → Keeps domains.now a → number_under a term ≡ n) }
{
    match term {
        Term::Number(number) => Some(number),
        Term::Variable(variable) => match domains.get(variable as usize) {
            Some(Domain::One(number)) => Some(*number),
            _ => None,
        },
    }
}

// The first column whose number is known.
fn known_key(domains: &[Domain], terms: &[Term], width: u32) -> Option<Key>
    requires { width ≡ length terms.now }
    ensures { IfSome result (λ k. (k.column < length terms.now)
        × ((a : ℕ → ℕ) → Keeps domains.now a → number_under a (term_at terms.now k.column) ≡ k.number)) }
{
    for column in 0..width {
        if let Some(number) = number_of(domains, terms[column as usize]) {
            return Some(Key { column, number });
        }
    }
    None
}

// The first column with an index whose number is known.
fn indexed_key(
    numbers: &Numbers<'_>,
    table: u32,
    domains: &[Domain],
    terms: &[Term],
    width: u32,
) -> Option<Key>
    requires table { table < length numbers.now.tables }
    requires width { width ≡ length terms.now }
    ensures { IfSome result (λ k. (k.column < length terms.now)
        × ((a : ℕ → ℕ) → Keeps domains.now a → number_under a (term_at terms.now k.column) ≡ k.number)) }
{
    for column in 0..width {
        if let Some(number) = number_of(domains, terms[column as usize]) {
            if numbers.has_index(table, column) {
                return Some(Key { column, number });
            }
        }
    }
    None
}

// A column whose number is known, one with an index if there is one.
fn key_of(
    numbers: &Numbers<'_>,
    table: u32,
    domains: &[Domain],
    terms: &[Term],
    width: u32,
) -> Option<Key>
    requires table { table < length numbers.now.tables }
    requires width { width ≡ length terms.now }
    ensures { IfSome result (λ k. (k.column < length terms.now)
        × ((a : ℕ → ℕ) → Keeps domains.now a → number_under a (term_at terms.now k.column) ≡ k.number)) }
{
    match indexed_key(numbers, table, domains, terms, width) {
        Some(key) => Some(key),
        None => known_key(domains, terms, width),
    }
}

// Whether a term may have the number.
fn allows(domains: &[Domain], term: Term, number: u32) -> bool
    ensures { (a : ℕ → ℕ) → Keeps domains.now a → number_under a term ≡ number → result ≡ true }
{
    match term {
        Term::Number(own) => own == number,
        Term::Variable(variable) => match domains.get(variable as usize) {
            None => true,
            Some(domain) => domain.has(number),
        },
    }
}

// Whether the terms are the same variable.
fn is_same(one: Term, other: Term) -> bool
    ensures { OnTrue result ((a : ℕ → ℕ) → number_under a one ≡ number_under a other) }
{
    match (one, other) {
        (Term::Variable(v), Term::Variable(w)) => v == w,
        _ => false,
    }
}

// The first column with the variable that stands in this one.
fn first_like(terms: &[Term], column: usize) -> usize
    requires { column < length terms.now }
    ensures before { result ≤ column }
    ensures same { (a : ℕ → ℕ) → number_under a (term_at terms.now result) ≡ number_under a (term_at terms.now column) }
{
    for earlier in 0..column {
        if is_same(terms[earlier], terms[column]) {
            return earlier;
        }
    }
    column
}

// Whether the number in a column is that in the first column with the same variable.
fn repeats(terms: &[Term], row: &[u32], column: usize) -> bool
    requires width { length terms.now ≡ length row.now }
    requires column { column < length row.now }
    ensures { (a : ℕ → ℕ) → row.now ≡ map (number_under a) terms.now → result ≡ true }
{
    let first = first_like(terms, column);
    row[first] == row[column]
}

// Whether the term in a column may have the number that stands there.
fn allows_at(domains: &[Domain], terms: &[Term], row: &[u32], column: usize) -> bool
    requires width { length terms.now ≡ length row.now }
    requires column { column < length row.now }
    ensures { (a : ℕ → ℕ) → Keeps domains.now a → number_under a (term_at terms.now column) ≡ slice_index row.now column
        → result ≡ true }
{
    allows(domains, terms[column], row[column])
}

// Whether each term may have the number in its column.
fn allows_row(domains: &[Domain], terms: &[Term], row: &[u32]) -> bool
    requires { length terms.now ≡ length row.now }
    ensures { (a : ℕ → ℕ) → Keeps domains.now a → row.now ≡ map (number_under a) terms.now → result ≡ true }
{
    for column in 0..row.len() {
        if !allows_at(domains, terms, row, column) {
            return false;
        }
        if !repeats(terms, row, column) {
            return false;
        }
    }
    true
}

// The next place from `from` on with the key, if there is one.
pub(crate) fn next_place(
    numbers: &Numbers<'_>,
    table: u32,
    key: Option<Key>,
    from: u32,
) -> Option<u32>
    requires table { table < length numbers.now.tables }
    requires key { IfSome key (λ k. k.column < (numbers_of_table numbers.now.tables table).width) }
    ensures { IsNextPlace (numbers_of_table numbers.now.tables table).rows key from result }
{
    match key {
        Some(key) => numbers.next_with(table, key.column, key.number, from),
        None => {
            if from < numbers.count(table) {
                return Some(from);
            }
            None
        }
    }
}

// Whether the row at a place can be what the atom becomes.
fn is_candidate(
    question: &Question<'_, '_>,
    domains: &[Domain],
    atom: &PatternAtom,
    place: u32,
) -> bool
    requires fits { FitsAtom question.now.numbers.now.tables (length domains.now) atom.now }
    requires place { place < length (numbers_of_table question.now.numbers.now.tables atom.now.table).rows }
    ensures { (a : ℕ → ℕ) → Keeps domains.now a
        → IsImageRow question.now.numbers.now.tables question.now.taken.now a atom.now place → result ≡ true }
{
    if question.taken.has(atom.table, place) {
        return false;
    }
    let row = question.numbers.row(atom.table, place);
    allows_row(domains, atom.terms.items(), row)
}

/// The least place from `from` on of a row that the atom can be.
pub(crate) fn next_candidate(
    question: &Question<'_, '_>,
    domains: &[Domain],
    atom: &PatternAtom,
    from: u32,
) -> Option<u32>
    requires { FitsAtom question.now.numbers.now.tables (length domains.now) atom.now }
    ensures { IsNextImage question.now.numbers.now.tables question.now.taken.now domains.now atom.now from result }
{
    let numbers = question.numbers;
    let terms = atom.terms.items();
    let width = numbers.width(atom.table);
    let key = key_of(numbers, atom.table, domains, terms, width);
    let mut next = from;
    while let Some(place) = next_place(numbers, atom.table, key, next) {
        if is_candidate(question, domains, atom, place) {
            return Some(place);
        }
        prove!(place < numbers.count(atom.table));
        next = place + 1;
    }
    None
}

/// The places of all rows that the atom can be.
///
/// # Errors
///
/// `AllocError` if there is no memory.
pub(crate) fn candidates(
    alloc: Global,
    question: &Question<'_, '_>,
    domains: &[Domain],
    atom: &PatternAtom,
) -> Result<Vec<u32>, AllocError>
    requires { FitsAtom question.now.numbers.now.tables (length domains.now) atom.now }
    ensures all { IfOk result (λ places. (a : ℕ → ℕ) → Keeps domains.now a → (p : ℕ)
        → IsImageRow question.now.numbers.now.tables question.now.taken.now a atom.now p → p ∈ places.items) }
    ensures within { IfOk result (λ places. Each places.items
        (λ p. p < length (numbers_of_table question.now.numbers.now.tables atom.now.table).rows)) }
    ensures few { IfOk result (λ places. length places.items < 2 ^ 32) }
{
    let mut places = Vec::new(alloc);
    let mut next = 0;
    prove!(next <= question.numbers.count(atom.table));
    while let Some(place) = next_candidate(question, domains, atom, next) {
        places.push(place)?;
        next = place + 1;
    }
    Ok(places)
}

/// The numbers in a column of the rows at these places.
///
/// # Errors
///
/// `AllocError` if there is no memory.
pub(crate) fn numbers_in(
    alloc: Global,
    numbers: &Numbers<'_>,
    table: u32,
    column: usize,
    places: &[u32],
) -> Result<Vec<u32>, AllocError>
    requires table { table < length numbers.now.tables }
    requires column { column < (numbers_of_table numbers.now.tables table).width }
    requires within { Each places.now (λ p. p < length (numbers_of_table numbers.now.tables table).rows) }
    ensures { IfOk result (λ v. v.items ≡ map (number_in (numbers_of_table numbers.now.tables table).rows column) places.now) }
{
    let mut all = Vec::with_capacity(alloc, places.len())?;
    for place in places {
        all.push(numbers.row(table, *place)[column])?;
    }
    Ok(all)
}
