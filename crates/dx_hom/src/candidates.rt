// Places of the instance that agree with a fact in each column that is known, and the fact that is best moved next.
ghost use Rattle.std.specs.Prelude.{◌≡◌, ◌<◌, ◌≤◌, IfSome, length, slice_index};
ghost use Rattle.dx_base.specs.Members.{◌∈◌, Each};
ghost use Rattle.dx_model.specs.declared.facts.Fact.{Fact as FactRow};
ghost use Rattle.dx_instance.specs.Stored.{table_at, HasTableIn};
ghost use Rattle.dx_instance.specs.NullMaps.{ByNull};
ghost use Rattle.dx_hom.specs.Narrowing.{IsNullCell};
ghost use Rattle.dx_hom.specs.Orders.{fact_in};
ghost use Rattle.dx_hom.specs.Searching.{IsAhead, IsKnownImage};

use crate::bindings::Bindings;
use crate::failures::Failures;
use dx_instance::Instance;
use dx_model::{Fact, Value};
use std::slice::from_ref;

/// How many of the facts that are left are looked at for the one that is moved next.
const LOOKED_AT: usize = 8;

/// How many of them if many facts failed.
const LOOKED_AT_WIDELY: usize = 64;

/// Up to how many candidates are counted. If more facts than this are left, candidates are counted for the first step alone.
const FEW: u32 = 16;

/// The facts that are left: those of a list from a place of an order on.
#[derive(Drop)]
pub(crate) struct FactsLeft<'a> {
    pub from: &'a [Fact],
    pub order: &'a [usize],
    pub start: usize,
    ghost some: { start < length order.now },
    ghost within: { Each order.now (λ i. i < length from.now) },
}

// What a value becomes by what was found, if that is known.
fn known<'a>(found: &Bindings, into: &'a Instance, value: &'a Value) -> Option<&'a Value>
    requires { Each found.now.cells (IsNullCell into.now) }
    ensures { IfSome result (λ v. IsKnownImage into.now found.now.cells value.now v.now) }
{
    match value {
        Value::Const(_) => Some(value),
        Value::Null(null) => match found.find(*null) {
            None => None,
            Some(entry) => Some(into.cell(entry.table, entry.place, entry.column)),
        },
    }
}

// The least place from `next` on that agrees with the fact in this column, if its value is known.
fn ahead_by(found: &Bindings, into: &Instance, fact: &Fact, column: u32, next: u32) -> Option<u32>
    requires fits { HasTableIn into.now fact.now }
    requires column { column < (table_at into.now fact.now.table).width }
    requires cells { Each found.now.cells (IsNullCell into.now) }
    ensures { (fixed : ByNull) → IsAhead into.now fixed found.now.cells fact.now next result }
{
    if next >= into.count(fact.table) {
        return None;
    }
    let Some(value) = known(found, into, &fact.row.items()[column as usize]) else {
        return Some(next);
    };
    if into.cell(fact.table, next, column).is(value) {
        return Some(next);
    }
    into.with_columns(fact.table, from_ref(&column), from_ref(value), next)
}

// A place from `next` on, ahead of which no place agrees with the fact in each column that is known.
fn ahead(found: &Bindings, into: &Instance, fact: &Fact, next: u32) -> Option<u32>
    requires fits { HasTableIn into.now fact.now }
    requires cells { Each found.now.cells (IsNullCell into.now) }
    ensures { (fixed : ByNull) → IsAhead into.now fixed found.now.cells fact.now next result }
{
    let mut place = next;
    for column in 0..into.width(fact.table) {
        match ahead_by(found, into, fact, column, place) {
            None => return None,
            Some(later) => place = later,
        }
    }
    if place < into.count(fact.table) {
        Some(place)
    } else {
        None
    }
}

/// The least place from `next` on that agrees with the fact in each column that is known.
pub(crate) fn candidate(found: &Bindings, into: &Instance, fact: &Fact, next: u32) -> Option<u32>
    requires fits { HasTableIn into.now fact.now }
    requires cells { Each found.now.cells (IsNullCell into.now) }
    ensures { (fixed : ByNull) → IsAhead into.now fixed found.now.cells fact.now next result }
{
    let mut place = next;
    while let Some(later) = ahead(found, into, fact, place) {
        if later == place {
            return Some(place);
        }
        place = later;
    }
    None
}

// How many places agree with the fact, as far as it is known; counted up to a limit.
fn count_to(found: &Bindings, into: &Instance, fact: &Fact, limit: u32) -> u32
    requires fits { HasTableIn into.now fact.now }
    requires cells { Each found.now.cells (IsNullCell into.now) }
    ensures { result ≤ limit }
{
    prove!(fact.table < into.tables());
    let mut next = 0;
    for count in 0..limit {
        match candidate(found, into, fact, next) {
            None => return count,
            Some(place) => next = place + 1,
        }
    }
    limit
}

// Whether a null of the fact was found.
fn is_linked(found: &Bindings, fact: &Fact) -> bool {
    fact.row.items().iter().any(|value| match value {
        Value::Const(_) => false,
        Value::Null(null) => found.find(*null).is_some(),
    })
}

/// The fact at a place of the order.
pub(crate) fn fact_at_turn<'a>(from: &'a [Fact], order: &[usize], place: usize) -> &'a Fact
    requires place { place < length order.now }
    requires within { Each order.now (λ i. i < length from.now) }
    ensures fact { result.now ≡ fact_in from.now (slice_index order.now place) }
    ensures member { result.now ∈ from.now }
{
    let at = order[place];
    &from[at]
}

// The first of the facts that are left of which a null was found, or the first of them.
fn first_linked(found: &Bindings, left: &FactsLeft<'_>) -> usize
    ensures after { left.now.start ≤ result }
    ensures within { result < length left.now.order.now }
{
    for place in left.start..left.order.len() {
        if is_linked(found, fact_at_turn(left.from, left.order, place)) {
            return place;
        }
    }
    left.start
}

// The first of the next facts with which the fewest places agree, of those that are looked at.
fn first_with_fewest(found: &Bindings, into: &Instance, left: &FactsLeft<'_>) -> usize
    requires fits { (f : FactRow) → f ∈ left.now.from.now → HasTableIn into.now f }
    requires cells { Each found.now.cells (IsNullCell into.now) }
    ensures after { left.now.start ≤ result }
    ensures within { result < length left.now.order.now }
{
    let start = left.start;
    let mut best = start;
    let mut fewest = FEW + 1;
    for place in start..left.order.len() {
        if fewest <= 1 || place - start == LOOKED_AT {
            break;
        }
        let fact = fact_at_turn(left.from, left.order, place);
        let count = count_to(found, into, fact, fewest);
        if count < fewest {
            best = place;
            fewest = count;
        }
    }
    best
}

// Whether the fact has a constant.
fn has_constant(fact: &Fact) -> bool {
    fact.row
        .items()
        .iter()
        .any(|value| matches!(value, Value::Const(_)))
}

// The only one of the next facts that has a constant, of those that are looked at.
fn only_with_constant(left: &FactsLeft<'_>) -> Option<usize>
    ensures { IfSome result (λ p. (left.now.start ≤ p) × (p < length left.now.order.now)) }
{
    let mut only = None;
    for place in left.start..left.order.len() {
        if place - left.start == LOOKED_AT {
            break;
        }
        if has_constant(fact_at_turn(left.from, left.order, place)) {
            if only.is_some() {
                return None;
            }
            only = Some(place);
        }
    }
    only
}

// The fact that is best moved first. If only one has a constant, it is that one; else candidates are counted.
fn first_fact(found: &Bindings, into: &Instance, left: &FactsLeft<'_>) -> usize
    requires fits { (f : FactRow) → f ∈ left.now.from.now → HasTableIn into.now f }
    requires cells { Each found.now.cells (IsNullCell into.now) }
    ensures after { left.now.start ≤ result }
    ensures within { result < length left.now.order.now }
{
    match only_with_constant(left) {
        Some(place) => place,
        None => first_with_fewest(found, into, left),
    }
}

// The first of the next facts with which the fewest places agree, of those of which a null was found; of several the one that
// failed most.
fn most_pressing(
    found: &Bindings,
    into: &Instance,
    failures: &Failures,
    left: &FactsLeft<'_>,
) -> usize
    requires fits { (f : FactRow) → f ∈ left.now.from.now → HasTableIn into.now f }
    requires cells { Each found.now.cells (IsNullCell into.now) }
    ensures after { left.now.start ≤ result }
    ensures within { result < length left.now.order.now }
{
    let start = left.start;
    let mut best = start;
    let mut fewest = FEW + 1;
    let mut most = 0;
    for place in start..left.order.len() {
        if fewest == 0 || place - start == LOOKED_AT_WIDELY {
            break;
        }
        let fact = fact_at_turn(left.from, left.order, place);
        if !is_linked(found, fact) {
            continue;
        }
        let count = count_to(found, into, fact, fewest + 1);
        let failed = failures.of(left.order[place]);
        if count < fewest || (count == fewest && failed > most) {
            best = place;
            fewest = count;
            most = failed;
        }
    }
    best
}

/// The place in the order of the fact that is best moved next: one of which a null was found, with few candidates. Which of
/// the facts that are left it is, is a matter of time alone.
pub(crate) fn next_fact(
    found: &Bindings,
    into: &Instance,
    failures: &Failures,
    left: &FactsLeft<'_>,
) -> usize
    requires fits { (f : FactRow) → f ∈ left.now.from.now → HasTableIn into.now f }
    requires cells { Each found.now.cells (IsNullCell into.now) }
    ensures after { left.now.start ≤ result }
    ensures within { result < length left.now.order.now }
{
    let start = left.start;
    let many = left.order.len() - start;
    if many == 1 {
        return start;
    }
    if start == 0 {
        return first_fact(found, into, left);
    }
    let first = first_linked(found, left);
    let later = FactsLeft {
        from: left.from,
        order: left.order,
        start: first,
    };
    if failures.are_many(start) {
        return most_pressing(found, into, failures, &later);
    }
    if many > FEW as usize {
        return first;
    }
    first_with_fewest(found, into, &later)
}
