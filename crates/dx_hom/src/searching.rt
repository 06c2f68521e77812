// A search for places of facts, in reserved room.
ghost use Rattle.std.specs.Prelude.{◌≡◌, ◌↔◌, ◌<◌, ◌≤◌, ◌+◌, ◌^◌, [], IfOk, IfSome, IsTrue, length, vec_capacity};
ghost use Rattle.std.specs.Option.{option_copied};
ghost use Rattle.dx_base.specs.Members.{◌∈◌, Each};
ghost use Rattle.dx_model.specs.Instances.{values, nulls_in};
ghost use Rattle.dx_model.specs.declared.facts.Fact.{Fact as FactRow};
ghost use Rattle.dx_instance.specs.Places.{row_at, fact_at};
ghost use Rattle.dx_instance.specs.Stored.{rows_of, HasTableIn};
ghost use Rattle.dx_hom.specs.Narrowing.{AtMost, HasRoomForNulls, IsNullCell, IsGood};
ghost use Rattle.dx_hom.specs.Orders.{IsOrder, IsReordered};
ghost use Rattle.dx_hom.specs.Room.{HasRoomForSteps};
ghost use Rattle.dx_hom.specs.Searching.{IsNextMove, IsOpen, IsSearched};

use crate::bindings::Bindings;
use crate::candidates::{FactsLeft, candidate, fact_at_turn, next_fact};
use crate::failures::Failures;
use crate::goal::Goal;
use crate::matching::{Spot, meet_row};
use dx_instance::Instance;
use dx_model::{Fact, Value};
use std::alloc::{AllocError, Global};

/// Where a fact was moved to, and how many nulls were found before it.
#[derive(Clone, Copy)]
pub(crate) struct Step {
    pub place: u32,
    pub before: usize,
}

/// The steps of a search, the order in which it moves the facts, by their places, and which facts had no place.
#[derive(Drop)]
pub(crate) struct Stack {
    pub steps: Vec<Step>,
    pub order: Vec<usize>,
    pub failures: Failures,
}

impl Stack {
    /// Room for so many facts.
    ///
    /// # Errors
    ///
    /// `AllocError` if there is no memory.
    pub(crate) fn reserve(alloc: Global, facts: usize) -> Result<Stack, AllocError>
        ensures steps { IfOk result (λ s. facts ≤ vec_capacity s.steps) }
        ensures order { IfOk result (λ s. facts ≤ vec_capacity s.order) }
    {
        let steps = Vec::with_capacity(alloc, facts)?;
        let order = Vec::with_capacity(alloc, facts)?;
        let failures = Failures::reserve(alloc, facts)?;
        Ok(Stack {
            steps,
            order,
            failures,
        })
    }

    // No steps, and the facts as they stand.
    fn begin(&mut self, facts: usize)
        requires { facts ≤ vec_capacity self.old.order }
        ensures steps { self.new.steps.items ≡ [] }
        ensures order { IsOrder facts self.new.order.items }
        ensures steps_capacity { vec_capacity self.new.steps ≡ vec_capacity self.old.steps }
        ensures order_capacity { vec_capacity self.new.order ≡ vec_capacity self.old.order }
    {
        self.steps.clear();
        self.order.clear();
        self.failures.clear();
        for place in 0..facts {
            self.order.push_reserved(place);
        }
    }

    // Notes that the fact whose turn was had no place, after the last step was taken back.
    fn note_failure(&mut self, facts: usize)
        ensures steps { self.new.steps ≡ self.old.steps }
        ensures order { self.new.order ≡ self.old.order }
    {
        let turn = self.steps.len() + 1;
        if let Some(fact) = self.order.get(turn) {
            self.failures.note(*fact, facts);
        }
    }
}

// Whether this fact stands at this place.
fn is_at(into: &Instance, table: u32, place: u32, fact: &Fact) -> bool
    requires table { table < length into.now }
    requires place { place < length (rows_of into.now table) }
    ensures { IsTrue result ↔ (fact.now ≡ fact_at into.now table place) }
{
    fact.table == table && is_row(into, table, place, fact.row.items())
}

/// Whether this row stands at this place.
fn is_row(into: &Instance, table: u32, place: u32, row: &[Value]) -> bool
    requires table { table < length into.now }
    requires place { place < length (rows_of into.now table) }
    ensures { IsTrue result ↔ (row.now ≡ row_at into.now table place) }
{
    prove!(table < into.tables());
    if row.len() != into.width(table) as usize {
        return false;
    }
    for column in 0..into.width(table) {
        if !into.cell(table, place, column).is(&row[column as usize]) {
            return false;
        }
    }
    true
}

/// Whether the fact at this place may be met.
pub(crate) fn is_open(goal: &Goal<'_>, table: u32, place: u32) -> bool
    requires table { table < length goal.now.into.now }
    requires place { place < length (rows_of goal.now.into.now table) }
    ensures { IsTrue result ↔ IsOpen goal.now.into.now goal.now.gone.now (option_copied goal.now.avoid) table place }
{
    if goal.gone.has(table, place) {
        return false;
    }
    match goal.avoid {
        None => true,
        Some(fact) => !is_at(goal.into, table, place, fact),
    }
}

/// The least place from `next` on that the fact can be moved to.
pub(crate) fn place_from(
    found: &mut Bindings,
    goal: &Goal<'_>,
    fact: &Fact,
    next: u32,
) -> Option<u32>
    requires fits { HasTableIn goal.now.into.now fact.now }
    requires good { IsGood goal.now.into.now goal.now.fixed.now found.old.cells }
    requires room { HasRoomForNulls found.old (nulls_in fact.now.row) }
    ensures room { found.new.room ≡ found.old.room }
    ensures small { IfSome result (λ p. p + 1 < 2 ^ 32) }
    ensures cases { IsNextMove goal.now.into.now goal.now.gone.now goal.now.fixed.now (option_copied goal.now.avoid) fact.now next
        found.old found.new result }
{
    let bound = found.len();
    let table = fact.table;
    let count = goal.into.count(table);
    prove!(table < goal.into.tables());
    let mut next = next;
    while let Some(place) = candidate(found, goal.into, fact, next) {
        if is_open(goal, table, place) {
            if meet_row(found, goal, fact.row.items(), Spot { table, place }) {
                return Some(place);
            }
            found.truncate(bound);
        }
        next = place + 1;
    }
    None
}

// Brings the fact that is best moved next to the front of those that are left.
fn choose(stack: &mut Stack, found: &Bindings, into: &Instance, from: &[Fact])
    requires fits { (f : FactRow) → f ∈ from.now → HasTableIn into.now f }
    requires cells { Each found.now.cells (IsNullCell into.now) }
    requires order { IsOrder (length from.now) stack.old.order.items }
    ensures order { IsReordered (length stack.old.steps.items) stack.old.order.items stack.new.order.items }
    ensures steps { stack.new.steps ≡ stack.old.steps }
    ensures capacity { vec_capacity stack.new.order ≡ vec_capacity stack.old.order }
{
    let start = stack.steps.len();
    if start < stack.order.len() {
        let left = FactsLeft {
            from,
            order: &stack.order,
            start,
        };
        let next = next_fact(found, into, &stack.failures, &left);
        stack.order.swap(start, next);
    }
}

/// Whether something moves these facts to where they are to go. It takes no memory.
pub(crate) fn search(
    found: &mut Bindings,
    stack: &mut Stack,
    from: &[Fact],
    goal: &Goal<'_>,
) -> bool
    requires fits { (f : FactRow) → f ∈ from.now → HasTableIn goal.now.into.now f }
    requires found_room { AtMost (nulls_in (values from.now)) found.old.room }
    requires steps_room { HasRoomForSteps stack.old (length from.now) }
    ensures found_room { found.new.room ≡ found.old.room }
    ensures steps_capacity { vec_capacity stack.new.steps ≡ vec_capacity stack.old.steps }
    ensures order_capacity { vec_capacity stack.new.order ≡ vec_capacity stack.old.order }
    ensures cases { IsSearched goal.now.into.now goal.now.gone.now goal.now.fixed.now (option_copied goal.now.avoid) from.now
        found.new.cells result }
{
    found.truncate(0);
    stack.begin(from.len());
    choose(stack, found, goal.into, from);
    let mut next = 0;
    'steps: while stack.steps.len() < from.len() {
        let before = found.len();
        let fact = fact_at_turn(from, &stack.order, stack.steps.len());
        match place_from(found, goal, fact, next) {
            Some(place) => {
                stack.steps.push_reserved(Step { place, before });
                choose(stack, found, goal.into, from);
                next = 0;
            }
            None => match stack.steps.pop() {
                None => return false,
                Some(step) => {
                    stack.note_failure(from.len());
                    found.truncate(step.before);
                    next = step.place + 1;
                }
            },
        }
    }
    true
}
