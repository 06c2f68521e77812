// Facts as a question to the solver, with a variable for each of their nulls.
ghost use Rattle.std.specs.Prelude.{◌≡◌, ◌↔◌, ◌<◌, [], ℕ, IfOk, IsTrue, MatchOption, None, length, replicate};
ghost use Rattle.std.specs.List.{AllZip};
ghost use Rattle.dx_base.specs.Members.{◌∈◌, Each};
ghost use Rattle.dx_model.specs.declared.values.NullId.{NullId as Id};
ghost use Rattle.dx_model.specs.declared.values.Value.TheVariants.{Null};
ghost use Rattle.dx_model.specs.Tables.{values_in};
ghost use Rattle.dx_model.specs.Values.{NullsAscend, null_at};
ghost use Rattle.dx_blocks.specs.Nulls.{AllKnown};
ghost use Rattle.dx_solver.specs.Questions.{FitsAtom, HasImageRow};
ghost use Rattle.dx_judge.specs.Asking.{NullVariables, HasStranger, HasStrangerIn, IsStranger, SaysTurned, SaysValue, place_in};
ghost use Rattle.dx_judge.specs.Turned.{CanTurn};

use dx_base::Items;
use dx_instance::Numbers;
use dx_model::{Fact, NullId, Value};
use dx_solver::{PatternAtom, Taken, Term, Terms, solve};
use std::alloc::{AllocError, Global};

// The place of a null in an ascending list that has it.
fn place_of(nulls: &[NullId], null: &NullId) -> usize
    requires ascend { NullsAscend nulls.now }
    requires known { null.now ∈ nulls.now }
    ensures within { result < length nulls.now }
    ensures is { null_at nulls.now result ≡ null.now }
{
    match nulls.binary_search(null) {
        Ok(place) => place,
        Err(_) => unreachable!(),
    }
}

// The variable that stands for a null: its place among the nulls.
fn variable_of(nulls: &[NullId], null: &NullId) -> u32
    requires nulls { NullVariables nulls.now }
    requires known { null.now ∈ nulls.now }
    ensures { result ≡ place_in nulls.now null.now }
{
    place_of(nulls, null) as u32
}

// The term that stands for a value. There is none if a constant has no number.
fn term_of(value: &Value, nulls: &[NullId], numbers: &Numbers<'_>) -> Option<Term>
    requires nulls { NullVariables nulls.now }
    requires known { (n : Id) → value.now ≡ Null n → n ∈ nulls.now }
    ensures { MatchOption result (IsStranger numbers.now.symbols value.now) (SaysValue numbers.now.symbols nulls.now value.now) }
{
    match value {
        Value::Null(null) => Some(Term::Variable(variable_of(nulls, null))),
        Value::Const(_) => {
            let number = numbers.find(value)?;
            Some(Term::Number(number))
        }
    }
}

// The terms that stand for the values of a row in this order. There are none if a constant has no number.
fn terms_of(
    alloc: Global,
    row: &[Value],
    order: &[u32],
    nulls: &[NullId],
    numbers: &Numbers<'_>,
) -> Result<Option<Terms>, AllocError>
    requires order { Each order.now (λ c. c < length row.now) }
    requires nulls { NullVariables nulls.now }
    requires known { AllKnown nulls.now row.now }
    ensures { IfOk result (λ o. MatchOption o (HasStranger numbers.now.symbols (values_in order.now row.now))
        (AllZip (SaysValue numbers.now.symbols nulls.now) (values_in order.now row.now))) }
{
    let mut terms = Terms::new(alloc);
    for column in order {
        let value = &row[*column as usize];
        let Some(term) = term_of(value, nulls, numbers) else {
            return Ok(None);
        };
        terms.push(term)?;
    }
    Ok(Some(terms))
}

/// The atoms that stand for facts with their values in these orders. There are none if a constant has no number.
///
/// # Errors
///
/// `AllocError` if there is no memory.
pub(crate) fn atoms_of(
    alloc: Global,
    facts: &[Fact],
    orders: &[Items<u32>],
    nulls: &[NullId],
    numbers: &Numbers<'_>,
) -> Result<Option<Vec<PatternAtom>>, AllocError>
    requires orders { Each facts.now (CanTurn orders.now) }
    requires nulls { NullVariables nulls.now }
    requires known { Each facts.now (λ f. AllKnown nulls.now f.row) }
    ensures { IfOk result (λ o. MatchOption o (HasStrangerIn numbers.now.symbols orders.now facts.now)
        (λ all. AllZip (SaysTurned numbers.now.symbols orders.now nulls.now) facts.now all.items)) }
{
    let mut atoms = Vec::with_capacity(alloc, facts.len())?;
    for fact in facts {
        let order = orders[fact.table as usize].items();
        let Some(terms) = terms_of(alloc, fact.row.items(), order, nulls, numbers)? else {
            return Ok(None);
        };
        atoms.push(PatternAtom {
            table: fact.table,
            terms,
        })?;
    }
    Ok(Some(atoms))
}

// Nothing known of so many variables.
#[tactic(auto, using(std::proofs::lemmas::List::replicate_more))]
fn nothing_known(alloc: Global, count: usize) -> Result<Vec<Option<u32>>, AllocError>
    ensures { IfOk result (λ known. known.items ≡ replicate count None) }
{
    let mut known = Vec::with_capacity(alloc, count)?;
    for _ in 0..count {
        known.push(None)?;
    }
    Ok(known)
}

/// Whether there are numbers for so many variables with which the atoms become rows.
///
/// # Errors
///
/// `AllocError` if there is no memory.
pub(crate) fn can_stand(
    alloc: Global,
    numbers: &Numbers<'_>,
    atoms: &[PatternAtom],
    count: usize,
) -> Result<bool, AllocError>
    requires { Each atoms.now (FitsAtom numbers.now.tables count) }
    ensures { IfOk result (λ b. IsTrue b ↔ ((a : ℕ → ℕ) × Each atoms.now (HasImageRow numbers.now.tables [] a))) }
{
    let known = nothing_known(alloc, count)?;
    let taken = Taken::none(alloc);
    let answer = solve(alloc, numbers, &taken, atoms, &known)?;
    Ok(answer.is_some())
}
