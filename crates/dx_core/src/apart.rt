// Rows that no endomorphism moves to a certain row.
ghost use Rattle.std.specs.Prelude.{◌≡◌, ◌<◌, true, List, length};
ghost use Rattle.dx_model.specs.declared.facts.Fact.{Fact as FactRow};
ghost use Rattle.dx_instance.specs.Numbers.{value_of};
ghost use Rattle.dx_blocks.specs.Numbered.{IsRowIn, fact_of};
ghost use Rattle.dx_rigid.specs.Rigid.{IsRigidValue};
ghost use Rattle.dx_core.specs.NeverMoves.{NeverMoves};
ghost use Rattle.dx_core.specs.Asking.{KnownAreRigid};

use dx_blocks::At;
use dx_instance::{Numbers, Value};

// Whether every endomorphism keeps the value under a number: a constant, or a null of which this is known.
fn is_kept(numbers: &Numbers<'_>, nulls: &[u32], known: &[Option<u32>], number: u32) -> bool
    requires { number < length numbers.now.symbols }
    ensures { result ≡ true → (T : List FactRow) → KnownAreRigid numbers.now T nulls.now known.now
        → IsRigidValue T (value_of numbers.now.symbols number) }
{
    match numbers.value(number) {
        Value::Const(_) => true,
        Value::Null(_) => match nulls.binary_search(&number) {
            Err(_) => false,
            Ok(place) => matches!(known.get(place), Some(Some(_))),
        },
    }
}

// Whether a number differs from another, and every endomorphism keeps it.
fn is_kept_off(
    numbers: &Numbers<'_>,
    nulls: &[u32],
    known: &[Option<u32>],
    number: u32,
    other: u32,
) -> bool
    requires { number < length numbers.now.symbols }
    ensures differs { result ≡ true → ¬ (number ≡ other) }
    ensures kept { result ≡ true → (T : List FactRow) → KnownAreRigid numbers.now T nulls.now known.now
        → IsRigidValue T (value_of numbers.now.symbols number) }
{
    if number == other {
        return false;
    }
    is_kept(numbers, nulls, known, number)
}

// Whether no endomorphism moves one row to another of the same table, by what it keeps.
fn never_becomes(
    numbers: &Numbers<'_>,
    nulls: &[u32],
    known: &[Option<u32>],
    from: At,
    to: At,
) -> bool
    requires from { IsRowIn numbers.now from }
    requires to { IsRowIn numbers.now to }
    requires table { from.table ≡ to.table }
    ensures { result ≡ true → (T : List FactRow) → KnownAreRigid numbers.now T nulls.now known.now
        → NeverMoves T (fact_of numbers.now from) (fact_of numbers.now to) }
{
    prove!((numbers.len() as u64) < 1 << 32);
    let old_row = numbers.row(from.table, from.place);
    let new_row = numbers.row(to.table, to.place);
    for column in 0..old_row.len() {
        if is_kept_off(numbers, nulls, known, old_row[column], new_row[column]) {
            return true;
        }
    }
    false
}

/// Whether this shows that no endomorphism moves one row to another.
#[tactic(auto, using(crate::proofs::NeverMoved::other_table))]
pub(crate) fn never_moves(
    numbers: &Numbers<'_>,
    nulls: &[u32],
    known: &[Option<u32>],
    from: At,
    to: At,
) -> bool
    requires from { IsRowIn numbers.now from }
    requires to { IsRowIn numbers.now to }
    ensures { result ≡ true → (T : List FactRow) → KnownAreRigid numbers.now T nulls.now known.now
        → NeverMoves T (fact_of numbers.now from) (fact_of numbers.now to) }
{
    if from.table == to.table {
        return never_becomes(numbers, nulls, known, from, to);
    }
    true
}
