// Ascending lists of pairs: how a null is looked up in one, and how two become one.
ghost use Rattle.std.specs.Prelude.{◌≡◌, IfOk, IfNone, IfSome, OnErr, OnOk, length, ◌++◌};
ghost use Rattle.std.specs.Bool.{OnTrue};
ghost use Rattle.std.specs.FinMap as finite;
ghost use Rattle.std.specs.Option.{option_copied};
ghost use Rattle.std.specs.declared.cmp.Ordering.TheVariants.{Less};
ghost use Rattle.dx_base.specs.Members.{Each};
ghost use Rattle.dx_model.specs.Instances.{given};
ghost use Rattle.dx_model.specs.Values.{null_cmp};
ghost use Rattle.dx_model.specs.declared.values.NullId.{NullId as Id};
ghost use Rattle.dx_instance.specs.NullMaps.{IsMergeStep, NoPairIsItself, PairsAscend, entries_in, is_itself, with_proper};

use dx_model::{NullId, NullPair, Value, copy_value};
use std::alloc::{AllocError, Global};
use std::cmp::Ordering;

/// Whether the value is the null itself.
pub(crate) fn is_same(null: NullId, value: &Value) -> bool
    ensures { result ≡ is_itself null value.now }
{
    match value {
        Value::Null(other) => other.rule == null.rule
            && other.var == null.var
            && other.row == null.row,
        Value::Const(_) => false,
    }
}

/// The value that ascending pairs list for a null, by binary search.
pub(crate) fn value_among<'a>(pairs: &'a [NullPair], null: &NullId) -> Option<&'a Value>
    requires { PairsAscend pairs.now }
    ensures { option_copied result ≡ finite.find null_cmp null.now (entries_in pairs.now) }
{
    match pairs.binary_search_by(|pair| pair.null.cmp(null)) {
        Ok(place) => Some(&pairs[place].value),
        Err(_) => None,
    }
}

/// Whether a null is above those of ascending pairs.
pub(crate) fn is_above(pairs: &[NullPair], null: &NullId) -> bool
    requires { PairsAscend pairs.now }
    ensures { OnTrue result (Each pairs.now (λ p. null_cmp p.null null.now ≡ Less)) }
{
    match pairs.last() {
        Some(pair) => pair.null.cmp(null).is_lt(),
        None => true,
    }
}

/// Copies of pairs.
pub(crate) fn pair_copies(alloc: Global, pairs: &[NullPair]) -> Result<Vec<NullPair>, AllocError>
    ensures { IfOk result (λ copies. copies.items ≡ pairs.now) }
{
    let mut copies = Vec::with_capacity(alloc, pairs.len())?;
    for pair in pairs {
        copies.push(NullPair {
            null: pair.null,
            value: copy_value(&pair.value)?,
        })?;
    }
    Ok(copies)
}

// The pair that comes next of two ascending lists, and what is left of both.
#[derive(Drop)]
struct Turn<'a> {
    pair: &'a NullPair,
    rest: &'a [NullPair],
    others: &'a [NullPair],
}

// The pair that comes next, if the first list is empty.
fn turn_of_second<'a>(none: &'a [NullPair], second: &'a [NullPair]) -> Option<Turn<'a>>
    requires empty { length none.now ≡ 0 }
    requires second { PairsAscend second.now }
    ensures some { IfSome result (λ t. IsMergeStep none.now second.now t.pair.now t.rest.now t.others.now) }
    ensures none { IfNone result (length (none.now ++ second.now) ≡ 0) }
{
    let Some((pair, others)) = second.split_first() else {
        return None;
    };
    Some(Turn {
        pair,
        rest: none,
        others,
    })
}

// The pair that comes next of two ascending lists, and what is left of both. Of two pairs with one null the first list's
// counts.
fn next_turn<'a>(first: &'a [NullPair], second: &'a [NullPair]) -> Option<Turn<'a>>
    requires first { PairsAscend first.now }
    requires second { PairsAscend second.now }
    ensures some { IfSome result (λ t. IsMergeStep first.now second.now t.pair.now t.rest.now t.others.now) }
    ensures none { IfNone result (length (first.now ++ second.now) ≡ 0) }
{
    let Some((pair, rest)) = first.split_first() else {
        return turn_of_second(first, second);
    };
    let Some((other, others)) = second.split_first() else {
        return Some(Turn {
            pair,
            rest,
            others: second,
        });
    };
    match pair.null.cmp(&other.null) {
        Ordering::Less => Some(Turn {
            pair,
            rest,
            others: second,
        }),
        Ordering::Equal => Some(Turn { pair, rest, others }),
        Ordering::Greater => Some(Turn {
            pair: other,
            rest: first,
            others,
        }),
    }
}

/// Puts a null and its value at the end of pairs, unless it gets itself.
pub(crate) fn push_proper(
    pairs: &mut Vec<NullPair>,
    null: NullId,
    value: Value,
) -> Result<(), AllocError>
    ensures ok { OnOk result (pairs.new.items ≡ with_proper pairs.old.items null value) }
    ensures err { OnErr result (pairs.new.items ≡ pairs.old.items) }
{
    if is_same(null, &value) {
        return Ok(());
    }
    pairs.push(NullPair { null, value })?;
    Ok(())
}

/// Two ascending lists as one: it gives each null what the first gives it, or else the second. Pairs that give a null itself
/// are left out.
///
/// # Errors
///
/// `AllocError` if there is no memory.
pub(crate) fn merged(
    alloc: Global,
    first: &[NullPair],
    second: &[NullPair],
) -> Result<Vec<NullPair>, AllocError>
    requires first { PairsAscend first.now }
    requires second { PairsAscend second.now }
    ensures ascend { IfOk result (λ all. PairsAscend all.items) }
    ensures proper { IfOk result (λ all. NoPairIsItself all.items) }
    ensures gives { IfOk result (λ all. (n : Id) → given all.items n ≡ given (first.now ++ second.now) n) }
{
    let mut all = Vec::with_capacity(alloc, first.len().saturating_add(second.len()))?;
    let mut rest = first;
    let mut others = second;
    while let Some(turn) = next_turn(rest, others) {
        rest = turn.rest;
        others = turn.others;
        push_proper(&mut all, turn.pair.null, copy_value(&turn.pair.value)?)?;
    }
    Ok(all)
}
