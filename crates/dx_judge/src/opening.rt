// The first place of rules that does not hold.
ghost use Rattle.std.specs.Prelude.{◌↔◌, IfOk, IsTrue};
ghost use Rattle.dx_base.specs.Members.{Each};
ghost use Rattle.dx_model.specs.Fitting.{AtomsFitWidths};
ghost use Rattle.dx_model.specs.Matches.{rows_of_matches};
ghost use Rattle.dx_instance.specs.Stored.{facts, widths};
ghost use Rattle.dx_judge.specs.Turning.{IsTurnedOne};
ghost use Rattle.dx_judge.specs.Open.{MatchesOfRules, TuplesOfRule, IsFirstOpen, IsFirstTuple, IsTupleOf, TupleHolds};

use crate::moving::moves_into;
use crate::saying::facts_said;
use crate::turning::Turned;
use dx_base::Text;
use dx_model::{Matches, Places, Rule};
use dx_tgd::exported;
use std::alloc::{AllocError, Global};

/// A place of a rule.
#[derive(Clone, Copy)]
pub(crate) struct OpenPlace {
    pub rule: u32,
    pub place: u32,
}

// Whether the tuple holds.
fn tuple_holds(
    alloc: Global,
    rule: &Rule,
    variables: &[u32],
    tuple: &[Text],
    given: &Turned<'_>,
) -> Result<bool, AllocError>
    requires conclusion { AtomsFitWidths (widths given.now.plain.now) rule.now.conclusion }
    requires turned { IsTurnedOne given.now }
    requires tuple { IsTupleOf rule.now variables.now tuple.now }
    ensures { IfOk result (λ holds. IsTrue holds ↔ TupleHolds rule.now (facts given.now.plain.now) tuple.now) }
{
    let said = facts_said(alloc, rule.conclusion.items(), variables, tuple)?;
    moves_into(alloc, &said, given)
}

// The first of a rule's tuples that does not hold.
fn first_tuple(
    alloc: Global,
    rule: &Rule,
    places: &Places,
    given: &Turned<'_>,
) -> Result<Option<u32>, AllocError>
    requires conclusion { AtomsFitWidths (widths given.now.plain.now) rule.now.conclusion }
    requires turned { IsTurnedOne given.now }
    requires tuples { TuplesOfRule rule.now places.now.tuples }
    ensures { IfOk result (IsFirstTuple rule.now (facts given.now.plain.now) places.now.tuples) }
{
    let variables = exported(alloc, rule)?;
    for place in 0..places.tuples.len() {
        let tuple = places.tuples.tuple(place);
        if !tuple_holds(alloc, rule, &variables, tuple, given)? {
            return Ok(Some(place as u32));
        }
    }
    Ok(None)
}

/// The first rule with a place that does not hold, and its first such place.
///
/// # Errors
///
/// `AllocError` if there is no memory, or there are more values than have numbers.
pub(crate) fn first_open(
    alloc: Global,
    rules: &[Rule],
    matches: &Matches,
    given: &Turned<'_>,
) -> Result<Option<OpenPlace>, AllocError>
    requires conclusions { Each rules.now (λ d. AtomsFitWidths (widths given.now.plain.now) d.conclusion) }
    requires turned { IsTurnedOne given.now }
    requires matches { MatchesOfRules rules.now matches.now }
    ensures { IfOk result (IsFirstOpen rules.now (rows_of_matches matches.now) (facts given.now.plain.now)) }
{
    for i in 0..rules.len() {
        let places = &matches.rules.items()[i];
        if let Some(place) = first_tuple(alloc, &rules[i], places, given)? {
            return Ok(Some(OpenPlace {
                rule: i as u32,
                place,
            }));
        }
    }
    Ok(None)
}
