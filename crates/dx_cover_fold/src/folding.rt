// The cover fold.
ghost use Rattle.std.specs.Prelude.{◌≡◌, ◌<◌, ◌^◌, IfOk, length, map, suc};
ghost use Rattle.dx_base.specs.Members.{Each};
ghost use Rattle.dx_model.specs.Rules.{exported as exported_of};
ghost use Rattle.dx_model.specs.declared.rules.Cell.TheVariants.{Ex as ExCell};
ghost use Rattle.dx_model.specs.Covers.{IsPlace, folded, least_cover, value_under};
ghost use Rattle.dx_cover_fold.specs.Matched.{matched_tuples};
ghost use Rattle.dx_joins.specs.Shown.{AllTexts};
ghost use Rattle.dx_cover.specs.Covering.{covers_of};
ghost use Rattle.dx_cover_fold.specs.Found.{AllLeast, CoversOfRules, cover_of};
ghost use Rattle.dx_cover_fold.specs.Folding.{IsCoverFold};
ghost use Rattle.dx_cover_fold.specs.Matched.{tuples_of};

use crate::covering::least_covers;
use crate::found::Found;
use crate::matched::Matched;
use crate::nulls::place_nulls;
use crate::rows_said::value_said;
use dx_base::{Items, no_number_left};
use dx_cover::{Covers, exported};
use dx_instance::{NullMap, Rows, Symbols};
use dx_model::{Cell, NullId, Rule, Value};
use std::alloc::{AllocError, Global};

/// The exported variables of each rule.
fn all_exported(alloc: Global, rules: &[Rule]) -> Result<Vec<Items<u32>>, AllocError>
    ensures { IfOk result (λ v. v.items ≡ map exported_of rules.now) }
{
    let mut all = Vec::new(alloc);
    for rule in rules {
        all.push(Items::from_vec(exported(alloc, rule)?))?;
    }
    Ok(all)
}

/// For each rule the least covers of its places.
fn all_covers(
    alloc: Global,
    rules: &[Rule],
    covers: &Covers,
    matches: &Matched<'_>,
) -> Result<Vec<Items<Option<Found>>>, AllocError>
    requires { CoversOfRules rules.now covers.now matches.now }
    ensures { IfOk result (λ v. AllLeast rules.now (matched_tuples matches.now) v.items (length rules.now)) }
{
    let mut all = Vec::new(alloc);
    for i in 0..rules.len() {
        all.push(Items::from_vec(least_covers(alloc, rules, covers, matches, i as u32)?))?;
    }
    Ok(all)
}

/// What it takes to fold a null: the rules with the covers among them and their matches, and for each rule its exported
/// variables and the least covers of its places.
#[derive(Drop)]
struct Fold<'a, 'm> {
    alloc: Global,
    rules: &'a [Rule],
    covers: &'a Covers,
    matches: &'a Matched<'m>,
    variables: Vec<Items<u32>>,
    least: Vec<Items<Option<Found>>>,
    ghost one: { length matches.now.tables ≡ length rules.now },
    ghost exported: { variables.items ≡ map exported_of rules.now },
}

impl<'a, 'm> Fold<'a, 'm> {
    /// The value that a cover gives for an existential variable of a rule.
    fn value_given(&self, rule: u32, found: Found, var: u32) -> Result<Value, AllocError>
        requires covers { self.now.covers.now ≡ covers_of self.now.rules.now }
        requires from { rule < length self.now.rules.now }
        requires place { IsPlace self.now.rules.now (matched_tuples self.now.matches.now) found.rule found.row }
        ensures { IfOk result (λ v. v ≡ value_under self.now.rules.now (matched_tuples self.now.matches.now) rule
            (cover_of self.now.rules.now rule found) (ExCell var)) }
    {
        let _rules = self.rules;
        let other = Cell::Ex(0);
        let cell = match self.covers.maps(rule, found.rule).get(found.map as usize) {
            Some(map) => match map.existential.items().get(var as usize) {
                Some(cell) => cell,
                None => &other,
            },
            None => &other,
        };
        let variables = self.variables[found.rule as usize].items();
        let row = self.matches.row(found.rule, found.row);
        value_said(
            self.alloc,
            self.matches,
            variables,
            row,
            found.rule,
            found.row,
            cell,
        )
    }

    /// What the cover fold makes of a null of a place.
    fn fold_null(&self, null: NullId) -> Result<Value, AllocError>
        requires covers { self.now.covers.now ≡ covers_of self.now.rules.now }
        requires least { AllLeast self.now.rules.now (matched_tuples self.now.matches.now) self.now.least.items
            (length self.now.rules.now) }
        requires place { IsPlace self.now.rules.now (matched_tuples self.now.matches.now) null.rule null.row }
        ensures { IfOk result (λ v. v ≡ folded self.now.rules.now (matched_tuples self.now.matches.now)
            (least_cover self.now.rules.now (matched_tuples self.now.matches.now)) (suc (length self.now.rules.now)) null) }
    {
        let mut now = null;
        for _step in 0..self.rules.len() + 1 {
            let Some(found) = self.least[now.rule as usize].items()[now.row as usize] else {
                return Ok(Value::Null(now));
            };
            match self.value_given(now.rule, found, now.var)? {
                Value::Const(text) => return Ok(Value::Const(text)),
                Value::Null(next) => now = next,
            }
        }
        Ok(Value::Null(now))
    }

    /// What the nulls of all places become.
    fn null_map(&self) -> Result<NullMap, AllocError>
        requires covers { self.now.covers.now ≡ covers_of self.now.rules.now }
        requires few { length self.now.rules.now < 2 ^ 32 }
        requires least { AllLeast self.now.rules.now (matched_tuples self.now.matches.now) self.now.least.items
            (length self.now.rules.now) }
        ensures { IfOk result (IsCoverFold self.now.rules.now (matched_tuples self.now.matches.now)) }
    {
        let nulls = place_nulls(self.alloc, self.rules, self.matches)?;
        let mut map = NullMap::new(self.alloc);
        for null in &nulls {
            let value = self.fold_null(*null)?;
            map.set(*null, value)?;
        }
        Ok(map)
    }
}

/// The cover fold over matches whose rules and symbols have numbers.
fn fold_of_matched(
    alloc: Global,
    rules: &[Rule],
    covers: &Covers,
    matches: &Matched<'_>,
) -> Result<NullMap, AllocError>
    requires { CoversOfRules rules.now covers.now matches.now }
    ensures { IfOk result (IsCoverFold rules.now (matched_tuples matches.now)) }
{
    let fold = Fold {
        alloc,
        rules,
        covers,
        matches,
        variables: all_exported(alloc, rules)?,
        least: all_covers(alloc, rules, covers, matches)?,
    };
    Ok(fold.null_map()?)
}

/// The cover fold over matches: a null of a covered place becomes what the cover fold makes of the value that the least cover
/// of its place gives it. All other nulls stay. For each rule a table has the rows of numbers of its places, which stand for texts.
///
/// # Errors
///
/// `AllocError` if there is no memory, or there are more rules or symbols than have numbers.
pub fn cover_fold(
    alloc: Global,
    rules: &[Rule],
    covers: &Covers,
    symbols: &Symbols,
    tables: &[Rows],
) -> Result<NullMap, AllocError>
    requires covers { covers.now ≡ covers_of rules.now }
    requires one { length tables.now ≡ length rules.now }
    requires texts { Each tables.now (λ t. Each t.rows (AllTexts symbols.now)) }
    ensures { IfOk result (IsCoverFold rules.now (tuples_of symbols.now tables.now)) }
{
    if rules.len() > u32::MAX as usize {
        return Err(no_number_left(rules.len() as u64));
    }
    if symbols.len() >= u64::from(u32::MAX) {
        return Err(no_number_left(symbols.len()));
    }
    fold_of_matched(alloc, rules, covers, &Matched::new(symbols, tables))
}
