// The least covers of the places of a rule.
ghost use Rattle.std.specs.Prelude.{◌≡◌, ◌<◌, ◌^◌, ◌++◌, IfOk, List, ℕ, None, flat_map, length, slice_index_or};
ghost use Rattle.std.specs.List.{AllZip};
ghost use Rattle.dx_base.specs.Members.{Each};
ghost use Rattle.dx_model.specs.declared.covers.Cover.{Cover};
ghost use Rattle.dx_model.specs.Rules.{exported as exported_of};
ghost use Rattle.dx_model.specs.Covers.{places_by, rule_at, used_maps};
ghost use Rattle.dx_cover_fold.specs.Matched.{matched_tuples};
ghost use Rattle.dx_cover.specs.Covering.{covers_of};
ghost use Rattle.dx_cover_fold.specs.Codes.{RowHasColumn, IsPlanned};
ghost use Rattle.dx_cover_fold.specs.Found.{LeastCovers, CoversOfRules, LeastOfFirsts, OwnNumbers, FindsAmong, IndexesCells, IsBegun, images_by};
ghost use Rattle.dx_cover_fold.specs.Found.{no_map, or_first as first_or, variable_cells};

use crate::found::Found;
use crate::images::images_of;
use crate::index::Index;
use crate::matched::Matched;
use crate::number_at::NumberAt;
use crate::numbers_said::numbers_said;
use crate::plan::plan_cells;
use dx_cover::{Covers, exported};
use dx_instance::Rows;
use dx_model::{CellMap, Rule, variable_cells};
use std::alloc::{AllocError, Global};

/// An index of what a cell map gives at the places of a rule: the rule, and the number of the cell map.
#[derive(Drop)]
struct MapIndex {
    index: Index,
    rule: u32,
    map: u32,
}

impl MapIndex {
    /// What covers a place: what is known of it, or else what the index gives for the numbers of its row.
    fn or_first(
        &self,
        alloc: Global,
        known: Option<Found>,
        row: &[u32],
        own: &[NumberAt],
    ) -> Result<Option<Found>, AllocError>
        requires { Each own.now (RowHasColumn (length row.now)) }
        ensures { IfOk result (λ o. o ≡ first_or self.now.rule self.now.map self.now.index own.now known row.now) }
    {
        match known {
            Some(found) => Ok(Some(found)),
            None => {
                let numbers = numbers_said(alloc, row, own)?;
                match self.index.first(&numbers) {
                    Some(row) => Ok(Some(Found {
                        rule: self.rule,
                        map: self.map,
                        row,
                    })),
                    None => Ok(None),
                }
            }
        }
    }

    /// The same for each place of a rule.
    fn or_firsts(
        &self,
        alloc: Global,
        known: &[Option<Found>],
        rows: &Rows,
        own: &[NumberAt],
    ) -> Result<Vec<Option<Found>>, AllocError>
        requires columns { Each own.now (RowHasColumn rows.now.width) }
        requires many { length known.now ≡ length rows.now.rows }
        ensures { IfOk result (λ v. LeastOfFirsts self.now.rule self.now.map self.now.index rows.now.rows own.now known.now v.items
            (length rows.now.rows)) }
    {
        let mut all = Vec::with_capacity(alloc, known.len())?;
        for place in 0..rows.count() {
            let row = rows.row(place);
            all.push(self.or_first(alloc, known[place as usize], row, own)?)?;
        }
        Ok(all)
    }
}

/// An index of what a cell map to a rule gives at that rule's places.
fn index_by(
    alloc: Global,
    from: &Rule,
    to: &Rule,
    matches: &Matched<'_>,
    rows: &Rows,
    map: &CellMap,
) -> Result<Index, AllocError>
    ensures { IfOk result (IndexesCells matches.now.symbols rows.now (exported_of to.now) (images_by from.now map.now)) }
{
    let cells = images_of(alloc, from, map)?;
    let others = exported(alloc, to)?;
    let plan = plan_cells(alloc, matches, &others, rows.width(), &cells)?;
    Index::build(alloc, rows, &plan)
}

/// What it takes to find the covers of the places of one rule: all rules with the covers among them and their matches, the
/// number of the rule, and the plan of its exported variables.
#[derive(Drop)]
struct Covering<'a, 'm> {
    alloc: Global,
    rules: &'a [Rule],
    covers: &'a Covers,
    matches: &'a Matched<'m>,
    rule: u32,
    own: Vec<NumberAt>,
    ghost from: { rule < length rules.now },
    ghost one: { length matches.now.tables ≡ length rules.now },
}

impl<'a, 'm> Covering<'a, 'm> {
    /// What covers the places of the rule by one of its cell maps to another, if nothing is known that does.
    fn by_map(
        &self,
        other: u32,
        map: &CellMap,
        number: u32,
        known: &[Option<Found>],
    ) -> Result<Vec<Option<Found>>, AllocError>
        requires to { other < length self.now.rules.now }
        requires number { slice_index_or (used_maps (rule_at self.now.rules.now self.now.rule)
            (rule_at self.now.rules.now other)) number no_map ≡ map.now }
        requires begun { IsBegun self.now.rules.now self.now.matches.now self.now.rule self.now.own.items known.now }
        ensures many { IfOk result (λ v. length v.items ≡ length known.now) }
        ensures finds { IfOk result (λ v. (C : List Cover) → FindsAmong self.now.rules.now
            (matched_tuples self.now.matches.now) self.now.rule C known.now
            → FindsAmong self.now.rules.now (matched_tuples self.now.matches.now) self.now.rule (C ++ places_by (matched_tuples self.now.matches.now) other map.now) v.items) }
    {
        let (from, to) = (&self.rules[self.rule as usize], &self.rules[other as usize]);
        let here = self.matches.rows(self.rule);
        let there = self.matches.rows(other);
        let index = MapIndex {
            index: index_by(self.alloc, from, to, self.matches, there, map)?,
            rule: other,
            map: number,
        };
        Ok(index.or_firsts(self.alloc, known, here, &self.own)?)
    }

    /// What covers the places of the rule by its used cell maps to another, if nothing is known that does.
    fn by_rule(
        &self,
        other: u32,
        known: Vec<Option<Found>>,
    ) -> Result<Vec<Option<Found>>, AllocError>
        requires covers { self.now.covers.now ≡ covers_of self.now.rules.now }
        requires to { other < length self.now.rules.now }
        requires begun { IsBegun self.now.rules.now self.now.matches.now self.now.rule self.now.own.items known.items }
        ensures many { IfOk result (λ v. length v.items ≡ length known.items) }
        ensures finds { IfOk result (λ v. (C : List Cover) → FindsAmong self.now.rules.now
            (matched_tuples self.now.matches.now) self.now.rule C known.items
            → FindsAmong self.now.rules.now (matched_tuples self.now.matches.now) self.now.rule (C ++ flat_map (places_by (matched_tuples self.now.matches.now) other) (used_maps (rule_at self.now.rules.now self.now.rule) (rule_at self.now.rules.now other))) v.items) }
    {
        let maps = self.covers.maps(self.rule, other);
        let mut found = known;
        for number in 0..maps.len() {
            found = self.by_map(other, &maps[number], number as u32, &found)?;
        }
        Ok(found)
    }

    /// For each place of the rule its least cover.
    fn least(&self) -> Result<Vec<Option<Found>>, AllocError>
        requires covers { self.now.covers.now ≡ covers_of self.now.rules.now }
        requires few { length self.now.rules.now < 2 ^ 32 }
        requires own { OwnNumbers self.now.rules.now self.now.matches.now self.now.rule self.now.own.items }
        ensures { IfOk result (λ v. LeastCovers self.now.rules.now (matched_tuples self.now.matches.now) self.now.rule v.items) }
    {
        let mut found = none_known(self.alloc, self.matches.places(self.rule) as usize)?;
        for other in 0..self.rules.len() {
            if self.covers.before(other as u32, self.rule) {
                found = self.by_rule(other as u32, found)?;
            }
        }
        Ok(found)
    }
}

/// The plan of a rule's exported variables, for rows of this width.
fn own_by(
    alloc: Global,
    rule: &Rule,
    matches: &Matched<'_>,
    width: u32,
) -> Result<Vec<NumberAt>, AllocError>
    ensures { IfOk result (λ v. AllZip (IsPlanned matches.now.symbols (exported_of rule.now) width) (variable_cells rule.now) v.items) }
{
    let variables = exported(alloc, rule)?;
    let cells = variable_cells(alloc, &variables)?;
    plan_cells(alloc, matches, &variables, width, &cells)
}

/// The plan of the exported variables of a rule.
fn own_of(
    alloc: Global,
    rules: &[Rule],
    matches: &Matched<'_>,
    rule: u32,
) -> Result<Vec<NumberAt>, AllocError>
    requires from { rule < length rules.now }
    requires one { length matches.now.tables ≡ length rules.now }
    ensures { IfOk result (λ v. OwnNumbers rules.now matches.now rule v.items) }
{
    own_by(
        alloc,
        &rules[rule as usize],
        matches,
        matches.rows(rule).width(),
    )
}

/// Nothing for each of so many places.
fn none_known(alloc: Global, count: usize) -> Result<Vec<Option<Found>>, AllocError>
    ensures many { IfOk result (λ v. length v.items ≡ count) }
    ensures none { IfOk result (λ v. (k : ℕ) → slice_index_or v.items k None ≡ None) }
{
    let mut none = Vec::with_capacity(alloc, count)?;
    for _place in 0..count {
        none.push(None)?;
    }
    Ok(none)
}

/// For each place of a rule its least cover.
pub(crate) fn least_covers(
    alloc: Global,
    rules: &[Rule],
    covers: &Covers,
    matches: &Matched<'_>,
    rule: u32,
) -> Result<Vec<Option<Found>>, AllocError>
    requires rules { CoversOfRules rules.now covers.now matches.now }
    requires from { rule < length rules.now }
    ensures { IfOk result (λ v. LeastCovers rules.now (matched_tuples matches.now) rule v.items) }
{
    let covering = Covering {
        alloc,
        rules,
        covers,
        matches,
        rule,
        own: own_of(alloc, rules, matches, rule)?,
    };
    Ok(covering.least()?)
}
