// The used cell maps between the rules of a list, and the order of rules that they give.
ghost use Rattle.std.specs.Prelude.{◌≡◌, ◌<◌, IfOk, List, ◌++◌, length, map};
ghost use Rattle.dx_base.specs.Members.{Each};
ghost use Rattle.dx_model.specs.declared.rules.Rule.{Rule as RuleValue};
ghost use Rattle.dx_model.specs.Covers.{before as is_before, rule_at, used_maps};
ghost use Rattle.dx_model.specs.Fitting.{AgreeInWidths, IsRule, conclusions_of};
ghost use Rattle.dx_cover.specs.Covering.{covers_of, maps_in};

use crate::search::cover;
use dx_base::Items;
use dx_model::{CellMap, Rule};
use std::alloc::{AllocError, Global};
use std::marker::Model;

/// The used cell maps between the rules of a list. A contract sees them by the rule that they lead from, then by the rule
/// that they lead to.
#[derive(Drop)]
pub struct Covers {
    maps: Items<Items<Items<CellMap>>>,
}

impl Model for Covers {
    ghost use Rattle.std.specs.Prelude.{◌≡◌, List, length};
    ghost use Rattle.dx_base.specs.Members.{Each};
    ghost use Rattle.dx_model.specs.declared.covers.CellMap.{CellMap as Map};

    ghost Value = { List (List (List Map)) };

    ghost view = { λ c. c.maps };

    ghost invariant = { λ c. Each c.maps (λ row. length row ≡ length c.maps) };
}

/// The used cell maps from a rule to each rule of a list.
fn maps_from(alloc: Global, i: &Rule, rules: &[Rule]) -> Result<Items<Items<CellMap>>, AllocError>
    requires rule { IsRule i.now }
    requires widths { Each rules.now (λ j. AgreeInWidths (i.now.conclusion ++ j.conclusion)) }
    ensures { IfOk result (λ row. row ≡ map (λ j. used_maps i.now j) rules.now) }
{
    let mut row = Items::new(alloc);
    for j in rules {
        row.push(Items::from_vec(cover(alloc, i, j)?))?;
    }
    Ok(row)
}

impl Covers {
    /// The used cell maps between these rules.
    ///
    /// # Errors
    ///
    /// `AllocError` if there is no memory.
    pub fn compute(alloc: Global, rules: &[Rule]) -> Result<Covers, AllocError>
        requires rules { Each rules.now IsRule }
        requires widths { AgreeInWidths (conclusions_of rules.now) }
        ensures { IfOk result (λ covers. covers ≡ covers_of rules.now) }
    {
        let mut maps = Items::new(alloc);
        for i in rules {
            maps.push(maps_from(alloc, i, rules)?)?;
        }
        Ok(Covers { maps })
    }

    /// The used cell maps from rule number i to rule number j, in order.
    pub fn maps(&self, i: u32, j: u32) -> &[CellMap]
        requires from { i < length self.now }
        requires to { j < length self.now }
        ensures maps { result.now ≡ maps_in self.now i j }
        ensures used { (R : List RuleValue) → self.now ≡ covers_of R → result.now ≡ used_maps (rule_at R i) (rule_at R j) }
    {
        self.maps.items()[i as usize].items()[j as usize].items()
    }

    /// Whether rule number j is before rule number i.
    pub fn before(&self, j: u32, i: u32) -> bool
        requires first { j < length self.now }
        requires second { i < length self.now }
        ensures { (R : List RuleValue) → self.now ≡ covers_of R → result ≡ is_before R j i }
    {
        !self.maps(i, j).is_empty() && (self.maps(j, i).is_empty() || j < i)
    }
}
