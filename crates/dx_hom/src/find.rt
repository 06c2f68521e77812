// Searches in reserved room.
ghost use Rattle.std.specs.Prelude.{◌≡◌, ◌↔◌, [], IfOk, IsTrue};
ghost use Rattle.std.specs.Bool.{OnTrue};
ghost use Rattle.std.specs.Option.{option_copied};
ghost use Rattle.dx_base.specs.Members.{Each};
ghost use Rattle.dx_model.specs.Instances.{given};
ghost use Rattle.dx_model.specs.declared.values.NullId.{NullId as Id};
ghost use Rattle.dx_instance.specs.NullMaps.{pairs_of};
ghost use Rattle.dx_instance.specs.Stored.{facts};
ghost use Rattle.dx_hom.specs.Homs.{IsNullAssignment, IsThere, found_pairs};
ghost use Rattle.dx_hom.specs.Narrowing.{IsNullCell};
ghost use Rattle.dx_hom.specs.Searching.{FindsAll, IsReadyFor, Reaches};

use crate::bindings::Bindings;
use crate::goal::Goal;
use crate::gone::{Gone, Left};
use crate::searching::{Stack, search};
use dx_instance::{Instance, NullMap, copy_value};
use dx_model::Fact;
use std::alloc::{AllocError, Global};
use std::marker::Model;

/// Room for a search, and what the last one found. A contract sees for how many facts and for how many nulls there is room, and
/// the nulls that were found, each with a cell that holds its value.
#[derive(Drop)]
pub struct Search {
    alloc: Global,
    facts: u32,
    found: Bindings,
    stack: Stack,
    none: Gone,
}

impl Model for Search {
    ghost use Rattle.std.specs.Prelude.{◌≡◌, ◌≤◌, [], vec_capacity};
    ghost use Rattle.dx_hom.specs.Room.{Room};

    ghost Value = { Room };

    ghost view = { λ a. record { facts = a.facts; nulls = a.found.room; found = a.found.cells } };

    ghost invariant = { λ a. (a.facts ≤ vec_capacity a.stack.steps) × (a.facts ≤ vec_capacity a.stack.order) × (a.none ≡ []) };
}

impl Search {
    /// Room for a search with so many facts and nulls.
    ///
    /// # Errors
    ///
    /// `AllocError` if there is no memory.
    pub fn reserve(alloc: Global, facts: u32, nulls: u32) -> Result<Search, AllocError>
        ensures facts { IfOk result (λ s. s.facts ≡ facts) }
        ensures nulls { IfOk result (λ s. s.nulls ≡ nulls) }
        ensures found { IfOk result (λ s. s.found ≡ []) }
    {
        let found = Bindings::reserve(alloc, nulls)?;
        let stack = Stack::reserve(alloc, facts as usize)?;
        Ok(Search {
            alloc,
            facts,
            found,
            stack,
            none: Gone::none(alloc),
        })
    }

    /// Whether there is a homomorphism from these facts into the instance that gives the fixed nulls their values and whose
    /// image lacks the fact to avoid. It takes no memory.
    pub fn find(
        &mut self,
        from: &[Fact],
        into: &Instance,
        fixed: &NullMap,
        avoid: Option<&Fact>,
    ) -> bool
        requires { IsReadyFor into.now fixed.now from.now self.old }
        ensures facts { self.new.facts ≡ self.old.facts }
        ensures nulls { self.new.nulls ≡ self.old.nulls }
        ensures exact { IsTrue result ↔ IsThere fixed.now (option_copied avoid.entry) from.now (facts into.now) }
        ensures found { OnTrue result (IsNullAssignment into.now fixed.now (option_copied avoid.entry) from.now self.new.found) }
    {
        let goal = Goal {
            into,
            gone: &self.none,
            fixed,
            avoid,
        };
        search(&mut self.found, &mut self.stack, from, &goal)
    }

    /// The same into what is left of an instance.
    pub fn find_left(
        &mut self,
        from: &[Fact],
        left: &Left<'_>,
        fixed: &NullMap,
        avoid: Option<&Fact>,
    ) -> bool
        requires { IsReadyFor left.now.instance.now fixed.now from.now self.old }
        ensures facts { self.new.facts ≡ self.old.facts }
        ensures nulls { self.new.nulls ≡ self.old.nulls }
        ensures exact { IsTrue result
            ↔ Reaches left.now.instance.now left.now.gone.now fixed.now (option_copied avoid.entry) from.now }
        ensures found { OnTrue result
            (FindsAll left.now.instance.now left.now.gone.now fixed.now (option_copied avoid.entry) from.now self.new.found) }
    {
        let goal = Goal {
            into: left.instance,
            gone: left.gone,
            fixed,
            avoid,
        };
        search(&mut self.found, &mut self.stack, from, &goal)
    }

    /// The null map that gives each null that was found the value of its cell.
    ///
    /// # Errors
    ///
    /// `AllocError` if there is no memory.
    pub fn map(&self, into: &Instance) -> Result<NullMap, AllocError>
        requires { Each self.now.found (IsNullCell into.now) }
        ensures { IfOk result (λ m. (n : Id) → given (pairs_of m) n ≡ given (found_pairs into.now self.now.found) n) }
    {
        let mut map = NullMap::new(self.alloc);
        let mut left = self.found.len();
        while left > 0 {
            left -= 1;
            let entry = self.found.at(left);
            let value = into.cell(entry.table, entry.place, entry.column);
            map.set(entry.null, copy_value(value)?)?;
        }
        Ok(map)
    }
}
