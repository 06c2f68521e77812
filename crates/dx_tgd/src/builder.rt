// Rows of numbers for each table, before they are put in order.
ghost use Rattle.std.specs.Prelude.{◌≡◌, ◌<◌, ◌≤◌, ◌-◌, ◌^◌, [], ◌∷◌, IfOk, OnOk, length};
ghost use Rattle.std.specs.List.{AllZip};
ghost use Rattle.dx_base.specs.Members.{Each};
ghost use Rattle.dx_model.specs.Rules.{exported as exported_of};
ghost use Rattle.dx_instance.specs.Numbers.{ValuesDiffer, Extends, value_of};
ghost use Rattle.dx_instance.specs.Shown.{shown_row};
ghost use Rattle.dx_instance.specs.Stored.{IsSorting, rows_of, without_rows};
ghost use Rattle.dx_tgd.specs.Asked.{HasRoomFor};
ghost use Rattle.dx_tgd.specs.Gained.{GainsFacts};
ghost use Rattle.dx_tgd.specs.Planned.{IsPlannedAtom, built};

use crate::planned::{NumberedPlaces, PlannedAtom};
use crate::planning::planned_atoms;
use dx_instance::{Instance, Rows, Symbols, Value};
use dx_model::Rule;
use std::alloc::{AllocError, Global};
use std::marker::Model;

/// Symbols, and for each table rows of their numbers, of which an instance is made.
#[derive(Drop)]
pub struct Builder {
    symbols: Symbols,
    tables: Vec<Rows>,
}

impl Model for Builder {
    ghost use Rattle.std.specs.Prelude.{length};
    ghost use Rattle.dx_base.specs.Members.{Each};
    ghost use Rattle.dx_instance.specs.Shown.{NumberedInstance, NumberRowsFit};

    ghost Value = { NumberedInstance };

    ghost view = { λ b. record { symbols = b.symbols; tables = b.tables.items } };

    ghost invariant = { λ b. Each b.tables.items (NumberRowsFit (length b.symbols)) };
}

impl Builder {
    /// No rows, in tables of these widths.
    ///
    /// # Errors
    ///
    /// `AllocError` if there is no memory.
    pub fn new(alloc: Global, symbols: Symbols, widths: &[u32]) -> Result<Builder, AllocError>
        requires { Each widths.now (λ w. 1 ≤ w) }
        ensures symbols { IfOk result (λ b. b.symbols ≡ symbols) }
        ensures empty { IfOk result (λ b. built b ≡ without_rows widths.now) }
    {
        let mut tables = Vec::new(alloc);
        for width in widths {
            tables.push(Rows::new(alloc, *width))?;
        }
        Ok(Builder { symbols, tables })
    }

    /// The symbols, lent.
    pub fn symbols(&self) -> &Symbols
        ensures same { result.now ≡ self.now.symbols }
        ensures apart { ValuesDiffer result.now }
    {
        // The call tells that no value has two numbers.
        prove!(self.symbols.len() <= u32::MAX as u64);
        &self.symbols
    }

    /// The number of a value, which goes last if it is new.
    ///
    /// # Errors
    ///
    /// `AllocError` if there is no memory, or no number is left.
    pub fn number(&mut self, value: Value) -> Result<u32, AllocError>
        ensures within { IfOk result (λ n. n < length self.new.symbols) }
        ensures number { IfOk result (λ n. value_of self.new.symbols n ≡ value) }
        ensures grows { Extends self.old.symbols self.new.symbols }
        ensures same { built self.new ≡ built self.old }
    {
        Ok(self.symbols.intern(value)? as u32)
    }

    /// The plan of a rule's conclusion, for these places. Its literals and nulls become symbols.
    pub(crate) fn plan(
        &mut self,
        alloc: Global,
        rule: &Rule,
        at: &NumberedPlaces<'_>,
    ) -> Result<Vec<PlannedAtom>, AllocError>
        requires variables { at.now.variables.now ≡ exported_of rule.now }
        ensures planned { IfOk result (λ v. AllZip
            (IsPlannedAtom self.new.symbols at.now.rule at.now.variables.now at.now.places) v.items rule.now.conclusion) }
        ensures grows { Extends self.old.symbols self.new.symbols }
        ensures same { built self.new ≡ built self.old }
    {
        planned_atoms(alloc, rule.conclusion.items(), at, &mut self.symbols)
    }

    /// How many rows a table has.
    pub fn count(&self, table: u32) -> u32
        requires { table < length (built self.now) }
        ensures { result ≡ length (rows_of (built self.now) table) }
    {
        self.tables[table as usize].count()
    }

    /// One row of numbers more.
    ///
    /// # Errors
    ///
    /// `AllocError` if there is no memory.
    pub fn add(&mut self, table: u32, numbers: &[u32]) -> Result<(), AllocError>
        requires { HasRoomFor self.old table numbers.now }
        ensures symbols { OnOk result (self.new.symbols ≡ self.old.symbols) }
        ensures added { OnOk result (GainsFacts (built self.old) (built self.new)
            (record { table = table; row = shown_row self.old.symbols numbers.now } ∷ [])) }
    {
        self.tables[table as usize].push(numbers)
    }

    /// The instance of these rows, which ascend, each once.
    ///
    /// # Errors
    ///
    /// `AllocError` if there is no memory.
    pub fn finish(self, alloc: Global) -> Result<Instance, AllocError>
        requires { length (built self) < 2 ^ 32 - 1 }
        ensures { IfOk result (IsSorting (built self)) }
    {
        let Builder { symbols, tables } = self;
        Instance::from_rows(alloc, symbols, tables)
    }
}
