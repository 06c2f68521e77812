// The matches of rules, kept as rows of numbers.
ghost use Rattle.std.specs.Prelude.{◌≡◌, ◌<◌, ◌^◌, [], IfOk, length, slice_index_or};
ghost use Rattle.dx_base.specs.Members.{Each};
ghost use Rattle.dx_model.specs.Matches.{rows_of_matches};
ghost use Rattle.dx_joins.specs.Shown.{AllTexts};
ghost use Rattle.dx_tgd.specs.Texts.{tuples_in};

use crate::texts::matches_of;
use crate::tuple::Tuple;
use dx_instance::{Rows, Symbols};
use dx_model::Matches;
use std::alloc::{AllocError, Global};
use std::marker::Model;

/// The exported tuples of each rule, kept as rows of numbers. A contract sees the list of the tuples of each rule. The place of a
/// tuple is its number in the list of its rule.
#[derive(Drop)]
pub struct RuleMatches {
    symbols: Symbols,
    tables: Vec<Rows>,
}

impl Model for RuleMatches {
    ghost use Rattle.std.specs.Prelude.{◌<◌, ◌^◌, length};
    ghost use Rattle.dx_base.specs.Members.{Each};
    ghost use Rattle.dx_model.specs.Values.{Rows};
    ghost use Rattle.dx_joins.specs.Shown.{AllTexts};
    ghost use Rattle.dx_tgd.specs.Texts.{tuples_in};

    ghost Value = { Rows };

    ghost view = { λ m. tuples_in m.symbols m.tables.items };

    ghost invariant = { λ m. (length m.tables.items < 2 ^ 32) × Each m.tables.items (λ t. Each t.rows (AllTexts m.symbols)) };
}

impl RuleMatches {
    /// The tuples for which the rows of each table stand.
    pub(crate) fn new(symbols: Symbols, tables: Vec<Rows>) -> RuleMatches
        requires few { length tables.items < 2 ^ 32 }
        requires texts { Each tables.items (λ t. Each t.rows (AllTexts symbols)) }
        ensures { result ≡ tuples_in symbols tables.items }
    {
        RuleMatches { symbols, tables }
    }

    /// How many rules there are.
    pub fn rules(&self) -> u32
        ensures { result ≡ length self.now }
    {
        self.tables.len() as u32
    }

    /// How many places a rule has.
    pub fn places(&self, rule: u32) -> u32
        requires { rule < length self.now }
        ensures { result ≡ length (slice_index_or self.now rule []) }
    {
        self.tables[rule as usize].count()
    }

    /// The tuple at a place of a rule, lent.
    pub fn tuple(&self, rule: u32, place: u32) -> Tuple<'_>
        requires rule { rule < length self.now }
        requires place { place < length (slice_index_or self.now rule []) }
        ensures { result ≡ slice_index_or (slice_index_or self.now rule []) place [] }
    {
        Tuple::new(&self.symbols, self.tables[rule as usize].row(place))
    }

    /// The symbols, and for each rule the rows of their numbers that stand for its tuples, lent.
    pub fn numbers(&self) -> (&Symbols, &[Rows])
        ensures tuples { tuples_in result.0.now result.1.now ≡ self.now }
        ensures texts { Each result.1.now (λ t. Each t.rows (AllTexts result.0.now)) }
    {
        (&self.symbols, &self.tables)
    }

    /// The same tuples as texts.
    ///
    /// # Errors
    ///
    /// `AllocError` if there is no memory.
    pub fn texts(&self, alloc: Global) -> Result<Matches, AllocError>
        ensures { IfOk result (λ m. rows_of_matches m ≡ self.now) }
    {
        matches_of(alloc, &self.tables, &self.symbols)
    }
}
