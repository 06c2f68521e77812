// The matches of rules, lent as rows of numbers.
ghost use Rattle.std.specs.Prelude.{◌≡◌, ◌↔◌, ◌<◌, ◌-◌, ◌+◌, ◌^◌, [], IsTrue, length, slice_index_or};
ghost use Rattle.dx_base.specs.Members.{◌∈◌, Each};
ghost use Rattle.dx_model.specs.declared.values.Value.TheVariants.{Const as ConstValue};
ghost use Rattle.dx_model.specs.Covers.{tuple_at};
ghost use Rattle.dx_cover_fold.specs.Matched.{matched_tuples};
ghost use Rattle.dx_instance.specs.Numbers.{ValuesDiffer, value_of};
ghost use Rattle.dx_instance.specs.Shown.{numbers_of_table};
ghost use Rattle.dx_joins.specs.Shown.{AllTexts, texts_of};
ghost use Rattle.dx_cover_fold.specs.Codes.{IsCode};

use dx_instance::{Rows, Symbols};
use dx_model::Value;
use std::marker::Model;

/// For each rule rows of numbers that stand for texts, one row for each place, lent. A contract sees the symbols and the tables.
#[derive(Drop)]
pub(crate) struct Matched<'a> {
    symbols: &'a Symbols,
    tables: &'a [Rows],
}

impl<'a> Model for Matched<'a> {
    ghost use Rattle.dx_instance.specs.Shown.{NumberedInstance};
    ghost use Rattle.dx_cover_fold.specs.Matched.{RowsAreComparable};

    ghost Value = { NumberedInstance };

    ghost view = { λ m. record { symbols = m.symbols.now; tables = m.tables.now } };

    ghost invariant = { λ m. RowsAreComparable m.symbols.now m.tables.now };
}

// Whether the value is the empty text.
fn is_empty(value: &Value) -> bool
    ensures { IsTrue result ↔ (value.now ≡ ConstValue []) }
{
    match value {
        Value::Const(text) => text.bytes().is_empty(),
        Value::Null(_) => false,
    }
}

impl<'a> Matched<'a> {
    /// The rows of each table, with these symbols.
    pub(crate) fn new(symbols: &'a Symbols, tables: &'a [Rows]) -> Matched<'a>
        requires few { length symbols.now < 2 ^ 32 - 1 }
        requires texts { Each tables.now (λ t. Each t.rows (AllTexts symbols.now)) }
        ensures symbols { result.symbols ≡ symbols.now }
        ensures tables { result.tables ≡ tables.now }
    {
        // Only `len` tells that the symbols are distinct.
        let _count = symbols.len();
        Matched { symbols, tables }
    }

    /// The rows of a rule, lent.
    pub(crate) fn rows(&self, rule: u32) -> &'a Rows
        requires { rule < length self.now.tables }
        ensures rows { result.now ≡ numbers_of_table self.now.tables rule }

        // What holds of all rows.
        ensures apart { ValuesDiffer self.now.symbols }
        ensures texts { Each result.now.rows (AllTexts self.now.symbols) }
        ensures wide { Each result.now.rows (λ r. length r ≡ result.now.width) }
    {
        let tables = self.tables;
        let rows = &tables[rule as usize];
        // Only `count` tells that the rows have one width.
        let _count = rows.count();
        rows
    }

    /// How many places a rule has.
    pub(crate) fn places(&self, rule: u32) -> u32
        requires { rule < length self.now.tables }
        ensures { result ≡ length (slice_index_or (matched_tuples self.now) rule []) }
    {
        self.rows(rule).count()
    }

    /// The row of a rule at a place, lent.
    pub(crate) fn row(&self, rule: u32, place: u32) -> &'a [u32]
        requires rule { rule < length self.now.tables }
        requires place { place < length (slice_index_or (matched_tuples self.now) rule []) }
        ensures texts { AllTexts self.now.symbols result.now }
        ensures tuple { texts_of self.now.symbols result.now ≡ tuple_at (matched_tuples self.now) rule place }
    {
        self.rows(rule).row(place)
    }

    /// The value under a number, lent.
    pub(crate) fn value(&self, number: u32) -> &'a Value
        requires { number < length self.now.symbols }
        ensures { result.now ≡ value_of self.now.symbols number }
    {
        let symbols = self.symbols;
        symbols.value(number as u64)
    }

    /// The number by which what no row can have is compared.
    pub(crate) fn outside(&self) -> u32
        ensures { result ≡ length self.now.symbols + 1 }
    {
        self.symbols.len() as u32 + 1
    }

    /// The number by which a value that is no symbol is compared.
    fn absent_code(&self, value: &Value) -> u32
        requires { ¬ (value.now ∈ self.now.symbols) }
        ensures { IsCode self.now.symbols value.now result }
    {
        if is_empty(value) {
            self.symbols.len() as u32
        } else {
            self.outside()
        }
    }

    /// The number by which a value is compared.
    pub(crate) fn code(&self, value: &Value) -> u32
        ensures { IsCode self.now.symbols value.now result }
    {
        match self.symbols.find(value) {
            Some(number) => number as u32,
            None => self.absent_code(value),
        }
    }
}
