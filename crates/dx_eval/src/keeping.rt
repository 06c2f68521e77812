// The places that keep steps leave.
ghost use Rattle.std.specs.Prelude.{◌≡◌, ◌↔◌, ◌<◌, ℕ, List, IfOk, IsTrue, length};
ghost use Rattle.dx_base.specs.Members.{◌∈◌, Each};
ghost use Rattle.dx_model.specs.declared.values.Value.TheVariants.{Const};
ghost use Rattle.dx_instance.specs.Numbers.{value_of};
ghost use Rattle.dx_instance.specs.Cells.{NumbersAscend};
ghost use Rattle.dx_instance.specs.Shown.{numbers_of_table};
ghost use Rattle.dx_joins.specs.Shown.{AllTexts, texts_of};
ghost use Rattle.dx_tgd.specs.Texts.{tuples_in};
ghost use Rattle.dx_script.specs.declared.form.Unless.{Unless as AnyUnless};
ghost use Rattle.dx_script.specs.declared.form.Step.TheVariants.{KeepRows};
ghost use Rattle.dx_eval.specs.Keeping.{HoldsAlone, LacksPartner, LacksPartners, KeepsPlaces, PartStands, Stay, TestStands};
ghost use Rattle.dx_eval.specs.Keeping.{column_numbers, own_columns};

use crate::keys::{columns_of_other, columns_of_own, gather, has_row, keys_of};
use crate::rule_tables::RuleTables;
use dx_base::Text;
use dx_instance::{Rows, Symbols, Value};
use dx_script::{Step, Test, Unless};
use std::alloc::{AllocError, Global};

// Whether the number stands for this text.
fn stands_for(symbols: &Symbols, number: u32, text: &Text) -> bool
    requires { number < length symbols.now }
    ensures { IsTrue result ↔ (value_of symbols.now number ≡ Const text.now) }
{
    match symbols.value(number as u64) {
        Value::Const(own) => own.is(text),
        Value::Null(_) => false,
    }
}

// Whether the test holds, if it reads the tuple's own columns alone.
fn is_met_alone(symbols: &Symbols, row: &[u32], test: &Test) -> bool
    requires texts { AllTexts symbols.now row.now }
    requires stands { (width : ℕ) × TestStands (length row.now) width test.now }
    ensures { IsTrue result ↔ HoldsAlone (texts_of symbols.now row.now) test.now }
{
    match test {
        Test::Literal { own, text } => stands_for(symbols, row[*own as usize], text),
        _ => true,
    }
}

// Whether the tests that read the tuple's own columns alone hold.
fn holds_alone(symbols: &Symbols, row: &[u32], tests: &[Test]) -> bool
    requires texts { AllTexts symbols.now row.now }
    requires stand { (width : ℕ) × Each tests.now (TestStands (length row.now) width) }
    ensures { IsTrue result ↔ Each tests.now (HoldsAlone (texts_of symbols.now row.now)) }
{
    tests.iter().all(|test| is_met_alone(symbols, row, test))
}

// How partners are looked up: the tests, the columns of a tuple's own that they compare, and the keys of the others.
#[derive(Clone, Copy)]
struct Lookup<'a> {
    tests: &'a [Test],
    columns: &'a [u32],
    keys: &'a Rows,
    ghost own: { columns.now ≡ own_columns tests.now },
}

impl<'a> Lookup<'a> {
    // Whether a tuple has a partner, whose compared columns are among the keys.
    fn has_partner(
        &self,
        symbols: &Symbols,
        row: &[u32],
        buffer: &mut Vec<u32>,
    ) -> Result<bool, AllocError>
        requires texts { AllTexts symbols.now row.now }
        requires stand { (width : ℕ) × Each self.now.tests.now (TestStands (length row.now) width) }
        requires ascend { NumbersAscend self.now.keys.now.rows }
        ensures { IfOk result (λ b. IsTrue b
            ↔ (Each self.now.tests.now (HoldsAlone (texts_of symbols.now row.now))
            × (column_numbers self.now.columns.now row.now ∈ self.now.keys.now.rows))) }
    {
        if !holds_alone(symbols, row, self.tests) {
            return Ok(false);
        }
        gather(row, self.columns, buffer)?;
        Ok(has_row(self.keys, buffer))
    }
}

// The places whose tuples have no partner by a part.
fn left_by_part(
    alloc: Global,
    places: &[u32],
    part: &Unless,
    of: &RuleTables<'_>,
) -> Result<Vec<u32>, AllocError>
    requires places { Each places.now (λ k. k < length (numbers_of_table of.now.tables.now of.now.rule).rows) }
    requires stands { PartStands of.now.tables.now of.now.rule part.now }
    ensures { IfOk result (λ v. KeepsPlaces (LacksPartner of.now.symbols.now
        (numbers_of_table of.now.tables.now of.now.rule).rows
        (numbers_of_table of.now.tables.now part.now.rule).rows part.now.tests) places.now v.items) }
{
    // The call tells that no value has two numbers.
    prove!(of.symbols.len() <= u32::MAX as u64);
    let tables = of.tables;
    let own = &tables[of.rule as usize];
    let other = &tables[part.rule as usize];
    let tests = part.tests.items();
    let keys = keys_of(alloc, other, &columns_of_other(alloc, tests)?)?;
    let columns = columns_of_own(alloc, tests)?;
    let lookup = Lookup {
        tests,
        columns: &columns,
        keys: &keys,
    };
    let mut left = Vec::new(alloc);
    let mut buffer = Vec::new(alloc);
    for place in places {
        let row = own.row(*place);
        if !lookup.has_partner(of.symbols, row, &mut buffer)? {
            left.push(*place)?;
        }
    }
    Ok(left)
}

// The places whose tuples have no partner by any part.
fn left_by_parts(
    alloc: Global,
    places: Vec<u32>,
    unless: &[Unless],
    of: &RuleTables<'_>,
) -> Result<Vec<u32>, AllocError>
    requires places { Each places.items (λ k. k < length (numbers_of_table of.now.tables.now of.now.rule).rows) }
    requires stand { Each unless.now (PartStands of.now.tables.now of.now.rule) }
    ensures { IfOk result (λ v.
        KeepsPlaces (LacksPartners of.now.symbols.now of.now.tables.now of.now.rule unless.now) places.items v.items) }
{
    let mut left = places;
    for part in unless {
        left = left_by_part(alloc, &left, part, of)?;
    }
    Ok(left)
}

// All places.
fn all_places(alloc: Global, count: u32) -> Result<Vec<u32>, AllocError>
    ensures { IfOk result (λ v. (k : ℕ) → (k ∈ v.items) ↔ (k < count)) }
{
    let mut places = Vec::new(alloc);
    for place in 0..count {
        places.push(place)?;
    }
    Ok(places)
}

/// The places of a rule that its keep steps leave.
///
/// # Errors
///
/// `AllocError` if there is no memory, or numbers run out.
pub(crate) fn stay_places(
    alloc: Global,
    steps: &[Step],
    of: &RuleTables<'_>,
) -> Result<Vec<u32>, AllocError>
    requires { (r : ℕ) (unless : List AnyUnless) → KeepRows r unless ∈ steps.now → Each unless (PartStands of.now.tables.now r) }
    ensures { IfOk result (λ v. Stay steps.now (tuples_in of.now.symbols.now of.now.tables.now) of.now.rule v.items) }
{
    let tables = of.tables;
    let mut places = all_places(alloc, tables[of.rule as usize].count())?;
    for step in steps {
        if let Step::KeepRows {
            rule: number,
            unless,
        } = step
        {
            if *number == of.rule {
                places = left_by_parts(alloc, places, unless.items(), of)?;
            }
        }
    }
    Ok(places)
}
