// The texts for which rows of numbers stand.
ghost use Rattle.std.specs.Prelude.{◌≡◌, ◌++◌, IfOk, OnOk, map};
ghost use Rattle.dx_base.specs.Members.{Each};
ghost use Rattle.dx_model.specs.Rules.{TuplesAscend};
ghost use Rattle.dx_model.specs.Matches.{rows_of_matches};
ghost use Rattle.dx_instance.specs.Cells.{NumbersAscend};
ghost use Rattle.dx_instance.specs.Numbers.{ValuesAscend};
ghost use Rattle.dx_instance.specs.Ranks.{text_of_value};
ghost use Rattle.dx_joins.specs.Shown.{AllTexts, texts_of};
ghost use Rattle.dx_tgd.specs.Texts.{tuples_in};

use dx_base::{Items, Text};
use dx_instance::{Rows, Symbols, Value};
use dx_model::{Matches, Places, Tuples};
use std::alloc::{AllocError, Global};

// A copy of the text of a value, and a text without bytes for a null.
fn text_copy(alloc: Global, value: &Value) -> Result<Text, AllocError>
    ensures { IfOk result (λ t. t ≡ text_of_value value.now) }
{
    match value {
        Value::Const(text) => text.copy(),
        Value::Null(_) => Text::from_str(alloc, ""),
    }
}

// Adds copies of the texts for which a row stands.
fn push_texts(
    alloc: Global,
    row: &[u32],
    symbols: &Symbols,
    texts: &mut Vec<Text>,
) -> Result<(), AllocError>
    requires { AllTexts symbols.now row.now }
    ensures { OnOk result (texts.new.items ≡ texts.old.items ++ texts_of symbols.now row.now) }
{
    for number in row {
        texts.push(text_copy(alloc, symbols.value(*number as u64))?)?;
    }
    Ok(())
}

/// The tuples for which the rows stand, in order. If the symbols and the rows ascend, so do the tuples.
///
/// # Errors
///
/// `AllocError` if there is no memory.
pub fn places_of_rows(alloc: Global, rows: &Rows, symbols: &Symbols) -> Result<Places, AllocError>
    requires { Each rows.now.rows (AllTexts symbols.now) }
    ensures exact { IfOk result (λ p. p.tuples ≡ map (texts_of symbols.now) rows.now.rows) }
    ensures ascend { IfOk result (λ p. ValuesAscend symbols.now → NumbersAscend rows.now.rows → TuplesAscend p.tuples) }
{
    let width = rows.width() as usize;
    let count = rows.count() as usize;
    let mut texts = Vec::with_capacity(alloc, count * width)?;
    for place in 0..rows.count() {
        push_texts(alloc, rows.row(place), symbols, &mut texts)?;
    }
    Ok(Places {
        tuples: Tuples::of_texts(width, count, texts),
    })
}

/// The tuples for which the rows of each table stand.
///
/// # Errors
///
/// `AllocError` if there is no memory.
pub fn matches_of(alloc: Global, tables: &[Rows], symbols: &Symbols) -> Result<Matches, AllocError>
    requires texts { Each tables.now (λ t. Each t.rows (AllTexts symbols.now)) }
    ensures { IfOk result (λ m. rows_of_matches m ≡ tuples_in symbols.now tables.now) }
{
    let mut rules = Items::new(alloc);
    for rows in tables {
        rules.push(places_of_rows(alloc, rows, symbols)?)?;
    }
    Ok(Matches { rules })
}
