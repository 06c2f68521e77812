// The certain answers of a query.
ghost use Rattle.std.specs.Prelude.{◌≡◌, ◌<◌, ◌≤◌, ◌*◌, ◌/◌, ◌∷◌, ◌++◌, [], IfErr, IfOk, OnOk, length, map};
ghost use Rattle.dx_base.specs.Members.{Each};
ghost use Rattle.dx_instance.specs.Stored.{facts, rows_of, table_at, widths};
ghost use Rattle.dx_instance.specs.Places.{row_at};
ghost use Rattle.dx_instance.specs.Ranks.{text_of_value};
ghost use Rattle.dx_instance.specs.Numbers.{IsConstant};
ghost use Rattle.dx_queries.specs.Results.{AreConstantAnswers, FitsPart, FitsQuery};
ghost use Rattle.dx_certain.specs.Listing.{ListsCertain};
ghost use Rattle.dx_certain.specs.Refusal.{IsCertainRefusal};
ghost use Rattle.dx_certain.specs.Finding.{HasThose, IsAmong};

use crate::adding::{add_part, has_answer};
use crate::fault::CertainFault;
use dx_base::{Count, Limit, Text};
use dx_instance::{Instance, Value};
use dx_model::Tuples;
use dx_queries::{Part, Query};
use std::alloc::{AllocError, Global};

// The constant answers of all parts, as rows of the first table.
fn gathered(
    alloc: Global,
    width: u32,
    parts: &[Part],
    target: &Instance,
    limit: u64,
) -> Result<Instance, CertainFault>
    requires fits { Each parts.now (FitsPart (widths target.now) width) }
    requires wide { 0 < width }
    ensures widths { IfOk result (λ I. widths I ≡ width ∷ []) }
    ensures rows { IfOk result (λ I. HasThose I (IsAmong (facts target.now) parts.now)) }
    ensures within { IfOk result (λ I. length (rows_of I 0) * width ≤ limit) }
    ensures refused { IfErr result (IsCertainRefusal (facts target.now) (record { width = width; parts = parts.now }) limit) }
{
    let most = limit / u64::from(width);
    let mut answers = Instance::new(alloc, vec![in alloc; width]?)?;
    for part in parts {
        if add_part(alloc, part, target, most, &mut answers)? {
            return Err(CertainFault::Limit(Limit {
                what: Count::AnswerCells,
                number: limit,
            }));
        }
    }
    Ok(answers)
}

// Adds the texts of a row of constants.
fn push_texts(rows: &Instance, place: u32, texts: &mut Vec<Text>) -> Result<(), AllocError>
    requires place { place < length (rows_of rows.now 0) }
    requires wide { length (row_at rows.now 0 place) ≡ (table_at rows.now 0).width }
    requires constants { Each (row_at rows.now 0 place) IsConstant }
    ensures { OnOk result (texts.new.items ≡ texts.old.items ++ map text_of_value (row_at rows.now 0 place)) }
{
    for column in 0..rows.width(0) {
        match rows.cell(0, place, column) {
            Value::Const(text) => texts.push(text.copy()?)?,
            Value::Null(_) => unreachable!(),
        }
    }
    Ok(())
}

// The rows of the first table as tuples of texts.
fn tuples_of(alloc: Global, rows: &Instance) -> Result<Tuples, AllocError>
    requires table { 0 < length rows.now }
    requires constants { Each (rows_of rows.now 0) (λ row. Each row IsConstant) }
    ensures { IfOk result (λ tuples. tuples ≡ map (map text_of_value) (rows_of rows.now 0)) }
{
    // The call tells what holds of the tables of each instance.
    prove!(rows.tables() > 0);
    let width = rows.width(0) as usize;
    let count = rows.count(0);
    let mut texts = Vec::with_capacity(alloc, count as usize * width)?;
    for place in 0..count {
        push_texts(rows, place, &mut texts)?;
    }
    Ok(Tuples::of_texts(width, count as usize, texts))
}

// The answers of a query without answer cells: there is one, the empty one, or none.
fn empty_answers(alloc: Global, parts: &[Part], target: &Instance) -> Result<Tuples, AllocError>
    requires { Each parts.now (FitsPart (widths target.now) 0) }
    ensures { IfOk result (AreConstantAnswers (facts target.now) (record { width = 0; parts = parts.now })) }
{
    for part in parts {
        if has_answer(alloc, part, target)? {
            return Ok(Tuples::of_texts(0, 1, Vec::new(alloc)));
        }
    }
    Ok(Tuples::of_texts(0, 0, Vec::new(alloc)))
}

// The rows of constants among the answers of the query on the instance: ascending, each once.
fn listed(
    alloc: Global,
    query: &Query,
    target: &Instance,
    limit: u64,
) -> Result<Tuples, CertainFault>
    requires { FitsQuery (widths target.now) query.now }
    ensures exact { IfOk result (AreConstantAnswers (facts target.now) query.now) }
    ensures within { IfOk result (λ rows. length rows * query.now.width ≤ limit) }
    ensures refused { IfErr result (IsCertainRefusal (facts target.now) query.now limit) }
{
    let parts = query.parts.items();
    if query.width == 0 {
        return Ok(empty_answers(alloc, parts, target)?);
    }
    let rows = gathered(alloc, query.width, parts, target, limit)?;
    let sorted = rows.into_sorted()?;
    Ok(tuples_of(alloc, &sorted)?)
}

/// The rows of constants among the answers of the query on the instance: ascending, each once. If the instance is universal
/// for a source under some rules, these are exactly the certain answers there.
///
/// # Errors
///
/// `Limit` exactly if these rows have more cells than the limit. `Memory` at any point.
pub fn certain(
    alloc: Global,
    query: &Query,
    target: &Instance,
    limit: u64,
) -> Result<Tuples, CertainFault>
    requires { FitsQuery (widths target.now) query.now }
    ensures exact { IfOk result (AreConstantAnswers (facts target.now) query.now) }
    ensures certain { IfOk result (ListsCertain (facts target.now) query.now) }
    ensures within { IfOk result (λ rows. length rows * query.now.width ≤ limit) }
    ensures refused { IfErr result (IsCertainRefusal (facts target.now) query.now limit) }
{
    listed(alloc, query, target, limit)
}
