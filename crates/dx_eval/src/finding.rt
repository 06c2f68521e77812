// The match tables of a script, within a limit on the cells that are inserted.
ghost use Rattle.std.specs.Prelude.{◌≡◌, ◌↔◌, ◌<◌, ◌≤◌, ◌*◌, ◌^◌, ℕ, IfOk, IfErr, MatchOption, Some, length};
ghost use Rattle.dx_base.specs.declared.file.Count.TheVariants.{TargetCells};
ghost use Rattle.dx_base.specs.Members.{Each};
ghost use Rattle.dx_schema.specs.Names.{table_names_of};
ghost use Rattle.dx_funcs.specs.Names.{call_named};
ghost use Rattle.dx_funcs.specs.Serving.{Serves, offered};
ghost use Rattle.dx_instance.specs.Numbers.{ValuesDiffer, Extends};
ghost use Rattle.dx_instance.specs.Shown.{shown_tables};
ghost use Rattle.dx_instance.specs.Stored.{facts};
ghost use Rattle.dx_tgd.specs.Texts.{tuples_in};
ghost use Rattle.dx_eval.specs.declared.fault.EvalFault.TheVariants.{Limit as Refused};
ghost use Rattle.dx_eval.specs.Evaluating.{cells_for, inserted_cells, script_cells};
ghost use Rattle.dx_eval.specs.Finding.{AllStepsFound, IsFoundUpTo, IsEvalRefusal, MatchesFit, MatchingFits, matching_in, matchings};

use crate::fault::EvalFault;
use crate::matching::step_rows;
use crate::selection::Selection;
use crate::source::Source;
use dx_base::{Count, Items, Limit, Text, no_number_left};
use dx_funcs::Meaning;
use dx_instance::{Rows, Symbols};
use dx_script::Step;
use dx_tgd::Found;
use std::alloc::{AllocError, Global};

// How many cells a step inserts for each tuple of a rule.
fn step_cells(step: &Step, rule: u32) -> u64
    ensures { result ≡ inserted_cells rule step.now }
{
    match step {
        Step::InsertRows {
            rule: number,
            cells,
            ..
        } => { if *number == rule { cells.len() } else { 0 } }
        _ => 0,
    }
}

// How many cells the steps insert for each tuple of a rule.
fn rule_cells(steps: &[Step], rule: u32) -> Result<u64, AllocError>
    ensures { IfOk result (λ n. n ≡ cells_for steps.now rule) }
{
    let mut cells = 0u64;
    for step in steps {
        let more = step_cells(step, rule);
        if more > u64::MAX - cells {
            return Err(no_number_left(cells.saturating_add(more)));
        }
        cells += more;
    }
    Ok(cells)
}

// How many tuples there is room for, if each of them makes so many cells.
fn room_for(left: u64, cells: u64) -> u64
    ensures { (n : ℕ) → n < 2 ^ 64 → (n ≤ result) ↔ (n * cells ≤ left) }
{
    if cells == 0 {
        return u64::MAX;
    }
    left / cells
}

// The limit on inserted cells is passed.
fn passed(limit: u64) -> EvalFault
    ensures { result ≡ Refused (record { what = TargetCells; number = limit }) }
{
    EvalFault::Limit(Limit {
        what: Count::TargetCells,
        number: limit,
    })
}

// The rows that were found, unless they are more than there is room for.
fn within(found: Option<Rows>, room: u64, limit: u64) -> Result<Rows, EvalFault>
    ensures ok { IfOk result (λ t. (found ≡ Some t) × (length t.rows ≤ room)) }
    ensures few { IfOk result (λ t. length t.rows < 2 ^ 32) }
    ensures err { IfErr result (λ e. (e ≡ Refused (record { what = TargetCells; number = limit }))
        × MatchOption found (Unit {0}) (λ t. (room < length t.rows) × (length t.rows < 2 ^ 32))) }
{
    match found {
        Some(table) => {
            if table.count() as u64 > room {
                return Err(passed(limit));
            }
            Ok(table)
        }
        None => Err(passed(limit)),
    }
}

// The rows of numbers that stand for the tuples that a match step selects. None if there are more than `most` tuples, and for
// a step of another kind.
fn matched_rows<F: Fn(u32, &Items<Text>) -> Result<Text, AllocError>, M: Meaning>(
    alloc: Global,
    source: &Source<'_, '_, F, M>,
    step: &Step,
    symbols: &mut Symbols,
    most: u64,
) -> Result<Option<Rows>, AllocError>
    requires serves { Serves F.Fn M.apply source.now.host.now }
    requires fit { Each (matching_in step.now) (MatchingFits (table_names_of source.now.schema.now) (offered source.now.host.now)) }
    requires symbols { Extends source.now.rows.now.symbols symbols.old }
    ensures grows { Extends symbols.old symbols.new }
    ensures apart { ValuesDiffer symbols.new }
    ensures rows { IfOk result (λ o. Each (matching_in step.now) (IsFoundUpTo most (table_names_of source.now.schema.now)
        (call_named M.apply (offered source.now.host.now)) (facts (shown_tables source.now.rows.now.symbols source.now.rows.now.tables))
        symbols.new o)) }
{
    // The call tells that no value has two numbers.
    prove!(symbols.len() <= u32::MAX as u64);
    match step {
        Step::MatchRows {
            select,
            sources,
            equal,
            ..
        } => {
            let selection = Selection {
                select: select.items(),
                sources: sources.items(),
                equal: equal.items(),
            };
            step_rows(alloc, source, &selection, symbols, most)
        }
        _ => Ok(None),
    }
}

/// The tuples of each match step, as rows of numbers. A step may have as many as the limit leaves room for.
///
/// # Errors
///
/// `Limit` exactly if the script inserts more cells than the limit, counted for all tuples. `Memory` at any point.
pub(crate) fn found_steps<F: Fn(u32, &Items<Text>) -> Result<Text, AllocError>, M: Meaning>(
    alloc: Global,
    steps: &[Step],
    source: &Source<'_, '_, F, M>,
    limit: u64,
) -> Result<Found, EvalFault>
    requires serves { Serves F.Fn M.apply source.now.host.now }
    requires fit { MatchesFit (table_names_of source.now.schema.now) (offered source.now.host.now) steps.now }
    ensures found { IfOk result (λ f. AllStepsFound (table_names_of source.now.schema.now)
        (call_named M.apply (offered source.now.host.now))
        (facts (shown_tables source.now.rows.now.symbols source.now.rows.now.tables)) f.symbols (matchings steps.now) f.tables.items) }
    ensures within { IfOk result (λ f. script_cells steps.now (tuples_in f.symbols f.tables.items) ≤ limit) }
    ensures refused { IfErr result (IsEvalRefusal (table_names_of source.now.schema.now)
        (call_named M.apply (offered source.now.host.now)) steps.now
        (facts (shown_tables source.now.rows.now.symbols source.now.rows.now.tables)) limit) }
{
    // The call tells that no value has two numbers.
    prove!((source.rows.len() as u64) < 1 << 32);
    let mut symbols = source.rows.copy_symbols(alloc)?;
    let mut tables = Vec::new(alloc);
    let mut left = limit;
    for step in steps {
        if let Step::MatchRows { rule, .. } = step {
            let cells = rule_cells(steps, *rule)?;
            let room = room_for(left, cells);
            let found = matched_rows(alloc, source, step, &mut symbols, room)?;
            let table = within(found, room, limit)?;
            left -= table.count() as u64 * cells;
            tables.push(table)?;
        }
    }
    Ok(Found { symbols, tables })
}
