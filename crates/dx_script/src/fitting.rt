// Whether a script fits two schemas and a list of conversions.
ghost use Rattle.std.specs.Prelude.{◌≡◌, ◌↔◌, IsTrue, map};
ghost use Rattle.dx_schema.specs.Names.{TableNames, table_names_of};
ghost use Rattle.dx_funcs.specs.Serving.{offered};
ghost use Rattle.dx_script.specs.Names.{IsTableAt};
ghost use Rattle.dx_script.specs.Fits.{FitsScript, InsertFits, KeepFits, MatchFits, ReadsKept, StepFits, created};

use crate::before::{is_created, is_kept, match_count, match_width, through_keeps};
use crate::form::{Equal, Out, Script, Select, Step, Unless};
use crate::step_parts::{are_tables, equals_fit, outs_fit, selects_fit, unless_fit, width_named};
use dx_base::{Items, Text};
use dx_funcs::{Host, Meaning};
use dx_schema::Schema;
use std::alloc::AllocError;

/// Whether the table with a number has this name and these columns.
fn is_table_at(target: &Schema, number: u32, name: &Text, columns: &[Text]) -> bool
    ensures { IsTrue result ↔ IsTableAt (table_names_of target.now) number (record { name = name.now; columns = columns.now }) }
{
    if number >= target.tables() {
        return false;
    }
    if !target.name(number).is(name) {
        return false;
    }
    target.columns(number) == columns
}

/// Whether the tables that the steps create are those of the target, in order.
fn create_target(steps: &[Step], target: &Schema) -> bool
    ensures { IsTrue result ↔ (created steps.now ≡ map (λ (t : TableNames). (t.name, t.columns)) (table_names_of target.now)) }
{
    let tables = target.tables();
    let mut next: u32 = 0;
    for step in steps {
        if let Step::Create { table, columns } = step {
            if !is_table_at(target, next, table, columns.items()) {
                return false;
            }
            next += 1;
        }
    }
    next == tables
}

/// The steps before one, and those that have all keep tables of the script.
#[derive(Drop)]
struct Before<'a> {
    steps: &'a [Step],
    keeps: &'a [Step],
}

/// What a match table selects: from which tables, what of them, and where they are equal.
#[derive(Drop)]
struct Query<'a> {
    sources: &'a [Text],
    select: &'a [Select],
    equal: &'a [Equal],
}

/// Whether the step of a match table fits after those before it.
fn match_fits<F: Fn(u32, &Items<Text>) -> Result<Text, AllocError>, M: Meaning>(
    source: &Schema,
    host: &Host<F, M>,
    before: &[Step],
    rule: u32,
    query: &Query<'_>,
) -> bool
    ensures { IsTrue result ↔ MatchFits (table_names_of source.now) (offered host.now) before.now rule
        query.now.select.now query.now.sources.now query.now.equal.now }
{
    rule as usize == match_count(before)
        && are_tables(source, query.sources)
        && selects_fit(source, host, query.sources, query.select)
        && equals_fit(source, query.sources, query.equal)
}

/// Whether the step of a keep table fits after those before it.
fn keep_fits(before: &[Step], rule: u32, unless: &[Unless]) -> bool
    ensures { IsTrue result ↔ KeepFits before.now rule unless.now }
{
    match_width(before, rule).is_some()
        && !is_kept(before, rule)
        && unless_fit(before, rule, unless)
}

/// The rows that an insert reads, of the match table of a rule or of its keep table, and what it puts in for each.
#[derive(Drop)]
struct Rows<'a> {
    rule: u32,
    kept: bool,
    cells: &'a [Out],
}

/// Whether an insert reads the right table of its rule.
fn reads_right(before: &Before<'_>, rule: u32, kept: bool) -> bool
    ensures { IsTrue result ↔ ReadsKept before.now.keeps.now before.now.steps.now rule kept }
{
    if kept {
        is_kept(before.steps, rule)
    } else {
        !is_kept(before.keeps, rule)
    }
}

/// Whether an insert step fits after those before it.
fn insert_fits(target: &Schema, before: &Before<'_>, table: &Text, rows: &Rows<'_>) -> bool
    ensures { IsTrue result ↔ InsertFits (table_names_of target.now) before.now.keeps.now before.now.steps.now table.now
        rows.now.rule rows.now.kept rows.now.cells.now }
{
    is_created(before.steps, table)
        && rows.cells.len() as u64 == width_named(target, table)
        && match_width(before.steps, rows.rule).is_some()
        && reads_right(before, rows.rule, rows.kept)
        && outs_fit(before.steps, rows.rule, rows.cells)
}

/// Whether a step fits after those before it.
fn step_fits<F: Fn(u32, &Items<Text>) -> Result<Text, AllocError>, M: Meaning>(
    source: &Schema,
    target: &Schema,
    host: &Host<F, M>,
    before: &Before<'_>,
    step: &Step,
) -> bool
    ensures { IsTrue result ↔ StepFits (table_names_of source.now) (table_names_of target.now) (offered host.now)
        before.now.keeps.now before.now.steps.now step.now }
{
    match step {
        Step::Create { .. } => true,
        Step::MatchRows {
            rule,
            select,
            sources,
            equal,
        } => {
            let query = Query {
                sources: sources.items(),
                select: select.items(),
                equal: equal.items(),
            };
            match_fits(source, host, before.steps, *rule, &query)
        }
        Step::KeepRows { rule, unless } => keep_fits(before.steps, *rule, unless.items()),
        Step::InsertRows {
            table,
            rule,
            kept,
            cells,
        } => {
            let rows = Rows {
                rule: *rule,
                kept: *kept,
                cells: cells.items(),
            };
            insert_fits(target, before, table, &rows)
        }
    }
}

/// Whether a script fits: it creates the target's tables in order, the match tables have the numbers of rules in order, all
/// names, columns, arities and widths are right, each step uses earlier tables alone, each rule has at most one keep step, and
/// the inserts of a rule read its keep table exactly if it has one. It takes no memory.
pub fn fits<F: Fn(u32, &Items<Text>) -> Result<Text, AllocError>, M: Meaning>(
    script: &Script,
    source: &Schema,
    target: &Schema,
    host: &Host<F, M>,
) -> bool
    ensures { IsTrue result ↔ FitsScript (table_names_of source.now) (table_names_of target.now) (offered host.now) script.now.steps }
{
    let steps = script.steps.items();
    if !create_target(steps, target) {
        return false;
    }
    let keeps = through_keeps(steps);
    for number in 0..steps.len() {
        let before = Before {
            steps: &steps[..number],
            keeps,
        };
        if !step_fits(source, target, host, &before, &steps[number]) {
            return false;
        }
    }
    true
}
