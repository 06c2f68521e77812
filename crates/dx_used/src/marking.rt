// The columns that rules use or conditions name.
ghost use Rattle.std.specs.Prelude.{◌≡◌, true, IfOk, OnOk, length, slice_index_or};
ghost use Rattle.dx_base.specs.Members.{Each};
ghost use Rattle.dx_model.specs.declared.rules.Rule.{Rule};
ghost use Rattle.dx_model.specs.Fitting.{IsRule};
ghost use Rattle.dx_used.specs.Used.{CellsIdle, AsksOfValue, HaveWidths, IsUsedBy, UsesOnly, mentions};
ghost use Rattle.dx_used.specs.Named.{UsesExactly, IsNamed, ReadNamed};
ghost use Rattle.dx_used.specs.Counting.{NewOnlyWhere, MarksRead, MarksUsed, CountsCells, CellHasPlace, KeepMarks, ReadsNamed, UsesOnlyOf};

use crate::mentions::{is_idle, mentions_of};
use dx_base::{Items, no_number_left};
use dx_lines::Condition;
use dx_model::{Cell, Rule};
use std::alloc::{AllocError, Global};

// Marks each column whose cell asks something of the value there.
fn mark_cells(cells: &[Cell], counts: &[u8], marks: &mut [bool])
    ensures idle { (d : Rule) → CountsCells (mentions d) counts.now → CellsIdle d marks.new cells.now }
    ensures asks { (d : Rule) → CountsCells (mentions d) counts.now → Each cells.now (CellHasPlace (length counts.now))
        → NewOnlyWhere (AsksOfValue d cells.now) marks.old marks.new }
    ensures keep { KeepMarks marks.old marks.new }
{
    for column in 0..cells.len() {
        if column < marks.len() && !is_idle(counts, &cells[column]) {
            marks[column] = true;
        }
    }
}

// Marks the columns of a table that a rule uses.
fn mark_rule(alloc: Global, rule: &Rule, table: u32, marks: &mut [bool]) -> Result<(), AllocError>
    ensures only { OnOk result (UsesOnlyOf table marks.new rule.now) }
    ensures used { OnOk result (IsRule rule.now → NewOnlyWhere (IsUsedBy rule.now table) marks.old marks.new) }
    ensures keep { KeepMarks marks.old marks.new }
{
    let counts = mentions_of(alloc, rule)?;
    for atom in rule.premise.items() {
        if atom.table == table {
            mark_cells(atom.cells.items(), &counts, marks);
        }
    }
    Ok(())
}

// The marks of a table of so many columns, by the rules alone.
fn marks_by_rules(
    alloc: Global,
    rules: &[Rule],
    table: u32,
    width: u32,
) -> Result<Vec<bool>, AllocError>
    ensures width { IfOk result (λ marks. length marks.items ≡ width) }
    ensures only { IfOk result (λ marks. Each rules.now (UsesOnlyOf table marks.items)) }
    ensures used { IfOk result (λ marks. Each rules.now IsRule → MarksUsed rules.now table marks.items) }
{
    let mut marks = vec![in alloc; false; width as usize]?;
    for rule in rules {
        mark_rule(alloc, rule, table, &mut marks)?;
    }
    Ok(marks)
}

// Marks a column, if there is a mark for it.
fn mark_column(column: u32, marks: &mut [bool])
    ensures marked { slice_index_or marks.new column true ≡ true }
    ensures new { NewOnlyWhere (λ i. i ≡ column) marks.old marks.new }
    ensures keep { KeepMarks marks.old marks.new }
{
    let place = column as usize;
    if place < marks.len() {
        marks[place] = true;
    }
}

// Marks the columns of a table that conditions name.
fn mark_named(conditions: &[Condition], table: u32, marks: &mut [bool])
    ensures named { Each conditions.now (ReadsNamed table marks.new) }
    ensures new { NewOnlyWhere (IsNamed conditions.now table) marks.old marks.new }
    ensures keep { KeepMarks marks.old marks.new }
{
    for condition in conditions {
        if condition.place.table == table {
            mark_column(condition.place.column, marks);
        }
    }
}

// The marks of a table of so many columns.
fn marks_of(
    alloc: Global,
    rules: &[Rule],
    conditions: &[Condition],
    table: u32,
    width: u32,
) -> Result<Vec<bool>, AllocError>
    ensures width { IfOk result (λ marks. length marks.items ≡ width) }
    ensures only { IfOk result (λ marks. Each rules.now (UsesOnlyOf table marks.items)) }
    ensures named { IfOk result (λ marks. Each conditions.now (ReadsNamed table marks.items)) }
    ensures read { IfOk result (λ marks. Each rules.now IsRule → MarksRead rules.now conditions.now table marks.items) }
{
    let mut marks = marks_by_rules(alloc, rules, table, width)?;
    mark_named(conditions, table, &mut marks);
    Ok(marks)
}

/// For each table, of as many columns as its width says, a mark for each column: whether it is read, since the rules use it or
/// a condition names it. A column that is not marked has only variables that are mentioned once. Where the variables of each
/// rule are numbered by first appearance, a column is marked exactly if some rule has another cell there, or a condition names it.
///
/// # Errors
///
/// `AllocError` if there is no memory.
pub fn used_columns(
    alloc: Global,
    rules: &[Rule],
    conditions: &[Condition],
    widths: &[u32],
) -> Result<Vec<Items<bool>>, AllocError>
    ensures widths { IfOk result (λ used. HaveWidths widths.now used.items) }
    ensures only { IfOk result (λ used. Each rules.now (UsesOnly used.items)) }
    ensures named { IfOk result (λ used. ReadNamed used.items conditions.now) }
    ensures exact { IfOk result (λ used. Each rules.now IsRule → UsesExactly rules.now conditions.now used.items) }
{
    let Ok(count) = u32::try_from(widths.len()) else {
        return Err(no_number_left(widths.len() as u64));
    };
    let mut used = Vec::with_capacity(alloc, widths.len())?;
    for table in 0..count {
        let marks = marks_of(alloc, rules, conditions, table, widths[table as usize])?;
        used.push(Items::from_vec(marks))?;
    }
    Ok(used)
}
