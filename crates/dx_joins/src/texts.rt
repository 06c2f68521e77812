// Premises as patterns, and numbers that stand for texts.
ghost use Rattle.std.specs.Prelude.{◌≡◌, ◌≤◌, [], IfOk, IfSome, MatchOption, length, map, flat_map};
ghost use Rattle.dx_model.specs.Values.{Conversions};
ghost use Rattle.dx_model.specs.Fitting.{cell_variable};
ghost use Rattle.dx_model.specs.declared.rules.Cell.TheVariants.{Var};
ghost use Rattle.dx_instance.specs.Stored.{widths};
ghost use Rattle.dx_instance.specs.Shown.{PartsFit, shown_tables};
ghost use Rattle.dx_joins.specs.Shown.{ArePatterns, FitsMatching, IsPattern, IsMatchTuple, MoreTuples, StandFor, shown_facts, is_text};

use crate::marked::Marked;
use crate::order::ordered_rows;
use crate::pattern::Pattern;
use dx_instance::{Numbers, Rows, Value};
use dx_model::{Atom, Cell};
use std::alloc::{AllocError, Global};

// The variables of cells, in order.
fn variables_in(alloc: Global, cells: &[Cell]) -> Result<Vec<u32>, AllocError>
    ensures { IfOk result (λ v. v.items ≡ flat_map cell_variable cells.now) }
{
    let mut variables = Vec::new(alloc);
    for cell in cells {
        if let Cell::Var(x) = cell {
            variables.push(*x)?;
        }
    }
    Ok(variables)
}

// The pattern of an atom.
fn pattern_of(alloc: Global, atom: &Atom) -> Result<Pattern, AllocError>
    ensures { IfOk result (IsPattern atom.now) }
{
    Ok(Pattern {
        table: atom.table,
        variables: variables_in(alloc, atom.cells.items())?,
    })
}

// The patterns of a premise.
fn patterns_of(alloc: Global, premise: &[Atom]) -> Result<Vec<Pattern>, AllocError>
    ensures { IfOk result (λ v. ArePatterns premise.now v.items) }
{
    let mut patterns = Vec::new(alloc);
    for atom in premise {
        patterns.push(pattern_of(alloc, atom)?)?;
    }
    Ok(patterns)
}

// Whether the value is a text.
fn is_constant(value: &Value) -> bool
    ensures { result ≡ is_text value.now }
{
    match value {
        Value::Const(_) => true,
        Value::Null(_) => false,
    }
}

// For each number whether it stands for a text.
fn marks_of(alloc: Global, source: &Numbers) -> Result<Vec<bool>, AllocError>
    ensures marks { IfOk result (λ v. v.items ≡ map is_text source.now.symbols) }
    ensures fit { PartsFit source.now.symbols source.now.tables }
{
    let mut marks = Vec::new(alloc);
    for number in 0..source.len() {
        marks.push(is_constant(source.value(number)))?;
    }
    Ok(marks)
}

/// Rows of numbers for what the matches of a premise give to its variables. None if there are more than are wanted.
pub(crate) fn premise_shown(
    alloc: Global,
    premise: &[Atom],
    shown: &[u32],
    source: &Numbers,
    most: u64,
) -> Result<Option<Rows>, AllocError>
    requires fits { FitsMatching (widths (shown_tables source.now.symbols source.now.tables)) premise.now [] shown.now }
    ensures rows { (convert : Conversions) → IfOk result (λ o. MatchOption o
        (MoreTuples most (IsMatchTuple convert premise.now [] (shown_facts source.now) shown.now))
        (StandFor (length shown.now) (IsMatchTuple convert premise.now [] (shown_facts source.now) shown.now) source.now.symbols)) }
    ensures within { IfOk result (λ o. IfSome o (λ r. length r.rows ≤ most)) }
{
    let patterns = patterns_of(alloc, premise)?;
    let marks = marks_of(alloc, source)?;
    let marked = Marked {
        source,
        marks: &marks,
    };
    ordered_rows(alloc, patterns, shown, &marked, most)
}
