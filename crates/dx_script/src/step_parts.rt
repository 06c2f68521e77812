// Whether the parts of a step fit.
ghost use Rattle.std.specs.Prelude.{◌≡◌, ◌↔◌, ◌<◌, IsTrue, length};
ghost use Rattle.dx_base.specs.Members.{◌∈◌, Each};
ghost use Rattle.dx_schema.specs.Names.{table_names_of};
ghost use Rattle.dx_funcs.specs.Names.{TakesTexts};
ghost use Rattle.dx_funcs.specs.Serving.{offered};
ghost use Rattle.dx_script.specs.Names.{table_names, table_named, table_numbered};
ghost use Rattle.dx_script.specs.Fits.{CellFits, EqualFits, HasColumn, OutFits, SelectFits, TestFits, UnlessFits};

use crate::before::match_width;
use crate::form::{CellRef, Equal, Out, Select, Step, Test, Unless};
use dx_base::{Items, Text};
use dx_funcs::{Host, Meaning};
use dx_schema::Schema;
use std::alloc::AllocError;

/// Whether a table of this name has this column.
fn has_column(schema: &Schema, table: &Text, column: &Text) -> bool
    ensures { IsTrue result ↔ (column.now ∈ (table_numbered (table_names_of schema.now)
        (table_named (table_names_of schema.now) table.now)).columns) }
{
    match schema.table_named(table) {
        Some(number) => {
            // The number of tables tells that names tell them apart.
            prove!(number < schema.tables());
            schema.column_named(number, column).is_some()
        }
        None => false,
    }
}

/// How many columns the table of this name has; none if it isn't there.
pub(crate) fn width_named(schema: &Schema, table: &Text) -> u64
    ensures { result ≡ length (table_numbered (table_names_of schema.now) (table_named (table_names_of schema.now) table.now)).columns }
{
    match schema.table_named(table) {
        Some(number) => {
            // The number of tables tells that names tell them apart.
            prove!(number < schema.tables());
            u64::from(schema.width(number))
        }
        None => 0,
    }
}

/// Whether it is the name of a table.
fn is_table(schema: &Schema, name: &Text) -> bool
    ensures { IsTrue result ↔ (name.now ∈ table_names (table_names_of schema.now)) }
{
    schema.table_named(name).is_some()
}

/// Whether all are names of tables.
pub(crate) fn are_tables(schema: &Schema, names: &[Text]) -> bool
    ensures { IsTrue result ↔ Each names.now (λ name. name ∈ table_names (table_names_of schema.now)) }
{
    names.iter().all(|name| is_table(schema, name))
}

/// Whether a cell is a column of the table of its alias.
fn cell_fits(source: &Schema, sources: &[Text], cell: &CellRef) -> bool
    ensures { IsTrue result ↔ CellFits (table_names_of source.now) sources.now cell.now }
{
    let alias = cell.alias as usize;
    alias < sources.len() && has_column(source, &sources[alias], &cell.column)
}

/// Whether all cells are columns of the tables of their aliases.
fn cells_fit(source: &Schema, sources: &[Text], cells: &[CellRef]) -> bool
    ensures { IsTrue result ↔ Each cells.now (CellFits (table_names_of source.now) sources.now) }
{
    cells.iter().all(|cell| cell_fits(source, sources, cell))
}

/// Whether a conversion of this name is listed, which takes so many texts.
fn takes_texts<F: Fn(u32, &Items<Text>) -> Result<Text, AllocError>, M: Meaning>(
    host: &Host<F, M>,
    name: &Text,
    count: u64,
) -> bool
    ensures { IsTrue result ↔ TakesTexts (offered host.now) name.now count }
{
    match host.find(name) {
        Some(conversion) => u64::from(conversion.arity) == count,
        None => false,
    }
}

/// Whether what is selected is a cell, or a conversion of as many cells as it takes.
fn select_fits<F: Fn(u32, &Items<Text>) -> Result<Text, AllocError>, M: Meaning>(
    source: &Schema,
    host: &Host<F, M>,
    sources: &[Text],
    select: &Select,
) -> bool
    ensures { IsTrue result ↔ SelectFits (table_names_of source.now) (offered host.now) sources.now select.now }
{
    match select {
        Select::Cell(cell) => cell_fits(source, sources, cell),
        Select::Call { name, args } => {
            takes_texts(host, name, args.len()) && cells_fit(source, sources, args.items())
        }
    }
}

/// Whether all that is selected fits.
pub(crate) fn selects_fit<F: Fn(u32, &Items<Text>) -> Result<Text, AllocError>, M: Meaning>(
    source: &Schema,
    host: &Host<F, M>,
    sources: &[Text],
    selects: &[Select],
) -> bool
    ensures { IsTrue result ↔ Each selects.now (SelectFits (table_names_of source.now) (offered host.now) sources.now) }
{
    selects
        .iter()
        .all(|select| select_fits(source, host, sources, select))
}

/// Whether two cells that are to be equal fit.
fn equal_fits(source: &Schema, sources: &[Text], equal: &Equal) -> bool
    ensures { IsTrue result ↔ EqualFits (table_names_of source.now) sources.now equal.now }
{
    cell_fits(source, sources, &equal.left) && cell_fits(source, sources, &equal.right)
}

/// Whether the cells of all equalities fit.
pub(crate) fn equals_fit(source: &Schema, sources: &[Text], equals: &[Equal]) -> bool
    ensures { IsTrue result ↔ Each equals.now (EqualFits (table_names_of source.now) sources.now) }
{
    equals
        .iter()
        .all(|equal| equal_fits(source, sources, equal))
}

/// Whether the match table of a rule has the column.
fn has_match_column(before: &[Step], rule: u32, column: u32) -> bool
    ensures { IsTrue result ↔ HasColumn before.now rule column }
{
    match match_width(before, rule) {
        Some(width) => u64::from(column) < width,
        None => false,
    }
}

/// Whether a test reads columns that are there.
fn test_fits(before: &[Step], rule: u32, other: u32, test: &Test) -> bool
    ensures { IsTrue result ↔ TestFits before.now rule other test.now }
{
    match test {
        Test::Columns { other: column, own } => {
            has_match_column(before, other, *column) && has_match_column(before, rule, *own)
        }
        Test::Literal { own, .. } => has_match_column(before, rule, *own),
    }
}

/// Whether all tests read columns that are there.
fn tests_fit(before: &[Step], rule: u32, other: u32, tests: &[Test]) -> bool
    ensures { IsTrue result ↔ Each tests.now (TestFits before.now rule other) }
{
    tests
        .iter()
        .all(|test| test_fits(before, rule, other, test))
}

/// Whether the partners of a rule's tuples are tuples of a match table that is there.
fn partners_fit(before: &[Step], rule: u32, unless: &Unless) -> bool
    ensures { IsTrue result ↔ UnlessFits before.now rule unless.now }
{
    match_width(before, unless.rule).is_some()
        && tests_fit(before, rule, unless.rule, unless.tests.items())
}

/// Whether all partners of rule's tuples are tuples of match tables that are there.
pub(crate) fn unless_fit(before: &[Step], rule: u32, unless: &[Unless]) -> bool
    ensures { IsTrue result ↔ Each unless.now (UnlessFits before.now rule) }
{
    unless.iter().all(|one| partners_fit(before, rule, one))
}

/// Whether what is put in is there.
fn out_fits(before: &[Step], rule: u32, out: &Out) -> bool
    ensures { IsTrue result ↔ OutFits before.now rule out.now }
{
    match out {
        Out::Column(column) => has_match_column(before, rule, *column),
        Out::Literal(_) => true,
        Out::Skolem(_) => true,
    }
}

/// Whether all that is put in is there.
pub(crate) fn outs_fit(before: &[Step], rule: u32, outs: &[Out]) -> bool
    ensures { IsTrue result ↔ Each outs.now (OutFits before.now rule) }
{
    outs.iter().all(|out| out_fits(before, rule, out))
}
