// A match step as a premise, derived variables and shown variables.
ghost use Rattle.std.specs.Prelude.{◌≡◌, ◌<◌, ◌^◌, IfOk, map};
ghost use Rattle.dx_base.specs.Members.{◌∈◌, Each};
ghost use Rattle.dx_model.specs.declared.rules.Cell.TheVariants.{Var};
ghost use Rattle.dx_schema.specs.Names.{table_names_of};
ghost use Rattle.dx_funcs.specs.Names.{first_named};
ghost use Rattle.dx_funcs.specs.Serving.{offered};
ghost use Rattle.dx_script.specs.Fits.{CellFits, SelectFits, EqualFits};
ghost use Rattle.dx_script.specs.Names.{table_names};
ghost use Rattle.dx_eval.specs.Variables.{WideAliases, variable_of};
ghost use Rattle.dx_eval.specs.Query.{IsQuery, alias_atoms, code_found, derived_of_selects, next_after, shown_from};

use crate::names::table_number;
use crate::selection::Selection;
use crate::source::Source;
use crate::variables::{Variables, variable_of_cell};
use dx_base::{Items, Text, no_number_left};
use dx_funcs::{Host, Meaning};
use dx_model::{Atom, Cell, Derived};
use dx_schema::Schema;
use dx_script::{CellRef, Select};
use std::alloc::{AllocError, Global};

/// A match step as a premise: its atoms, its derived variables, and the variables that it shows.
#[derive(Drop)]
pub(crate) struct Query {
    pub(crate) premise: Vec<Atom>,
    pub(crate) derived: Vec<Derived>,
    pub(crate) shown: Vec<u32>,
}

// The aliases of a match step: the schema of their tables, the name of the table of each, and its variables.
#[derive(Clone, Copy)]
struct Aliases<'a> {
    schema: &'a Schema,
    sources: &'a [Text],
    rows: &'a [Items<u32>],
}

// Variables as the cells of an atom.
fn cells_of_row(alloc: Global, row: &[u32]) -> Result<Items<Cell>, AllocError>
    ensures { IfOk result (λ cells. cells ≡ map Var row.now) }
{
    let mut cells = Items::new(alloc);
    for x in row {
        cells.push(Cell::Var(*x))?;
    }
    Ok(cells)
}

// An atom for each alias.
fn premise_of(alloc: Global, aliases: &Aliases<'_>) -> Result<Vec<Atom>, AllocError>
    requires named { Each aliases.now.sources.now (λ name. name ∈ table_names (table_names_of aliases.now.schema.now)) }
    requires wide { WideAliases (table_names_of aliases.now.schema.now) aliases.now.sources.now aliases.now.rows.now }
    ensures { IfOk result (λ v. v.items
        ≡ alias_atoms (table_names_of aliases.now.schema.now) aliases.now.sources.now aliases.now.rows.now) }
{
    let Aliases {
        schema,
        sources,
        rows,
    } = *aliases;
    let mut premise = Vec::new(alloc);
    for alias in 0..sources.len() {
        premise.push(Atom {
            table: table_number(schema, &sources[alias]),
            cells: cells_of_row(alloc, rows[alias].items())?,
        })?;
    }
    Ok(premise)
}

// The code of the conversion of this name.
fn code_of<F: Fn(u32, &Items<Text>) -> Result<Text, AllocError>, M: Meaning>(
    host: &Host<F, M>,
    name: &Text,
) -> u32
    ensures { result ≡ code_found (first_named (offered host.now) name.now) }
{
    match host.find(name) {
        Some(conversion) => conversion.code,
        None => 0,
    }
}

// The variables of cells.
fn arguments(
    alloc: Global,
    aliases: &Aliases<'_>,
    cells: &[CellRef],
) -> Result<Items<u32>, AllocError>
    requires named { Each aliases.now.sources.now (λ name. name ∈ table_names (table_names_of aliases.now.schema.now)) }
    requires wide { WideAliases (table_names_of aliases.now.schema.now) aliases.now.sources.now aliases.now.rows.now }
    requires fit { Each cells.now (CellFits (table_names_of aliases.now.schema.now) aliases.now.sources.now) }
    ensures { IfOk result (λ args. args ≡ map
        (variable_of (table_names_of aliases.now.schema.now) aliases.now.sources.now aliases.now.rows.now) cells.now) }
{
    let mut args = Items::new(alloc);
    for cell in cells {
        args.push(variable_of_cell(aliases.schema, aliases.sources, aliases.rows, cell))?;
    }
    Ok(args)
}

// A derived variable for each conversion that is selected.
fn derived_variables<F: Fn(u32, &Items<Text>) -> Result<Text, AllocError>, M: Meaning>(
    alloc: Global,
    aliases: &Aliases<'_>,
    host: &Host<F, M>,
    select: &[Select],
) -> Result<Vec<Derived>, AllocError>
    requires named { Each aliases.now.sources.now (λ name. name ∈ table_names (table_names_of aliases.now.schema.now)) }
    requires wide { WideAliases (table_names_of aliases.now.schema.now) aliases.now.sources.now aliases.now.rows.now }
    requires fit { Each select.now
        (SelectFits (table_names_of aliases.now.schema.now) (offered host.now) aliases.now.sources.now) }
    ensures { IfOk result (λ v. v.items ≡ derived_of_selects (offered host.now)
        (variable_of (table_names_of aliases.now.schema.now) aliases.now.sources.now aliases.now.rows.now) select.now) }
{
    let mut derived = Vec::new(alloc);
    for one in select {
        if let Select::Call { name, args } = one {
            derived.push(Derived {
                code: code_of(host, name),
                args: arguments(alloc, aliases, args.items())?,
            })?;
        }
    }
    Ok(derived)
}

// The variables that are shown. Those of conversions are counted from a number.
fn shown_variables<F: Fn(u32, &Items<Text>) -> Result<Text, AllocError>, M: Meaning>(
    alloc: Global,
    aliases: &Aliases<'_>,
    host: &Host<F, M>,
    select: &[Select],
    first: u32,
) -> Result<Vec<u32>, AllocError>
    requires named { Each aliases.now.sources.now (λ name. name ∈ table_names (table_names_of aliases.now.schema.now)) }
    requires wide { WideAliases (table_names_of aliases.now.schema.now) aliases.now.sources.now aliases.now.rows.now }
    requires fit { Each select.now
        (SelectFits (table_names_of aliases.now.schema.now) (offered host.now) aliases.now.sources.now) }
    ensures shown { IfOk result (λ v. v.items ≡ shown_from
        (variable_of (table_names_of aliases.now.schema.now) aliases.now.sources.now aliases.now.rows.now)
        first select.now) }
    ensures few { IfOk result (λ v. next_after first select.now < 2 ^ 32) }
{
    let mut shown = Vec::new(alloc);
    let mut next = first;
    for one in select {
        match one {
            Select::Cell(cell) => {
                shown.push(variable_of_cell(aliases.schema, aliases.sources, aliases.rows, cell))?;
            }
            Select::Call { .. } => {
                if next == u32::MAX {
                    return Err(no_number_left(u64::from(next)));
                }
                shown.push(next)?;
                next += 1;
            }
        }
    }
    Ok(shown)
}

impl Query {
    /// The query of a match step.
    ///
    /// # Errors
    ///
    /// `AllocError` if there is no memory, or there are more cells or conversions than have numbers.
    pub(crate) fn of_step<F: Fn(u32, &Items<Text>) -> Result<Text, AllocError>, M: Meaning>(
        alloc: Global,
        source: &Source<'_, '_, F, M>,
        selection: &Selection<'_>,
    ) -> Result<Query, AllocError>
        requires named { Each selection.now.sources.now (λ name. name ∈ table_names (table_names_of source.now.schema.now)) }
        requires selected { Each selection.now.select.now
            (SelectFits (table_names_of source.now.schema.now) (offered source.now.host.now) selection.now.sources.now) }
        requires equal { Each selection.now.equal.now
            (EqualFits (table_names_of source.now.schema.now) selection.now.sources.now) }
        ensures { IfOk result (λ q. IsQuery (table_names_of source.now.schema.now) (offered source.now.host.now)
            selection.now.select.now selection.now.sources.now selection.now.equal.now
            q.premise.items q.derived.items q.shown.items) }
    {
        let Selection {
            select,
            sources,
            equal,
        } = *selection;
        let Variables { rows, count } = Variables::of_step(alloc, source.schema, sources, equal)?;
        let aliases = Aliases {
            schema: source.schema,
            sources,
            rows: &rows,
        };
        let shown = shown_variables(alloc, &aliases, source.host, select, count)?;
        Ok(Query {
            premise: premise_of(alloc, &aliases)?,
            derived: derived_variables(alloc, &aliases, source.host, select)?,
            shown,
        })
    }
}
