// The tuples of a match step, as rows of numbers.
ghost use Rattle.std.specs.Prelude.{◌≡◌, [], ◌∷◌, IfOk, MatchOption, length};
ghost use Rattle.dx_schema.specs.Names.{table_names_of};
ghost use Rattle.dx_funcs.specs.Names.{call_named};
ghost use Rattle.dx_funcs.specs.Serving.{Serves, offered};
ghost use Rattle.dx_instance.specs.Numbers.{ValuesDiffer, Extends};
ghost use Rattle.dx_instance.specs.Shown.{shown_tables};
ghost use Rattle.dx_instance.specs.Stored.{facts};
ghost use Rattle.dx_joins.specs.Shown.{MoreTuples, StandFor};
ghost use Rattle.dx_eval.specs.Finding.{MatchingFits};
ghost use Rattle.dx_eval.specs.Query.{IsSelected};

use crate::query::Query;
use crate::selection::Selection;
use crate::source::Source;
use dx_base::{Items, Text, no_number_left};
use dx_funcs::Meaning;
use dx_instance::{Rows, Symbols};
use dx_joins::shown_rows;
use std::alloc::{AllocError, Global};

// The empty tuple alone, for a step without aliases. None if not even one tuple is wanted.
fn one_row(alloc: Global, most: u64) -> Result<Option<Rows>, AllocError>
    ensures { IfOk result (λ o. MatchOption o (most ≡ 0) (λ r. r ≡ record { width = 0; rows = [] ∷ [] })) }
{
    if most == 0 {
        return Ok(None);
    }
    let mut rows = Rows::new(alloc, 0);
    rows.push(&[])?;
    Ok(Some(rows))
}

/// Rows of numbers that stand for the tuples that a match step selects. The texts of conversions go last in the symbols.
/// None if there are more than `most` tuples.
///
/// # Errors
///
/// `AllocError` if there is no memory, numbers run out, or the host answers it.
pub(crate) fn step_rows<F: Fn(u32, &Items<Text>) -> Result<Text, AllocError>, M: Meaning>(
    alloc: Global,
    source: &Source<'_, '_, F, M>,
    selection: &Selection<'_>,
    symbols: &mut Symbols,
    most: u64,
) -> Result<Option<Rows>, AllocError>
    requires serves { Serves F.Fn M.apply source.now.host.now }
    requires fits { MatchingFits (table_names_of source.now.schema.now) (offered source.now.host.now)
        (record { select = selection.now.select.now; sources = selection.now.sources.now; equal = selection.now.equal.now }) }
    requires symbols { Extends source.now.rows.now.symbols symbols.old }
    ensures grows { Extends symbols.old symbols.new }
    ensures apart { ValuesDiffer symbols.new }
    ensures rows { IfOk result (λ o. MatchOption o
        (MoreTuples most (IsSelected
        (table_names_of source.now.schema.now) (call_named M.apply (offered source.now.host.now))
        (facts (shown_tables source.now.rows.now.symbols source.now.rows.now.tables))
        selection.now.select.now selection.now.sources.now selection.now.equal.now))
        (StandFor (length selection.now.select.now) (IsSelected
        (table_names_of source.now.schema.now) (call_named M.apply (offered source.now.host.now))
        (facts (shown_tables source.now.rows.now.symbols source.now.rows.now.tables))
        selection.now.select.now selection.now.sources.now selection.now.equal.now) symbols.new)) }
{
    // The calls tell that rows are as wide as their tables, and that no value has two numbers.
    prove!((source.rows.len() as u64) < 1 << 32);
    prove!(symbols.len() <= u32::MAX as u64);
    if selection.sources.is_empty() {
        return one_row(alloc, most);
    }
    if selection.select.len() > u32::MAX as usize {
        return Err(no_number_left(selection.select.len() as u64));
    }
    let Query {
        premise,
        derived,
        shown,
    } = Query::of_step(alloc, source, selection)?;
    shown_rows(
        alloc,
        &premise,
        &derived,
        &shown,
        source.rows,
        symbols,
        source.host,
        most,
    )
}
