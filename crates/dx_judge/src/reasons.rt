// Why an instance is no solution.
ghost use Rattle.std.specs.Prelude.{◌≡◌, ◌<◌, IfOk, length};
ghost use Rattle.dx_base.specs.Members.{Each};
ghost use Rattle.dx_model.specs.Fitting.{AtomsFitWidths};
ghost use Rattle.dx_model.specs.Matches.{rows_of_matches};
ghost use Rattle.dx_schema.specs.Tables.{model_tables, schema_widths};
ghost use Rattle.dx_instance.specs.Stored.{rows_of, widths};
ghost use Rattle.dx_judge.specs.Open.{MatchesOfRules, IsFirstReason, IsKeyFault, IsKeyOrLink, IsLinkFault};

use crate::opening::first_open;
use crate::turning::turn;
use crate::verdict::Why;
use dx_fails::{BrokenKey, LoneRow, first_broken_key, first_lone_row};
use dx_instance::Instance;
use dx_model::{Matches, Rule};
use dx_schema::Schema;
use std::alloc::{AllocError, Global};

// The two rows that a key forbids.
fn key_reason(given: &Instance, broken: &BrokenKey) -> Result<Why, AllocError>
    requires table { broken.now.table < length given.now }
    requires left { broken.now.left < length (rows_of given.now broken.now.table) }
    requires right { broken.now.right < length (rows_of given.now broken.now.table) }
    ensures { IfOk result (IsKeyFault given.now broken.now) }
{
    Ok(Why::Key {
        table: broken.table,
        key: broken.key,
        left: given.row_copy(broken.table, broken.left)?,
        right: given.row_copy(broken.table, broken.right)?,
        column: broken.column,
    })
}

// The row that a link leaves alone.
fn link_reason(given: &Instance, lone: &LoneRow) -> Result<Why, AllocError>
    requires table { lone.now.table < length given.now }
    requires place { lone.now.place < length (rows_of given.now lone.now.table) }
    ensures { IfOk result (IsLinkFault given.now lone.now) }
{
    Ok(Why::Link {
        table: lone.table,
        row: given.row_copy(lone.table, lone.place)?,
        link: lone.link,
    })
}

// Why keys or links of an instance do not hold, if so.
fn key_or_link(alloc: Global, target: &Schema, given: &Instance) -> Result<Option<Why>, AllocError>
    requires widths { widths given.now ≡ schema_widths target.now }
    ensures { IfOk result (IsKeyOrLink (model_tables target.now) given.now) }
{
    if let Some(broken) = first_broken_key(alloc, target, given)? {
        return Ok(Some(key_reason(given, &broken)?));
    }
    if let Some(lone) = first_lone_row(alloc, target, given)? {
        return Ok(Some(link_reason(given, &lone)?));
    }
    Ok(None)
}

/// Why an instance is no solution, if it is none.
///
/// # Errors
///
/// `AllocError` if there is no memory, or there are more values than have numbers.
pub(crate) fn reason(
    alloc: Global,
    rules: &[Rule],
    matches: &Matches,
    target: &Schema,
    given: &Instance,
) -> Result<Option<Why>, AllocError>
    requires widths { widths given.now ≡ schema_widths target.now }
    requires conclusions { Each rules.now (λ d. AtomsFitWidths (widths given.now) d.conclusion) }
    requires matches { MatchesOfRules rules.now matches.now }
    ensures { IfOk result (IsFirstReason rules.now (rows_of_matches matches.now) (model_tables target.now) given.now) }
{
    let turned = turn(alloc, given)?;
    if let Some(open) = first_open(alloc, rules, matches, &turned)? {
        return Ok(Some(Why::Rule {
            rule: open.rule,
            place: open.place,
        }));
    }
    key_or_link(alloc, target, given)
}
