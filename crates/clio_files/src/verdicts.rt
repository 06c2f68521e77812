// What is said of a verdict.
ghost use Rattle.std.specs.Prelude.{◌≡◌, IfOk, string_bytes};
ghost use Rattle.dx_rule_text.specs.Printed.{table_name};
ghost use Rattle.clio_files.specs.Verdicts.{verdict_text, why_text};

use dx_judge::{Verdict, Why};
use dx_schema::Schema;
use std::alloc::{AllocError, Global};

// The name of a table, and the empty text if there is no such table.
fn name_of(schema: &Schema, table: u32) -> &str
    ensures { result.now ≡ table_name schema.now table }
{
    if table < schema.tables() {
        schema.name(table).as_str()
    } else {
        ""
    }
}

// Why a target is no solution.
fn why_text(alloc: Global, target: &Schema, why: &Why) -> Result<String, AllocError>
    ensures { IfOk result (λ s. string_bytes s ≡ why_text target.now why.now) }
{
    match why {
        Why::Rule { rule, place } => format!(in alloc; "rule {rule} place {place}"),
        Why::Key { table, key, .. } => {
            let name = name_of(target, *table);
            format!(in alloc; "key {key} of table {name}")
        }
        Why::Link { table, link, .. } => {
            let name = name_of(target, *table);
            format!(in alloc; "link {link} of table {name}")
        }
    }
}

fn verdict_string(alloc: Global, target: &Schema, verdict: &Verdict) -> Result<String, AllocError>
    ensures { IfOk result (λ s. string_bytes s ≡ verdict_text target.now verdict.now) }
{
    match verdict {
        Verdict::NotSolution(why) => {
            let why = why_text(alloc, target, why)?;
            format!(in alloc; "verdict not a solution: {why}\n")
        }
        Verdict::Solution { .. } => String::from_str(alloc, "verdict solution\n"),
        Verdict::Universal { .. } => String::from_str(alloc, "verdict universal\n"),
        Verdict::Core => String::from_str(alloc, "verdict core\n"),
    }
}

/// The line of a verdict, with the names of the target's schema.
///
/// # Errors
///
/// Out of memory.
pub fn verdict_text(
    alloc: Global,
    target: &Schema,
    verdict: &Verdict,
) -> Result<Vec<u8>, AllocError>
    ensures { IfOk result (λ text. text.items ≡ verdict_text target.now verdict.now) }
{
    Ok(verdict_string(alloc, target, verdict)?.into_bytes())
}
