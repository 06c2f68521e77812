// A run of a script.
ghost use Rattle.std.specs.Prelude.{◌≡◌, ℕ, IfOk, IfErr};
ghost use Rattle.dx_model.specs.Values.{RowsAscend};
ghost use Rattle.dx_schema.specs.Names.{table_names_of};
ghost use Rattle.dx_schema.specs.Tables.{schema_widths};
ghost use Rattle.dx_funcs.specs.Names.{call_named};
ghost use Rattle.dx_funcs.specs.Serving.{Serves, offered};
ghost use Rattle.dx_instance.specs.Stored.{facts, rows_of, widths};
ghost use Rattle.dx_script.specs.Fits.{FitsScript};
ghost use Rattle.dx_eval.specs.Evaluating.{IsMade};
ghost use Rattle.dx_eval.specs.Finding.{IsEvalRefusal};

use crate::fault::EvalFault;
use crate::finding::found_steps;
use crate::inserting::insert_all;
use crate::made::Made;
use crate::source::Source;
use dx_base::{Items, Text};
use dx_funcs::{Host, Meaning};
use dx_instance::Instance;
use dx_schema::Schema;
use dx_script::Script;
use dx_tgd::{Builder, Found, matches_of};
use std::alloc::{AllocError, Global};

/// What a script makes of the rows of a source: exactly the matches and the facts that it means, in tables whose rows ascend.
///
/// # Errors
///
/// `Limit` exactly if the cells that the script inserts, counted for all tuples of its match tables, are more than the limit.
/// `Memory` at any point.
pub fn eval<F: Fn(u32, &Items<Text>) -> Result<Text, AllocError>, M: Meaning>(
    alloc: Global,
    script: &Script,
    source: &Schema,
    rows: &Instance,
    target: &Schema,
    host: &Host<F, M>,
    limit: u64,
) -> Result<Made, EvalFault>
    requires serves { Serves F.Fn M.apply host.now }
    requires fits { FitsScript (table_names_of source.now) (table_names_of target.now) (offered host.now) script.now.steps }
    requires widths { widths rows.now ≡ schema_widths source.now }
    ensures made { IfOk result (IsMade (table_names_of source.now) (table_names_of target.now) (call_named M.apply (offered host.now))
        script.now.steps (facts rows.now) limit) }
    ensures ascend { IfOk result (λ m. (t : ℕ) → RowsAscend (rows_of m.instance t)) }
    ensures refused { IfErr result (IsEvalRefusal (table_names_of source.now) (call_named M.apply (offered host.now))
        script.now.steps (facts rows.now) limit) }
{
    let steps = script.steps.items();
    let columns = target.widths(alloc)?;
    let numbers = rows.numbers();
    let given = Source {
        schema: source,
        rows: &numbers,
        host,
    };
    let found = found_steps(alloc, steps, &given, limit)?;
    let Found { symbols, tables } = found.in_order(alloc)?;
    let matches = matches_of(alloc, &tables, &symbols)?;
    let mut builder = Builder::new(alloc, symbols, &columns)?;
    insert_all(alloc, steps, target, &tables, &mut builder)?;
    let instance = builder.finish(alloc)?;
    Ok(Made { instance, matches })
}
