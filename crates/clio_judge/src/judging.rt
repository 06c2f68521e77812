// A given target, judged.
ghost use Rattle.std.specs.Prelude.{◌≡◌, IfOk};
ghost use Rattle.dx_stages.specs.Ending.{planned, planned_of};
ghost use Rattle.dx_stages.specs.Running.{Gives, Ran};
ghost use Rattle.dx_stages.specs.Stages.{saying};
ghost use Rattle.dx_schema.specs.Tables.{model_tables};
ghost use Rattle.dx_funcs.specs.Judging.{Decides, tested};
ghost use Rattle.dx_funcs.specs.Serving.{Serves, offered};
ghost use Rattle.dx_exchange.specs.Exchanging.{RulesFitSchemas};
ghost use Rattle.clio_given.specs.Given.{given_stages};
ghost use Rattle.clio_ending.specs.Ending.{source_refusal};
ghost use Rattle.clio_steps.specs.Steps.{program};
ghost use Rattle.clio_judge.specs.Judging.{HaveTablesOf, judge_stages, judged_plan, judged_rows, verdicts};

use clio_accept::Mapping;
use clio_ending::{Done, Refusal, with_source_refusal};
use clio_files::verdict_text;
use clio_given::read_given;
use clio_steps::{Side, read_mapping, read_used_rows};
use dx_base::limits::TARGET_CELLS;
use dx_base::{Items, Text};
use dx_exchange::Task;
use dx_funcs::{Host, Meaning, Tests};
use dx_instance::Instance;
use dx_judge::{JudgeFault, Verdict, judge};
use dx_ports::Inputs;
use dx_schema::Schema;
use dx_stages::{Plan, Stop};
use std::alloc::{AllocError, Global};

// The given target of a schema, whose files may have so many bytes.
fn read_target<I: Inputs>(
    alloc: Global,
    inputs: &mut I,
    target: &Schema,
    bytes_left: u64,
) -> Result<Instance, Stop<Refusal>>
    ensures { Ran (saying source_refusal given_stages) (record { schema = target.now; bytes_left = bytes_left }) result
        (I.state inputs.old) (I.state inputs.new) }
{
    with_source_refusal(read_given(alloc, inputs, target, bytes_left))
}

// The verdict on a given target of rows under a mapping.
fn judge_rows<F, M>(
    alloc: Global,
    mapping: &Mapping,
    rows: &Instance,
    given: &Instance,
    host: &Host<F, M>,
) -> Result<Verdict, Stop<Refusal>>
where
    F: Fn(u32, &Items<Text>) -> Result<Text, AllocError>,
    M: Meaning,
    requires serves { Serves F.Fn M.apply host.now }
    requires fits { RulesFitSchemas (offered host.now) mapping.now.rules (model_tables mapping.now.source)
        (model_tables mapping.now.target) }
    requires tables { HaveTablesOf mapping.now rows.now given.now }
    ensures { Gives (judged_rows M.apply) ((mapping.now, rows.now), given.now) result }
{
    let rules = mapping.rules.items();
    let Mapping { source, target, .. } = mapping;
    let task = Task {
        rules,
        source,
        target,
        rows,
        host,
        limit: TARGET_CELLS,
    };
    match judge(alloc, &task, given) {
        Ok(verdict) => Ok(verdict),
        Err(JudgeFault::Limit(limit)) => Err(Stop::Refused(Refusal::Limit(limit))),
        Err(JudgeFault::Memory) => Err(Stop::Memory),
    }
}

// A mapping, and the verdict on the given files. What is read of the rows agrees with them on the columns that the rules of the
// mapping use, and so has the same verdict (proofs/SameVerdict).
fn judge_files<I: Inputs, F, P, M>(
    alloc: Global,
    inputs: &mut I,
    host: &Host<F, M>,
    tests: &Tests<P, M>,
) -> Result<(Mapping, Verdict), Stop<Refusal>>
where
    F: Fn(u32, &Items<Text>) -> Result<Text, AllocError>,
    P: Fn(u32, &Text) -> Result<bool, AllocError>,
    M: Meaning,
    requires serves { Serves F.Fn M.apply host.now }
    requires decides { Decides P.Fn M.passes tests.now }
    ensures { Ran (verdicts (program (offered host.now) (tested tests.now) M.apply M.passes)) (tt {0}) result
        (I.state inputs.old) (I.state inputs.new) }
{
    let mapping = read_mapping(alloc, inputs, Side::First, host, tests)?;
    let (rows, bytes_left) = read_used_rows(alloc, inputs, &mapping, tests)?;
    let given = read_target(alloc, inputs, &mapping.target, bytes_left)?;
    let verdict = judge_rows(alloc, &mapping, &rows, &given, host)?;
    Ok((mapping, verdict))
}

// What is said of a verdict.
fn plan_judged(alloc: Global, mapping: &Mapping, verdict: Verdict) -> Result<Plan<Done>, AllocError>
    ensures { IfOk result (λ p. planned_of p ≡ judged_plan (mapping.now, verdict)) }
{
    let text = verdict_text(alloc, &mapping.target, &verdict)?;
    Ok(Plan {
        done: Done::Judged(verdict),
        files: Vec::new(alloc),
        text,
    })
}

/// What `judge` says.
pub fn judge_plan<I: Inputs, F, P, M>(
    alloc: Global,
    inputs: &mut I,
    host: &Host<F, M>,
    tests: &Tests<P, M>,
) -> Result<Plan<Done>, Stop<Refusal>>
where
    F: Fn(u32, &Items<Text>) -> Result<Text, AllocError>,
    P: Fn(u32, &Text) -> Result<bool, AllocError>,
    M: Meaning,
    requires serves { Serves F.Fn M.apply host.now }
    requires decides { Decides P.Fn M.passes tests.now }
    ensures { Ran (judge_stages (program (offered host.now) (tested tests.now) M.apply M.passes)) (tt {0}) (planned result)
        (I.state inputs.old) (I.state inputs.new) }
{
    let (mapping, verdict) = judge_files(alloc, inputs, host, tests)?;
    Ok(plan_judged(alloc, &mapping, verdict)?)
}
