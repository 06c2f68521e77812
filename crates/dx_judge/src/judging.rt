// The verdict on an instance.
ghost use Rattle.std.specs.Prelude.{◌≡◌, ℕ, List, IfOk};
ghost use Rattle.dx_model.specs.declared.facts.Fact.{Fact as FactRow};
ghost use Rattle.dx_model.specs.Chase.{NoneReceives};
ghost use Rattle.dx_model.specs.Rules.{AreRows};
ghost use Rattle.dx_model.specs.Values.{Conversions};
ghost use Rattle.dx_stages.specs.Running.{Answers};
ghost use Rattle.dx_schema.specs.Tables.{model_tables, schema_widths};
ghost use Rattle.dx_funcs.specs.Serving.{Serves, offered};
ghost use Rattle.dx_instance.specs.Stored.{facts, widths};
ghost use Rattle.dx_exchange.specs.Exchanging.{RulesFitSchemas};
ghost use Rattle.dx_judge.specs.Parts.{ConcludeInto, IsChasedOf, IsMadeInto, IsSolutionVerdict, IsUniversalOne};
ghost use Rattle.dx_judge.specs.Verdicts.{IsVerdict, judging};

use crate::fault::JudgeFault;
use crate::mapping::maps_into;
use crate::missing::missed_fact;
use crate::reasons::reason;
use crate::verdict::Verdict;
use dx_base::{Items, Text};
use dx_core::reduce;
use dx_exchange::Task;
use dx_funcs::Meaning;
use dx_instance::Instance;
use dx_keys::{ChaseFault, chase};
use dx_model::Rule;
use dx_schema::Schema;
use dx_tgd::{Made, canonical_plain};
use std::alloc::{AllocError, Global};

// The verdict on a universal solution.
fn judge_universal(alloc: Global, given: &Instance) -> Result<Verdict, AllocError>
    ensures { IfOk result (IsUniversalOne given.now) }
{
    let left = reduce(alloc, given.sorted()?)?;
    match missed_fact(given, &left.instance)? {
        Some(missed) => Ok(Verdict::Universal {
            map: left.map,
            missed,
        }),
        None => Ok(Verdict::Core),
    }
}

// What keys make of an instance that some instance in which keys hold receives.
fn chased_of(alloc: Global, canonical: Instance, target: &Schema) -> Result<Instance, AllocError>
    requires widths { widths canonical ≡ schema_widths target.now }
    requires received { ¬ (NoneReceives (model_tables target.now) (facts canonical)) }
    ensures { IfOk result (IsChasedOf (model_tables target.now) canonical) }
{
    match chase(alloc, canonical, target) {
        Ok(chased) => Ok(chased.instance),
        Err(ChaseFault::Clash(_)) => unreachable!(),
        Err(ChaseFault::Memory) => Err(AllocError),
    }
}

// The verdict on a solution.
fn judge_solution(
    alloc: Global,
    canonical: Instance,
    target: &Schema,
    given: &Instance,
) -> Result<Verdict, AllocError>
    requires widths { widths canonical ≡ schema_widths target.now }
    requires given { widths given.now ≡ schema_widths target.now }
    requires received { ¬ (NoneReceives (model_tables target.now) (facts canonical)) }
    ensures { IfOk result (IsSolutionVerdict (model_tables target.now) canonical given.now) }
{
    let other = chased_of(alloc, canonical, target)?;
    if maps_into(alloc, given, &other)? {
        return judge_universal(alloc, given);
    }
    Ok(Verdict::Solution { other })
}

// The verdict, by the matches of the rules and the canonical instance.
fn judge_made(
    alloc: Global,
    rules: &[Rule],
    made: Made,
    target: &Schema,
    given: &Instance,
) -> Result<Verdict, AllocError>
    requires rules { ConcludeInto target.now rules.now }
    requires made { IsMadeInto target.now rules.now made }
    requires given { widths given.now ≡ schema_widths target.now }
    ensures { (convert : Conversions) (I : List FactRow) (limit : ℕ) → AreRows convert rules.now I made.matches
        → IfOk result (IsVerdict convert
        (record { rules = rules.now; schema = model_tables target.now; rows = I; given = facts given.now; limit = limit })) }
{
    let Made { instance, matches } = made;
    let sorted = given.sorted()?;
    // The call tells what holds of the tables of each instance.
    prove!((sorted.tables() as u64) < 1 << 32);
    let matches = matches.texts(alloc)?;
    if let Some(why) = reason(alloc, rules, &matches, target, &sorted)? {
        return Ok(Verdict::NotSolution(why));
    }
    judge_solution(alloc, instance, target, &sorted)
}

/// The verdict on an instance, as a target of source rows under rules between two schemas: `IsVerdict` of specs/Verdicts.
///
/// # Errors
///
/// `Limit` exactly if the canonical instance, counted for each place of a rule, has more cells than the limit. `Memory` at any
/// point.
pub fn judge<F, M>(
    alloc: Global,
    task: &Task<'_, F, M>,
    given: &Instance,
) -> Result<Verdict, JudgeFault>
where
    F: Fn(u32, &Items<Text>) -> Result<Text, AllocError>,
    M: Meaning,
    requires serves { Serves F.Fn M.apply task.now.host.now }
    requires fits { RulesFitSchemas (offered task.now.host.now) task.now.rules.now (model_tables task.now.source.now)
        (model_tables task.now.target.now) }
    requires given { widths given.now ≡ schema_widths task.now.target.now }
    ensures { Answers JudgeFault.Memory (judging M.apply)
        (record { rules = task.now.rules.now; schema = model_tables task.now.target.now; rows = facts task.now.rows.now; given = facts given.now; limit = task.now.limit })
        result }
{
    // The call tells what holds of the tables of each schema.
    prove!((task.target.tables() as u64) < 1 << 32);
    let made = canonical_plain(
        alloc,
        task.rules,
        task.rows,
        task.host,
        task.target,
        task.limit,
    )?;
    Ok(judge_made(alloc, task.rules, made, task.target, given)?)
}
