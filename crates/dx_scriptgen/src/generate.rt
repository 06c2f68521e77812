// The scripts of rules.
ghost use Rattle.std.specs.Prelude.{◌≡◌, ◌↔◌, ◌<◌, ◌-◌, ◌^◌, ◌++◌, [], IfOk, OnOk, List, length, map};
ghost use Rattle.dx_base.specs.Members.{◌⊆◌, Each};
ghost use Rattle.dx_model.specs.declared.facts.Fact.{Fact};
ghost use Rattle.dx_model.specs.Values.{Rows};
ghost use Rattle.dx_model.specs.Tables.{IsInstance};
ghost use Rattle.dx_model.specs.Rules.{AreRows, canonical};
ghost use Rattle.dx_model.specs.Covers.{below, least_cover, uncovered};
ghost use Rattle.dx_model.specs.Fitting.{RuleFits};
ghost use Rattle.dx_schema.specs.Tables.{model_tables};
ghost use Rattle.dx_schema.specs.Names.{table_names_of};
ghost use Rattle.dx_funcs.specs.Names.{call_named};
ghost use Rattle.dx_funcs.specs.Offers.{IsListed};
ghost use Rattle.dx_funcs.specs.Serving.{offered};
ghost use Rattle.dx_script.specs.Meaning.{Means};
ghost use Rattle.dx_script.specs.Fits.{FitsScript};
ghost use Rattle.dx_script.specs.Generated.{create_steps, has_parts, match_steps, plain_steps, script_with};
ghost use Rattle.dx_script.specs.Rewritten.{rewritten_steps};
ghost use Rattle.dx_scriptgen.specs.Steps.{HasInsertSteps, HasMatchStep, HasScript, inserts_by, keeps_by, parts_in};

use crate::copies::copy_texts;
use crate::inserts::push_inserts;
use crate::keeps::all_parts;
use crate::matches::match_step;
use dx_base::{Items, Text};
use dx_cover::exported;
use dx_funcs::{Host, Meaning};
use dx_model::Rule;
use dx_schema::Schema;
use dx_script::{Script, Step, Unless};
use std::alloc::{AllocError, Global};

/// Adds a create step for each table.
fn push_creates(alloc: Global, steps: &mut Items<Step>, target: &Schema) -> Result<(), AllocError>
    ensures { OnOk result (steps.new ≡ steps.old ++ create_steps (table_names_of target.now)) }
{
    for table in 0..target.tables() {
        steps.push(Step::Create {
            table: target.name(table).copy()?,
            columns: copy_texts(alloc, target.columns(table))?,
        })?;
    }
    Ok(())
}

/// Adds a match step for each rule.
fn push_matches<F: Fn(u32, &Items<Text>) -> Result<Text, AllocError>, M: Meaning>(
    alloc: Global,
    steps: &mut Items<Step>,
    rules: &[Rule],
    source: &Schema,
    host: &Host<F, M>,
) -> Result<(), AllocError>
    requires rules { Each rules.now (HasMatchStep (model_tables source.now) (offered host.now)) }
    requires few { length rules.now < 4294967296 }
    ensures { OnOk result (steps.new ≡ steps.old ++ match_steps (table_names_of source.now) (offered host.now) rules.now) }
{
    for number in 0..rules.len() {
        steps.push(match_step(alloc, number as u32, &rules[number], source, host)?)?;
    }
    Ok(())
}

/// Adds a keep step for each rule that has parts.
fn push_keeps(steps: &mut Items<Step>, parts: Vec<Items<Unless>>) -> Result<(), AllocError>
    requires few { length parts.items < 4294967296 }
    ensures { OnOk result (steps.new ≡ steps.old ++ keeps_by parts.items) }
{
    for (number, unless) in parts.into_iter().enumerate() {
        if unless.len() > 0 {
            steps.push(Step::KeepRows {
                rule: number as u32,
                unless,
            })?;
        }
    }
    Ok(())
}

/// For each rule whether it has parts.
fn with_parts(alloc: Global, parts: &[Items<Unless>]) -> Result<Vec<bool>, AllocError>
    ensures { IfOk result (λ kept. kept.items ≡ map has_parts parts.now) }
{
    let mut kept = Vec::new(alloc);
    for unless in parts {
        kept.push(unless.len() > 0)?;
    }
    Ok(kept)
}

/// Adds the insert steps of all rules.
fn push_all_inserts(
    alloc: Global,
    steps: &mut Items<Step>,
    target: &Schema,
    kept: &[bool],
    rules: &[Rule],
) -> Result<(), AllocError>
    requires rules { Each rules.now (HasInsertSteps (model_tables target.now)) }
    requires one { length kept.now ≡ length rules.now }
    requires few { length rules.now < 4294967296 }
    ensures { OnOk result (steps.new ≡ steps.old ++ inserts_by (table_names_of target.now) kept.now rules.now) }
{
    for number in 0..rules.len() {
        let rule = &rules[number];
        let variables = exported(alloc, rule)?;
        let number_of = number as u32;
        push_inserts(
            alloc,
            steps,
            target,
            kept[number],
            number_of,
            rule,
            &variables,
        )?;
    }
    Ok(())
}

/// The script of rules, with these parts for their keep steps.
fn script_of<F: Fn(u32, &Items<Text>) -> Result<Text, AllocError>, M: Meaning>(
    alloc: Global,
    rules: &[Rule],
    source: &Schema,
    target: &Schema,
    host: &Host<F, M>,
    parts: Vec<Items<Unless>>,
) -> Result<Script, AllocError>
    requires rules { Each rules.now (HasScript (model_tables source.now) (model_tables target.now) (offered host.now)) }
    requires one { length parts.items ≡ length rules.now }
    requires few { length rules.now < 4294967296 }
    ensures { IfOk result (λ s. s.steps
        ≡ script_with (table_names_of source.now) (table_names_of target.now) (offered host.now) (parts_in parts.items) rules.now) }
{
    let mut steps = Items::new(alloc);
    push_creates(alloc, &mut steps, target)?;
    push_matches(alloc, &mut steps, rules, source, host)?;
    let kept = with_parts(alloc, &parts)?;
    push_keeps(&mut steps, parts)?;
    push_all_inserts(alloc, &mut steps, target, &kept, rules)?;
    Ok(Script { steps })
}

/// No parts for each of so many rules.
fn no_parts(alloc: Global, rules: usize) -> Result<Vec<Items<Unless>>, AllocError>
    ensures { IfOk result (λ parts. parts.items ≡ map (λ r. []) (below rules)) }
{
    let mut parts = Vec::new(alloc);
    for _rule in 0..rules {
        parts.push(Items::new(alloc))?;
    }
    Ok(parts)
}

/// The plain script of rules: it makes the canonical instance.
///
/// # Errors
///
/// `AllocError` if there is no memory.
pub fn plain_script<F: Fn(u32, &Items<Text>) -> Result<Text, AllocError>, M: Meaning>(
    alloc: Global,
    rules: &[Rule],
    source: &Schema,
    target: &Schema,
    host: &Host<F, M>,
) -> Result<Script, AllocError>
    requires rules { Each rules.now (RuleFits (model_tables source.now) (model_tables target.now)) }
    requires listed { Each rules.now (λ d. Each d.derived (λ e. IsListed (offered host.now) e.code (length e.args))) }
    requires few { length rules.now < 2 ^ 32 - 1 }
    ensures steps { IfOk result (λ s. s.steps ≡ plain_steps (table_names_of source.now) (table_names_of target.now)
        (offered host.now) rules.now) }
    ensures fits { IfOk result (λ s. FitsScript (table_names_of source.now) (table_names_of target.now) (offered host.now) s.steps) }
    ensures means { IfOk result (λ s. (I K : List Fact) (rows : Rows) → IsInstance (model_tables source.now) I
        → Means (table_names_of source.now) (table_names_of target.now) (call_named M.apply (offered host.now)) s.steps I rows K
        ↔ (AreRows M.apply rules.now I rows × (K ⊆ canonical 0 rules.now rows) × (canonical 0 rules.now rows ⊆ K))) }
{
    // Both calls tell that names tell the tables apart.
    let (_sources, _targets) = (source.tables(), target.tables());
    let parts = no_parts(alloc, rules.len())?;
    script_of(alloc, rules, source, target, host, parts)
}

/// The rewritten script of rules: it makes the uncovered part of the canonical instance.
///
/// # Errors
///
/// `AllocError` if there is no memory.
pub fn rewritten_script<F: Fn(u32, &Items<Text>) -> Result<Text, AllocError>, M: Meaning>(
    alloc: Global,
    rules: &[Rule],
    source: &Schema,
    target: &Schema,
    host: &Host<F, M>,
) -> Result<Script, AllocError>
    requires rules { Each rules.now (RuleFits (model_tables source.now) (model_tables target.now)) }
    requires listed { Each rules.now (λ d. Each d.derived (λ e. IsListed (offered host.now) e.code (length e.args))) }
    requires few { length rules.now < 2 ^ 32 - 1 }
    ensures steps { IfOk result (λ s. s.steps ≡ rewritten_steps (table_names_of source.now) (table_names_of target.now)
        (offered host.now) rules.now) }
    ensures fits { IfOk result (λ s. FitsScript (table_names_of source.now) (table_names_of target.now) (offered host.now) s.steps) }
    ensures means { IfOk result (λ s. (I K : List Fact) (rows : Rows) → IsInstance (model_tables source.now) I
        → Means (table_names_of source.now) (table_names_of target.now) (call_named M.apply (offered host.now)) s.steps I rows K
        ↔ (AreRows M.apply rules.now I rows
        × (K ⊆ uncovered (least_cover rules.now rows) 0 rules.now rows) × (uncovered (least_cover rules.now rows) 0 rules.now rows ⊆ K))) }
{
    // Both calls tell that names tell the tables apart.
    let (_sources, _targets) = (source.tables(), target.tables());
    let parts = all_parts(alloc, rules)?;
    script_of(alloc, rules, source, target, host, parts)
}
