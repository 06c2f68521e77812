// Two mappings, compared.
ghost use Rattle.std.specs.Prelude.{◌↔◌, ◌≤◌, IfNone, IfOk, IfSome, IsTrue, length};
ghost use Rattle.dx_base.specs.declared.limits.TheConstants.{RULES};
ghost use Rattle.dx_base.specs.Entries.{entries_of};
ghost use Rattle.dx_stages.specs.Ending.{planned};
ghost use Rattle.dx_stages.specs.Running.{Gives, Ran};
ghost use Rattle.dx_stages.specs.Worlds.{World};
ghost use Rattle.dx_funcs.specs.Judging.{tested};
ghost use Rattle.dx_funcs.specs.Serving.{offered};
ghost use Rattle.clio_files.specs.Comparisons.{FitsComparison};
ghost use Rattle.clio_ending.specs.declared.ending.Refusal.TheVariants.{Other as OtherRefusal};
ghost use Rattle.clio_steps.specs.Steps.{program};
ghost use Rattle.clio_compare.specs.Comparing.{BothPlain, BothUnconditional, NoneDerived, PairReady, WritesComparison, HasDerived, HaveSameSets, IsFirstDerived};
ghost use Rattle.clio_compare.specs.Comparing.{comparable, compare_stages, compared_rules, comparisons};

use clio_accept::Mapping;
use clio_ending::{Done, OtherFault, Refusal};
use clio_files::{compared_text, into_files, print_comparison};
use clio_steps::{Side, read_mapping};
use dx_base::limits::FROZEN_CELLS;
use dx_base::{File, Items, Text};
use dx_compare::{Comparison, compare, same_trees};
use dx_funcs::{Host, Meaning, Tests};
use dx_model::Rule;
use dx_ports::Inputs;
use dx_stages::{Plan, Stop};
use dx_tgd::CanonFault;
use std::alloc::{AllocError, Global};

// Whether two mappings have the same sets on each side.
fn have_same_sets(first: &Mapping, second: &Mapping) -> bool
    ensures { IsTrue result ↔ HaveSameSets (first.now, second.now) }
{
    same_trees(first.source.trees(), second.source.trees())
        && same_trees(first.target.trees(), second.target.trees())
}

// Whether neither of two mappings has a condition.
fn are_free(first: &Mapping, second: &Mapping) -> bool
    ensures { IsTrue result ↔ BothUnconditional (first.now, second.now) }
{
    first.conditions.len() == 0 && second.conditions.len() == 0
}

// The number of the first rule with derived variables.
fn first_derived(rules: &[Rule]) -> Option<u32>
    requires { length rules.now ≤ RULES }
    ensures none { IfNone result (NoneDerived rules.now) }
    ensures some { IfSome result (IsFirstDerived rules.now) }
{
    for (number, rule) in rules.iter().enumerate() {
        if rule.derived.len() > 0 {
            return Some(number as u32);
        }
    }
    None
}

// The first rule with derived variables, of the first mapping or, if that has none, of the second.
fn derived_in(first: &Mapping, second: &Mapping) -> Option<OtherFault>
    requires first { length first.now.rules ≤ RULES }
    requires second { length second.now.rules ≤ RULES }
    ensures none { IfNone result (BothPlain (first.now, second.now)) }
    ensures some { IfSome result (λ f. HasDerived (first.now, second.now) (OtherRefusal f)) }
{
    if let Some(rule) = first_derived(first.rules.items()) {
        return Some(OtherFault::Derived {
            second: false,
            rule,
        });
    }
    let rule = first_derived(second.rules.items())?;
    Some(OtherFault::Derived { second: true, rule })
}

// Why two mappings can't be compared.
fn difference(first: &Mapping, second: &Mapping) -> Option<OtherFault>
    requires first { length first.now.rules ≤ RULES }
    requires second { length second.now.rules ≤ RULES }
    ensures none { IfNone result ((c : World) → comparable.passes c (first.now, second.now) (first.now, second.now)) }
    ensures some { IfSome result (λ f. (c : World) → comparable.refuses c (first.now, second.now) (OtherRefusal f)) }
{
    if !have_same_sets(first, second) {
        return Some(OtherFault::Schemas);
    }
    if !are_free(first, second) {
        return Some(OtherFault::Conditions);
    }
    derived_in(first, second)
}

// Whether the rules of each mapping imply those of the other.
fn compare_rules(
    alloc: Global,
    first: &Mapping,
    second: &Mapping,
) -> Result<Comparison, Stop<Refusal>>
    requires { PairReady (first.now, second.now) }
    ensures { Gives compared_rules (first.now, second.now) result }
{
    let Mapping { source, target, .. } = first;
    let (one, other) = (first.rules.items(), second.rules.items());
    match compare(alloc, one, other, source, target, FROZEN_CELLS) {
        Ok(comparison) => Ok(comparison),
        Err(CanonFault::Limit(limit)) => Err(Stop::Refused(Refusal::Limit(limit))),
        Err(CanonFault::Memory) => Err(Stop::Memory),
    }
}

// The first of two mappings, and whether the rules of each imply those of the other.
fn compare_files<I: Inputs, F, P, M>(
    alloc: Global,
    inputs: &mut I,
    host: &Host<F, M>,
    tests: &Tests<P, M>,
) -> Result<(Mapping, Comparison), Stop<Refusal>>
where
    F: Fn(u32, &Items<Text>) -> Result<Text, AllocError>,
    P: Fn(u32, &Text) -> Result<bool, AllocError>,
    M: Meaning,
    ensures { Ran (comparisons (program (offered host.now) (tested tests.now) M.apply M.passes)) (tt {0}) result
        (I.state inputs.old) (I.state inputs.new) }
{
    let first = read_mapping(alloc, inputs, Side::First, host, tests)?;
    let second = read_mapping(alloc, inputs, Side::Second, host, tests)?;
    if let Some(fault) = difference(&first, &second) {
        return Err(Stop::Refused(Refusal::Other(fault)));
    }
    let comparison = compare_rules(alloc, &first, &second)?;
    Ok((first, comparison))
}

// The files that are written of a comparison, and what is said of it.
fn compared_files(
    alloc: Global,
    mapping: &Mapping,
    comparison: &Comparison,
) -> Result<(Vec<File>, Vec<u8>), AllocError>
    requires { FitsComparison mapping.now.source mapping.now.target comparison.now }
    ensures { IfOk result (λ r. WritesComparison mapping.now comparison.now (entries_of r.0.items) r.1.items) }
{
    let printed = print_comparison(alloc, &mapping.source, &mapping.target, comparison)?;
    let text = compared_text(alloc, comparison, &printed)?;
    Ok((into_files(alloc, printed)?, text))
}

/// What `compare` writes.
pub fn compare_plan<I: Inputs, F, P, M>(
    alloc: Global,
    inputs: &mut I,
    host: &Host<F, M>,
    tests: &Tests<P, M>,
) -> Result<Plan<Done>, Stop<Refusal>>
where
    F: Fn(u32, &Items<Text>) -> Result<Text, AllocError>,
    P: Fn(u32, &Text) -> Result<bool, AllocError>,
    M: Meaning,
    ensures { Ran (compare_stages (program (offered host.now) (tested tests.now) M.apply M.passes)) (tt {0}) (planned result)
        (I.state inputs.old) (I.state inputs.new) }
{
    let (mapping, comparison) = compare_files(alloc, inputs, host, tests)?;
    let (files, text) = compared_files(alloc, &mapping, &comparison)?;
    Ok(Plan {
        done: Done::Compared(comparison),
        files,
        text,
    })
}
