// The conditions of a mapping, the rules of its lines, and its hand-written rules, without those that follow from the others.
ghost use Rattle.std.specs.Prelude.{◌≡◌, ◌⊎◌, ◌+◌, ◌++◌, ◌≤◌, List, length, IfErr, OnOk, MatchResult};
ghost use Rattle.dx_base.specs.Members.{Each};
ghost use Rattle.dx_model.specs.declared.rules.Rule.{Rule as RuleOf};
ghost use Rattle.dx_model.specs.Fitting.{AreNumbered, RuleFits};
ghost use Rattle.dx_model.specs.Solutions.{AtomFits};
ghost use Rattle.dx_stages.specs.Running.{Answers};
ghost use Rattle.dx_schema.specs.Tables.{model_tables};
ghost use Rattle.dx_funcs.specs.Judging.{tested};
ghost use Rattle.dx_funcs.specs.Serving.{offered};
ghost use Rattle.clio_accept.specs.Accepting.{IsBetweenSchemas, leaving, mapping_of, texts_between};
ghost use Rattle.clio_accept.specs.Mapping.{AreClosings, IsNarrowClosing, IsTooWide, LinesRefused, TooWide, WidthRefused};
ghost use Rattle.clio_accept.specs.declared.fault.AcceptFault.TheVariants.{Memory};

use crate::fault::AcceptFault;
use crate::mapping::Mapping;
use dx_base::limits::{FROZEN_CELLS, LINES, OCCURRENCES, RULES};
use dx_base::{Count, Items, Limit, Text};
use dx_candidates::kept;
use dx_closing::{CloseFault, close};
use dx_funcs::{Host, Meaning, Tests};
use dx_implies::prune;
use dx_line_text::{read_conditions, read_lines};
use dx_model::Rule;
use dx_schema::Schema;
use dx_schema_text::{LineText, OnlyText, RuleText};
use dx_tgd_text::read_rules;
use std::alloc::{AllocError, Global};

// The closing of a hand-written rule. Refused is a premise or a closed conclusion of more than 64 atoms.
fn closed(alloc: Global, rule: Rule, target: &Schema) -> Result<Rule, AcceptFault>
    requires fits { Each rule.conclusion (AtomFits (model_tables target.now)) }
    requires numbered { AreNumbered rule.conclusion }
    ensures { MatchResult result (IsNarrowClosing (model_tables target.now) rule)
        (λ e. (e ≡ Memory) ⊎ (IsTooWide (model_tables target.now) rule × (e ≡ TooWide))) }
{
    let wide = AcceptFault::Limit(Limit {
        what: Count::Occurrences,
        number: OCCURRENCES,
    });
    if rule.premise.len() > OCCURRENCES {
        return Err(wide);
    }
    match close(alloc, rule, target) {
        Ok(rule) => Ok(rule),
        Err(CloseFault::TooWide) => Err(wide),
        Err(CloseFault::Memory) => Err(AcceptFault::Memory),
    }
}

// The closings of hand-written rules, after those that there are. Refused is one that is too wide.
fn push_closed(
    alloc: Global,
    written: Vec<Rule>,
    target: &Schema,
    rules: &mut Vec<Rule>,
) -> Result<(), AcceptFault>
    requires fits { Each written.items (λ d. Each d.conclusion (AtomFits (model_tables target.now))) }
    requires numbered { Each written.items (λ d. AreNumbered d.conclusion) }
    ensures closings { OnOk result ((E : List RuleOf) × AreClosings (model_tables target.now) written.items E
        × (rules.new.items ≡ rules.old.items ++ E)) }
    ensures wide { IfErr result (λ e. (e ≡ Memory) ⊎ WidthRefused (model_tables target.now) written.items e) }
{
    for rule in written {
        rules.push(closed(alloc, rule, target)?)?;
    }
    Ok(())
}

// Refused are more than 512 lines and conditions together.
fn count_lines(lines: &[LineText], conditions: &[OnlyText]) -> Result<(), AcceptFault>
    ensures few { OnOk result (length lines.now + length conditions.now ≤ LINES) }
    ensures many { IfErr result (LinesRefused lines.now conditions.now) }
{
    let lines = lines.len() as u64;
    if lines > LINES || conditions.len() as u64 > LINES - lines {
        return Err(AcceptFault::Limit(Limit {
            what: Count::Lines,
            number: LINES,
        }));
    }
    Ok(())
}

// What pruning leaves of rules. Refused are more than 256 of them, and too many canonical cells on the frozen premise of one.
fn pruned(
    alloc: Global,
    rules: Vec<Rule>,
    source: &Schema,
    target: &Schema,
) -> Result<Items<Rule>, AcceptFault>
    requires { Each rules.items (RuleFits (model_tables source.now) (model_tables target.now)) }
    ensures { Answers AcceptFault.Memory leaving rules.items result }
{
    if rules.len() as u64 > RULES {
        return Err(AcceptFault::Limit(Limit {
            what: Count::Rules,
            number: RULES,
        }));
    }
    let left = prune(alloc, rules, source, target, FROZEN_CELLS)?;
    Ok(Items::from_vec(left))
}

/// Two schemas, and the texts of what is between them.
#[derive(Drop)]
pub(crate) struct SchemaTexts<'a> {
    pub source: Schema,
    pub target: Schema,
    pub lines: &'a [LineText],
    pub conditions: &'a [OnlyText],
    pub by_hand: &'a [RuleText],
}

/// The mapping between two schemas: the conditions, and what pruning leaves of the rules that the lines mean and of the
/// closed hand-written rules after them.
pub(crate) fn mapping_between<F, P, M>(
    alloc: Global,
    said: SchemaTexts<'_>,
    host: &Host<F, M>,
    tests: &Tests<P, M>,
) -> Result<Mapping, AcceptFault>
where
    F: Fn(u32, &Items<Text>) -> Result<Text, AllocError>,
    P: Fn(u32, &Text) -> Result<bool, AllocError>,
    M: Meaning,
    requires { IsBetweenSchemas (texts_between said.source said.target said.lines.now said.conditions.now said.by_hand.now) }
    ensures { Answers AcceptFault.Memory (mapping_of (offered host.now) (tested tests.now))
        (texts_between said.entry.source said.entry.target said.entry.lines.now said.entry.conditions.now said.entry.by_hand.now)
        result }
{
    let SchemaTexts {
        source,
        target,
        lines,
        conditions,
        by_hand,
    } = said;
    count_lines(lines, conditions)?;
    let lines = read_lines(alloc, lines, &source, &target, host)?;
    let conditions = read_conditions(alloc, conditions, &source, tests)?;
    let written = read_rules(alloc, by_hand, &source, &target, host)?;
    let mut rules = kept(alloc, lines.items(), &source, &target)?;
    push_closed(alloc, written, &target, &mut rules)?;
    let left = pruned(alloc, rules, &source, &target)?;
    Ok(Mapping {
        source,
        target,
        conditions,
        rules: left,
    })
}
