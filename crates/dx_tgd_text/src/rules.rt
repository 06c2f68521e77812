// Rules, by the numbers of what they name.
ghost use Rattle.std.specs.Prelude.{◌≡◌, ◌⊎◌, None, Some, IfErr, IfOk, OnOk};
ghost use Rattle.dx_base.specs.Members.{Each};
ghost use Rattle.dx_model.specs.Fitting.{RuleFits};
ghost use Rattle.dx_schema.specs.Tables.{model_tables};
ghost use Rattle.dx_funcs.specs.Serving.{offered};
ghost use Rattle.dx_tokens.specs.declared.faults.TextFault.TheVariants.{Memory};
ghost use Rattle.dx_line_text.specs.Answers.{ReadsOrMemory};
ghost use Rattle.dx_tgd_text.specs.Laws.{AllOffered, IsWholeRule};
ghost use Rattle.dx_tgd_text.specs.Reading.{RuleHasFewCells, rule_fault, rule_of_text, rules_fault, rules_of_texts};

use crate::atoms::read_atoms;
use crate::derived::read_derived;
use crate::names::Names;
use dx_base::{Items, Text};
use dx_funcs::{Host, Meaning};
use dx_model::Rule;
use dx_schema::Schema;
use dx_schema_text::RuleText;
use dx_tokens::TextFault;
use std::alloc::{AllocError, Global};

// A rule.
fn read_rule<F, M>(
    alloc: Global,
    rule: &RuleText,
    source: &Schema,
    target: &Schema,
    host: &Host<F, M>,
) -> Result<Rule, TextFault>
where
    F: Fn(u32, &Items<Text>) -> Result<Text, AllocError>,
    M: Meaning,
    requires { RuleHasFewCells rule.now }
    ensures { ReadsOrMemory result
        (rule_of_text source.now target.now (offered host.now) rule.now)
        (rule_fault source.now target.now (offered host.now) rule.now) }
{
    let none = Names::new(alloc);
    let mut known = Names::of_atoms(alloc, rule.premise.items(), &none)?;
    let premise = read_atoms(alloc, rule.premise.items(), source, &known, &none)?;
    let derived = read_derived(alloc, rule.derived.items(), host, &mut known)?;
    let fresh = Names::of_atoms(alloc, rule.conclusion.items(), &known)?;
    let conclusion = read_atoms(alloc, rule.conclusion.items(), target, &known, &fresh)?;
    Ok(Rule {
        premise,
        derived,
        conclusion,
    })
}

/// The rules that texts say, by the numbers of the sets, conversions and variables that they name. They are not closed.
///
/// # Errors
///
/// `At` with the first fault in the order of the text. `Memory` if there is no memory, which may come at any point.
///
/// 1. Rule by rule, the premise before the derived variables and these before the conclusion.
/// 2. Of an atom first its set, which isn't there (`UnknownName`); then, at the set, that it has another number of
///    columns than the atom cells (`Width`).
/// 3. Of a derived variable first its name, which is a variable of the premise or an earlier derived one (`Unsafe`);
///    then its conversion, which isn't listed (`UnknownName`) or takes another number of arguments (`Width`); then its
///    arguments from left to right, one that is no variable of the premise (`Unsafe`).
pub fn read_rules<F, M>(
    alloc: Global,
    rules: &[RuleText],
    source: &Schema,
    target: &Schema,
    host: &Host<F, M>,
) -> Result<Vec<Rule>, TextFault>
where
    F: Fn(u32, &Items<Text>) -> Result<Text, AllocError>,
    M: Meaning,
    requires narrow { Each rules.now RuleHasFewCells }
    ensures rules { IfOk result (λ ds. ds.items ≡ rules_of_texts source.now target.now (offered host.now) rules.now) }
    ensures none { OnOk result (rules_fault source.now target.now (offered host.now) rules.now ≡ None) }
    ensures fault { IfErr result (λ e. (e ≡ Memory) ⊎ (rules_fault source.now target.now (offered host.now) rules.now ≡ Some e)) }
    ensures fit { IfOk result (λ ds. Each rules.now IsWholeRule
        → Each ds.items (RuleFits (model_tables source.now) (model_tables target.now))) }
    ensures listed { IfOk result (λ ds. Each ds.items (AllOffered (offered host.now))) }
{
    let mut read = Vec::new(alloc);
    for rule in rules {
        read.push(read_rule(alloc, rule, source, target, host)?)?;
    }
    Ok(read)
}
