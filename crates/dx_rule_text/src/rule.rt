// The text of rules.
ghost use Rattle.std.specs.Prelude.{◌≡◌, ◌++◌, IfOk, OnOk, string_bytes};
ghost use Rattle.dx_base.specs.Members.{Each};
ghost use Rattle.dx_funcs.specs.Serving.{offered};
ghost use Rattle.dx_rule_text.specs.Printed.{AtomsWithin, AllListed, rule_text, rules_text};

use crate::atoms::push_atoms;
use crate::derived::{after_atoms, push_where};
use dx_base::{Items, Text};
use dx_funcs::{Host, Meaning};
use dx_model::Rule;
use dx_schema::Schema;
use std::alloc::{AllocError, Global};

fn push_rule<F: Fn(u32, &Items<Text>) -> Result<Text, AllocError>, M: Meaning>(
    rule: &Rule,
    source: &Schema,
    target: &Schema,
    host: &Host<F, M>,
    out: &mut String,
) -> Result<(), AllocError>
    requires premise { AtomsWithin source.now rule.now.premise }
    requires conclusion { AtomsWithin target.now rule.now.conclusion }
    requires derived { AllListed (offered host.now) rule.now.derived }
    ensures { OnOk result (string_bytes out.new ≡ string_bytes out.old ++ rule_text source.now target.now (offered host.now) rule.now) }
{
    out.push_str("rule ")?;
    push_atoms(rule.premise.items(), source, out)?;
    let first = after_atoms(rule.premise.items());
    push_where(rule.derived.items(), first, host, out)?;
    out.push_str(" -> ")?;
    push_atoms(rule.conclusion.items(), target, out)?;
    out.push_str(";")?;
    Ok(())
}

/// Prints a rule as one line, with no line feed at its end, with the names that its tables have in the schemas and its
/// conversions in the host.
///
/// # Errors
///
/// `AllocError` if there is no memory.
pub fn print_rule<F: Fn(u32, &Items<Text>) -> Result<Text, AllocError>, M: Meaning>(
    alloc: Global,
    rule: &Rule,
    source: &Schema,
    target: &Schema,
    host: &Host<F, M>,
) -> Result<Text, AllocError>
    requires premise { AtomsWithin source.now rule.now.premise }
    requires conclusion { AtomsWithin target.now rule.now.conclusion }
    requires derived { AllListed (offered host.now) rule.now.derived }
    ensures { IfOk result (λ t. t ≡ rule_text source.now target.now (offered host.now) rule.now) }
{
    let mut out = String::new(alloc);
    push_rule(rule, source, target, host, &mut out)?;
    Text::from_string(alloc, out)
}

/// Prints rules, each in a line of its own, with a line feed.
///
/// # Errors
///
/// `AllocError` if there is no memory.
pub fn print_rules<F: Fn(u32, &Items<Text>) -> Result<Text, AllocError>, M: Meaning>(
    alloc: Global,
    rules: &[Rule],
    source: &Schema,
    target: &Schema,
    host: &Host<F, M>,
) -> Result<Text, AllocError>
    requires premise { Each rules.now (λ r. AtomsWithin source.now r.premise) }
    requires conclusion { Each rules.now (λ r. AtomsWithin target.now r.conclusion) }
    requires derived { Each rules.now (λ r. AllListed (offered host.now) r.derived) }
    ensures { IfOk result (λ t. t ≡ rules_text source.now target.now (offered host.now) rules.now) }
{
    let mut out = String::new(alloc);
    for rule in rules {
        push_rule(rule, source, target, host, &mut out)?;
        out.push_str("\n")?;
    }
    Text::from_string(alloc, out)
}
