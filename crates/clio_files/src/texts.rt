// The two files of texts: the rules, and their script.
ghost use Rattle.std.specs.Prelude.{◌≡◌, IfOk, map};
ghost use Rattle.dx_funcs.specs.Serving.{offered};
ghost use Rattle.clio_files.specs.Files.{printed_view};
ghost use Rattle.clio_files.specs.Texts.{FitTexts, rules_told, script_of, script_told, texts_told};

use crate::printed::Printed;
use clio_accept::Mapping;
use dx_base::{Items, Text};
use dx_exchange::Mode;
use dx_funcs::{Host, Meaning};
use dx_rule_text::print_rules;
use dx_script::Script;
use dx_script_text::print_script;
use dx_scriptgen::{plain_script, rewritten_script};
use std::alloc::{AllocError, Global};

// The text of a mapping's rules.
fn rules_file<F, M>(
    alloc: Global,
    mapping: &Mapping,
    host: &Host<F, M>,
) -> Result<Printed, AllocError>
where
    F: Fn(u32, &Items<Text>) -> Result<Text, AllocError>,
    M: Meaning,
    requires { FitTexts mapping.now.source mapping.now.target (offered host.now) mapping.now.rules }
    ensures { IfOk result (λ p. printed_view p
        ≡ rules_told mapping.now.source mapping.now.target (offered host.now) mapping.now.rules) }
{
    let rules = mapping.rules.items();
    let text = print_rules(alloc, rules, &mapping.source, &mapping.target, host)?;
    Printed::of_text(alloc, "rules.txt", &text, rules.len() as u64)
}

// The script of the rules in a mode.
fn script_in<F, M>(
    alloc: Global,
    mapping: &Mapping,
    host: &Host<F, M>,
    mode: Mode,
) -> Result<Script, AllocError>
where
    F: Fn(u32, &Items<Text>) -> Result<Text, AllocError>,
    M: Meaning,
    requires { FitTexts mapping.now.source mapping.now.target (offered host.now) mapping.now.rules }
    ensures { IfOk result (λ s. s
        ≡ script_of mapping.now.source mapping.now.target (offered host.now) mode mapping.now.rules) }
{
    let rules = mapping.rules.items();
    let Mapping { source, target, .. } = mapping;
    match mode {
        Mode::Plain => plain_script(alloc, rules, source, target, host),
        Mode::Core => rewritten_script(alloc, rules, source, target, host),
    }
}

// The text of the script.
fn script_file<F, M>(
    alloc: Global,
    mapping: &Mapping,
    host: &Host<F, M>,
    mode: Mode,
) -> Result<Printed, AllocError>
where
    F: Fn(u32, &Items<Text>) -> Result<Text, AllocError>,
    M: Meaning,
    requires { FitTexts mapping.now.source mapping.now.target (offered host.now) mapping.now.rules }
    ensures { IfOk result (λ p. printed_view p
        ≡ script_told mapping.now.source mapping.now.target (offered host.now) mode mapping.now.rules) }
{
    let script = script_in(alloc, mapping, host, mode)?;
    let text = print_script(alloc, &script)?;
    Printed::of_text(alloc, "script.sql", &text, script.steps.len())
}

/// The two files of texts of a mapping, in order: `rules.txt`, its rules, and `script.sql`, their script in this mode.
///
/// # Errors
///
/// Out of memory.
pub fn print_texts<F, M>(
    alloc: Global,
    mapping: &Mapping,
    host: &Host<F, M>,
    mode: Mode,
) -> Result<Vec<Printed>, AllocError>
where
    F: Fn(u32, &Items<Text>) -> Result<Text, AllocError>,
    M: Meaning,
    requires { FitTexts mapping.now.source mapping.now.target (offered host.now) mapping.now.rules }
    ensures { IfOk result (λ ps. map printed_view ps.items
        ≡ texts_told mapping.now.source mapping.now.target (offered host.now) mode mapping.now.rules) }
{
    let mut printed = Vec::new(alloc);
    printed.push(rules_file(alloc, mapping, host)?)?;
    printed.push(script_file(alloc, mapping, host, mode)?)?;
    Ok(printed)
}
