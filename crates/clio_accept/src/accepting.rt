// Accepted mappings.
ghost use Rattle.std.specs.Prelude.{◌≡◌, ◌⊎◌, ◌↔◌, ◌<◌, ◌-◌, ◌^◌, length, IfOk, IfErr, IfSome, IfNone, IsTrue, OnOk};
ghost use Rattle.dx_stages.specs.Running.{Answers};
ghost use Rattle.dx_schema.specs.Bounds.{HasFewRules};
ghost use Rattle.dx_schema.specs.Links.{IsFaultless};
ghost use Rattle.dx_funcs.specs.Judging.{tested};
ghost use Rattle.dx_funcs.specs.Serving.{offered};
ghost use Rattle.clio_accept.specs.Accepting.{IsAcceptable, accepting, accepting_said};
ghost use Rattle.clio_accept.specs.Mapping.{IsFirstReserved, IsReserved, NoneReserved, SourceRefused, TargetRefused};
ghost use Rattle.clio_accept.specs.declared.fault.AcceptFault.TheVariants.{Memory};

use crate::fault::{AcceptFault, MapFault};
use crate::lines::{SchemaTexts, mapping_between};
use crate::mapping::Mapping;
use dx_base::{Items, Text};
use dx_funcs::{Host, Meaning, Tests};
use dx_schema::{Schema, SchemaFault, Trees};
use dx_schema_text::{MappingText, read_mapping};
use std::alloc::{AllocError, Global};

// The source schema of these sets.
fn source_of(alloc: Global, trees: Trees) -> Result<Schema, AcceptFault>
    requires { HasFewRules trees }
    ensures schema { IfOk result (λ s. s ≡ trees) }
    ensures faultless { OnOk result (IsFaultless trees) }
    ensures fault { IfErr result (λ e. (e ≡ Memory) ⊎ SourceRefused trees e) }
{
    match Schema::build(alloc, trees) {
        Ok(schema) => Ok(schema),
        Err(SchemaFault::Bad(kind)) => Err(AcceptFault::Mapping(MapFault::Source(kind))),
        Err(SchemaFault::TooMany(limit)) => Err(AcceptFault::Limit(limit)),
        Err(SchemaFault::Memory) => Err(AcceptFault::Memory),
    }
}

// The target schema of these sets.
fn target_of(alloc: Global, trees: Trees) -> Result<Schema, AcceptFault>
    requires { HasFewRules trees }
    ensures schema { IfOk result (λ s. s ≡ trees) }
    ensures faultless { OnOk result (IsFaultless trees) }
    ensures fault { IfErr result (λ e. (e ≡ Memory) ⊎ TargetRefused trees e) }
{
    match Schema::build(alloc, trees) {
        Ok(schema) => Ok(schema),
        Err(SchemaFault::Bad(kind)) => Err(AcceptFault::Mapping(MapFault::Target(kind))),
        Err(SchemaFault::TooMany(limit)) => Err(AcceptFault::Limit(limit)),
        Err(SchemaFault::Memory) => Err(AcceptFault::Memory),
    }
}

fn is_reserved(name: &Text) -> bool
    ensures { IsTrue result ↔ IsReserved name.now }
{
    name.as_str() == "nulls" || name.as_str() == "fold"
}

// The first reserved name among the target's sets.
fn reserved_in(target: &Schema) -> Result<Option<Text>, AllocError>
    ensures some { IfOk result (λ o. IfSome o (IsFirstReserved target.now)) }
    ensures none { IfOk result (λ o. IfNone o (NoneReserved target.now)) }
{
    for table in 0..target.tables() {
        let name = target.name(table);
        if is_reserved(name) {
            return Ok(Some(name.copy()?));
        }
    }
    Ok(None)
}

// The mapping of what a text says.
fn accept_said<F, P, M>(
    alloc: Global,
    said: MappingText,
    host: &Host<F, M>,
    tests: &Tests<P, M>,
) -> Result<Mapping, AcceptFault>
where
    F: Fn(u32, &Items<Text>) -> Result<Text, AllocError>,
    P: Fn(u32, &Text) -> Result<bool, AllocError>,
    M: Meaning,
    requires { IsAcceptable said }
    ensures { Answers AcceptFault.Memory (accepting_said (offered host.now) (tested tests.now)) said result }
{
    let MappingText {
        version: _,
        source,
        target,
        lines,
        conditions,
        rules,
    } = said;
    let source = source_of(alloc, source)?;
    let target = target_of(alloc, target)?;
    if let Some(name) = reserved_in(&target)? {
        return Err(AcceptFault::Mapping(MapFault::Reserved(name)));
    }
    let between = SchemaTexts {
        source,
        target,
        lines: lines.items(),
        conditions: conditions.items(),
        by_hand: rules.items(),
    };
    mapping_between(alloc, between, host, tests)
}

/// The mapping that a text defines: its two schemas, its conditions, and what pruning leaves of the rules that its lines mean
/// and of its closed hand-written rules.
///
/// # Errors
///
/// In this order: the first fault of the text, of the source sets, of the target sets; the first target set with a name
/// that is taken; more than 512 lines and conditions together; the first word of the lines that names nothing, or conversion
/// with another number of arguments; the first word of the conditions that names nothing; the first fault of the
/// hand-written rules; the limits of lines (table by table 256 variants of the tables of a side so far, then 64 occurrences
/// of a variant; 64 ways between two variants; 1,024 candidates); a hand-written rule whose premise or closed conclusion has
/// more than 64 atoms;
/// more than 256 rules; a rule that pruning tests, on whose frozen premise the others make more than 4,000,000 canonical
/// cells. `Memory` may come at any point.
pub fn accept<F, P, M>(
    alloc: Global,
    text: &[u8],
    host: &Host<F, M>,
    tests: &Tests<P, M>,
) -> Result<Mapping, AcceptFault>
where
    F: Fn(u32, &Items<Text>) -> Result<Text, AllocError>,
    P: Fn(u32, &Text) -> Result<bool, AllocError>,
    M: Meaning,
    requires { length text.now < 2 ^ 32 - 1 }
    ensures { Answers AcceptFault.Memory (accepting (offered host.now) (tested tests.now)) text.now result }
{
    let said = read_mapping(alloc, text)?;
    accept_said(alloc, said, host, tests)
}
