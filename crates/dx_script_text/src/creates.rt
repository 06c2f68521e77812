// Steps that create a target table.
ghost use Rattle.dx_grammar.specs.Readers.{many, with_front, ReadsAs};
ghost use Rattle.dx_grammar.specs.Lists.{past, list_reader};
ghost use Rattle.dx_script_text.specs.Grammar.{is_comma};
ghost use Rattle.dx_script_text.specs.Reading.{declared_reader, create_reader};

use crate::tokens::{after, any_of, next_of};
use dx_base::{Items, Text};
use dx_grammar::ReadError;
use dx_script::Step;
use dx_script_tokens::{ScriptKind, ScriptToken};
use std::alloc::Global;

#[tactic(auto, unfolding(crate::specs::Reading::declared_reader))]
fn declared(tokens: &[ScriptToken]) -> Result<(Text, &[ScriptToken]), ReadError>
    ensures { ReadsAs (λ x. (x.0, x.1.now)) result (declared_reader tokens.now) }
{
    let (name, rest) = any_of(tokens, ScriptKind::Name)?;
    let rest = after(rest, ScriptKind::Type)?;
    Ok((name.text.copy()?, rest))
}

fn comma_declared(tokens: &[ScriptToken]) -> Result<(Text, &[ScriptToken]), ReadError>
    ensures { ReadsAs (λ x. (x.0, x.1.now)) result (past is_comma declared_reader tokens.now) }
{
    let rest = after(tokens, ScriptKind::Comma)?;
    declared(rest)
}

// These columns, and those that follow, each after a comma.
fn more_declared(
    all: Items<Text>,
    tokens: &[ScriptToken],
) -> Result<(Items<Text>, &[ScriptToken]), ReadError>
    ensures { ReadsAs (λ x. (x.0, x.1.now)) result (with_front all (many is_comma (past is_comma declared_reader) tokens.now)) }
{
    let mut all = all;
    let mut rest = tokens;
    'all: while next_of(rest, ScriptKind::Comma) {
        let (next, after) = comma_declared(rest)?;
        all.push(next)?;
        rest = after;
    }
    Ok((all, rest))
}

fn columns(
    alloc: Global,
    tokens: &[ScriptToken],
) -> Result<(Items<Text>, &[ScriptToken]), ReadError>
    ensures { ReadsAs (λ x. (x.0, x.1.now)) result (list_reader is_comma declared_reader tokens.now) }
{
    let (first, rest) = declared(tokens)?;
    let mut all = Items::new(alloc);
    all.push(first)?;
    more_declared(all, rest)
}

/// What stands after `ScriptKind::Create ScriptKind::Table` if a target table is created.
#[tactic(auto, unfolding(crate::specs::Reading::create_reader))]
pub(crate) fn create(
    alloc: Global,
    tokens: &[ScriptToken],
) -> Result<(Step, &[ScriptToken]), ReadError>
    ensures { ReadsAs (λ x. (x.0, x.1.now)) result (create_reader tokens.now) }
{
    let rest = after(tokens, ScriptKind::Target)?;
    let rest = after(rest, ScriptKind::Dot)?;
    let (table, rest) = any_of(rest, ScriptKind::Name)?;
    let rest = after(rest, ScriptKind::Open)?;
    let (columns, rest) = columns(alloc, rest)?;
    let rest = after(rest, ScriptKind::Close)?;
    let rest = after(rest, ScriptKind::Semicolon)?;
    let step = Step::Create {
        table: table.text.copy()?,
        columns,
    };
    Ok((step, rest))
}
