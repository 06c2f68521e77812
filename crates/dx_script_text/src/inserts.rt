// Steps that insert facts. The rule is learned from the first token that has it.
ghost use Rattle.dx_grammar.specs.Readers.{ReadsAs};
ghost use Rattle.dx_grammar.specs.Numbers.{always, knowing, with_front_known};
ghost use Rattle.dx_script_tokens.specs.Numbers.{greatest_number};
ghost use Rattle.dx_script_text.specs.Grammar.{is_comma};
ghost use Rattle.dx_script_text.specs.Reading.{text_out_reader, column_out_reader, skolem_tail_reader, skolem_reader, out_reader, comma_out, outs_reader, insert_end_reader, insert_tail_reader, insert_reader};

use crate::tokens::{after, any_of, is_of, next_of, rule_of, table_of};
use dx_base::{Items, Text};
use dx_grammar::ReadError;
use dx_script::{Out, Step};
use dx_script_tokens::{ScriptKind, ScriptToken};
use std::alloc::Global;

#[tactic(auto, unfolding(crate::specs::Reading::text_out_reader))]
fn text_out(tokens: &[ScriptToken]) -> Result<(Out, &[ScriptToken]), ReadError>
    ensures { ReadsAs (λ x. (x.0, x.1.now)) result (text_out_reader tokens.now) }
{
    let (text, rest) = any_of(tokens, ScriptKind::Text)?;
    Ok((Out::Literal(text.text.copy()?), rest))
}

#[tactic(auto, unfolding(crate::specs::Reading::column_out_reader))]
fn column_out(tokens: &[ScriptToken]) -> Result<(Out, &[ScriptToken]), ReadError>
    ensures { ReadsAs (λ x. (x.0, x.1.now)) result (column_out_reader tokens.now) }
{
    let rest = after(tokens, ScriptKind::Own)?;
    let rest = after(rest, ScriptKind::Dot)?;
    let (column, rest) = any_of(rest, ScriptKind::Column)?;
    Ok((Out::Column(column.number), rest))
}

#[tactic(auto, unfolding(crate::specs::Reading::skolem_tail_reader))]
fn skolem_tail(tokens: &[ScriptToken]) -> Result<(u32, &[ScriptToken]), ReadError>
    ensures { ReadsAs (λ x. (x.0, x.1.now)) result (skolem_tail_reader tokens.now) }
{
    let rest = after(tokens, ScriptKind::Comma)?;
    let (variable, rest) = any_of(rest, ScriptKind::Number)?;
    let rest = after(rest, ScriptKind::Comma)?;
    let rest = after(rest, ScriptKind::Own)?;
    let rest = after(rest, ScriptKind::Dot)?;
    let rest = after(rest, ScriptKind::Place)?;
    let rest = after(rest, ScriptKind::Close)?;
    Ok((variable.number, rest))
}

#[tactic(auto, unfolding(crate::specs::Reading::skolem_reader))]
fn skolem_out(
    known: Option<u32>,
    tokens: &[ScriptToken],
) -> Result<(Out, Option<u32>, &[ScriptToken]), ReadError>
    ensures { ReadsAs (λ x. ((x.0, x.1), x.2.now)) result (skolem_reader greatest_number known tokens.now) }
{
    let rest = after(tokens, ScriptKind::Skolem)?;
    let rest = after(rest, ScriptKind::Open)?;
    let (rule, rest) = rule_of(rest, ScriptKind::Number, known)?;
    let (variable, rest) = skolem_tail(rest)?;
    Ok((Out::Skolem(variable), Some(rule.number), rest))
}

fn plain_text(
    known: Option<u32>,
    tokens: &[ScriptToken],
) -> Result<(Out, Option<u32>, &[ScriptToken]), ReadError>
    ensures { ReadsAs (λ x. ((x.0, x.1), x.2.now)) result (always text_out_reader known tokens.now) }
{
    let (out, rest) = text_out(tokens)?;
    Ok((out, known, rest))
}

fn plain_column(
    known: Option<u32>,
    tokens: &[ScriptToken],
) -> Result<(Out, Option<u32>, &[ScriptToken]), ReadError>
    ensures { ReadsAs (λ x. ((x.0, x.1), x.2.now)) result (always column_out_reader known tokens.now) }
{
    let (out, rest) = column_out(tokens)?;
    Ok((out, known, rest))
}

#[tactic(auto, unfolding(crate::specs::Reading::out_reader))]
fn out(
    known: Option<u32>,
    tokens: &[ScriptToken],
) -> Result<(Out, Option<u32>, &[ScriptToken]), ReadError>
    ensures { ReadsAs (λ x. ((x.0, x.1), x.2.now)) result (out_reader greatest_number known tokens.now) }
{
    if next_of(tokens, ScriptKind::Text) {
        plain_text(known, tokens)
    } else if next_of(tokens, ScriptKind::Own) {
        plain_column(known, tokens)
    } else {
        skolem_out(known, tokens)
    }
}

#[tactic(auto, unfolding(crate::specs::Reading::comma_out))]
fn next_out(
    known: Option<u32>,
    tokens: &[ScriptToken],
) -> Result<(Out, Option<u32>, &[ScriptToken]), ReadError>
    ensures { ReadsAs (λ x. ((x.0, x.1), x.2.now)) result (comma_out greatest_number known tokens.now) }
{
    let rest = after(tokens, ScriptKind::Comma)?;
    out(known, rest)
}

// These cells, and those that follow, each after a comma.
fn more_outs(
    all: Items<Out>,
    first: Option<u32>,
    tokens: &[ScriptToken],
) -> Result<(Items<Out>, Option<u32>, &[ScriptToken]), ReadError>
    ensures { ReadsAs (λ x. ((x.0, x.1), x.2.now)) result
        (with_front_known all (knowing is_comma (comma_out greatest_number) first tokens.now)) }
{
    let mut all = all;
    let mut known = first;
    let mut rest = tokens;
    'all: while next_of(rest, ScriptKind::Comma) {
        let (next, now, after) = next_out(known, rest)?;
        all.push(next)?;
        known = now;
        rest = after;
    }
    Ok((all, known, rest))
}

#[tactic(auto, unfolding(crate::specs::Reading::outs_reader))]
fn outs(
    alloc: Global,
    known: Option<u32>,
    tokens: &[ScriptToken],
) -> Result<(Items<Out>, Option<u32>, &[ScriptToken]), ReadError>
    ensures { ReadsAs (λ x. ((x.0, x.1), x.2.now)) result (outs_reader greatest_number known tokens.now) }
{
    let (first, known, rest) = out(known, tokens)?;
    let mut all = Items::new(alloc);
    all.push(first)?;
    more_outs(all, known, rest)
}

// What is left after the end of a step that inserts facts.
#[tactic(auto, unfolding(crate::specs::Reading::insert_end_reader))]
fn after_end(tokens: &[ScriptToken]) -> Result<&[ScriptToken], ReadError>
    ensures { ReadsAs (λ x. (tt, x.now)) result (insert_end_reader tokens.now) }
{
    let rest = after(tokens, ScriptKind::As)?;
    let rest = after(rest, ScriptKind::Own)?;
    let rest = after(rest, ScriptKind::Semicolon)?;
    Ok(rest)
}

#[tactic(auto, unfolding(crate::specs::Reading::insert_tail_reader))]
fn insert_tail(
    alloc: Global,
    table: Text,
    known: Option<u32>,
    tokens: &[ScriptToken],
) -> Result<(Step, Option<u32>, &[ScriptToken]), ReadError>
    ensures { ReadsAs (λ x. ((x.0, x.1), x.2.now)) result (insert_tail_reader greatest_number table known tokens.now) }
{
    let (cells, known, rest) = outs(alloc, known, tokens)?;
    let rest = after(rest, ScriptKind::From)?;
    let (from, rest) = table_of(rest, known)?;
    let rest = after_end(rest)?;
    let step = Step::InsertRows {
        table,
        rule: from.number,
        kept: is_of(from, ScriptKind::Keep),
        cells,
    };
    Ok((step, Some(from.number), rest))
}

/// A step that inserts facts.
#[tactic(auto, unfolding(crate::specs::Reading::insert_reader))]
pub(crate) fn insert_rows(
    alloc: Global,
    tokens: &[ScriptToken],
) -> Result<(Step, &[ScriptToken]), ReadError>
    ensures { ReadsAs (λ x. (x.0, x.1.now)) result (insert_reader greatest_number tokens.now) }
{
    let rest = after(tokens, ScriptKind::Insert)?;
    let rest = after(rest, ScriptKind::Into)?;
    let rest = after(rest, ScriptKind::Target)?;
    let rest = after(rest, ScriptKind::Dot)?;
    let (table, rest) = any_of(rest, ScriptKind::Name)?;
    let rest = after(rest, ScriptKind::Select)?;
    let (step, _, rest) = insert_tail(alloc, table.text.copy()?, None, rest)?;
    Ok((step, rest))
}
