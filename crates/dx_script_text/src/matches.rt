// Steps that match a rule.
ghost use Rattle.std.specs.Prelude.{ℕ, List};
ghost use Rattle.dx_grammar.specs.Readers.{many, with_front, ReadsAs};
ghost use Rattle.dx_grammar.specs.Lists.{past, list_reader};
ghost use Rattle.dx_script.specs.declared.form.Select.{Select as Chosen};
ghost use Rattle.dx_script_tokens.specs.Numbers.{greatest_number};
ghost use Rattle.dx_script_text.specs.Grammar.{is_comma, is_and};
ghost use Rattle.dx_script_text.specs.Reading.{alias_cell_reader, select_call_reader, cell_value_reader, value_reader, select_item_reader, comma_item, items_reader, no_items, select_reader, from_source_reader, comma_source, sources_reader, and_counted, equal_reader, equals_reader, where_clause_reader, match_step_of, matched_reader, match_reader};

use crate::tokens::{after, after_that, any_of, next_counts, next_has, next_of};
use dx_base::{Items, Text};
use dx_grammar::ReadError;
use dx_script::{CellRef, Equal, Select, Step};
use dx_script_tokens::{ScriptKind, ScriptToken};
use std::alloc::Global;

#[tactic(auto, unfolding(crate::specs::Reading::alias_cell_reader))]
fn cell(tokens: &[ScriptToken]) -> Result<(CellRef, &[ScriptToken]), ReadError>
    ensures { ReadsAs (λ x. (x.0, x.1.now)) result (alias_cell_reader tokens.now) }
{
    let (alias, rest) = any_of(tokens, ScriptKind::Alias)?;
    let rest = after(rest, ScriptKind::Dot)?;
    let (column, rest) = any_of(rest, ScriptKind::Name)?;
    let cell = CellRef {
        alias: alias.number,
        column: column.text.copy()?,
    };
    Ok((cell, rest))
}

fn comma_cell(tokens: &[ScriptToken]) -> Result<(CellRef, &[ScriptToken]), ReadError>
    ensures { ReadsAs (λ x. (x.0, x.1.now)) result (past is_comma alias_cell_reader tokens.now) }
{
    let rest = after(tokens, ScriptKind::Comma)?;
    cell(rest)
}

// These cells, and those that follow, each after a comma.
fn more_cells(
    all: Items<CellRef>,
    tokens: &[ScriptToken],
) -> Result<(Items<CellRef>, &[ScriptToken]), ReadError>
    ensures { ReadsAs (λ x. (x.0, x.1.now)) result (with_front all (many is_comma (past is_comma alias_cell_reader) tokens.now)) }
{
    let mut all = all;
    let mut rest = tokens;
    'all: while next_of(rest, ScriptKind::Comma) {
        let (next, after) = comma_cell(rest)?;
        all.push(next)?;
        rest = after;
    }
    Ok((all, rest))
}

fn cells(
    alloc: Global,
    tokens: &[ScriptToken],
) -> Result<(Items<CellRef>, &[ScriptToken]), ReadError>
    ensures { ReadsAs (λ x. (x.0, x.1.now)) result (list_reader is_comma alias_cell_reader tokens.now) }
{
    let (first, rest) = cell(tokens)?;
    let mut all = Items::new(alloc);
    all.push(first)?;
    more_cells(all, rest)
}

#[tactic(auto, unfolding(crate::specs::Reading::select_call_reader))]
fn call(alloc: Global, tokens: &[ScriptToken]) -> Result<(Select, &[ScriptToken]), ReadError>
    ensures { ReadsAs (λ x. (x.0, x.1.now)) result (select_call_reader tokens.now) }
{
    let (name, rest) = any_of(tokens, ScriptKind::Name)?;
    let rest = after(rest, ScriptKind::Open)?;
    let (args, rest) = cells(alloc, rest)?;
    let rest = after(rest, ScriptKind::Close)?;
    let select = Select::Call {
        name: name.text.copy()?,
        args,
    };
    Ok((select, rest))
}

#[tactic(auto, unfolding(crate::specs::Reading::cell_value_reader))]
fn cell_value(tokens: &[ScriptToken]) -> Result<(Select, &[ScriptToken]), ReadError>
    ensures { ReadsAs (λ x. (x.0, x.1.now)) result (cell_value_reader tokens.now) }
{
    let (cell, rest) = cell(tokens)?;
    Ok((Select::Cell(cell), rest))
}

#[tactic(auto, unfolding(crate::specs::Reading::value_reader))]
fn value(alloc: Global, tokens: &[ScriptToken]) -> Result<(Select, &[ScriptToken]), ReadError>
    ensures { ReadsAs (λ x. (x.0, x.1.now)) result (value_reader tokens.now) }
{
    if next_of(tokens, ScriptKind::Alias) {
        cell_value(tokens)
    } else {
        call(alloc, tokens)
    }
}

#[tactic(auto, unfolding(crate::specs::Reading::select_item_reader))]
fn item(
    alloc: Global,
    number: u32,
    tokens: &[ScriptToken],
) -> Result<(Select, &[ScriptToken]), ReadError>
    ensures { ReadsAs (λ x. (x.0, x.1.now)) result (select_item_reader number tokens.now) }
{
    let (value, rest) = value(alloc, tokens)?;
    let rest = after(rest, ScriptKind::As)?;
    let rest = after_that(rest, ScriptKind::Column, number)?;
    Ok((value, rest))
}

#[tactic(auto, unfolding(crate::specs::Reading::comma_item))]
fn next_item(
    alloc: Global,
    number: u32,
    tokens: &[ScriptToken],
) -> Result<(Select, &[ScriptToken]), ReadError>
    ensures { ReadsAs (λ x. (x.0, x.1.now)) result (comma_item number tokens.now) }
{
    let rest = after(tokens, ScriptKind::Comma)?;
    item(alloc, number, rest)
}

// These items, and those that follow, each after a comma and with the next number.
fn more_items(
    alloc: Global,
    all: Items<Select>,
    tokens: &[ScriptToken],
) -> Result<(Items<Select>, &[ScriptToken]), ReadError>
    ensures { ReadsAs (λ x. (x.0, x.1.now)) result (and_counted comma_item all tokens.now) }
{
    let mut all = all;
    let mut rest = tokens;
    'all: while next_counts(rest, all.len()) {
        let (next, after) = next_item(alloc, all.len() as u32, rest)?;
        all.push(next)?;
        rest = after;
    }
    Ok((all, rest))
}

#[tactic(auto, unfolding(crate::specs::Reading::items_reader))]
fn items(
    alloc: Global,
    tokens: &[ScriptToken],
) -> Result<(Items<Select>, &[ScriptToken]), ReadError>
    ensures { ReadsAs (λ x. (x.0, x.1.now)) result (items_reader greatest_number tokens.now) }
{
    let (first, rest) = item(alloc, 0, tokens)?;
    let mut all = Items::new(alloc);
    all.push(first)?;
    more_items(alloc, all, rest)
}

#[tactic(auto, unfolding(crate::specs::Reading::no_items))]
fn no_item(
    alloc: Global,
    tokens: &[ScriptToken],
) -> Result<(Items<Select>, &[ScriptToken]), ReadError>
    ensures { ReadsAs (λ x. (x.0, x.1.now)) result (no_items tokens.now) }
{
    let rest = after_that(tokens, ScriptKind::Number, 1)?;
    Ok((Items::new(alloc), rest))
}

#[tactic(auto, unfolding(crate::specs::Reading::select_reader))]
fn select(
    alloc: Global,
    tokens: &[ScriptToken],
) -> Result<(Items<Select>, &[ScriptToken]), ReadError>
    ensures { ReadsAs (λ x. (x.0, x.1.now)) result (select_reader greatest_number tokens.now) }
{
    if next_has(tokens, ScriptKind::Number, 1) {
        no_item(alloc, tokens)
    } else {
        items(alloc, tokens)
    }
}

#[tactic(auto, unfolding(crate::specs::Reading::from_source_reader))]
fn source(number: u32, tokens: &[ScriptToken]) -> Result<(Text, &[ScriptToken]), ReadError>
    ensures { ReadsAs (λ x. (x.0, x.1.now)) result (from_source_reader number tokens.now) }
{
    let rest = after(tokens, ScriptKind::Source)?;
    let rest = after(rest, ScriptKind::Dot)?;
    let (table, rest) = any_of(rest, ScriptKind::Name)?;
    let rest = after(rest, ScriptKind::As)?;
    let rest = after_that(rest, ScriptKind::Alias, number)?;
    Ok((table.text.copy()?, rest))
}

#[tactic(auto, unfolding(crate::specs::Reading::comma_source))]
fn next_source(number: u32, tokens: &[ScriptToken]) -> Result<(Text, &[ScriptToken]), ReadError>
    ensures { ReadsAs (λ x. (x.0, x.1.now)) result (comma_source number tokens.now) }
{
    let rest = after(tokens, ScriptKind::Comma)?;
    source(number, rest)
}

// These sources, and those that follow, each after a comma and with the next number.
fn more_sources(
    all: Items<Text>,
    tokens: &[ScriptToken],
) -> Result<(Items<Text>, &[ScriptToken]), ReadError>
    ensures { ReadsAs (λ x. (x.0, x.1.now)) result (and_counted comma_source all tokens.now) }
{
    let mut all = all;
    let mut rest = tokens;
    'all: while next_counts(rest, all.len()) {
        let (next, after) = next_source(all.len() as u32, rest)?;
        all.push(next)?;
        rest = after;
    }
    Ok((all, rest))
}

#[tactic(auto, unfolding(crate::specs::Reading::sources_reader))]
fn sources(
    alloc: Global,
    tokens: &[ScriptToken],
) -> Result<(Items<Text>, &[ScriptToken]), ReadError>
    ensures { ReadsAs (λ x. (x.0, x.1.now)) result (sources_reader greatest_number tokens.now) }
{
    let (first, rest) = source(0, tokens)?;
    let mut all = Items::new(alloc);
    all.push(first)?;
    more_sources(all, rest)
}

#[tactic(auto, unfolding(crate::specs::Reading::equal_reader))]
fn equal(tokens: &[ScriptToken]) -> Result<(Equal, &[ScriptToken]), ReadError>
    ensures { ReadsAs (λ x. (x.0, x.1.now)) result (equal_reader tokens.now) }
{
    let (left, rest) = cell(tokens)?;
    let rest = after(rest, ScriptKind::Equal)?;
    let (right, rest) = cell(rest)?;
    Ok((Equal { left, right }, rest))
}

fn and_equal(tokens: &[ScriptToken]) -> Result<(Equal, &[ScriptToken]), ReadError>
    ensures { ReadsAs (λ x. (x.0, x.1.now)) result (past is_and equal_reader tokens.now) }
{
    let rest = after(tokens, ScriptKind::And)?;
    equal(rest)
}

// These, and those that follow, each after ScriptKind::And.
fn more_equal(
    all: Items<Equal>,
    tokens: &[ScriptToken],
) -> Result<(Items<Equal>, &[ScriptToken]), ReadError>
    ensures { ReadsAs (λ x. (x.0, x.1.now)) result (with_front all (many is_and (past is_and equal_reader) tokens.now)) }
{
    let mut all = all;
    let mut rest = tokens;
    'all: while next_of(rest, ScriptKind::And) {
        let (next, after) = and_equal(rest)?;
        all.push(next)?;
        rest = after;
    }
    Ok((all, rest))
}

#[tactic(auto, unfolding(crate::specs::Reading::equals_reader))]
fn equals(
    alloc: Global,
    tokens: &[ScriptToken],
) -> Result<(Items<Equal>, &[ScriptToken]), ReadError>
    ensures { ReadsAs (λ x. (x.0, x.1.now)) result (equals_reader tokens.now) }
{
    let rest = after(tokens, ScriptKind::Where)?;
    let (first, rest) = equal(rest)?;
    let mut all = Items::new(alloc);
    all.push(first)?;
    more_equal(all, rest)
}

#[tactic(auto, unfolding(crate::specs::Reading::where_clause_reader))]
fn where_part(
    alloc: Global,
    tokens: &[ScriptToken],
) -> Result<(Items<Equal>, &[ScriptToken]), ReadError>
    ensures { ReadsAs (λ x. (x.0, x.1.now)) result (where_clause_reader tokens.now) }
{
    if next_of(tokens, ScriptKind::Where) {
        equals(alloc, tokens)
    } else {
        Ok((Items::new(alloc), tokens))
    }
}

// The sources of a match, and the cells of them that are equal.
#[tactic(auto, unfolding(crate::specs::Reading::matched_reader))]
fn matched(
    alloc: Global,
    tokens: &[ScriptToken],
) -> Result<(Items<Text>, Items<Equal>, &[ScriptToken]), ReadError>
    ensures { (r : ℕ) (select : List Chosen)
        → ReadsAs (λ x. (match_step_of r select x.0 x.1, x.2.now)) result (matched_reader greatest_number r select tokens.now) }
{
    let (sources, rest) = sources(alloc, tokens)?;
    let (equal, rest) = where_part(alloc, rest)?;
    let rest = after(rest, ScriptKind::Semicolon)?;
    Ok((sources, equal, rest))
}

/// What stands after `ScriptKind::Create ScriptKind::Table` if a rule is matched.
#[tactic(auto, unfolding(crate::specs::Reading::match_reader))]
pub(crate) fn match_rows(
    alloc: Global,
    tokens: &[ScriptToken],
) -> Result<(Step, &[ScriptToken]), ReadError>
    ensures { ReadsAs (λ x. (x.0, x.1.now)) result (match_reader greatest_number tokens.now) }
{
    let (table, rest) = any_of(tokens, ScriptKind::Match)?;
    let rest = after(rest, ScriptKind::As)?;
    let rest = after(rest, ScriptKind::Select)?;
    let rest = after(rest, ScriptKind::Distinct)?;
    let (select, rest) = select(alloc, rest)?;
    let rest = after(rest, ScriptKind::From)?;
    let (sources, equal, rest) = matched(alloc, rest)?;
    let step = Step::MatchRows {
        rule: table.number,
        select,
        sources,
        equal,
    };
    Ok((step, rest))
}
