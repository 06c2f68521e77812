// Steps that keep matches of a rule.
ghost use Rattle.dx_grammar.specs.Readers.{many, with_front, ReadsAs};
ghost use Rattle.dx_grammar.specs.Lists.{past, list_reader};
ghost use Rattle.dx_script_tokens.specs.Numbers.{greatest_number};
ghost use Rattle.dx_script_text.specs.Grammar.{is_and};
ghost use Rattle.dx_script_text.specs.Reading.{columns_reader, text_reader, test_reader, tests_reader, optional_tests, unless_reader, keep_tail_reader, keep_reader};

use crate::tokens::{after, after_that, any_of, next_of, rule_of};
use dx_base::Items;
use dx_grammar::ReadError;
use dx_script::{Step, Test, Unless};
use dx_script_tokens::{ScriptKind, ScriptToken};
use std::alloc::Global;

#[tactic(auto, unfolding(crate::specs::Reading::columns_reader))]
fn columns_test(tokens: &[ScriptToken]) -> Result<(Test, &[ScriptToken]), ReadError>
    ensures { ReadsAs (λ x. (x.0, x.1.now)) result (columns_reader tokens.now) }
{
    let rest = after(tokens, ScriptKind::Other)?;
    let rest = after(rest, ScriptKind::Dot)?;
    let (other, rest) = any_of(rest, ScriptKind::Column)?;
    let rest = after(rest, ScriptKind::Equal)?;
    let rest = after(rest, ScriptKind::Own)?;
    let rest = after(rest, ScriptKind::Dot)?;
    let (own, rest) = any_of(rest, ScriptKind::Column)?;
    let test = Test::Columns {
        other: other.number,
        own: own.number,
    };
    Ok((test, rest))
}

#[tactic(auto, unfolding(crate::specs::Reading::text_reader))]
fn text_test(tokens: &[ScriptToken]) -> Result<(Test, &[ScriptToken]), ReadError>
    ensures { ReadsAs (λ x. (x.0, x.1.now)) result (text_reader tokens.now) }
{
    let rest = after(tokens, ScriptKind::Own)?;
    let rest = after(rest, ScriptKind::Dot)?;
    let (own, rest) = any_of(rest, ScriptKind::Column)?;
    let rest = after(rest, ScriptKind::Equal)?;
    let (text, rest) = any_of(rest, ScriptKind::Text)?;
    let test = Test::Literal {
        own: own.number,
        text: text.text.copy()?,
    };
    Ok((test, rest))
}

#[tactic(auto, unfolding(crate::specs::Reading::test_reader))]
fn test(tokens: &[ScriptToken]) -> Result<(Test, &[ScriptToken]), ReadError>
    ensures { ReadsAs (λ x. (x.0, x.1.now)) result (test_reader tokens.now) }
{
    if next_of(tokens, ScriptKind::Other) {
        columns_test(tokens)
    } else {
        text_test(tokens)
    }
}

fn and_test(tokens: &[ScriptToken]) -> Result<(Test, &[ScriptToken]), ReadError>
    ensures { ReadsAs (λ x. (x.0, x.1.now)) result (past is_and test_reader tokens.now) }
{
    let rest = after(tokens, ScriptKind::And)?;
    test(rest)
}

// These tests, and those that follow, each after ScriptKind::And.
fn more_tests(
    all: Items<Test>,
    tokens: &[ScriptToken],
) -> Result<(Items<Test>, &[ScriptToken]), ReadError>
    ensures { ReadsAs (λ x. (x.0, x.1.now)) result (with_front all (many is_and (past is_and test_reader) tokens.now)) }
{
    let mut all = all;
    let mut rest = tokens;
    'all: while next_of(rest, ScriptKind::And) {
        let (next, after) = and_test(rest)?;
        all.push(next)?;
        rest = after;
    }
    Ok((all, rest))
}

#[tactic(auto, unfolding(crate::specs::Reading::tests_reader))]
fn tests(alloc: Global, tokens: &[ScriptToken]) -> Result<(Items<Test>, &[ScriptToken]), ReadError>
    ensures { ReadsAs (λ x. (x.0, x.1.now)) result (tests_reader tokens.now) }
{
    let rest = after(tokens, ScriptKind::Where)?;
    let (first, rest) = test(rest)?;
    let mut all = Items::new(alloc);
    all.push(first)?;
    more_tests(all, rest)
}

#[tactic(auto, unfolding(crate::specs::Reading::optional_tests))]
fn where_tests(
    alloc: Global,
    tokens: &[ScriptToken],
) -> Result<(Items<Test>, &[ScriptToken]), ReadError>
    ensures { ReadsAs (λ x. (x.0, x.1.now)) result (optional_tests tokens.now) }
{
    if next_of(tokens, ScriptKind::Where) {
        tests(alloc, tokens)
    } else {
        Ok((Items::new(alloc), tokens))
    }
}

#[tactic(auto, unfolding(crate::specs::Reading::unless_reader))]
fn unless(alloc: Global, tokens: &[ScriptToken]) -> Result<(Unless, &[ScriptToken]), ReadError>
    ensures { ReadsAs (λ x. (x.0, x.1.now)) result (unless_reader tokens.now) }
{
    let rest = after(tokens, ScriptKind::Not)?;
    let rest = after(rest, ScriptKind::Exists)?;
    let rest = after(rest, ScriptKind::Open)?;
    let rest = after(rest, ScriptKind::Select)?;
    let rest = after(rest, ScriptKind::Star)?;
    let rest = after(rest, ScriptKind::From)?;
    let (table, rest) = any_of(rest, ScriptKind::Match)?;
    let rest = after(rest, ScriptKind::As)?;
    let rest = after(rest, ScriptKind::Other)?;
    let (tests, rest) = where_tests(alloc, rest)?;
    let rest = after(rest, ScriptKind::Close)?;
    let unless = Unless {
        rule: table.number,
        tests,
    };
    Ok((unless, rest))
}

fn and_unless(alloc: Global, tokens: &[ScriptToken]) -> Result<(Unless, &[ScriptToken]), ReadError>
    ensures { ReadsAs (λ x. (x.0, x.1.now)) result (past is_and unless_reader tokens.now) }
{
    let rest = after(tokens, ScriptKind::And)?;
    unless(alloc, rest)
}

// These, and those that follow, each after ScriptKind::And.
fn more_unless(
    alloc: Global,
    all: Items<Unless>,
    tokens: &[ScriptToken],
) -> Result<(Items<Unless>, &[ScriptToken]), ReadError>
    ensures { ReadsAs (λ x. (x.0, x.1.now)) result (with_front all (many is_and (past is_and unless_reader) tokens.now)) }
{
    let mut all = all;
    let mut rest = tokens;
    'all: while next_of(rest, ScriptKind::And) {
        let (next, after) = and_unless(alloc, rest)?;
        all.push(next)?;
        rest = after;
    }
    Ok((all, rest))
}

fn all_unless(
    alloc: Global,
    tokens: &[ScriptToken],
) -> Result<(Items<Unless>, &[ScriptToken]), ReadError>
    ensures { ReadsAs (λ x. (x.0, x.1.now)) result (list_reader is_and unless_reader tokens.now) }
{
    let (first, rest) = unless(alloc, tokens)?;
    let mut all = Items::new(alloc);
    all.push(first)?;
    more_unless(alloc, all, rest)
}

#[tactic(auto, unfolding(crate::specs::Reading::keep_tail_reader))]
fn keep_tail(
    alloc: Global,
    rule: u32,
    tokens: &[ScriptToken],
) -> Result<(Step, &[ScriptToken]), ReadError>
    ensures { ReadsAs (λ x. (x.0, x.1.now)) result (keep_tail_reader rule tokens.now) }
{
    let rest = after(tokens, ScriptKind::As)?;
    let rest = after(rest, ScriptKind::Select)?;
    let rest = after(rest, ScriptKind::Star)?;
    let rest = after(rest, ScriptKind::From)?;
    let rest = after_that(rest, ScriptKind::Match, rule)?;
    let rest = after(rest, ScriptKind::As)?;
    let rest = after(rest, ScriptKind::Own)?;
    let rest = after(rest, ScriptKind::Where)?;
    let (unless, rest) = all_unless(alloc, rest)?;
    let rest = after(rest, ScriptKind::Semicolon)?;
    Ok((Step::KeepRows { rule, unless }, rest))
}

/// What stands after `ScriptKind::Create ScriptKind::Table` if matches are kept.
#[tactic(auto, unfolding(crate::specs::Reading::keep_reader))]
pub(crate) fn keep_rows(
    alloc: Global,
    tokens: &[ScriptToken],
) -> Result<(Step, &[ScriptToken]), ReadError>
    ensures { ReadsAs (λ x. (x.0, x.1.now)) result (keep_reader greatest_number tokens.now) }
{
    let (table, rest) = rule_of(tokens, ScriptKind::Keep, None)?;
    keep_tail(alloc, table.number, rest)
}
