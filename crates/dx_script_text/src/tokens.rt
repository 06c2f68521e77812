// The first tokens of a list.
ghost use Rattle.std.specs.Prelude.{◌≡◌};
ghost use Rattle.dx_grammar.specs.Readers.{token, next_is, LeavesAs, ReadsAs};
ghost use Rattle.dx_grammar.specs.Numbers.{counts_on, has_number, may_be, passes_with_number};
ghost use Rattle.dx_script_text.specs.Grammar.{of_kind, is_comma, is_table, number as number_of};

use dx_grammar::ReadError;
use dx_script_tokens::{ScriptKind, ScriptToken};

/// How many columns or aliases there can be: their numbers go from 0 to the greatest.
const MOST: u64 = 4_294_967_296;

/// Whether the token is of this kind.
pub(crate) fn is_of(token: &ScriptToken, kind: ScriptKind) -> bool
    ensures { result ≡ of_kind kind token.now }
{
    token.kind.is(kind)
}

fn has(token: &ScriptToken, kind: ScriptKind, number: u32) -> bool
    ensures { result ≡ has_number (of_kind kind) number_of number token.now }
{
    is_of(token, kind) && token.number == number
}

/// Whether a token of this kind comes next.
pub(crate) fn next_of(tokens: &[ScriptToken], kind: ScriptKind) -> bool
    ensures { result ≡ next_is (of_kind kind) tokens.now }
{
    match tokens.split_first() {
        Some((first, _)) => is_of(first, kind),
        None => false,
    }
}

/// Whether a token of this kind with this number comes next.
pub(crate) fn next_has(tokens: &[ScriptToken], kind: ScriptKind, number: u32) -> bool
    ensures { result ≡ next_is (has_number (of_kind kind) number_of number) tokens.now }
{
    match tokens.split_first() {
        Some((first, _)) => has(first, kind, number),
        None => false,
    }
}

/// Whether a comma comes next, and one more than so many may stand.
pub(crate) fn next_counts(tokens: &[ScriptToken], count: u64) -> bool
    ensures { result ≡ counts_on is_comma 4294967296 count tokens.now }
{
    next_of(tokens, ScriptKind::Comma) && count < MOST
}

/// A token of this kind, and what is left after it.
pub(crate) fn any_of(
    tokens: &[ScriptToken],
    kind: ScriptKind,
) -> Result<(&ScriptToken, &[ScriptToken]), ReadError>
    ensures { ReadsAs (λ x. (x.0.now, x.1.now)) result (token (of_kind kind) tokens.now) }
{
    match tokens.split_first() {
        Some((first, rest)) if is_of(first, kind) => Ok((first, rest)),
        _ => Err(ReadError::Left(tokens.len())),
    }
}

/// What is left after a token of this kind.
pub(crate) fn after(tokens: &[ScriptToken], kind: ScriptKind) -> Result<&[ScriptToken], ReadError>
    ensures { LeavesAs (λ x. x.now) result (token (of_kind kind) tokens.now) }
{
    match tokens.split_first() {
        Some((first, rest)) if is_of(first, kind) => Ok(rest),
        _ => Err(ReadError::Left(tokens.len())),
    }
}

/// What is left after a token of this kind with this number.
pub(crate) fn after_that(
    tokens: &[ScriptToken],
    kind: ScriptKind,
    number: u32,
) -> Result<&[ScriptToken], ReadError>
    ensures { LeavesAs (λ x. x.now) result (token (has_number (of_kind kind) number_of number) tokens.now) }
{
    match tokens.split_first() {
        Some((first, rest)) if has(first, kind, number) => Ok(rest),
        _ => Err(ReadError::Left(tokens.len())),
    }
}

// Whether the rule may be this one.
fn may(known: Option<u32>, number: u32) -> bool
    ensures { result ≡ may_be 4294967295 known number }
{
    match known {
        None => true,
        Some(rule) => number == rule,
    }
}

fn may_have(token: &ScriptToken, kind: ScriptKind, known: Option<u32>) -> bool
    ensures { result ≡ passes_with_number (of_kind kind) number_of 4294967295 known token.now }
{
    is_of(token, kind) && may(known, token.number)
}

fn may_be_table(token: &ScriptToken, known: Option<u32>) -> bool
    ensures { result ≡ passes_with_number is_table number_of 4294967295 known token.now }
{
    (is_of(token, ScriptKind::Match) || is_of(token, ScriptKind::Keep)) && may(known, token.number)
}

/// A token of this kind with a number that may be the rule's.
pub(crate) fn rule_of(
    tokens: &[ScriptToken],
    kind: ScriptKind,
    known: Option<u32>,
) -> Result<(&ScriptToken, &[ScriptToken]), ReadError>
    ensures { ReadsAs (λ x. (x.0.now, x.1.now)) result (token (passes_with_number (of_kind kind) number_of 4294967295 known) tokens.now) }
{
    match tokens.split_first() {
        Some((first, rest)) if may_have(first, kind, known) => Ok((first, rest)),
        _ => Err(ReadError::Left(tokens.len())),
    }
}

/// A table of matches of a rule that may be this one.
pub(crate) fn table_of(
    tokens: &[ScriptToken],
    known: Option<u32>,
) -> Result<(&ScriptToken, &[ScriptToken]), ReadError>
    ensures { ReadsAs (λ x. (x.0.now, x.1.now)) result (token (passes_with_number is_table number_of 4294967295 known) tokens.now) }
{
    match tokens.split_first() {
        Some((first, rest)) if may_be_table(first, known) => Ok((first, rest)),
        _ => Err(ReadError::Left(tokens.len())),
    }
}
