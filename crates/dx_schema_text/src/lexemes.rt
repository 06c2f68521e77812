// The first tokens of a list: words, strings, marks, and names.
ghost use Rattle.std.specs.Prelude.{◌≡◌, codes};
ghost use Rattle.dx_grammar.specs.Readers.{token, next_is, many, with_front, LeavesAs, ReadsAs};
ghost use Rattle.dx_schema_text.specs.Grammar.{is_word, is_string, word_is, digit_is, mark_is};
ghost use Rattle.dx_schema_text.specs.Reading.{comma_word, words_reader};

use dx_base::{Items, Text};
use dx_grammar::ReadError;
use dx_tokens::{Lexeme, TokenKind};
use std::alloc::Global;

fn is_any_word(lexeme: &Lexeme) -> bool
    ensures { result ≡ is_word lexeme.now }
{
    matches!(lexeme.kind, TokenKind::Word)
}

fn is_any_string(lexeme: &Lexeme) -> bool
    ensures { result ≡ is_string lexeme.now }
{
    matches!(lexeme.kind, TokenKind::Str)
}

pub(crate) fn is_keyword(lexeme: &Lexeme, word: &[u8]) -> bool
    ensures { result ≡ word_is word.now lexeme.now }
{
    matches!(lexeme.kind, TokenKind::Word) && lexeme.text.bytes() == word
}

fn is_number(lexeme: &Lexeme, number: &[u8]) -> bool
    ensures { result ≡ digit_is number.now lexeme.now }
{
    matches!(lexeme.kind, TokenKind::Number) && lexeme.text.bytes() == number
}

fn is_mark(lexeme: &Lexeme, mark: &[u8]) -> bool
    ensures { result ≡ mark_is mark.now lexeme.now }
{
    matches!(lexeme.kind, TokenKind::Mark) && lexeme.text.bytes() == mark
}

/// Whether a word comes next.
pub(crate) fn next_is_word(tokens: &[Lexeme]) -> bool
    ensures { result ≡ next_is is_word tokens.now }
{
    match tokens.split_first() {
        Some((first, _)) => is_any_word(first),
        None => false,
    }
}

/// Whether a string comes next.
pub(crate) fn next_is_string(tokens: &[Lexeme]) -> bool
    ensures { result ≡ next_is is_string tokens.now }
{
    match tokens.split_first() {
        Some((first, _)) => is_any_string(first),
        None => false,
    }
}

/// Whether this mark comes next.
pub(crate) fn next_is_mark(tokens: &[Lexeme], mark: &[u8]) -> bool
    ensures { result ≡ next_is (mark_is mark.now) tokens.now }
{
    match tokens.split_first() {
        Some((first, _)) => is_mark(first, mark),
        None => false,
    }
}

/// Whether this number comes next.
pub(crate) fn next_is_number(tokens: &[Lexeme], number: &[u8]) -> bool
    ensures { result ≡ next_is (digit_is number.now) tokens.now }
{
    match tokens.split_first() {
        Some((first, _)) => is_number(first, number),
        None => false,
    }
}

/// Whether this word comes next.
pub fn next_is_keyword(tokens: &[Lexeme], word: &[u8]) -> bool
    ensures { result ≡ next_is (word_is word.now) tokens.now }
{
    match tokens.split_first() {
        Some((first, _)) => is_keyword(first, word),
        None => false,
    }
}

/// A word, and what is left after it.
pub(crate) fn word(tokens: &[Lexeme]) -> Result<(&Lexeme, &[Lexeme]), ReadError>
    ensures { ReadsAs (λ x. (x.0.now, x.1.now)) result (token is_word tokens.now) }
{
    match tokens.split_first() {
        Some((first, rest)) if is_any_word(first) => Ok((first, rest)),
        _ => Err(ReadError::Left(tokens.len())),
    }
}

/// A string, and what is left after it.
pub(crate) fn string(tokens: &[Lexeme]) -> Result<(&Lexeme, &[Lexeme]), ReadError>
    ensures { ReadsAs (λ x. (x.0.now, x.1.now)) result (token is_string tokens.now) }
{
    match tokens.split_first() {
        Some((first, rest)) if is_any_string(first) => Ok((first, rest)),
        _ => Err(ReadError::Left(tokens.len())),
    }
}

/// This word, and what is left after it.
///
/// # Errors
///
/// `Left` with how many tokens are left at the first that can't stand.
pub fn keyword<'a>(
    tokens: &'a [Lexeme],
    word: &[u8],
) -> Result<(&'a Lexeme, &'a [Lexeme]), ReadError>
    ensures { ReadsAs (λ x. (x.0.now, x.1.now)) result (token (word_is word.now) tokens.now) }
{
    match tokens.split_first() {
        Some((first, rest)) if is_keyword(first, word) => Ok((first, rest)),
        _ => Err(ReadError::Left(tokens.len())),
    }
}

/// What is left after this word.
///
/// # Errors
///
/// `Left` with how many tokens are left at the first that can't stand.
pub fn after_keyword<'a>(tokens: &'a [Lexeme], word: &[u8]) -> Result<&'a [Lexeme], ReadError>
    ensures { LeavesAs (λ x. x.now) result (token (word_is word.now) tokens.now) }
{
    match tokens.split_first() {
        Some((first, rest)) if is_keyword(first, word) => Ok(rest),
        _ => Err(ReadError::Left(tokens.len())),
    }
}

/// What is left after this number.
///
/// # Errors
///
/// `Left` with how many tokens are left at the first that can't stand.
pub fn after_number<'a>(tokens: &'a [Lexeme], number: &[u8]) -> Result<&'a [Lexeme], ReadError>
    ensures { LeavesAs (λ x. x.now) result (token (digit_is number.now) tokens.now) }
{
    match tokens.split_first() {
        Some((first, rest)) if is_number(first, number) => Ok(rest),
        _ => Err(ReadError::Left(tokens.len())),
    }
}

/// What is left after this mark.
///
/// # Errors
///
/// `Left` with how many tokens are left at the first that can't stand.
pub fn after_mark<'a>(tokens: &'a [Lexeme], mark: &[u8]) -> Result<&'a [Lexeme], ReadError>
    ensures { LeavesAs (λ x. x.now) result (token (mark_is mark.now) tokens.now) }
{
    match tokens.split_first() {
        Some((first, rest)) if is_mark(first, mark) => Ok(rest),
        _ => Err(ReadError::Left(tokens.len())),
    }
}

#[tactic(auto, unfolding(crate::specs::Reading::comma_word))]
fn comma_name(tokens: &[Lexeme]) -> Result<(Text, &[Lexeme]), ReadError>
    ensures { ReadsAs (λ x. (x.0, x.1.now)) result (comma_word tokens.now) }
{
    let rest = after_mark(tokens, b",")?;
    let (name, rest) = word(rest)?;
    Ok((name.text.copy()?, rest))
}

// These names, and those that follow, each after a comma.
fn more_names(names: Items<Text>, tokens: &[Lexeme]) -> Result<(Items<Text>, &[Lexeme]), ReadError>
    ensures { ReadsAs (λ x. (x.0, x.1.now)) result (with_front names (many (mark_is (codes ",")) comma_word tokens.now)) }
{
    let mut names = names;
    let mut rest = tokens;
    'names: while next_is_mark(rest, b",") {
        let (name, after) = comma_name(rest)?;
        names.push(name)?;
        rest = after;
    }
    Ok((names, rest))
}

/// Names parted by commas, and what is left after them.
#[tactic(auto, unfolding(crate::specs::Reading::words_reader))]
pub(crate) fn names(alloc: Global, tokens: &[Lexeme]) -> Result<(Items<Text>, &[Lexeme]), ReadError>
    ensures { ReadsAs (λ x. (x.0, x.1.now)) result (words_reader tokens.now) }
{
    let (first, rest) = word(tokens)?;
    let mut names = Items::new(alloc);
    names.push(first.text.copy()?)?;
    more_names(names, rest)
}
