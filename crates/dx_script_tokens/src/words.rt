// What words say.
ghost use Rattle.std.specs.Prelude.{◌≡◌};
ghost use Rattle.dx_script_tokens.specs.Kinds.{inner_word, letter_kind, numbered_word, same_text, small_word, word_says};

use crate::kinds::ScriptKind;
use crate::numbers::numeral;

fn is(word: &[u8], other: &str) -> bool
    ensures { result ≡ same_text word.now other.now }
{
    word == other.as_bytes()
}

// The kind of words that a letter and a number make.
fn letter(b: u8) -> ScriptKind
    ensures { result ≡ letter_kind b }
{
    match b {
        b'm' => ScriptKind::Match,
        b'k' => ScriptKind::Keep,
        b'a' => ScriptKind::Alias,
        b'c' => ScriptKind::Column,
        _ => ScriptKind::Word,
    }
}

// A letter and a number, or any other word.
#[tactic(auto, unfolding(crate::specs::Kinds::numbered_word))]
fn numbered(word: &[u8]) -> (ScriptKind, u32)
    ensures { result ≡ numbered_word word.now }
{
    let Some((first, rest)) = word.split_first() else {
        return (ScriptKind::Word, 0);
    };
    match numeral(rest) {
        Some(number) => (letter(*first), number),
        None => (ScriptKind::Word, 0),
    }
}

// The words in lower case that stand for themselves.
#[tactic(auto, unfolding(crate::specs::Kinds::small_word))]
fn small(word: &[u8]) -> (ScriptKind, u32)
    ensures { result ≡ small_word word.now }
{
    if is(word, "target") {
        (ScriptKind::Target, 0)
    } else if is(word, "source") {
        (ScriptKind::Source, 0)
    } else if is(word, "place") {
        (ScriptKind::Place, 0)
    } else if is(word, "m") {
        (ScriptKind::Own, 0)
    } else if is(word, "n") {
        (ScriptKind::Other, 0)
    } else {
        numbered(word)
    }
}

// The words that stand between parts of a step.
#[tactic(auto, unfolding(crate::specs::Kinds::inner_word))]
fn inner(word: &[u8]) -> (ScriptKind, u32)
    ensures { result ≡ inner_word word.now }
{
    if is(word, "DISTINCT") {
        (ScriptKind::Distinct, 0)
    } else if is(word, "FROM") {
        (ScriptKind::From, 0)
    } else if is(word, "WHERE") {
        (ScriptKind::Where, 0)
    } else if is(word, "AND") {
        (ScriptKind::And, 0)
    } else if is(word, "NOT") {
        (ScriptKind::Not, 0)
    } else if is(word, "EXISTS") {
        (ScriptKind::Exists, 0)
    } else if is(word, "SKOLEM") {
        (ScriptKind::Skolem, 0)
    } else if is(word, "TEXT") {
        (ScriptKind::Type, 0)
    } else {
        small(word)
    }
}

/// What a word says: its kind, and its number, which is 0 if it has none.
#[tactic(auto, unfolding(crate::specs::Kinds::word_says))]
pub(crate) fn word(word: &[u8]) -> (ScriptKind, u32)
    ensures { result ≡ word_says word.now }
{
    if is(word, "CREATE") {
        (ScriptKind::Create, 0)
    } else if is(word, "TABLE") {
        (ScriptKind::Table, 0)
    } else if is(word, "AS") {
        (ScriptKind::As, 0)
    } else if is(word, "SELECT") {
        (ScriptKind::Select, 0)
    } else if is(word, "INSERT") {
        (ScriptKind::Insert, 0)
    } else if is(word, "INTO") {
        (ScriptKind::Into, 0)
    } else {
        inner(word)
    }
}
